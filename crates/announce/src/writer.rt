// A message as its fields, in the order of its layout.
ghost use Rattle.std.specs.Prelude.{◌≡◌};
ghost use Rattle.measure.specs.Fields.{placed};
ghost use Rattle.types.specs.AnnounceKinds.{number_of};
ghost use Rattle.announce.specs.Told.{typed_of};

use crate::AnnounceMessage;
use field::{Kind, Piece};
use measure::Fields;
use types::kinds::{AnnounceKind, Asking, Naming, Refusing};

// The number of its type.
pub fn number(m: AnnounceMessage) -> u64
    ensures { result ≡ (typed_of m).type }
{
    match m {
        AnnounceMessage::Named(k, _) => number_of(AnnounceKind::Named(k)),
        AnnounceMessage::Asked(k, _) => number_of(AnnounceKind::Asked(k)),
        AnnounceMessage::Refused(k, _) => number_of(AnnounceKind::Refused(k)),
    }
}

pub fn fields(m: AnnounceMessage) -> Fields
    ensures { result ≡ placed (typed_of m) }
{
    let number = number(m);
    match m {
        AnnounceMessage::Named(_, namespace) => {
            Fields::of(number, [Piece::List(Kind::Namespace, namespace)])
        }
        AnnounceMessage::Asked(_, x) => Fields::of(
            number,
            [
                Piece::List(Kind::Namespace, x.namespace),
                Piece::List(Kind::Parameters, x.parameters),
            ],
        ),
        AnnounceMessage::Refused(_, x) => Fields::of(
            number,
            [
                Piece::List(Kind::Namespace, x.namespace),
                Piece::Number(x.failure.code),
                Piece::Bytes(x.failure.reason),
            ],
        ),
    }
}

// The number of a kind.
#[tactic(auto, unfolding(types::specs::AnnounceKinds::type_row))]
fn number_of(kind: AnnounceKind) -> u64
    ensures { result ≡ number_of kind }
{
    match kind {
        AnnounceKind::Named(Naming::AnnounceOk) => 0x7,
        AnnounceKind::Named(Naming::Unannounce) => 0x9,
        AnnounceKind::Named(Naming::SubscribeAnnouncesOk) => 0x12,
        AnnounceKind::Named(Naming::UnsubscribeAnnounces) => 0x14,
        AnnounceKind::Asked(Asking::Announce) => 0x6,
        AnnounceKind::Asked(Asking::SubscribeAnnounces) => 0x11,
        AnnounceKind::Refused(Refusing::AnnounceError) => 0x8,
        AnnounceKind::Refused(Refusing::AnnounceCancel) => 0xC,
        AnnounceKind::Refused(Refusing::SubscribeAnnouncesError) => 0x13,
    }
}
