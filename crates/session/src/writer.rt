// A message as its fields, in the order of its layout.
ghost use Rattle.std.specs.Prelude.{◌≡◌};
ghost use Rattle.measure.specs.Fields.{placed};
ghost use Rattle.session.specs.Told.{typed_of};

use crate::SessionMessage;
use field::{Kind, Piece};
use measure::Fields;

// The number of its type.
pub fn number(m: SessionMessage) -> u64
    ensures { result ≡ (typed_of m).type }
{
    match m {
        SessionMessage::ClientSetup(_) => 0x40,
        SessionMessage::ServerSetup(_) => 0x41,
        SessionMessage::GoAway(_) => 0x10,
    }
}

pub fn fields(m: SessionMessage) -> Fields
    ensures { result ≡ placed (typed_of m) }
{
    let number = number(m);
    match m {
        SessionMessage::ClientSetup(x) => Fields::of(
            number,
            [
                Piece::List(Kind::Versions, x.versions),
                Piece::List(Kind::Parameters, x.parameters),
            ],
        ),
        SessionMessage::ServerSetup(x) => Fields::of(
            number,
            [
                Piece::Number(x.version),
                Piece::List(Kind::Parameters, x.parameters),
            ],
        ),
        SessionMessage::GoAway(uri) => Fields::of(number, [Piece::Bytes(uri)]),
    }
}
