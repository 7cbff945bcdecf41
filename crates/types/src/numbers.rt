// Type numbers fall into known numbers, gaps between them and numbers beyond the last.
ghost use Rattle.std.specs.Prelude.{◌≡◌};
ghost use Rattle.types.specs.Kinds.{type_of, told_type};

use crate::kinds::{
    AnnounceKind, Asking, FetchKind, Kind, Naming, Refusing, SessionKind, SubscriptionKind,
};

// Which message a number is the type of.
#[tactic(auto, unfolding(crate::specs::Kinds::type_of, crate::specs::Kinds::number_of, crate::specs::SubscriptionKinds::type_row, crate::specs::FetchKinds::type_row, crate::specs::AnnounceKinds::type_row, crate::specs::SessionKinds::type_row, crate::specs::Table::known, crate::specs::Table::type_row_of, crate::specs::Table::messages, crate::specs::Table::type_row_in))]
pub fn type_of(number: u64) -> Option<Kind>
    ensures { told_type result ≡ type_of number }
{
    match number {
        0x0..=0x1 => None,
        0x2 => Some(Kind::Subscription(SubscriptionKind::SubscribeUpdate)),
        0x3 => Some(Kind::Subscription(SubscriptionKind::Subscribe)),
        0x4 => Some(Kind::Subscription(SubscriptionKind::SubscribeOk)),
        0x5 => Some(Kind::Subscription(SubscriptionKind::SubscribeError)),
        0x6 => Some(Kind::Announce(AnnounceKind::Asked(Asking::Announce))),
        0x7 => Some(Kind::Announce(AnnounceKind::Named(Naming::AnnounceOk))),
        0x8 => Some(Kind::Announce(AnnounceKind::Refused(Refusing::AnnounceError))),
        0x9 => Some(Kind::Announce(AnnounceKind::Named(Naming::Unannounce))),
        0xA => Some(Kind::Subscription(SubscriptionKind::Unsubscribe)),
        0xB => Some(Kind::Subscription(SubscriptionKind::SubscribeDone)),
        0xC => Some(Kind::Announce(AnnounceKind::Refused(Refusing::AnnounceCancel))),
        0xD => Some(Kind::Fetch(FetchKind::TrackStatusRequest)),
        0xE => Some(Kind::Fetch(FetchKind::TrackStatus)),
        0xF => None,
        0x10 => Some(Kind::Session(SessionKind::GoAway)),
        0x11 => Some(Kind::Announce(AnnounceKind::Asked(Asking::SubscribeAnnounces))),
        0x12 => Some(Kind::Announce(AnnounceKind::Named(Naming::SubscribeAnnouncesOk))),
        0x13 => Some(Kind::Announce(AnnounceKind::Refused(Refusing::SubscribeAnnouncesError))),
        0x14 => Some(Kind::Announce(AnnounceKind::Named(Naming::UnsubscribeAnnounces))),
        0x15 => Some(Kind::Subscription(SubscriptionKind::MaxSubscribeId)),
        0x16 => Some(Kind::Fetch(FetchKind::Fetch)),
        0x17 => Some(Kind::Fetch(FetchKind::FetchCancel)),
        0x18 => Some(Kind::Fetch(FetchKind::FetchOk)),
        0x19 => Some(Kind::Fetch(FetchKind::FetchError)),
        0x1A => Some(Kind::Subscription(SubscriptionKind::SubscribesBlocked)),
        0x1B..=0x3F => None,
        0x40 => Some(Kind::Session(SessionKind::ClientSetup)),
        0x41 => Some(Kind::Session(SessionKind::ServerSetup)),
        _ => None,
    }
}
