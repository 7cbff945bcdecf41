// What stands at a place, by what is laid out.
#![tactic(auto, unfolding(types::specs::Table::layout_of, types::specs::Table::type_row_of, types::specs::Table::messages, types::specs::Table::type_row_in, header::specs::Layouts::datagrams, header::specs::Layouts::streams, crate::specs::Places::laid_out, crate::specs::Places::ahead_at))]

ghost use Rattle.std.specs.Prelude.{◌≡◌};
ghost use Rattle.types.specs.Table.{layout_of};
ghost use Rattle.header.specs.Layouts.{layout_of as layout_in, datagrams, streams};
ghost use Rattle.outline.specs.Places.{rest_of, ahead_of, ahead_at};

use crate::{Ahead, Outline, announces, fetches, headers, sessions, subscriptions};
use layout::FieldName;

// The place after fields that handed on the numbers v.
pub fn look_ahead(outline: Outline, v: &[u64]) -> Ahead
    ensures { result ≡ ahead_at outline v.now }
{
    match outline {
        Outline::Message(number) => message(number, v),
        Outline::Datagram(number) => datagram(number, v),
        Outline::Stream(number) => stream(number, v),
        Outline::SubgroupObject => headers::subgroup_object(v),
        Outline::FetchObject => headers::fetch_object(v),
    }
}

fn message(number: u64, v: &[u64]) -> Ahead
    ensures { result ≡ ahead_of (rest_of (layout_of number) v.now) }
{
    match number {
        0x40 => sessions::client_setup(v),
        0x41 => sessions::server_setup(v),
        0x10 => sessions::go_away(v),
        0x15 => subscriptions::id_only(v, FieldName::SubscribeId),
        0x1A => subscriptions::id_only(v, FieldName::MaximumSubscribeId),
        0x3 => subscriptions::subscribe(v),
        0x4 => subscriptions::subscribe_ok(v),
        0x5 => subscriptions::subscribe_error(v),
        0xA => subscriptions::id_only(v, FieldName::SubscribeId),
        0x2 => subscriptions::subscribe_update(v),
        0xB => subscriptions::subscribe_done(v),
        0x16 => fetches::fetch(v),
        0x18 => fetches::fetch_ok(v),
        0x19 => fetches::fetch_error(v),
        0x17 => fetches::fetch_cancel(v),
        0xD => fetches::track_status_request(v),
        0xE => fetches::track_status(v),
        0x6 => announces::with_parameters(v, FieldName::TrackNamespace),
        0x7 => announces::alone(v, FieldName::TrackNamespace),
        0x8 => announces::with_failure(v, FieldName::TrackNamespace),
        0x9 => announces::alone(v, FieldName::TrackNamespace),
        0xC => announces::with_failure(v, FieldName::TrackNamespace),
        0x11 => announces::with_parameters(v, FieldName::TrackNamespacePrefix),
        0x12 => announces::alone(v, FieldName::TrackNamespacePrefix),
        0x13 => announces::with_failure(v, FieldName::TrackNamespacePrefix),
        0x14 => announces::alone(v, FieldName::TrackNamespacePrefix),
        _ => Ahead::Forbidden,
    }
}

fn datagram(number: u64, v: &[u64]) -> Ahead
    ensures { result ≡ ahead_of (rest_of (layout_in (datagrams number)) v.now) }
{
    match number {
        header::OBJECT_DATAGRAM => headers::object_datagram(v),
        header::OBJECT_DATAGRAM_STATUS => headers::datagram_status(v),
        _ => Ahead::Forbidden,
    }
}

fn stream(number: u64, v: &[u64]) -> Ahead
    ensures { result ≡ ahead_of (rest_of (layout_in (streams number)) v.now) }
{
    match number {
        header::SUBGROUP_HEADER => headers::subgroup_header(v),
        header::FETCH_HEADER => headers::fetch_header(v),
        _ => Ahead::Forbidden,
    }
}
