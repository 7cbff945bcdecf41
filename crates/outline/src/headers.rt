// The layouts of data headers, after their type where they have one.
#![tactic(auto, unfolding(crate::specs::Places::listed, header::specs::Layouts::behind, header::specs::Layouts::fetch_header, header::specs::Layouts::object_datagram, header::specs::Layouts::subgroup_header, layout::specs::Layout::place))]

ghost use Rattle.std.specs.Prelude.{◌≡◌};
ghost use Rattle.header.specs.Layouts.{object_datagram, datagram_status, subgroup_header, fetch_header, status, payload, subgroup_object, fetch_object};
ghost use Rattle.outline.specs.Places.{rest_of, ahead_of};

use crate::shared::listed;
use crate::{Ahead, Form};
use layout::FieldName;

pub fn object_datagram(v: &[u64]) -> Ahead
    ensures { result ≡ ahead_of (rest_of object_datagram v.now) }
{
    listed(
        &[
            (FieldName::TrackAlias, Form::Integer),
            (FieldName::GroupId, Form::Integer),
            (FieldName::ObjectId, Form::Integer),
            (FieldName::PublisherPriority, Form::Byte),
            (FieldName::ExtensionHeaders, Form::Bytes),
        ],
        v,
    )
}

// The fields of an object in a datagram, and behind them the status.
pub fn datagram_status(v: &[u64]) -> Ahead
    ensures { result ≡ ahead_of (rest_of datagram_status v.now) }
{
    match v {
        [_, _, _, _, _, rest @ ..] => status(rest),
        _ => object_datagram(v),
    }
}

pub fn subgroup_header(v: &[u64]) -> Ahead
    ensures { result ≡ ahead_of (rest_of subgroup_header v.now) }
{
    listed(
        &[
            (FieldName::TrackAlias, Form::Integer),
            (FieldName::GroupId, Form::Integer),
            (FieldName::SubgroupId, Form::Integer),
            (FieldName::PublisherPriority, Form::Byte),
        ],
        v,
    )
}

pub fn fetch_header(v: &[u64]) -> Ahead
    ensures { result ≡ ahead_of (rest_of fetch_header v.now) }
{
    listed(&[(FieldName::SubscribeId, Form::Integer)], v)
}

// Why an object has no payload.
fn status(v: &[u64]) -> Ahead
    ensures { result ≡ ahead_of (rest_of status v.now) }
{
    match v {
        [] => Ahead::Field(FieldName::ObjectStatus, Form::Integer),
        [status, ..] if header::is_status(*status) => Ahead::Done,
        _ => Ahead::Forbidden,
    }
}

// The length of the payload, and where it is 0 the status.
fn payload(v: &[u64]) -> Ahead
    ensures { result ≡ ahead_of (rest_of payload v.now) }
{
    match v {
        [] => Ahead::Field(FieldName::ObjectPayloadLength, Form::Integer),
        [0, rest @ ..] => status(rest),
        _ => Ahead::Done,
    }
}

pub fn subgroup_object(v: &[u64]) -> Ahead
    ensures { result ≡ ahead_of (rest_of subgroup_object v.now) }
{
    match v {
        [] => Ahead::Field(FieldName::ObjectId, Form::Integer),
        [_] => Ahead::Field(FieldName::ExtensionHeaders, Form::Bytes),
        [_, _, rest @ ..] => payload(rest),
    }
}

pub fn fetch_object(v: &[u64]) -> Ahead
    ensures { result ≡ ahead_of (rest_of fetch_object v.now) }
{
    match v {
        [] => Ahead::Field(FieldName::GroupId, Form::Integer),
        [_] => Ahead::Field(FieldName::SubgroupId, Form::Integer),
        [_, _] => Ahead::Field(FieldName::ObjectId, Form::Integer),
        [_, _, _] => Ahead::Field(FieldName::PublisherPriority, Form::Byte),
        [_, _, _, _] => Ahead::Field(FieldName::ExtensionHeaders, Form::Bytes),
        [_, _, _, _, _, rest @ ..] => payload(rest),
    }
}
