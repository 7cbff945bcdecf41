// The layouts of SUBSCRIBE_UPDATE, SUBSCRIBE, SUBSCRIBE_OK, SUBSCRIBE_ERROR and SUBSCRIBE_DONE, and that of an ID
// alone.
#![tactic(auto, unfolding(crate::specs::Places::listed, layout::specs::Layout::failure, layout::specs::Layout::parameters, layout::specs::Layout::place, types::specs::Subscriptions::id_only, types::specs::Subscriptions::subscribe_done, types::specs::Subscriptions::subscribe_error, types::specs::Subscriptions::subscribe_update))]

ghost use Rattle.std.specs.Prelude.{◌≡◌};
ghost use Rattle.types.specs.Subscriptions.{subscribe_update, open_range, closed_range, filter, delivery, subscribe, content, subscribe_ok, subscribe_error, subscribe_done, id_only};
ghost use Rattle.outline.specs.Places.{rest_of, ahead_of};

use crate::shared::{PARAMETERS, largest_place, listed, parameters};
use crate::{Ahead, Form};
use layout::FieldName;

pub fn subscribe_update(v: &[u64]) -> Ahead
    ensures { result ≡ ahead_of (rest_of subscribe_update v.now) }
{
    listed(
        &[
            (FieldName::SubscribeId, Form::Integer),
            (FieldName::StartGroup, Form::Integer),
            (FieldName::StartObject, Form::Integer),
            (FieldName::EndGroup, Form::Integer),
            (FieldName::SubscriberPriority, Form::Byte),
            PARAMETERS,
        ],
        v,
    )
}

pub fn subscribe(v: &[u64]) -> Ahead
    ensures { result ≡ ahead_of (rest_of subscribe v.now) }
{
    match v {
        [] => Ahead::Field(FieldName::SubscribeId, Form::Integer),
        [_] => Ahead::Field(FieldName::TrackAlias, Form::Integer),
        [_, _] => Ahead::Field(FieldName::FullTrackName, Form::Track),
        [_, _, _, rest @ ..] => delivery(rest),
    }
}

fn delivery(v: &[u64]) -> Ahead
    ensures { result ≡ ahead_of (rest_of delivery v.now) }
{
    match v {
        [] => Ahead::Field(FieldName::SubscriberPriority, Form::Byte),
        [_] => Ahead::Field(FieldName::GroupOrder, Form::Byte),
        [_, 0..=2, rest @ ..] => filter(rest),
        _ => Ahead::Forbidden,
    }
}

// The filter, and what it asks for.
fn filter(v: &[u64]) -> Ahead
    ensures { result ≡ ahead_of (rest_of filter v.now) }
{
    match v {
        [] => Ahead::Field(FieldName::FilterType, Form::Integer),
        [2, rest @ ..] => parameters(rest),
        [3, rest @ ..] => open_range(rest),
        [4, rest @ ..] => closed_range(rest),
        _ => Ahead::Forbidden,
    }
}

fn open_range(v: &[u64]) -> Ahead
    ensures { result ≡ ahead_of (rest_of open_range v.now) }
{
    listed(
        &[
            (FieldName::StartGroup, Form::Integer),
            (FieldName::StartObject, Form::Integer),
            PARAMETERS,
        ],
        v,
    )
}

fn closed_range(v: &[u64]) -> Ahead
    ensures { result ≡ ahead_of (rest_of closed_range v.now) }
{
    match v {
        [] => Ahead::Field(FieldName::StartGroup, Form::Integer),
        [_] => Ahead::Field(FieldName::StartObject, Form::Integer),
        [_, _] => Ahead::Field(FieldName::EndGroup, Form::Integer),
        [start, _, end, rest @ ..] if types::ends_after(*start, *end) => parameters(rest),
        _ => Ahead::Forbidden,
    }
}

pub fn subscribe_ok(v: &[u64]) -> Ahead
    ensures { result ≡ ahead_of (rest_of subscribe_ok v.now) }
{
    match v {
        [] => Ahead::Field(FieldName::SubscribeId, Form::Integer),
        [_] => Ahead::Field(FieldName::Expires, Form::Integer),
        [_, _] => Ahead::Field(FieldName::GroupOrder, Form::Byte),
        [_, _, 1..=2, rest @ ..] => content(rest),
        _ => Ahead::Forbidden,
    }
}

// Whether there is content, and where it ends.
fn content(v: &[u64]) -> Ahead
    ensures { result ≡ ahead_of (rest_of content v.now) }
{
    match v {
        [] => Ahead::Field(FieldName::ContentExists, Form::Byte),
        [0, rest @ ..] => parameters(rest),
        [1, rest @ ..] => largest_place(rest),
        _ => Ahead::Forbidden,
    }
}

pub fn subscribe_error(v: &[u64]) -> Ahead
    ensures { result ≡ ahead_of (rest_of subscribe_error v.now) }
{
    listed(
        &[
            (FieldName::SubscribeId, Form::Integer),
            (FieldName::ErrorCode, Form::Integer),
            (FieldName::ReasonPhrase, Form::Bytes),
            (FieldName::TrackAlias, Form::Integer),
        ],
        v,
    )
}

pub fn subscribe_done(v: &[u64]) -> Ahead
    ensures { result ≡ ahead_of (rest_of subscribe_done v.now) }
{
    listed(
        &[
            (FieldName::SubscribeId, Form::Integer),
            (FieldName::StatusCode, Form::Integer),
            (FieldName::StreamCount, Form::Integer),
            (FieldName::ReasonPhrase, Form::Bytes),
        ],
        v,
    )
}

// An ID alone.
pub fn id_only(v: &[u64], name: FieldName) -> Ahead
    ensures { result ≡ ahead_of (rest_of (id_only name) v.now) }
{
    listed(&[(name, Form::Integer)], v)
}
