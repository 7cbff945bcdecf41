// The layouts of FETCH, FETCH_OK, FETCH_ERROR, FETCH_CANCEL, TRACK_STATUS_REQUEST and TRACK_STATUS.
#![tactic(auto, unfolding(crate::specs::Places::listed, layout::specs::Layout::failure, layout::specs::Layout::parameters, layout::specs::Layout::place, types::specs::Fetches::fetch_cancel, types::specs::Fetches::fetch_error, types::specs::Fetches::joining, types::specs::Fetches::standalone, types::specs::Fetches::track_status_request))]

ghost use Rattle.std.specs.Prelude.{◌≡◌};
ghost use Rattle.field.specs.Fields.{byte};
ghost use Rattle.layout.specs.Layout.{field, largest_place};
ghost use Rattle.layout.specs.declared.FieldName.TheVariants.{EndOfTrack};
ghost use Rattle.types.specs.Fetches.{standalone, joining, range, fetch, fetch_ok, fetch_error, fetch_cancel, track_status_request, largest, track_status};
ghost use Rattle.outline.specs.Places.{rest_of, ahead_of};

use crate::shared::{PARAMETERS, listed};
use crate::{Ahead, Form};
use layout::FieldName;

pub fn fetch(v: &[u64]) -> Ahead
    ensures { result ≡ ahead_of (rest_of fetch v.now) }
{
    match v {
        [] => Ahead::Field(FieldName::SubscribeId, Form::Integer),
        [_] => Ahead::Field(FieldName::SubscriberPriority, Form::Byte),
        [_, _] => Ahead::Field(FieldName::GroupOrder, Form::Byte),
        [_, _, 0..=2, rest @ ..] => range(rest),
        _ => Ahead::Forbidden,
    }
}

// The type, and what it says is fetched.
fn range(v: &[u64]) -> Ahead
    ensures { result ≡ ahead_of (rest_of range v.now) }
{
    match v {
        [] => Ahead::Field(FieldName::FetchType, Form::Integer),
        [1, rest @ ..] => standalone(rest),
        [2..=3, rest @ ..] => joining(rest),
        _ => Ahead::Forbidden,
    }
}

fn standalone(v: &[u64]) -> Ahead
    ensures { result ≡ ahead_of (rest_of standalone v.now) }
{
    listed(
        &[
            (FieldName::FullTrackName, Form::Track),
            (FieldName::StartGroup, Form::Integer),
            (FieldName::StartObject, Form::Integer),
            (FieldName::EndGroup, Form::Integer),
            (FieldName::EndObject, Form::Integer),
            PARAMETERS,
        ],
        v,
    )
}

fn joining(v: &[u64]) -> Ahead
    ensures { result ≡ ahead_of (rest_of joining v.now) }
{
    listed(
        &[
            (FieldName::JoiningSubscribeId, Form::Integer),
            (FieldName::JoiningStart, Form::Integer),
            PARAMETERS,
        ],
        v,
    )
}

pub fn fetch_ok(v: &[u64]) -> Ahead
    ensures { result ≡ ahead_of (rest_of fetch_ok v.now) }
{
    match v {
        [] => Ahead::Field(FieldName::SubscribeId, Form::Integer),
        [_] => Ahead::Field(FieldName::GroupOrder, Form::Byte),
        [_, 1..=2, rest @ ..] => fetched(rest),
        _ => Ahead::Forbidden,
    }
}

// Whether it is the end of the track, and where its content ends.
fn fetched(v: &[u64]) -> Ahead
    ensures { result ≡ ahead_of (rest_of (field EndOfTrack byte λ end_of_track. largest_place) v.now) }
{
    listed(
        &[
            (FieldName::EndOfTrack, Form::Byte),
            (FieldName::LargestGroupId, Form::Integer),
            (FieldName::LargestObjectId, Form::Integer),
            PARAMETERS,
        ],
        v,
    )
}

pub fn fetch_error(v: &[u64]) -> Ahead
    ensures { result ≡ ahead_of (rest_of fetch_error v.now) }
{
    listed(
        &[
            (FieldName::SubscribeId, Form::Integer),
            (FieldName::ErrorCode, Form::Integer),
            (FieldName::ReasonPhrase, Form::Bytes),
        ],
        v,
    )
}

pub fn fetch_cancel(v: &[u64]) -> Ahead
    ensures { result ≡ ahead_of (rest_of fetch_cancel v.now) }
{
    listed(&[(FieldName::SubscribeId, Form::Integer)], v)
}

pub fn track_status_request(v: &[u64]) -> Ahead
    ensures { result ≡ ahead_of (rest_of track_status_request v.now) }
{
    listed(&[(FieldName::FullTrackName, Form::Track)], v)
}

pub fn track_status(v: &[u64]) -> Ahead
    ensures { result ≡ ahead_of (rest_of track_status v.now) }
{
    match v {
        [] => Ahead::Field(FieldName::FullTrackName, Form::Track),
        [_] => Ahead::Field(FieldName::StatusCode, Form::Integer),
        [_, status, rest @ ..] if types::is_track_status(*status) => largest(*status, rest),
        _ => Ahead::Forbidden,
    }
}

// Where a track's content ends, after a status.
fn largest(status: u64, v: &[u64]) -> Ahead
    ensures { result ≡ ahead_of (rest_of (largest status) v.now) }
{
    match v {
        [] => Ahead::Field(FieldName::LargestGroupId, Form::Integer),
        [group, ..] if !types::may_hold(status, *group) => Ahead::Forbidden,
        [_] => Ahead::Field(FieldName::LargestObjectId, Form::Integer),
        [_, object, ..] if !types::may_hold(status, *object) => Ahead::Forbidden,
        _ => Ahead::Done,
    }
}
