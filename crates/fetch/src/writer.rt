// A message as its fields, in the order of its layout; and whether its values are permitted.
ghost use Rattle.std.specs.Prelude.{◌≡◌};
ghost use Rattle.layout.specs.Allowed.{allowed};
ghost use Rattle.types.specs.Table.{allowed_typed};
ghost use Rattle.measure.specs.Fields.{placed};
ghost use Rattle.types.specs.Fetches.{track_status};
ghost use Rattle.fetch.specs.Told.{joining_type, fetch_pieces, status_pieces, typed_of};

use crate::{Fetch, FetchMessage, Range, TrackStatus};
use field::{Kind, Piece};
use measure::Fields;
use types::{is_track_status, may_hold};

// The number of its type.
pub fn number(m: FetchMessage) -> u64
    ensures { result ≡ (typed_of m).type }
{
    match m {
        FetchMessage::Fetch(_) => 0x16,
        FetchMessage::FetchOk(_) => 0x18,
        FetchMessage::FetchError(_) => 0x19,
        FetchMessage::FetchCancel(_) => 0x17,
        FetchMessage::TrackStatusRequest(_) => 0xD,
        FetchMessage::TrackStatus(_) => 0xE,
    }
}

pub fn fields(m: FetchMessage) -> Fields
    ensures { result ≡ placed (typed_of m) }
{
    let number = number(m);
    match m {
        FetchMessage::Fetch(x) => fetch_fields(number, x),
        FetchMessage::FetchOk(x) => Fields::of(
            number,
            [
                Piece::Number(x.id),
                Piece::Byte(x.order),
                Piece::Byte(x.end_of_track),
                Piece::Number(x.largest.group),
                Piece::Number(x.largest.object),
                Piece::List(Kind::Parameters, x.parameters),
            ],
        ),
        FetchMessage::FetchError(x) => Fields::of(
            number,
            [
                Piece::Number(x.id),
                Piece::Number(x.failure.code),
                Piece::Bytes(x.failure.reason),
            ],
        ),
        FetchMessage::FetchCancel(id) => Fields::of(number, [Piece::Number(id)]),
        FetchMessage::TrackStatusRequest(t) => Fields::of(number, [Piece::Track(t)]),
        FetchMessage::TrackStatus(x) => status_fields(number, x),
    }
}

fn fetch_fields(number: u64, x: Fetch) -> Fields
    ensures { result ≡ placed (record { type = number; pieces = fetch_pieces x }) }
{
    let id = Piece::Number(x.id);
    let priority = Piece::Byte(x.priority);
    let order = Piece::Byte(x.order);
    let last = Piece::List(Kind::Parameters, x.parameters);
    match x.range {
        Range::Standalone(r) => Fields::of(
            number,
            [
                id,
                priority,
                order,
                Piece::Number(1),
                Piece::Track(r.track),
                Piece::Number(r.start.group),
                Piece::Number(r.start.object),
                Piece::Number(r.end.group),
                Piece::Number(r.end.object),
                last,
            ],
        ),
        Range::Joining(j) => {
            let joining = Piece::Number(joining_type(j.absolute));
            let joined = Piece::Number(j.id);
            let start = Piece::Number(j.start);
            Fields::of(number, [id, priority, order, joining, joined, start, last])
        }
    }
}

fn status_fields(number: u64, x: TrackStatus) -> Fields
    ensures { result ≡ placed (record { type = number; pieces = status_pieces x }) }
{
    Fields::of(
        number,
        [
            Piece::Track(x.track),
            Piece::Number(x.status),
            Piece::Number(x.largest.group),
            Piece::Number(x.largest.object),
        ],
    )
}

// The fetch type of a joining fetch.
fn joining_type(absolute: bool) -> u64
    ensures { result ≡ joining_type absolute }
{
    if absolute { 3 } else { 2 }
}

// Whether a message holds no value that its layout forbids.
pub fn is_allowed(m: FetchMessage) -> bool
    ensures { result ≡ allowed_typed (typed_of m) }
{
    match m {
        FetchMessage::Fetch(x) => field::is_askable(x.order),
        FetchMessage::FetchOk(x) => field::is_givable(x.order),
        FetchMessage::FetchError(_) => true,
        FetchMessage::FetchCancel(_) => true,
        FetchMessage::TrackStatusRequest(_) => true,
        FetchMessage::TrackStatus(x) => is_status_allowed(x),
    }
}

// Its status, and then each number of its largest place.
fn is_status_allowed(x: TrackStatus) -> bool
    ensures { result ≡ allowed track_status (status_pieces x) }
{
    is_track_status(x.status)
        && may_hold(x.status, x.largest.group)
        && may_hold(x.status, x.largest.object)
}
