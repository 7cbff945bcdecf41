// Each body is read field by field, left to right; the first fault decides.
ghost use Rattle.std.specs.Prelude.{◌≡◌, [], ◌∷◌};
ghost use Rattle.field.specs.declared.Piece.TheVariants.{Number};
ghost use Rattle.layout.specs.Layout.{scan};
ghost use Rattle.layout.specs.Typed.{before_parameters, led, typed};
ghost use Rattle.types.specs.Fetches.{fetch, range, joining, fetch_ok, fetch_error, track_status};
ghost use Rattle.types.specs.Table.{fetch_row, fetch_ok_row, fetch_error_row, track_status_row};
ghost use Rattle.types.specs.FetchKinds.{number_of, layout_of};
ghost use Rattle.fetch.specs.Told.{joining_type, range_pieces, told};

use crate::{Fetch, FetchError, FetchMessage, FetchOk, Joining, Range, Standalone, TrackStatus};
use field::{Fault, Kind, Place};
use types::kinds::FetchKind;
use types::{is_track_status, may_hold};

// The body of a message of this family, from an offset on.
pub fn read(kind: FetchKind, s: &[u8], at: usize) -> Result<(FetchMessage, usize), Fault>
    ensures { told result ≡ typed (number_of kind) (scan (layout_of kind) s.now at) }
{
    match kind {
        FetchKind::Fetch => read_fetch(s, at),
        FetchKind::FetchOk => read_ok(s, at),
        FetchKind::FetchError => read_error(s, at),
        FetchKind::FetchCancel => {
            let (id, end) = field::read_number(s, at)?;
            Ok((FetchMessage::FetchCancel(id), end))
        }
        FetchKind::TrackStatusRequest => {
            let track = field::read_track(s, at)?;
            Ok((FetchMessage::TrackStatusRequest(track), track.name.end))
        }
        FetchKind::TrackStatus => read_status(s, at),
    }
}

// FETCH.
fn read_fetch(s: &[u8], at: usize) -> Result<(FetchMessage, usize), Fault>
    ensures { told result ≡ typed fetch_row.number (scan fetch s.now at) }
{
    let (id, a) = field::read_number(s, at)?;
    let (priority, b) = field::read_byte(s, a)?;
    let (order, c) = field::read_byte(s, b)?;
    if !field::is_askable(order) {
        return Err(Fault::Forbidden);
    }
    let (range, d) = read_range(s, c)?;
    let parameters = field::read_list(s, Kind::Parameters, d)?;
    let m = Fetch {
        id,
        priority,
        order,
        range,
        parameters,
    };
    Ok((FetchMessage::Fetch(m), parameters.end))
}

// The fetch type, and what it says is fetched.
fn read_range(s: &[u8], at: usize) -> Result<(Range, usize), Fault>
    ensures { before_parameters range_pieces s.now result ≡ scan range s.now at }
{
    let (kind, a) = field::read_number(s, at)?;
    match kind {
        1 => {
            let track = field::read_track(s, a)?;
            let (start, b) = field::read_place(s, track.name.end)?;
            let (end, c) = field::read_place(s, b)?;
            Ok((Range::Standalone(Standalone { track, start, end }), c))
        }
        2 => read_joining(s, a, false),
        3 => read_joining(s, a, true),
        _ => Err(Fault::Forbidden),
    }
}

// What joins a subscription.
fn read_joining(s: &[u8], at: usize, absolute: bool) -> Result<(Range, usize), Fault>
    ensures { before_parameters range_pieces s.now result ≡
        led (Number (joining_type absolute) ∷ []) (scan joining s.now at) }
{
    let (id, a) = field::read_number(s, at)?;
    let (start, b) = field::read_number(s, a)?;
    let j = Joining {
        absolute,
        id,
        start,
    };
    Ok((Range::Joining(j), b))
}

// FETCH_OK.
fn read_ok(s: &[u8], at: usize) -> Result<(FetchMessage, usize), Fault>
    ensures { told result ≡ typed fetch_ok_row.number (scan fetch_ok s.now at) }
{
    let (id, a) = field::read_number(s, at)?;
    let (order, b) = field::read_byte(s, a)?;
    if !field::is_givable(order) {
        return Err(Fault::Forbidden);
    }
    let (end_of_track, c) = field::read_byte(s, b)?;
    let (largest, d) = field::read_place(s, c)?;
    let parameters = field::read_list(s, Kind::Parameters, d)?;
    let m = FetchOk {
        id,
        order,
        end_of_track,
        largest,
        parameters,
    };
    Ok((FetchMessage::FetchOk(m), parameters.end))
}

// FETCH_ERROR.
fn read_error(s: &[u8], at: usize) -> Result<(FetchMessage, usize), Fault>
    ensures { told result ≡ typed fetch_error_row.number (scan fetch_error s.now at) }
{
    let (id, a) = field::read_number(s, at)?;
    let failure = field::read_failure(s, a)?;
    Ok((
        FetchMessage::FetchError(FetchError { id, failure }),
        failure.reason.end,
    ))
}

// TRACK_STATUS: the largest group and object are each judged as they are read.
fn read_status(s: &[u8], at: usize) -> Result<(FetchMessage, usize), Fault>
    ensures { told result ≡ typed track_status_row.number (scan track_status s.now at) }
{
    let track = field::read_track(s, at)?;
    let (status, a) = field::read_number(s, track.name.end)?;
    if !is_track_status(status) {
        return Err(Fault::Forbidden);
    }
    let (group, b) = field::read_number(s, a)?;
    if !may_hold(status, group) {
        return Err(Fault::Forbidden);
    }
    let (object, end) = field::read_number(s, b)?;
    if !may_hold(status, object) {
        return Err(Fault::Forbidden);
    }
    let m = TrackStatus {
        track,
        status,
        largest: Place { group, object },
    };
    Ok((FetchMessage::TrackStatus(m), end))
}
