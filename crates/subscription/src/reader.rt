// Each body is read field by field, left to right; the first fault decides.
ghost use Rattle.std.specs.Prelude.{◌≡◌};
ghost use Rattle.layout.specs.Layout.{scan};
ghost use Rattle.layout.specs.Typed.{before_parameters, typed};
ghost use Rattle.types.specs.Subscriptions.{subscribe, filter, subscribe_ok, content, subscribe_error, subscribe_update, subscribe_done};
ghost use Rattle.types.specs.Table.{subscribe_row, subscribe_ok_row, subscribe_error_row, subscribe_update_row, subscribe_done_row};
ghost use Rattle.types.specs.SubscriptionKinds.{number_of, layout_of};
ghost use Rattle.subscription.specs.Told.{filter_pieces, content_pieces, told};

use crate::{
    Filter, Subscribe, SubscribeDone, SubscribeError, SubscribeOk, SubscribeUpdate,
    SubscriptionMessage as Message,
};
use field::{Fault, Kind, Place};
use types::ends_after;
use types::kinds::SubscriptionKind;

// The body of a message of this family, from an offset on.
pub fn read(kind: SubscriptionKind, s: &[u8], at: usize) -> Result<(Message, usize), Fault>
    ensures { told result ≡ typed (number_of kind) (scan (layout_of kind) s.now at) }
{
    match kind {
        SubscriptionKind::SubscribeUpdate => read_update(s, at),
        SubscriptionKind::Subscribe => read_subscribe(s, at),
        SubscriptionKind::SubscribeOk => read_ok(s, at),
        SubscriptionKind::SubscribeError => read_error(s, at),
        SubscriptionKind::Unsubscribe => {
            let (id, end) = field::read_number(s, at)?;
            Ok((Message::Unsubscribe(id), end))
        }
        SubscriptionKind::SubscribeDone => read_done(s, at),
        SubscriptionKind::MaxSubscribeId => {
            let (maximum, end) = field::read_number(s, at)?;
            Ok((Message::MaxSubscribeId(maximum), end))
        }
        SubscriptionKind::SubscribesBlocked => {
            let (maximum, end) = field::read_number(s, at)?;
            Ok((Message::SubscribesBlocked(maximum), end))
        }
    }
}

// SUBSCRIBE_UPDATE.
fn read_update(s: &[u8], at: usize) -> Result<(Message, usize), Fault>
    ensures { told result ≡ typed subscribe_update_row.number (scan subscribe_update s.now at) }
{
    let (id, a) = field::read_number(s, at)?;
    let (start, b) = field::read_place(s, a)?;
    let (end_group, c) = field::read_number(s, b)?;
    let (priority, d) = field::read_byte(s, c)?;
    let parameters = field::read_list(s, Kind::Parameters, d)?;
    let m = SubscribeUpdate {
        id,
        start,
        end_group,
        priority,
        parameters,
    };
    Ok((Message::SubscribeUpdate(m), parameters.end))
}

// SUBSCRIBE.
fn read_subscribe(s: &[u8], at: usize) -> Result<(Message, usize), Fault>
    ensures { told result ≡ typed subscribe_row.number (scan subscribe s.now at) }
{
    let (id, a) = field::read_number(s, at)?;
    let (alias, b) = field::read_number(s, a)?;
    let track = field::read_track(s, b)?;
    let (priority, c) = field::read_byte(s, track.name.end)?;
    let (order, d) = field::read_byte(s, c)?;
    if !field::is_askable(order) {
        return Err(Fault::Forbidden);
    }
    let (filter, e) = read_filter(s, d)?;
    let parameters = field::read_list(s, Kind::Parameters, e)?;
    let m = Subscribe {
        id,
        alias,
        track,
        priority,
        order,
        filter,
        parameters,
    };
    Ok((Message::Subscribe(m), parameters.end))
}

// The filter type, and what it says is asked for. An end group is judged by the start.
fn read_filter(s: &[u8], at: usize) -> Result<(Filter, usize), Fault>
    ensures { before_parameters filter_pieces s.now result ≡ scan filter s.now at }
{
    let (kind, a) = field::read_number(s, at)?;
    match kind {
        2 => Ok((Filter::Latest, a)),
        3 => {
            let (start, b) = field::read_place(s, a)?;
            Ok((Filter::From(start), b))
        }
        4 => {
            let (start, b) = field::read_place(s, a)?;
            let (end_group, c) = field::read_number(s, b)?;
            if !ends_after(start.group, end_group) {
                return Err(Fault::Forbidden);
            }
            Ok((Filter::Range(start, end_group), c))
        }
        _ => Err(Fault::Forbidden),
    }
}

// SUBSCRIBE_OK.
fn read_ok(s: &[u8], at: usize) -> Result<(Message, usize), Fault>
    ensures { told result ≡ typed subscribe_ok_row.number (scan subscribe_ok s.now at) }
{
    let (id, a) = field::read_number(s, at)?;
    let (expires, b) = field::read_number(s, a)?;
    let (order, c) = field::read_byte(s, b)?;
    if !field::is_givable(order) {
        return Err(Fault::Forbidden);
    }
    let (largest, d) = read_content(s, c)?;
    let parameters = field::read_list(s, Kind::Parameters, d)?;
    let m = SubscribeOk {
        id,
        expires,
        order,
        largest,
        parameters,
    };
    Ok((Message::SubscribeOk(m), parameters.end))
}

// Whether content exists, and then the largest place.
fn read_content(s: &[u8], at: usize) -> Result<(Option<Place>, usize), Fault>
    ensures { before_parameters content_pieces s.now result ≡ scan content s.now at }
{
    let (exists, a) = field::read_byte(s, at)?;
    match exists {
        0 => Ok((None, a)),
        1 => {
            let (largest, b) = field::read_place(s, a)?;
            Ok((Some(largest), b))
        }
        _ => Err(Fault::Forbidden),
    }
}

// SUBSCRIBE_ERROR.
fn read_error(s: &[u8], at: usize) -> Result<(Message, usize), Fault>
    ensures { told result ≡ typed subscribe_error_row.number (scan subscribe_error s.now at) }
{
    let (id, a) = field::read_number(s, at)?;
    let failure = field::read_failure(s, a)?;
    let (alias, end) = field::read_number(s, failure.reason.end)?;
    Ok((
        Message::SubscribeError(SubscribeError { id, failure, alias }),
        end,
    ))
}

// SUBSCRIBE_DONE.
fn read_done(s: &[u8], at: usize) -> Result<(Message, usize), Fault>
    ensures { told result ≡ typed subscribe_done_row.number (scan subscribe_done s.now at) }
{
    let (id, a) = field::read_number(s, at)?;
    let (status, b) = field::read_number(s, a)?;
    let (streams, c) = field::read_number(s, b)?;
    let reason = field::read_bytes(s, c)?;
    let m = SubscribeDone {
        id,
        status,
        streams,
        reason,
    };
    Ok((Message::SubscribeDone(m), reason.end))
}
