// What a row is, and what becomes of it.
ghost use Rattle.std.specs.Prelude.{◌≡◌};
ghost use Rattle.row.specs.Rows.{count_agrees, suits, is_row, unused_row, is_unused, pending_row, greater, risen, counted_row, arrive_of, open_of, may_end, told_arriving, told_opening};

use crate::places::{is_before, is_small};
use crate::ranges::{contains, is_known, is_small_range, settled};
use crate::{Ending, NotCounted, Range, Row, State, TOP};
use field::Place;

// ---- what a row is

// A count is 0 exactly when no place is held.
#[tactic(auto, unfolding(crate::specs::Rows::count_agrees))]
fn do_agree(g: Option<Place>, count: u64) -> bool
    ensures { result ≡ count_agrees g count }
{
    match g {
        None => count == 0,
        Some(place) => count != 0 && is_small(place),
    }
}

// A pending row counts nothing; the range of an active row is known.
#[tactic(auto, unfolding(crate::specs::Rows::suits))]
fn does_suit(state: State, range: Range, count: u64) -> bool
    ensures { result ≡ suits state range count }
{
    match state {
        State::Pending => count == 0,
        State::Active => is_known(range),
    }
}

#[tactic(auto, unfolding(crate::specs::Rows::is_row, crate::specs::Places::small))]
pub fn is_row(row: Row) -> bool
    ensures { result ≡ is_row row }
{
    row.id <= integer::GREATEST
        && row.alias <= integer::GREATEST
        && row.count <= TOP
        && is_small_range(row.range)
        && do_agree(row.greatest, row.count)
        && does_suit(row.state, row.range, row.count)
}

pub fn unused() -> Row
    ensures { result ≡ unused_row }
{
    pending(0, 0, Range::Unknown)
}

pub fn is_unused(row: Row) -> bool
    ensures { result ≡ is_unused row }
{
    row == unused()
}

// ---- what becomes of a row

// The row of a SUBSCRIBE.
pub fn pending(id: u64, alias: u64, range: Range) -> Row
    ensures { result ≡ pending_row id alias range }
{
    Row {
        id,
        alias,
        state: State::Pending,
        range,
        greatest: None,
        count: 0,
    }
}

#[tactic(auto, unfolding(crate::specs::Rows::greater))]
fn greater_of(g: Option<Place>, place: Place) -> Place
    ensures { result ≡ greater g place }
{
    match g {
        Some(held) if !is_before(held, place) => held,
        _ => place,
    }
}

#[tactic(auto, unfolding(crate::specs::Rows::risen))]
fn rise(count: u64) -> u64
    ensures { result ≡ risen count }
{
    if count < TOP { count + 1 } else { count }
}

#[tactic(auto, unfolding(crate::specs::Rows::counted_row))]
fn count(row: Row, place: Place) -> Row
    ensures { result ≡ counted_row row place }
{
    Row {
        greatest: Some(greater_of(row.greatest, place)),
        count: rise(row.count),
        ..row
    }
}

// What an arrival at a place comes to.
#[tactic(auto, unfolding(crate::specs::Rows::arrive_of, crate::specs::Rows::is_pending))]
pub fn arrive(row: Row, place: Place) -> Result<Row, NotCounted>
    ensures { told_arriving result row ≡ arrive_of row place }
{
    if row.state == State::Pending {
        return Err(NotCounted::Waiting);
    }
    if !contains(row.range, place) {
        return Err(NotCounted::Outside);
    }
    Ok(count(row, place))
}

// What a SUBSCRIBE_OK comes to: an active row, but where it is active already.
#[tactic(auto, unfolding(crate::specs::Rows::open_of, crate::specs::Rows::is_pending))]
pub fn open(row: Row, largest: Option<Place>) -> Option<Row>
    ensures { told_opening result row ≡ open_of row largest }
{
    match row.state {
        State::Active => None,
        State::Pending => Some(Row {
            state: State::Active,
            range: settled(row.range, largest),
            ..row
        }),
    }
}

// Whether a message that ends a subscription may come in this state.
pub fn may_end(ending: Ending, state: State) -> bool
    ensures { result ≡ may_end ending state }
{
    match ending {
        Ending::SubscribeError => state == State::Pending,
        Ending::SubscribeDone => state == State::Active,
        Ending::Unsubscribe => true,
    }
}
