// One row of the ledger: a subscription, the range of places it asks for, and what was counted of it.
#![tactic(auto)]

mod places;
mod ranges;
mod rows;

use field::Place;
pub use places::{is_before, is_small};
pub use ranges::{asked, settled};
pub use rows::{arrive, is_row, is_unused, may_end, open, pending, unused};

// The count at which a row stops.
pub const TOP: u64 = 4_294_967_295;

// A range is not known yet, open from a place, or closed at a last group. (The first variant of each enum here is that
// of an unused row.)
#[derive(Clone, Copy, PartialEq, Eq)]
pub enum Range {
    Unknown,
    Open(Place),
    Closed(Place, u64),
}

#[derive(Clone, Copy, PartialEq, Eq)]
pub enum State {
    Pending,
    Active,
}

// `greatest` is the greatest place counted, if any.
#[derive(Clone, Copy, PartialEq, Eq)]
pub struct Row {
    pub id: u64,
    pub alias: u64,
    pub state: State,
    pub range: Range,
    pub greatest: Option<Place>,
    pub count: u64,
}

// Why an arrival at a row is not counted: the row is still pending, or the place is outside its range.
#[derive(Clone, Copy)]
pub enum NotCounted {
    Waiting,
    Outside,
}

// The messages that end a subscription.
#[derive(Clone, Copy)]
pub enum Ending {
    SubscribeError,
    SubscribeDone,
    Unsubscribe,
}
