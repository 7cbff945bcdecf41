// The messages of subscriptions: SUBSCRIBE and the answers to it, and how many there may be.
#![tactic(auto)]

mod name;
mod reader;
mod writer;

use field::{Entries, Failure, Place, Span, Track};
pub use name::name_of;
pub use reader::read;
pub use writer::{fields, is_allowed, number};

// The end group is kept as it is sent: plus 1, and 0 for none.
#[derive(Clone, Copy)]
pub struct SubscribeUpdate {
    pub id: u64,
    pub start: Place,
    pub end_group: u64,
    pub priority: u8,
    pub parameters: Entries,
}

// Which objects are asked for: from the latest on; from a place on; from a place to the end of a group.
#[derive(Clone, Copy)]
pub enum Filter {
    Latest,
    From(Place),
    Range(Place, u64),
}

#[derive(Clone, Copy)]
pub struct Subscribe {
    pub id: u64,
    pub alias: u64,
    pub track: Track,
    pub priority: u8,
    pub order: u8,
    pub filter: Filter,
    pub parameters: Entries,
}

// `largest` is the largest place, where content exists.
#[derive(Clone, Copy)]
pub struct SubscribeOk {
    pub id: u64,
    pub expires: u64,
    pub order: u8,
    pub largest: Option<Place>,
    pub parameters: Entries,
}

#[derive(Clone, Copy)]
pub struct SubscribeError {
    pub id: u64,
    pub failure: Failure,
    pub alias: u64,
}

#[derive(Clone, Copy)]
pub struct SubscribeDone {
    pub id: u64,
    pub status: u64,
    pub streams: u64,
    pub reason: Span,
}

// Where only an ID is named, that is all that is held.
#[derive(Clone, Copy)]
pub enum SubscriptionMessage {
    SubscribeUpdate(SubscribeUpdate),
    Subscribe(Subscribe),
    SubscribeOk(SubscribeOk),
    SubscribeError(SubscribeError),
    Unsubscribe(u64),
    SubscribeDone(SubscribeDone),
    MaxSubscribeId(u64),
    SubscribesBlocked(u64),
}
