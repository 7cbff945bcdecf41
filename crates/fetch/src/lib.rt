// The messages that retrieve what was published: FETCH and the answers to it, and the status of a track.
#![tactic(auto)]

mod name;
mod reader;
mod writer;

use field::{Entries, Failure, Place, Track};
pub use name::name_of;
pub use reader::read;
pub use writer::{fields, is_allowed, number};

// Objects of a track, from one place to another.
#[derive(Clone, Copy)]
pub struct Standalone {
    pub track: Track,
    pub start: Place,
    pub end: Place,
}

// What joins a subscription: its ID, and where the fetch starts, as a group or as a number of groups before the
// subscription.
#[derive(Clone, Copy)]
pub struct Joining {
    pub absolute: bool,
    pub id: u64,
    pub start: u64,
}

#[derive(Clone, Copy)]
pub enum Range {
    Standalone(Standalone),
    Joining(Joining),
}

#[derive(Clone, Copy)]
pub struct Fetch {
    pub id: u64,
    pub priority: u8,
    pub order: u8,
    pub range: Range,
    pub parameters: Entries,
}

#[derive(Clone, Copy)]
pub struct FetchOk {
    pub id: u64,
    pub order: u8,
    pub end_of_track: u8,
    pub largest: Place,
    pub parameters: Entries,
}

#[derive(Clone, Copy)]
pub struct FetchError {
    pub id: u64,
    pub failure: Failure,
}

#[derive(Clone, Copy)]
pub struct TrackStatus {
    pub track: Track,
    pub status: u64,
    pub largest: Place,
}

#[derive(Clone, Copy)]
pub enum FetchMessage {
    Fetch(Fetch),
    FetchOk(FetchOk),
    FetchError(FetchError),
    FetchCancel(u64),
    TrackStatusRequest(Track),
    TrackStatus(TrackStatus),
}
