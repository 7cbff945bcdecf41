// The run of a trace: each field is an event, and a ledger takes it. A trace may come in pieces, cut anywhere.
#![tactic(auto)]

mod advancing;
mod events;
mod feeding;
mod gathering;
mod steps;

pub use advancing::keep;
pub use events::event_of;
use field::Arrival;
use ledger::{Answer, Ledger, Part};
use message::Message;
pub use steps::begin;

// What a field of a trace is: the start, with a part and a maximum; a whole message; bytes that are none, with the
// reader's number; an arrival; or none of these.
#[derive(Clone, Copy)]
pub enum Event {
    Start(Part, u64),
    Control(Message),
    Malformed(u8),
    Arrived(Arrival),
    Fault,
}

// Nothing came yet; the ledger runs; or a field was at fault, with the offset of its tag.
#[derive(Clone, Copy)]
pub enum Stage {
    Empty,
    Running,
    Faulty(u64),
}

// How far a trace was taken: the ledger, the stage, and the offset of the next field.
#[derive(Clone, Copy)]
pub struct Progress {
    pub ledger: Ledger,
    pub stage: Stage,
    pub offset: u64,
}

// What a ledger said to an event, nothing to a fault, and the ledger and the stage after it.
#[derive(Clone, Copy)]
struct Heard {
    said: Option<Answer>,
    ledger: Ledger,
    stage: Stage,
}

// What an event came to: what it was taken for, what was said to it, nothing to a fault, and the progress after it.
#[derive(Clone, Copy)]
pub struct Stepped {
    pub event: Event,
    pub said: Option<Answer>,
    pub progress: Progress,
}

// The progress after all whole fields of some bytes, and how many bytes those took.
#[derive(Clone, Copy)]
pub struct Fed {
    pub progress: Progress,
    pub used: usize,
}

// The progress after all whole fields of a buffer's first bytes, and how many bytes are left at its front.
#[derive(Clone, Copy)]
pub struct Advanced {
    pub progress: Progress,
    pub left: usize,
}

// Arrivals that stand next to each other: how many, and where the last one's field ends.
#[derive(Clone, Copy)]
struct Gathered {
    count: usize,
    end: usize,
}
