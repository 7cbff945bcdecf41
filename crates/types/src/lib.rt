// The types of control messages: which message a number stands for, and which values of a field are permitted. specs/
// has the layout of each message and the table that gives its number and its name, and proofs/ the laws of that table.
#![tactic(auto)]

pub mod kinds;
mod numbers;
mod refusals;
mod rules;

pub use numbers::type_of;
pub use rules::{ends_after, is_track_status, may_hold};

// The longest body that is read or written.
pub const LONGEST_BODY: u32 = 65_000;

// Why bytes are no message and no header: that more are needed; that the type is unknown; that a body is too long; that
// its fields don't fill it; that a value is forbidden; that one is over a size.
#[derive(Clone, Copy, PartialEq, Eq)]
pub enum Refusal {
    More,
    Unknown,
    TooLong,
    Unfilled,
    Forbidden,
    Oversize,
}
