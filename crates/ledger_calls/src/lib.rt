// A ledger that the caller holds as numbers, as C does: each call makes a ledger of them, has it take one step, and
// keeps the next ledger in their place.
#![tactic(auto)]

mod calls;

pub use calls::{arrival, arrivals, malformed, start, take};
