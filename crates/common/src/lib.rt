// The words that every crate shares: tests and refusals, answers, buffers, lists. specs/ says what they mean, and
// proofs/ has the laws that hold of them. Its one type is a list of at most so many items, its one function puts
// bytes where they have room.
#![tactic(auto)]

mod copying;
mod few;

pub use copying::put_bytes;
pub use few::{Blank, Few};
