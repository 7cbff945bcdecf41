// Control messages, written in their shortest form, as their fields; and whether one may reach a ledger.
#![tactic(auto)]

mod sound;
mod writer;

pub use sound::is_sound;
pub use writer::{number, write};
