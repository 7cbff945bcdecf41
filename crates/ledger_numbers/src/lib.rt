// A ledger as numbers, as a caller in another language holds it: the ledger's own, and those of each row.
#![tactic(auto)]

mod packing;
mod rows;
mod unpacking;

pub use packing::keep;
pub use unpacking::unpack;

// How many numbers a ledger has of its own, how many a row has, and how many both.
pub const OWN_NUMBERS: usize = 6;

pub const ROW_NUMBERS: usize = 11;

pub const LEDGER_NUMBERS: usize = OWN_NUMBERS + ROW_NUMBERS * ledger::MOST_ROWS;
