// The integers of RFC 9000, section 16: read from the front of bytes, and written in the fewest.
#![tactic(auto)]

mod reader;
mod writer;

pub use reader::{read, read_at};
pub use writer::{size, write};

// The greatest number that can be written.
pub const GREATEST: u64 = 4_611_686_018_427_387_903;

// Why nothing was read: the bytes end too soon, and more are needed.
#[derive(Clone, Copy)]
pub struct Cut;

// Why nothing was written: the number is too great, or the output too short.
#[derive(Clone, Copy)]
pub enum Unwritten {
    TooGreat,
    TooShort,
}
