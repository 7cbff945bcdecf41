// What each byte of a field of a trace, or of a message of a control stream, is: line by line, into a lent buffer. What
// doesn't fit the buffer is lost; a call puts at most LONGEST_LINES bytes.
#![tactic(auto)]

mod telling;

use parts::Cursor;
pub use telling::tag_of;

// How many bytes a call puts at most.
pub const LONGEST_LINES: usize = 2048;

// Why a field of a trace is at fault.
#[derive(Clone, Copy)]
pub enum Reason {
    NoTag,
    NotFirst,
    SecondStart,
    NoStart,
    NoMessage,
    NoArrival,
}

// What stands below the parts of a field: what the ledger answered, by document 01's number and its rule; or why the
// field is at fault. Below those of a message in a control stream, what the reader answered.
#[derive(Clone, Copy)]
pub enum Ending {
    // It stays two numbers, which are what is printed: an enum of them would be the ledger's, and that isn't below.
    Answered(u8, u8),
    Fault(Reason),
    Read,
}

// Which line comes next: that of a field; that of the part at the cursor; the ending, and what the reader answered; or
// none.
#[derive(Clone, Copy)]
pub enum Due {
    Field,
    Part,
    Ending(u8),
    Nothing,
}

// How far a field, or a message of a control stream, is explained: which line is due, the next part, what stands below
// the parts, the offset of its first byte, and where its value starts.
#[derive(Clone, Copy)]
pub struct Explaining {
    pub due: Due,
    pub cursor: Cursor,
    pub ending: Ending,
    pub offset: u64,
    pub start: usize,
}

// Where the next byte of text goes, and what is left to be explained.
#[derive(Clone, Copy)]
pub struct NextLines {
    pub at: usize,
    pub next: Explaining,
}
