// The lines of an explanation, put into a lent buffer from an offset on: an offset, bytes, and what they are. What
// doesn't fit the buffer is lost; each function hands back where the next byte goes.
#![tactic(auto)]

mod clamping;
mod lines;
mod numbers;
mod steps;
mod values;
mod words;

pub use lines::{put_answer, put_cut_field, put_field_line, put_reason};
pub use numbers::put_field_value;
pub use steps::put_step;

// The words that say why a trace is at fault.
#[derive(Clone, Copy)]
pub enum Word {
    NoTag,
    NotFirst,
    SecondStart,
    NoStart,
    NoMessage,
    NoArrival,
    EndsInside,
    NoBytes,
}

// What a part holds; or it is what no part takes.
#[derive(Clone, Copy)]
enum Held {
    Number,
    Byte,
    Bytes,
    Left,
}
