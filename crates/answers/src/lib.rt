// What each field of a trace was answered: a line for each, and where the trace is at fault.
#![tactic(auto)]

mod lines;
mod writing;

pub use lines::{tell, tell_end};
use replay::Progress;
use text::Line;
pub use writing::of_trace;

// A field that was taken: the line that tells what it was answered, the progress after it, and where it ends.
#[derive(Clone, Copy)]
pub struct FieldLine {
    pub line: Line,
    pub progress: Progress,
    pub used: usize,
}
