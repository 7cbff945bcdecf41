// A trace, byte by byte: what is to be explained of each field, as a ledger takes it, and the last lines.
#![tactic(auto)]

mod traces;

use explanation::Explaining;
use replay::Progress;
pub use traces::{put_end, tell};

// A field that was taken: what is to be explained of it, the progress after it, and where it ends.
#[derive(Clone, Copy)]
pub struct FieldTaken {
    pub explaining: Explaining,
    pub progress: Progress,
    pub used: usize,
}
