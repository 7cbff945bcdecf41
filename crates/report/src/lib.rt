// The report of a trace: a line for the session, the columns, and a line for each row; or where the trace is at fault.
#![tactic(auto)]

mod lines;
mod writing;

use ledger::MOST_ROWS;
pub use writing::{of_progress, of_trace};

// How many bytes a report takes at most: a line for the session, one for the columns, and one for each row.
pub const LONGEST_REPORT: usize = text::LONGEST_LINE * (2 + MOST_ROWS);
