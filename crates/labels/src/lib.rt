// What a part of a message is called, by source document 004, and what a number means, by document 01: in a lent
// buffer, from an offset on.
#![tactic(auto)]

mod meaning;
mod naming;

pub use meaning::put_meaning;
pub use naming::put_label;
