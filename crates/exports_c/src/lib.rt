// The functions that C finds in the archive: each is the call of exports that has its name, with the same clauses. A
// crate is a library or a static library, and this is the static one. A slice is passed as a pointer and a count of
// elements.
#![tactic(auto)]

pub mod headers;
pub mod integers;
pub mod ledgers;
pub mod messages;
pub mod traces;
