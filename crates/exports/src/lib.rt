// The calls that C makes; the crate exports_c lends each its name in C, and include/moq.h declares them. Each call
// answers document 01's number; the declarations say with which of them what is lent is changed. (A number and lent
// places, and no Result: that is what C takes.)
#![tactic(auto)]

pub mod headers;
pub mod integers;
pub mod ledgers;
pub mod messages;
pub mod traces;
