// One message or header is read from the front of bytes, and written again in its shortest form. (Each call answers
// document 01's number and lends three places, and no Result: C calls it so.)
#![tactic(auto)]

mod headers;
mod messages;
mod telling;

pub use headers::{datagram, fetch_object, stream, subgroup_object};
pub use messages::control;
