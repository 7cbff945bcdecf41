// Data headers are written in their shortest form.
#![tactic(auto)]

mod writer;

pub use writer::{write_datagram, write_fetch_object, write_stream, write_subgroup_object};
