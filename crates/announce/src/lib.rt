// The messages of namespaces: ANNOUNCE and SUBSCRIBE_ANNOUNCES, and the answers to them. Each begins with a namespace,
// or a prefix of one; by what follows there are three shapes.
#![tactic(auto)]

mod reader;
mod writer;

use field::{Entries, Failure};
pub use reader::read;
use types::kinds::{Asking, Naming, Refusing};
pub use writer::{fields, number};

#[derive(Clone, Copy)]
pub struct Announce {
    pub namespace: Entries,
    pub parameters: Entries,
}

#[derive(Clone, Copy)]
pub struct Refusal {
    pub namespace: Entries,
    pub failure: Failure,
}

#[derive(Clone, Copy)]
pub enum AnnounceMessage {
    Named(Naming, Entries),
    Asked(Asking, Announce),
    Refused(Refusing, Refusal),
}
