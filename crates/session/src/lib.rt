// The messages that begin and end a session: CLIENT_SETUP, SERVER_SETUP and GOAWAY.
#![tactic(auto)]

mod reader;
mod writer;

use field::{Entries, Span};
pub use reader::read;
pub use writer::{fields, number};

#[derive(Clone, Copy)]
pub struct ClientSetup {
    pub versions: Entries,
    pub parameters: Entries,
}

#[derive(Clone, Copy)]
pub struct ServerSetup {
    pub version: u64,
    pub parameters: Entries,
}

// Of a GOAWAY, the new session's URI.
#[derive(Clone, Copy)]
pub enum SessionMessage {
    ClientSetup(ClientSetup),
    ServerSetup(ServerSetup),
    GoAway(Span),
}
