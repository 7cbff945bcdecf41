// Data headers: section 9 of source document 004. An object comes in a datagram, or on a stream after the stream's
// header and its own. They are read here, and written by `header_writer`.
#![tactic(auto)]

ghost use Rattle.std.specs.Prelude.{◌≡◌};
ghost use Rattle.header.specs.declared.DatagramFault.TheVariants.{Cut as DatagramCut};
ghost use Rattle.header.specs.declared.StreamFault.TheVariants.{More as MoreOfStream};
ghost use Rattle.header.specs.declared.ObjectFault.TheVariants.{More as MoreOfObject};

pub mod arrivals;
mod datagrams;
mod faults;
mod objects;
mod rules;
mod streams;

pub use datagrams::read_datagram;
use field::{Cut, Place, Span};
pub use objects::{read_fetch_object, read_subgroup_object};
pub use rules::is_status;
pub use streams::read_stream;

// The types of headers, by number: those of a datagram, and those that a stream begins with.
pub const OBJECT_DATAGRAM: u64 = 0x1;

pub const OBJECT_DATAGRAM_STATUS: u64 = 0x2;

pub const SUBGROUP_HEADER: u64 = 0x4;

pub const FETCH_HEADER: u64 = 0x5;

// What stands before the payload of an object datagram, or before its status.
#[derive(Clone, Copy)]
pub struct ObjectDatagram {
    pub alias: u64,
    pub place: Place,
    pub priority: u8,
    pub extensions: Span,
}

// An object, whose payload is the rest of the datagram; or its status in place of one.
#[derive(Clone, Copy)]
pub enum Datagram {
    Object(ObjectDatagram),
    Status(ObjectDatagram, u64),
}

#[derive(Clone, Copy)]
pub struct SubgroupHeader {
    pub alias: u64,
    pub group: u64,
    pub subgroup: u64,
    pub priority: u8,
}

// What a stream begins with; of a fetch it is the Subscribe ID.
#[derive(Clone, Copy)]
pub enum StreamHeader {
    Subgroup(SubgroupHeader),
    Fetch(u64),
}

// The length of the payload that follows; or, where that is 0, the status.
#[derive(Clone, Copy)]
pub enum Payload {
    Length(u64),
    Status(u64),
}

// The header of an object on a subgroup's stream.
#[derive(Clone, Copy)]
pub struct SubgroupObject {
    pub object: u64,
    pub extensions: Span,
    pub payload: Payload,
}

// The header of an object on a fetch's stream.
#[derive(Clone, Copy)]
pub struct FetchObject {
    pub group: u64,
    pub subgroup: u64,
    pub object: u64,
    pub priority: u8,
    pub extensions: Span,
    pub payload: Payload,
}

// Why a datagram is refused: its type is unknown; it is cut, or goes on after its status; a value is forbidden.
#[derive(Clone, Copy)]
pub enum DatagramFault {
    Unknown,
    Cut,
    Forbidden,
}

// A datagram is always whole: where it is cut, nothing more will come.
impl From<Cut> for DatagramFault {
    ghost from_gives = { λ _ fault. fault ≡ DatagramCut };

    fn from(_cut: Cut) -> DatagramFault {
        DatagramFault::Cut
    }
}

// Why the first bytes of a stream are no header: more bytes are needed; its type is unknown.
#[derive(Clone, Copy)]
pub enum StreamFault {
    More,
    Unknown,
}

// On a stream more can come after a cut.
impl From<Cut> for StreamFault {
    ghost from_gives = { λ _ fault. fault ≡ MoreOfStream };

    fn from(_cut: Cut) -> StreamFault {
        StreamFault::More
    }
}

// Why bytes on a stream are no header of an object: more are needed; a value is forbidden.
#[derive(Clone, Copy)]
pub enum ObjectFault {
    More,
    Forbidden,
}

impl From<Cut> for ObjectFault {
    ghost from_gives = { λ _ fault. fault ≡ MoreOfObject };

    fn from(_cut: Cut) -> ObjectFault {
        ObjectFault::More
    }
}
