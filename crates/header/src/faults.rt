// Refusals by the numbers of document 01.
ghost use Rattle.std.specs.Prelude.{◌≡◌};
ghost use Rattle.header.specs.Faults.{datagram_number, stream_number, object_number};

use crate::{DatagramFault, ObjectFault, StreamFault};

impl DatagramFault {
    pub fn number(self) -> u8
        ensures { result ≡ datagram_number self }
    {
        match self {
            DatagramFault::Unknown => 2,
            DatagramFault::Cut => 4,
            DatagramFault::Forbidden => 5,
        }
    }
}

impl StreamFault {
    pub fn number(self) -> u8
        ensures { result ≡ stream_number self }
    {
        match self {
            StreamFault::More => 1,
            StreamFault::Unknown => 2,
        }
    }
}

impl ObjectFault {
    pub fn number(self) -> u8
        ensures { result ≡ object_number self }
    {
        match self {
            ObjectFault::More => 1,
            ObjectFault::Forbidden => 5,
        }
    }
}
