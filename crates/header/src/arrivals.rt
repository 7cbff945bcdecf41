// What the ledger counts: an arrival of an object. Objects of a fetch don't enter the ledger, so they have none.
ghost use Rattle.std.specs.Prelude.{◌≡◌};
ghost use Rattle.header.specs.Arrivals.{subgroup_arrival, datagram_arrival};

use crate::{Datagram, SubgroupHeader, SubgroupObject};
use field::{Arrival, Place};

// Of an object on a subgroup's stream, by the header of the stream and its own.
pub fn subgroup_arrival(h: SubgroupHeader, o: SubgroupObject) -> Arrival
    ensures { result ≡ subgroup_arrival h o }
{
    Arrival {
        alias: h.alias,
        place: Place {
            group: h.group,
            object: o.object,
        },
    }
}

// Of an object in a datagram.
pub fn datagram_arrival(d: Datagram) -> Arrival
    ensures { result ≡ datagram_arrival d }
{
    match d {
        Datagram::Object(x) | Datagram::Status(x, _) => Arrival {
            alias: x.alias,
            place: x.place,
        },
    }
}
