// A datagram: its type, and the header that the type names. A datagram is always whole: where it is cut, nothing more
// will come.
ghost use Rattle.std.specs.Prelude.{◌≡◌, length};
ghost use Rattle.layout.specs.Layout.{scan};
ghost use Rattle.layout.specs.Typed.{typed};
ghost use Rattle.field.specs.Outcome.{answer};
ghost use Rattle.header.specs.Layouts.{object_datagram, datagram_status, object_datagram_status_row};
ghost use Rattle.header.specs.Told.{told_object, told_datagram};
ghost use Rattle.header.specs.Reading.{ended_datagram, datagram_of};

use crate::rules::is_status;
use crate::{Datagram, DatagramFault, OBJECT_DATAGRAM, OBJECT_DATAGRAM_STATUS, ObjectDatagram};
use field::Cut;

pub fn read_datagram(s: &[u8]) -> Result<(Datagram, usize), DatagramFault>
    ensures { told_datagram result ≡ datagram_of s.now }
{
    let (number, at) = field::read_number(s, 0)?;
    match number {
        OBJECT_DATAGRAM => {
            let d = read_object(s, at)?;
            Ok((Datagram::Object(d), d.extensions.end))
        }
        OBJECT_DATAGRAM_STATUS => read_status(s, at),
        _ => Err(DatagramFault::Unknown),
    }
}

// What stands before the payload or the status; it ends where its extension headers do.
fn read_object(s: &[u8], at: usize) -> Result<ObjectDatagram, Cut>
    ensures { told_object result ≡ scan object_datagram s.now at }
{
    let (alias, next) = field::read_number(s, at)?;
    let (place, next) = field::read_place(s, next)?;
    let (priority, next) = field::read_byte(s, next)?;
    let extensions = field::read_bytes(s, next)?;
    Ok(ObjectDatagram {
        alias,
        place,
        priority,
        extensions,
    })
}

// A datagram that has a status, and nothing after it.
fn read_status(s: &[u8], at: usize) -> Result<(Datagram, usize), DatagramFault>
    ensures { told_datagram result ≡ ended_datagram (length s.now)
        (answer 4 (typed object_datagram_status_row.number (scan datagram_status s.now at))) }
{
    let d = read_object(s, at)?;
    let (status, end) = field::read_number(s, d.extensions.end)?;
    if !is_status(status) {
        return Err(DatagramFault::Forbidden);
    }
    if end < s.len() {
        return Err(DatagramFault::Cut);
    }
    Ok((Datagram::Status(d, status), end))
}
