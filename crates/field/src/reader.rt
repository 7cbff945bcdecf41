// The fields that hold bytes, read at an offset.
ghost use Rattle.std.specs.Prelude.{◌≡◌};
ghost use Rattle.field.specs.Entries.{few, list_at};
ghost use Rattle.field.specs.Fields.{field_at, integer, byte, bytes, list, track};
ghost use Rattle.field.specs.Told.{told_number, told_byte, told_bytes, told_counted, told_list, told_track};

use crate::walking::{entry_at, most, walk};
use crate::{Cut, Entries, Fault, Kind, MOST_FIELDS, MOST_PARAMETERS, Span, Track};

pub fn read_number(s: &[u8], at: usize) -> Result<(u64, usize), Cut>
    ensures { told_number result ≡ field_at integer s.now at }
{
    let (n, used) = integer::read_at(s, at)?;
    Ok((n, at + used))
}

pub fn read_byte(s: &[u8], at: usize) -> Result<(u8, usize), Cut>
    ensures { told_byte result ≡ field_at byte s.now at }
{
    if at < s.len() {
        return Ok((s[at], at + 1));
    }
    Err(Cut)
}

// A length and as many bytes: a reason, a URI, extension headers.
pub fn read_bytes(s: &[u8], at: usize) -> Result<Span, Cut>
    ensures { told_bytes result ≡ field_at bytes s.now at }
{
    match entry_at(s, Kind::Namespace, integer::GREATEST, at) {
        Ok(e) => Ok(e.bytes),
        Err(_) => Err(Cut),
    }
}

// Whether 01's sizes let a list have that many entries.
pub fn is_few(kind: Kind, count: u64) -> bool
    ensures { result ≡ few kind count }
{
    match kind {
        Kind::Namespace => {
            if count < 1 {
                return false;
            }
            count <= MOST_FIELDS
        }
        Kind::Parameters => count <= MOST_PARAMETERS,
        Kind::Versions => true,
    }
}

// A count and as many entries, and how many bytes they hold. The count is judged before an entry is looked for.
fn counted(s: &[u8], kind: Kind, at: usize) -> Result<(Entries, usize), Fault>
    ensures { told_counted result ≡ list_at kind s.now at }
{
    let (count, used) = integer::read_at(s, at)?;
    if !is_few(kind, count) {
        return Err(Fault::Oversize);
    }
    let start = at + used;
    let w = walk(s, true, kind, count, start)?;
    let end = w.end;
    Ok((Entries { start, end, count }, w.held))
}

// Parameters, versions, or a namespace that no name follows.
pub fn read_list(s: &[u8], kind: Kind, at: usize) -> Result<Entries, Fault>
    ensures { told_list kind result ≡ field_at (list kind) s.now at }
{
    let (entries, _) = counted(s, kind, at)?;
    Ok(entries)
}

// A namespace and the name after it, which share 4,096 bytes.
pub fn read_track(s: &[u8], at: usize) -> Result<Track, Fault>
    ensures { told_track result ≡ field_at track s.now at }
{
    let (namespace, held) = counted(s, Kind::Namespace, at)?;
    let most = most(true, Kind::Namespace, held);
    let name = entry_at(s, Kind::Namespace, most, namespace.end)?.bytes;
    Ok(Track { namespace, name })
}
