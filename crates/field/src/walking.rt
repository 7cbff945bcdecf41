// Entries: one at an offset, and a run of them.
ghost use Rattle.std.specs.Prelude.{◌≡◌, ◌≤◌};
ghost use Rattle.integer.specs.Integer.{greatest};
ghost use Rattle.field.specs.Entries.{numbered_at, entry_at, has_number, has_bytes, most_of};
ghost use Rattle.field.specs.Value.{walk_of, item_size};
ghost use Rattle.field.specs.Told.{told_entry, told_walk};

use crate::{Entry, Fault, Kind, LONGEST_TRACK, Span, Sums};

// A length and as many bytes, of an entry that has a number. The length is judged before the bytes are looked for: over
// most it is a size, though they may be missing. (This and entry_at are compiled into their callers: handed back from a
// call, an entry would be copied through memory.)
#[inline(always)]
fn numbered(s: &[u8], number: u64, most: u64, at: usize) -> Result<Entry, Fault>
    ensures { told_entry result ≡ numbered_at number most s.now at }
{
    let (n, used) = integer::read_at(s, at)?;
    if n > most {
        return Err(Fault::Oversize);
    }
    let start = at + used;
    let left = s.len() - start;
    if n > left as u64 {
        return Err(Fault::Cut);
    }
    let end = start + n as usize;
    let bytes = Span { start, end };
    Ok(Entry { number, bytes })
}

// The entry at an offset, which may hold most bytes.
#[inline(always)]
pub fn entry_at(s: &[u8], kind: Kind, most: u64, at: usize) -> Result<Entry, Fault>
    ensures { told_entry result ≡ entry_at kind most s.now at }
{
    let (number, next) = if has_number(kind) {
        let (n, used) = integer::read_at(s, at)?;
        (n, at + used)
    } else {
        (0, at)
    };
    if !has_bytes(kind) {
        let bytes = Span {
            start: next,
            end: next,
        };
        return Ok(Entry { number, bytes });
    }
    // Taken apart, so that what is answered is made here and not copied.
    let entry = numbered(s, number, most, next)?;
    Ok(entry)
}

// Whether entries begin with a number, and whether they hold bytes.
fn has_number(kind: Kind) -> bool
    ensures { result ≡ has_number kind }
{
    match kind {
        Kind::Namespace => false,
        Kind::Parameters => true,
        Kind::Versions => true,
    }
}

fn has_bytes(kind: Kind) -> bool
    ensures { result ≡ has_bytes kind }
{
    match kind {
        Kind::Namespace => true,
        Kind::Parameters => true,
        Kind::Versions => false,
    }
}

// How many bytes the next entry may hold when that many are held.
pub fn most(sized: bool, kind: Kind, held: usize) -> u64
    ensures { result ≡ most_of sized kind held }
{
    if !sized {
        return integer::GREATEST;
    }
    match kind {
        Kind::Namespace => {
            if held > LONGEST_TRACK {
                return 0;
            }
            (LONGEST_TRACK - held) as u64
        }
        Kind::Parameters => integer::GREATEST,
        Kind::Versions => integer::GREATEST,
    }
}

// How many bytes the shortest form of an entry takes.
fn entry_size(kind: Kind, number: u64, held: usize) -> usize
    requires { (number ≤ greatest) × (held ≤ greatest) }
    ensures { result ≡ item_size kind number held }
{
    match kind {
        Kind::Namespace => integer::size(held as u64) + held,
        Kind::Parameters => integer::size(number) + (integer::size(held as u64) + held),
        Kind::Versions => integer::size(number),
    }
}

// count entries from start on. Where sizes are judged, they are judged as each length is read.
pub fn walk(s: &[u8], sized: bool, kind: Kind, count: u64, start: usize) -> Result<Sums, Fault>
    ensures { told_walk result ≡ walk_of sized kind count s.now start }
{
    let mut w = Sums {
        end: start,
        held: 0,
        size: 0,
    };
    for _ in 0..count {
        let e = entry_at(s, kind, most(sized, kind, w.held), w.end)?;
        let n = e.bytes.end - e.bytes.start;
        w.size += entry_size(kind, e.number, n);
        w.held += n;
        w.end = e.bytes.end;
    }
    Ok(w)
}
