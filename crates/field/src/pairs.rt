// Two fields that stand together in many messages.
ghost use Rattle.std.specs.Prelude.{◌≡◌};
ghost use Rattle.field.specs.Fields.{place_at, failure_at};
ghost use Rattle.field.specs.Told.{told_place, told_failure};

use crate::reader::{read_bytes, read_number};
use crate::{Cut, Failure, Place};

// A group and an object.
pub fn read_place(s: &[u8], at: usize) -> Result<(Place, usize), Cut>
    ensures { told_place result ≡ place_at s.now at }
{
    let (group, next) = read_number(s, at)?;
    let (object, end) = read_number(s, next)?;
    Ok((Place { group, object }, end))
}

// A code and a reason.
pub fn read_failure(s: &[u8], at: usize) -> Result<Failure, Cut>
    ensures { told_failure result ≡ failure_at s.now at }
{
    let (code, next) = read_number(s, at)?;
    let reason = read_bytes(s, next)?;
    Ok(Failure { code, reason })
}
