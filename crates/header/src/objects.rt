// The headers of objects on a stream. Which of the two stands there, the stream's own header tells.
ghost use Rattle.std.specs.Prelude.{◌≡◌};
ghost use Rattle.layout.specs.Layout.{scan};
ghost use Rattle.header.specs.Layouts.{payload};
ghost use Rattle.header.specs.Told.{told_payload, told_subgroup_object, told_fetch_object};
ghost use Rattle.header.specs.Reading.{subgroup_object_of, fetch_object_of};

use crate::rules::is_status;
use crate::{FetchObject, ObjectFault, Payload, SubgroupObject};

// On a subgroup's stream.
pub fn read_subgroup_object(s: &[u8]) -> Result<(SubgroupObject, usize), ObjectFault>
    ensures { told_subgroup_object result ≡ subgroup_object_of s.now }
{
    let (object, next) = field::read_number(s, 0)?;
    let extensions = field::read_bytes(s, next)?;
    let (payload, end) = read_payload(s, extensions.end)?;
    let header = SubgroupObject {
        object,
        extensions,
        payload,
    };
    Ok((header, end))
}

// On a fetch's stream.
pub fn read_fetch_object(s: &[u8]) -> Result<(FetchObject, usize), ObjectFault>
    ensures { told_fetch_object result ≡ fetch_object_of s.now }
{
    let (group, next) = field::read_number(s, 0)?;
    let (subgroup, next) = field::read_number(s, next)?;
    let (object, next) = field::read_number(s, next)?;
    let (priority, next) = field::read_byte(s, next)?;
    let extensions = field::read_bytes(s, next)?;
    let (payload, end) = read_payload(s, extensions.end)?;
    let header = FetchObject {
        group,
        subgroup,
        object,
        priority,
        extensions,
        payload,
    };
    Ok((header, end))
}

// The length of the payload, and where it is 0 the status.
fn read_payload(s: &[u8], at: usize) -> Result<(Payload, usize), ObjectFault>
    ensures { told_payload result ≡ scan payload s.now at }
{
    let (length, next) = field::read_number(s, at)?;
    if length != 0 {
        return Ok((Payload::Length(length), next));
    }
    let (status, end) = field::read_number(s, next)?;
    if !is_status(status) {
        return Err(ObjectFault::Forbidden);
    }
    Ok((Payload::Status(status), end))
}
