// The first bytes of a unidirectional stream: its type, and the header that the type names.
ghost use Rattle.std.specs.Prelude.{◌≡◌};
ghost use Rattle.layout.specs.Layout.{scan};
ghost use Rattle.header.specs.Layouts.{subgroup_header};
ghost use Rattle.header.specs.Told.{told_subgroup, told_stream};
ghost use Rattle.header.specs.Reading.{stream_of};

use crate::{FETCH_HEADER, SUBGROUP_HEADER, StreamFault, StreamHeader, SubgroupHeader};
use field::Cut;

pub fn read_stream(s: &[u8]) -> Result<(StreamHeader, usize), StreamFault>
    ensures { told_stream result ≡ stream_of s.now }
{
    let (number, at) = field::read_number(s, 0)?;
    match number {
        SUBGROUP_HEADER => {
            let (header, end) = read_subgroup(s, at)?;
            Ok((StreamHeader::Subgroup(header), end))
        }
        FETCH_HEADER => {
            let (id, end) = field::read_number(s, at)?;
            Ok((StreamHeader::Fetch(id), end))
        }
        _ => Err(StreamFault::Unknown),
    }
}

fn read_subgroup(s: &[u8], at: usize) -> Result<(SubgroupHeader, usize), Cut>
    ensures { told_subgroup result ≡ scan subgroup_header s.now at }
{
    let (alias, next) = field::read_number(s, at)?;
    let (group, next) = field::read_number(s, next)?;
    let (subgroup, next) = field::read_number(s, next)?;
    let (priority, end) = field::read_byte(s, next)?;
    let header = SubgroupHeader {
        alias,
        group,
        subgroup,
        priority,
    };
    Ok((header, end))
}
