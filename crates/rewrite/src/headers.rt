// Data headers. Each call stays a match of its own: a function over its reader, its writer and its type would be handed
// all that it is.
ghost use Rattle.std.specs.Prelude.{◌≡◌};
ghost use Rattle.header.specs.Told.{datagram_typed, stream_typed};
ghost use Rattle.rewrite.specs.Rewriting.{datagram_again, stream_again, subgroup_object_again, fetch_object_again, Does};

use crate::telling::tell;
use header::{Datagram, StreamHeader};

// ---- datagrams

pub fn datagram(s: &[u8], out: &mut [u8], info: &mut [u64]) -> u8
    ensures { Does (datagram_again s.now out.old info.old) result out.new
        info.new }
{
    match header::read_datagram(s) {
        Ok((d, used)) => {
            if info.len() < 3 {
                return 7;
            }
            let writing = header_writer::write_datagram(out, s, d);
            tell(info, writing, used, datagram_type(d))
        }
        Err(fault) => fault.number(),
    }
}

fn datagram_type(d: Datagram) -> u64
    ensures { result ≡ (datagram_typed d).type }
{
    match d {
        Datagram::Object(_) => header::OBJECT_DATAGRAM,
        Datagram::Status(_, _) => header::OBJECT_DATAGRAM_STATUS,
    }
}

// ---- streams

pub fn stream(s: &[u8], out: &mut [u8], info: &mut [u64]) -> u8
    ensures { Does (stream_again s.now out.old info.old) result out.new
        info.new }
{
    match header::read_stream(s) {
        Ok((h, used)) => {
            if info.len() < 3 {
                return 7;
            }
            let writing = header_writer::write_stream(out, h);
            tell(info, writing, used, stream_type(h))
        }
        Err(fault) => fault.number(),
    }
}

fn stream_type(h: StreamHeader) -> u64
    ensures { result ≡ (stream_typed h).type }
{
    match h {
        StreamHeader::Subgroup(_) => header::SUBGROUP_HEADER,
        StreamHeader::Fetch(_) => header::FETCH_HEADER,
    }
}

// ---- objects on a stream, which have no type

pub fn subgroup_object(s: &[u8], out: &mut [u8], info: &mut [u64]) -> u8
    ensures { Does (subgroup_object_again s.now out.old info.old) result
        out.new info.new }
{
    match header::read_subgroup_object(s) {
        Ok((o, used)) => {
            if info.len() < 3 {
                return 7;
            }
            let writing = header_writer::write_subgroup_object(out, s, o);
            tell(info, writing, used, 0)
        }
        Err(fault) => fault.number(),
    }
}

pub fn fetch_object(s: &[u8], out: &mut [u8], info: &mut [u64]) -> u8
    ensures { Does (fetch_object_again s.now out.old info.old) result out.new
        info.new }
{
    match header::read_fetch_object(s) {
        Ok((o, used)) => {
            if info.len() < 3 {
                return 7;
            }
            let writing = header_writer::write_fetch_object(out, s, o);
            tell(info, writing, used, 0)
        }
        Err(fault) => fault.number(),
    }
}
