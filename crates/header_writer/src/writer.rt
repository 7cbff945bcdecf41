// A header is written as its shortest form: 5, then 7, each over the whole header; a refusal writes nothing.
ghost use Rattle.std.specs.Prelude.{◌≡◌};
ghost use Rattle.common.specs.Answer.{Leaves};
ghost use Rattle.layout.specs.Allowed.{allowed};
ghost use Rattle.encode.specs.Writing.{told_writing};
ghost use Rattle.header.specs.Layouts.{layout_of, datagrams, payload};
ghost use Rattle.header.specs.Told.{datagram_typed, payload_pieces};
ghost use Rattle.header_writer.specs.Writing.{datagram_written, stream_written};
ghost use Rattle.header_writer.specs.Writing.{subgroup_object_written, fetch_object_written};

use encode::Refusal;
use header::{
    Datagram, FETCH_HEADER, FetchObject, OBJECT_DATAGRAM, OBJECT_DATAGRAM_STATUS, Payload,
    SUBGROUP_HEADER, StreamHeader, SubgroupObject, is_status,
};
use measure::Middle;

// bytes is what the extension headers point into.
pub fn write_datagram(out: &mut [u8], bytes: &[u8], d: Datagram) -> Result<usize, Refusal>
    ensures { Leaves (datagram_written bytes.now d out.old) (told_writing result)
        out.new }
{
    if !is_datagram_allowed(d) {
        return Err(Refusal::Forbidden);
    }
    match d {
        Datagram::Object(x) => {
            let front = [OBJECT_DATAGRAM, x.alias, x.place.group, x.place.object];
            let middle = Middle::Both(x.priority, x.extensions);
            encode::write_header(out, bytes, &front, middle, &[])
        }
        Datagram::Status(x, status) => {
            let front = [
                OBJECT_DATAGRAM_STATUS,
                x.alias,
                x.place.group,
                x.place.object,
            ];
            let middle = Middle::Both(x.priority, x.extensions);
            encode::write_header(out, bytes, &front, middle, &[status])
        }
    }
}

// The header of a stream points into no bytes.
pub fn write_stream(out: &mut [u8], h: StreamHeader) -> Result<usize, Refusal>
    ensures { Leaves (stream_written h out.old) (told_writing result) out.new }
{
    match h {
        StreamHeader::Subgroup(x) => {
            let front = [SUBGROUP_HEADER, x.alias, x.group, x.subgroup];
            encode::write_header(out, b"", &front, Middle::Byte(x.priority), &[])
        }
        StreamHeader::Fetch(id) => {
            encode::write_header(out, b"", &[FETCH_HEADER, id], Middle::Nothing, &[])
        }
    }
}

pub fn write_subgroup_object(
    out: &mut [u8],
    bytes: &[u8],
    o: SubgroupObject,
) -> Result<usize, Refusal>
    ensures { Leaves (subgroup_object_written bytes.now o out.old) (told_writing result)
        out.new }
{
    if !is_payload_allowed(o.payload) {
        return Err(Refusal::Forbidden);
    }
    let front = [o.object];
    let middle = Middle::Bytes(o.extensions);
    match o.payload {
        Payload::Length(length) => encode::write_header(out, bytes, &front, middle, &[length]),
        Payload::Status(status) => encode::write_header(out, bytes, &front, middle, &[0, status]),
    }
}

pub fn write_fetch_object(out: &mut [u8], bytes: &[u8], o: FetchObject) -> Result<usize, Refusal>
    ensures { Leaves (fetch_object_written bytes.now o out.old) (told_writing result)
        out.new }
{
    if !is_payload_allowed(o.payload) {
        return Err(Refusal::Forbidden);
    }
    let front = [o.group, o.subgroup, o.object];
    let middle = Middle::Both(o.priority, o.extensions);
    match o.payload {
        Payload::Length(length) => encode::write_header(out, bytes, &front, middle, &[length]),
        Payload::Status(status) => encode::write_header(out, bytes, &front, middle, &[0, status]),
    }
}

// Whether a datagram holds no value that its layout forbids.
fn is_datagram_allowed(d: Datagram) -> bool
    ensures { result ≡ allowed (layout_of (datagrams (datagram_typed d).type)) (datagram_typed d).pieces }
{
    match d {
        Datagram::Object(_) => true,
        Datagram::Status(_, status) => is_status(status),
    }
}

// Where the length is 0, a status has to stand in place of it.
fn is_payload_allowed(p: Payload) -> bool
    ensures { result ≡ allowed payload (payload_pieces p) }
{
    match p {
        Payload::Length(length) => 0 < length,
        Payload::Status(status) => is_status(status),
    }
}
