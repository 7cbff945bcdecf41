// Data headers: each at the front of `s`, in its shortest form, at the front of `out`, and into `info` the bytes used,
// the bytes written, the type.
ghost use Rattle.rewrite.specs.Rewriting.{datagram_again, stream_again, subgroup_object_again, fetch_object_again, Does};

// The header of a datagram.
pub fn moq_datagram_rewrite(s: &[u8], out: &mut [u8], info: &mut [u64]) -> u64
    ensures { Does (datagram_again s.now out.old info.old) result out.new
        info.new }
{
    rewrite::datagram(s, out, info) as u64
}

// The header of a stream.
pub fn moq_stream_rewrite(s: &[u8], out: &mut [u8], info: &mut [u64]) -> u64
    ensures { Does (stream_again s.now out.old info.old) result out.new
        info.new }
{
    rewrite::stream(s, out, info) as u64
}

// The header of an object on a subgroup's stream; it has no type, and 0 is told.
pub fn moq_subgroup_object_rewrite(s: &[u8], out: &mut [u8], info: &mut [u64]) -> u64
    ensures { Does (subgroup_object_again s.now out.old info.old) result
        out.new info.new }
{
    rewrite::subgroup_object(s, out, info) as u64
}

// The header of an object on a fetch's stream; it has no type, and 0 is told.
pub fn moq_fetch_object_rewrite(s: &[u8], out: &mut [u8], info: &mut [u64]) -> u64
    ensures { Does (fetch_object_again s.now out.old info.old) result out.new
        info.new }
{
    rewrite::fetch_object(s, out, info) as u64
}
