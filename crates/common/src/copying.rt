// Bytes put at the front of what is lent. Eight at a time, where there are so many, and not by the library's copy: that
// would ask the C library for one call more than the rest of the code does.
ghost use Rattle.std.specs.Prelude.{◌≡◌, length, take};
ghost use Rattle.common.specs.Buffer.{Put};

// Eight bytes at once.
fn put_eight(out: &mut [u8], bytes: &[u8])
    requires { (length out.old ≡ 8) × (length bytes.now ≡ 8) }
    ensures { out.new ≡ bytes.now }
{
    if let Some(place) = out.as_mut_array::<8>()
        && let Some(eight) = bytes.as_array::<8>()
    {
        *place = *eight;
    }
}

// As many of the bytes as have room. The last eight may lie over some that stand there already: those are the same.
pub fn put_bytes(out: &mut [u8], bytes: &[u8]) -> usize
    ensures { Put (take (length out.old) bytes.now) out.old result out.new }
{
    let n = bytes.len().min(out.len());
    if n < 8 {
        for i in 0..n {
            out[i] = bytes[i];
        }
        return n;
    }
    for k in 0..n / 8 {
        put_eight(&mut out[8 * k..8 * k + 8], &bytes[8 * k..8 * k + 8]);
    }
    put_eight(&mut out[n - 8..n], &bytes[n - 8..n]);
    n
}
