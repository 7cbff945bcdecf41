// Integers.
ghost use Rattle.std.specs.Prelude.{[]};
ghost use Rattle.rewrite.specs.Rewriting.{Does};
ghost use Rattle.exports.specs.Integers.{integer_read, integer_written};

use integer::Unwritten;

// The integer at the front of `s`: into `info` the number and the bytes used.
pub fn moq_integer_read(s: &[u8], info: &mut [u64]) -> u64
    ensures { Does (integer_read s.now info.old) result [] info.new }
{
    let Ok((n, used)) = integer::read(s) else {
        return 1;
    };
    if info.len() < 2 {
        return 7;
    }
    info[0] = n;
    info[1] = used as u64;
    0
}

// A number's shortest form at the front of `out`: into `info` the bytes written.
pub fn moq_integer_write(n: u64, out: &mut [u8], info: &mut [u64]) -> u64
    ensures { Does (integer_written n out.old info.old) result out.new
        info.new }
{
    if info.len() < 1 {
        if integer::GREATEST < n {
            return 5;
        }
        return 7;
    }
    match integer::write(out, n) {
        Ok(used) => {
            info[0] = used as u64;
            0
        }
        Err(Unwritten::TooGreat) => 5,
        Err(Unwritten::TooShort) => 7,
    }
}
