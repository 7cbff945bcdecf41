// Integers.
ghost use Rattle.std.specs.Prelude.{[]};
ghost use Rattle.rewrite.specs.Rewriting.{Does};
ghost use Rattle.exports.specs.Integers.{integer_read, integer_written};

// The integer at the front of `s`: into `info` the number and the bytes used.
#[unsafe(no_mangle)]
pub extern "C" fn moq_integer_read(s: &[u8], info: &mut [u64]) -> u64
    ensures { Does (integer_read s.now info.old) result [] info.new }
{
    exports::integers::moq_integer_read(s, info)
}

// A number's shortest form at the front of `out`: into `info` the bytes written.
#[unsafe(no_mangle)]
pub extern "C" fn moq_integer_write(n: u64, out: &mut [u8], info: &mut [u64]) -> u64
    ensures { Does (integer_written n out.old info.old) result out.new
        info.new }
{
    exports::integers::moq_integer_write(n, out, info)
}
