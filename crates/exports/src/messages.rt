// Control messages.
ghost use Rattle.rewrite.specs.Rewriting.{control_again, Does};

// The message at the front of `s`, in its shortest form, at the front of `out`: into `info` the bytes used, the bytes
// written, the type.
pub fn moq_control_rewrite(s: &[u8], out: &mut [u8], info: &mut [u64]) -> u64
    ensures { Does (control_again s.now out.old info.old) result out.new
        info.new }
{
    rewrite::control(s, out, info) as u64
}
