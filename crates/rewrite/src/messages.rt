// Control messages.
ghost use Rattle.std.specs.Prelude.{◌≡◌};
ghost use Rattle.rewrite.specs.Rewriting.{control_again, Does};

use crate::telling::tell;

pub fn control(s: &[u8], out: &mut [u8], info: &mut [u64]) -> u8
    ensures { Does (control_again s.now out.old info.old) result out.new
        info.new }
{
    match message::read(s) {
        Ok((m, used)) => {
            if info.len() < 3 {
                return 7;
            }
            let writing = message_writer::write(out, s, m);
            tell(info, writing, used, message_writer::number(m))
        }
        Err(refusal) => refusal.number(),
    }
}
