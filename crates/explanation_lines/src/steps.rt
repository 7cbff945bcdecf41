// What is told of the parts, one after the other.
ghost use Rattle.std.specs.Prelude.{◌≡◌};
ghost use Rattle.columns.specs.Pouring.{filling, pour};
ghost use Rattle.explanation_lines.specs.Lines.{step_lines};

use crate::lines::{put_faulty_line, put_left_line, put_mark, put_part_line};
use parts::Step;

// The lines of what was told. A message begins with its type, and a refused part is marked.
pub fn put_step(out: &mut [u8], at: usize, offset: u64, s: &[u8], step: Step) -> usize
    ensures { filling out.new result ≡ pour (filling out.old at)
        (step_lines step offset s.now) }
{
    match step {
        Step::Part(part) => put_part_line(out, at, offset, s, part.start == 0, part),
        Step::Refused(number) => put_mark(out, at, number),
        Step::Faulty(part, number) => {
            let line = put_faulty_line(out, at, offset, s, part);
            put_mark(out, line, number)
        }
        Step::Whole(used) => put_left_line(out, at, offset, s, used),
    }
}
