// The answers of a whole trace, put at the front of what is lent.
ghost use Rattle.std.specs.Prelude.{◌≤◌};
ghost use Rattle.common.specs.Answer.{Leaves};
ghost use Rattle.text.specs.Lines.{line_of, put_text, told_putting};
ghost use Rattle.answers.specs.Answers.{answers_of};
ghost use Rattle.answers.specs.Adding.{Adds};

use crate::lines::{tell, tell_end};
use text::Line;

// A line after at bytes of text, if both take room bytes at most. Where out has no room for it, it is only counted.
fn add(out: &mut [u8], at: usize, line: &Line, room: usize) -> Option<usize>
    requires { at ≤ room }
    ensures { Adds (line_of line.now) at room out.old (told_putting result) out.new }
{
    let n = text::measure(line);
    if room - at < n {
        return None;
    }
    if out.len() < at {
        return Some(at + n);
    }
    text::put(&mut out[at..], line);
    Some(at + n)
}

// The line of each field and the end's, one after the other, if they take room bytes at most. Where out has no room,
// they are only counted.
fn pass(s: &[u8], out: &mut [u8], room: usize) -> Option<usize>
    ensures { Adds (answers_of s.now) 0 room out.old (told_putting result) out.new }
{
    let mut progress = replay::begin();
    let mut used = 0;
    let mut at = 0;
    while let Some(told) = tell(progress, s, used) {
        at = add(out, at, &told.line, room)?;
        used = told.used;
        progress = told.progress;
    }
    add(out, at, &tell_end(progress, s.len() - used), room)
}

// 7 where out is too short, and then nothing is written: in the first pass there is no room for any line, and they are
// only counted.
pub fn of_trace(s: &[u8], out: &mut [u8]) -> Option<usize>
    ensures { Leaves (put_text (answers_of s.now) out.old) (told_putting result)
        out.new }
{
    let room = out.len();
    pass(s, &mut out[..0], room)?;
    pass(s, out, room)
}
