// A trace, field by field.
ghost use Rattle.std.specs.Prelude.{◌≤◌, IfOk, length};

use crate::writing::print;
use console::{Failed, Page};
use replay::{Fed, Progress};

// A field has at most 65,538 bytes, so what is left of one always leaves room to read into. A proved loop has to end,
// and nothing says that an input does: the turns go up to a number that no run comes to.
pub fn explain(rt: &(impl Input + Print)) -> Result<(), Failed> {
    let mut buffer = [0u8; 131072];
    let mut progress = replay::begin();
    let mut left: usize = 0;
    for _ in 0..u64::MAX {
        let n = console::read_behind(rt, &mut buffer, left)?;
        if n == 0 {
            return print_end(rt, progress, &buffer[..left]);
        }
        let end = left + n;
        let fed = print_fields(rt, progress, &buffer[..end])?;
        replay::keep(&mut buffer, fed.used, end);
        progress = fed.progress;
        left = end - fed.used;
    }
    Ok(())
}

// The trace ends here, and rest is left of a field.
fn print_end(rt: &impl Print, p: Progress, rest: &[u8]) -> Result<(), Failed> {
    let mut page = Page::new();
    page.used = explanation_traces::put_end(&mut page.bytes, 0, p, rest);
    page.flush(rt)
}

// The lines of all whole fields from the front of s on.
fn print_fields(rt: &impl Print, mut progress: Progress, s: &[u8]) -> Result<Fed, Failed>
    ensures { IfOk result (λ fed. fed.used ≤ length s.now) }
{
    let mut page = Page::new();
    let mut used: usize = 0;
    while let Some(taken) = explanation_traces::tell(progress, s, used) {
        print(rt, &mut page, &s[used..taken.used], taken.explaining)?;
        progress = taken.progress;
        used = taken.used;
    }
    page.flush(rt)?;
    Ok(Fed { progress, used })
}
