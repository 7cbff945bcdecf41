// moqanswers: reads a trace from standard input to its end, and prints a line for each field: the offset of its tag,
// what it is and the answer. It holds a piece of the trace and a page of the text at a time, whatever the trace's
// length.
#![tactic(auto)]

ghost use Rattle.std.specs.Prelude.{◌≤◌, IfOk, OnOk, length};
ghost use Rattle.moqanswers.specs.Waiting.{EndsIn};
ghost use Rattle.text.specs.Lines.{line_of};

use console::{Failed, Page};
use replay::{Fed, Progress};
use text::Line;

fn main(rt: HostRuntime) {
    console::say_failed(&rt, "moqanswers", print_trace(&rt));
}

// A field has at most 65,538 bytes, so what is left of one always leaves room to read into. A proved loop has to end,
// and nothing says that an input does: the turns go up to a number that no run comes to.
fn print_trace(rt: &(impl Input + Print)) -> Result<(), Failed> {
    let mut buffer = [0u8; 131072];
    let mut progress = replay::begin();
    let mut left: usize = 0;
    for _ in 0..u64::MAX {
        let n = console::read_behind(rt, &mut buffer, left)?;
        if n == 0 {
            return print_end(rt, progress, left);
        }
        let end = left + n;
        let fed = print_fields(rt, progress, &buffer[..end])?;
        replay::keep(&mut buffer, fed.used, end);
        progress = fed.progress;
        left = end - fed.used;
    }
    Ok(())
}

// The lines of all whole fields from the front of s on.
fn print_fields(rt: &impl Print, mut progress: Progress, s: &[u8]) -> Result<Fed, Failed>
    ensures { IfOk result (λ fed. fed.used ≤ length s.now) }
{
    let mut page = Page::new();
    let mut used: usize = 0;
    while let Some(told) = answers::tell(progress, s, used) {
        print_line(rt, &mut page, &told.line)?;
        progress = told.progress;
        used = told.used;
    }
    page.flush(rt)?;
    Ok(Fed { progress, used })
}

// A line goes to the page, whole, behind what waits there.
fn print_line(rt: &impl Print, page: &mut Page, line: &Line) -> Result<(), Failed>
    ensures { OnOk result (EndsIn page.new.bytes page.new.used (line_of line.now)) }
{
    if line.as_slice().is_empty() {
        return Ok(());
    }
    page.make_room(rt, text::LONGEST_LINE)?;
    if let Some(n) = text::put(&mut page.bytes[page.used..], line) {
        page.used += n;
    }
    Ok(())
}

// The line of the trace's end, if it has one.
fn print_end(rt: &impl Print, p: Progress, left: usize) -> Result<(), Failed> {
    let mut page = Page::new();
    print_line(rt, &mut page, &answers::tell_end(p, left))?;
    page.flush(rt)
}
