// moqreport: reads a trace from standard input to its end, and prints its report. It holds a piece of the trace at a
// time, whatever the trace's length.
#![tactic(auto)]

ghost use Rattle.std.specs.Prelude.{◌≤◌, length};
ghost use Rattle.common.specs.Buffer.{Put};
ghost use Rattle.replay.specs.Progressing.{finish_of};
ghost use Rattle.report.specs.Report.{text_of, longest_report};

use console::Failed;
use replay::Progress;

fn main(rt: HostRuntime) {
    console::say_failed(&rt, "moqreport", report(&rt));
}

// A field has at most 65,538 bytes, so what is left of one always leaves room to read into. A proved loop has to end,
// and nothing says that an input does: the turns go up to a number that no run comes to.
fn report(rt: &(impl Input + Print)) -> Result<(), Failed> {
    let mut buffer = [0u8; 131072];
    let mut progress = replay::begin();
    let mut left: usize = 0;
    for _ in 0..u64::MAX {
        let n = console::read_behind(rt, &mut buffer, left)?;
        if n == 0 {
            return print(rt, progress, left);
        }
        let advanced = progress.advance(&mut buffer, left + n);
        progress = advanced.progress;
        left = advanced.left;
    }
    Ok(())
}

// The report, where it has room.
fn put(out: &mut [u8], p: Progress, left: usize) -> usize
    requires { longest_report ≤ length out.old }
    ensures { Put (text_of (finish_of p left)) out.old result out.new }
{
    report::of_progress(p, left, out).unwrap_or(0)
}

fn print(rt: &impl Print, p: Progress, left: usize) -> Result<(), Failed> {
    let mut out = [0u8; report::LONGEST_REPORT];
    let n = put(&mut out, p, left);
    console::write(rt, &out[..n])
}
