// A control stream, message by message.
ghost use Rattle.std.specs.Prelude.{◌<◌, ◌≤◌, IfOk, IfSome, length};

use crate::writing::print;
use console::{Failed, Page};
use explanation::Explaining;
use types::Refusal;

// A message has at most 65,016 bytes, so what is left of one always leaves room to read into. The turns are
// counted as those of a trace.
pub fn explain(rt: &(impl Input + Print)) -> Result<(), Failed> {
    let mut buffer = [0u8; 131072];
    let mut offset: u64 = 0;
    let mut left: usize = 0;
    for _ in 0..u64::MAX {
        let n = console::read_behind(rt, &mut buffer, left)?;
        let end = left + n;
        let Some(used) = print_messages(rt, &buffer[..end], offset, n == 0)? else {
            break;
        };
        replay::keep(&mut buffer, used, end);
        offset = offset.wrapping_add(used as u64);
        left = end - used;
    }
    Ok(())
}

// Where the message at an offset ends.
fn find(s: &[u8], at: usize) -> Result<usize, Refusal>
    requires { at ≤ length s.now }
    ensures { IfOk result (λ end. (at < end) × (end ≤ length s.now)) }
{
    let (_, used) = message::read(&s[at..])?;
    Ok(at + used)
}

// The lines of all messages from the front of s on, whose first byte has that offset. It answers how many bytes they
// are; nothing where no more can come.
fn print_messages(
    rt: &impl Print,
    s: &[u8],
    offset: u64,
    last: bool,
) -> Result<Option<usize>, Failed>
    ensures { IfOk result (λ more. IfSome more (λ used. used ≤ length s.now)) }
{
    let mut page = Page::new();
    let mut used: usize = 0;
    while let Ok(end) = find(s, used) {
        print_message(
            rt,
            &mut page,
            &s[used..end],
            offset.wrapping_add(used as u64),
        )?;
        used = end;
    }
    let rest = &s[used..];
    let is_end = last || is_refused(rest);
    if is_end && !rest.is_empty() {
        print_message(rt, &mut page, rest, offset.wrapping_add(used as u64))?;
    }
    page.flush(rt)?;
    Ok((!is_end).then_some(used))
}

fn print_message(rt: &impl Print, page: &mut Page, s: &[u8], offset: u64) -> Result<(), Failed> {
    print(rt, page, s, Explaining::begin_message(s, offset))
}

// Whether bytes are not the beginning of a message, whatever comes behind them.
fn is_refused(s: &[u8]) -> bool {
    matches!(find(s, 0), Err(why) if why != Refusal::More)
}
