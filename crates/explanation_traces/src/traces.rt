// A trace: its fields, as they are taken, and its end.
#![tactic(auto, unfolding(crate::specs::Traces::reason_of, columns::specs::Pouring::pour, text::specs::Lines::line_of))]

ghost use Rattle.std.specs.Prelude.{◌≡◌, []};
ghost use Rattle.text.specs.Lines.{line_of, fault_line as trace_fault};
ghost use Rattle.replay.specs.Progressing.{on_fault, verdict_of};
ghost use Rattle.columns.specs.Pouring.{filling, pour};
ghost use Rattle.explanation_traces.specs.Traces.{is_empty, reason_of, ending_by, shown_in, explaining_by, taken_at, ends_inside, end_reason, end_text};

use crate::FieldTaken;
use columns::{put_byte, put_item, put_spaces};
use explanation::{Ending, Explaining, Reason, tag_of};
use explanation_lines::{Word, put_cut_field, put_reason};
use ledger::Answer;
use replay::{Event, Progress, Stage};
use text::Item;

// Why a field would be at fault: its tag; that it isn't due; or that its value has another shape.
fn reason_of(stage: Stage, tag: u8) -> Reason
    ensures { result ≡ reason_of stage tag }
{
    match (tag, matches!(stage, Stage::Empty)) {
        (1, true) => Reason::NoStart,
        (1, false) => Reason::SecondStart,
        (2 | 3, true) => Reason::NotFirst,
        (2, false) => Reason::NoMessage,
        (3, false) => Reason::NoArrival,
        _ => Reason::NoTag,
    }
}

// Nothing is said to a fault alone, so no other event ends by 0 and 0.
fn ending_by(e: Event, said: Option<Answer>, reason: Reason) -> Ending
    ensures { result ≡ ending_by e (verdict_of said) reason }
{
    match (e, said) {
        (Event::Fault, _) => Ending::Fault(reason),
        (_, Some(answer)) => Ending::Answered(ledger::number(answer), ledger::broken(answer)),
        (_, None) => Ending::Answered(0, 0),
    }
}

// After a fault nothing is shown.
fn shown_in(stage: Stage, e: Explaining) -> Explaining
    ensures { result ≡ shown_in stage e }
{
    match stage {
        Stage::Empty | Stage::Running => e,
        Stage::Faulty(_) => e.over(),
    }
}

// A field, by the event that it is and the answer to it.
fn explain(stage: Stage, offset: u64, field: &[u8], e: Event, said: Option<Answer>) -> Explaining
    ensures { result ≡ explaining_by stage offset field.now e (verdict_of said) }
{
    let ending = ending_by(e, said, reason_of(stage, tag_of(field)));
    shown_in(stage, Explaining::begin_field(field, offset, ending))
}

// The field at an offset is taken, where a whole one stands there.
pub fn tell(p: Progress, s: &[u8], at: usize) -> Option<FieldTaken>
    ensures { result ≡ taken_at p s.now at }
{
    let f = trace::field_at(s, at)?;
    let stepped = p.step(replay::event_of(f.tag, &s[f.start..f.end]), f.end - at);
    Some(FieldTaken {
        explaining: explain(
            p.stage,
            p.offset,
            &s[at..f.end],
            stepped.event,
            stepped.said,
        ),
        progress: stepped.progress,
        used: f.end,
    })
}

// Why the trace's end is at fault, where rest is left of a field.
fn put_end_reason(out: &mut [u8], at: usize, stage: Stage, offset: u64, rest: &[u8]) -> usize
    ensures { filling out.new result ≡ pour (filling out.old at)
        (end_reason stage offset rest.now) }
{
    match stage {
        Stage::Faulty(_) => at,
        Stage::Empty if rest.len() == 0 => put_reason(out, at, Word::NoBytes),
        Stage::Running if rest.len() == 0 => at,
        _ => put_ends_inside(out, at, offset, rest),
    }
}

fn put_ends_inside(out: &mut [u8], at: usize, offset: u64, rest: &[u8]) -> usize
    ensures { filling out.new result ≡ pour (filling out.old at)
        (ends_inside offset rest.now) }
{
    let next = put_cut_field(out, at, offset, rest);
    put_reason(out, next, Word::EndsInside)
}

// The trace ends here, and rest stands after its last whole field.
pub fn put_end(out: &mut [u8], at: usize, p: Progress, rest: &[u8]) -> usize
    ensures { filling out.new result ≡ pour (filling out.old at)
        (end_text p rest.now) }
{
    let next = put_end_reason(out, at, p.stage, p.offset, rest);
    put_trace_fault(out, next, p.finish(rest.len()).stage)
}

// The last line of a trace that is at fault.
fn put_trace_fault(out: &mut [u8], at: usize, stage: Stage) -> usize
    ensures { filling out.new result ≡ pour (filling out.old at)
        (line_of (on_fault stage trace_fault [])) }
{
    match stage {
        Stage::Empty => put_fault_at(out, at, 0),
        Stage::Running => at,
        Stage::Faulty(offset) => put_fault_at(out, at, offset),
    }
}

fn put_fault_at(out: &mut [u8], at: usize, offset: u64) -> usize
    ensures { filling out.new result ≡ pour (filling out.old at) (line_of (trace_fault offset)) }
{
    let said = put_item(out, at, Item::Word(text::Word::TraceFaultAt));
    let spaced = put_spaces(out, said, 1);
    let next = put_item(out, spaced, Item::Number(offset));
    put_byte(out, next, b'\n')
}
