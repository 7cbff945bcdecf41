// The line of a field.
ghost use Rattle.std.specs.Prelude.{◌≡◌};
ghost use Rattle.replay.specs.Progressing.{verdict_of};
ghost use Rattle.answers.specs.Answers.{offset_line, malformed_line, line_by, fault_items, end_items, taken_at};

use crate::FieldLine;
use ledger::Answer;
use replay::{Event, Progress, Stage};
use text::{Item, Line, Word};

// Document 01's number of what was said, 0 where nothing was.
fn number(said: Option<Answer>) -> u8
    ensures { result ≡ (verdict_of said).number }
{
    match said {
        Some(answer) => ledger::number(answer),
        None => 0,
    }
}

// The rule of a 13, 0 with anything else.
fn rule(said: Option<Answer>) -> u8
    ensures { result ≡ (verdict_of said).rule }
{
    match said {
        Some(answer) => ledger::broken(answer),
        None => 0,
    }
}

// The offset of its tag, what it is and the answer; with a 13 its rule.
fn answer_line(offset: u64, what: Item, said: Option<Answer>) -> Line
    ensures { result ≡ offset_line offset what (verdict_of said) }
{
    let n = Item::Number(number(said) as u64);
    match rule(said) {
        0 => Line::of([Item::Number(offset), what, n]),
        rule => Line::of([Item::Number(offset), what, n, Item::Rule(rule as u64)]),
    }
}

// The reader's number stands before the ledger's answer. (It stays beside `answer_line`: a list of one item more is an
// array of another size, and a size that is a sum is no const argument.)
fn malformed_line(offset: u64, refusal: u8, said: Option<Answer>) -> Line
    ensures { result ≡ malformed_line offset refusal (verdict_of said) }
{
    let what = Item::Word(Word::Malformed);
    let why = Item::Number(refusal as u64);
    let n = Item::Number(number(said) as u64);
    match rule(said) {
        0 => Line::of([Item::Number(offset), what, why, n]),
        rule => Line::of([Item::Number(offset), what, why, n, Item::Rule(rule as u64)]),
    }
}

fn line(offset: u64, e: Event, said: Option<Answer>) -> Line
    ensures { result ≡ line_by offset e (verdict_of said) }
{
    match e {
        Event::Start(_, _) => answer_line(offset, Item::Word(Word::Start), said),
        Event::Control(m) => answer_line(offset, Item::Name(message_writer::number(m)), said),
        Event::Malformed(refusal) => malformed_line(offset, refusal, said),
        Event::Arrived(_) => answer_line(offset, Item::Word(Word::Arrival), said),
        Event::Fault => Line::of([]),
    }
}

// The field at an offset is taken, where a whole one stands.
pub fn tell(p: Progress, s: &[u8], at: usize) -> Option<FieldLine>
    ensures { result ≡ taken_at p s.now at }
{
    let f = trace::field_at(s, at)?;
    let stepped = p.step(replay::event_of(f.tag, &s[f.start..f.end]), f.end - at);
    Some(FieldLine {
        line: line(p.offset, stepped.event, stepped.said),
        progress: stepped.progress,
        used: f.end,
    })
}

fn fault_line(stage: Stage) -> Line
    ensures { result ≡ fault_items stage }
{
    match stage {
        Stage::Empty => text::fault_line(0),
        Stage::Running => Line::of([]),
        Stage::Faulty(at) => text::fault_line(at),
    }
}

// The trace ends here, and left bytes stand after its last whole field: the line says where it is at fault. One that
// isn't has a line of no items.
pub fn tell_end(p: Progress, left: usize) -> Line
    ensures { result ≡ end_items p left }
{
    fault_line(p.finish(left).stage)
}
