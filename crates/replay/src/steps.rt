// How far a trace was taken, and one event more.
ghost use Rattle.std.specs.Prelude.{◌≡◌};
ghost use Rattle.replay.specs.Progressing.{due_of, first_fault, goes_on, heard_of, step_of, begun, end_stage, finish_of, told_heard, told_step};
ghost use Rattle.ledger.specs.Answers.{told};

use crate::{Event, Heard, Progress, Stage, Stepped};
use ledger::{MOST_ROWS, Part, Taken};

// Before a trace's first byte.
pub fn begin() -> Progress
    ensures { result ≡ begun }
{
    Progress {
        ledger: ledger::start(Part::Subscriber, MOST_ROWS, 0).ledger,
        stage: Stage::Empty,
        offset: 0,
    }
}

impl Progress {
    // An event, whose field has size bytes, is taken.
    pub fn step(self, e: Event, size: usize) -> Stepped
        ensures { told_step result ≡ step_of self e size }
    {
        let event = due(self.stage, e);
        let heard = hear(self, event);
        Stepped {
            event,
            said: heard.said,
            progress: Progress {
                ledger: heard.ledger,
                stage: heard.stage,
                offset: self.offset.wrapping_add(size as u64),
            },
        }
    }

    // The trace ends here, and left bytes stand after its last whole field.
    pub fn finish(self, left: usize) -> Progress
        ensures { result ≡ finish_of self left }
    {
        Progress {
            stage: last_stage(self.stage, self.offset, left),
            ..self
        }
    }
}

// A start is due first, and once; anything else after it.
fn due(stage: Stage, e: Event) -> Event
    ensures { result ≡ due_of stage e }
{
    match (stage, matches!(e, Event::Start(_, _))) {
        (Stage::Empty, true) | (Stage::Running, false) => e,
        _ => Event::Fault,
    }
}

// The ledger takes what is due.
fn hear(p: Progress, e: Event) -> Heard
    ensures { told_heard result ≡ heard_of p e }
{
    match e {
        Event::Start(part, maximum) => heard(ledger::start(part, MOST_ROWS, maximum)),
        Event::Control(m) => heard(p.ledger.take(m)),
        Event::Malformed(_) => heard(p.ledger.malformed()),
        Event::Arrived(a) => heard(p.ledger.arrival(a)),
        Event::Fault => Heard {
            said: None,
            ledger: p.ledger,
            stage: first_fault(p.stage, p.offset),
        },
    }
}

fn heard(t: Taken) -> Heard
    ensures { told_heard result ≡ goes_on (told t) }
{
    Heard {
        said: Some(t.answer),
        ledger: t.ledger,
        stage: Stage::Running,
    }
}

// The first fault decides.
fn first_fault(stage: Stage, offset: u64) -> Stage
    ensures { result ≡ first_fault stage offset }
{
    match stage {
        Stage::Empty | Stage::Running => Stage::Faulty(offset),
        Stage::Faulty(_) => stage,
    }
}

// Nothing at all is a fault at 0; a field that is cut is one at its tag.
fn last_stage(stage: Stage, offset: u64, left: usize) -> Stage
    ensures { result ≡ end_stage stage offset left }
{
    match stage {
        Stage::Empty => Stage::Faulty(0),
        Stage::Running if left != 0 => Stage::Faulty(offset),
        _ => stage,
    }
}
