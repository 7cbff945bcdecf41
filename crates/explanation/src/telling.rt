// Which line comes next.
#![tactic(auto, unfolding(crate::specs::Telling::due_after, crate::specs::Telling::message_begun))]

ghost use Rattle.std.specs.Prelude.{◌≡◌, slice_index};
ghost use Rattle.columns.specs.Pouring.{filling, pour};
ghost use Rattle.explanation.specs.Telling.{duly, due_after, field_told, after_step, part_told, ending_line, next_told, Tells, field_begun, message_begun, is_nothing};
ghost use Rattle.explanation.specs.declared.Due.TheVariants.{Ending as TheEnding, Nothing};

use crate::{Due, Ending, Explaining, NextLines, Reason};
use explanation_lines::{Word, put_answer, put_field_line, put_field_value, put_reason, put_step};
use parts::{Cursor, NextPart, Step, Subject};

impl Explaining {
    // A field, whose tag has that offset.
    pub fn begin_field(field: &[u8], offset: u64, ending: Ending) -> Explaining
        ensures { result ≡ field_begun field.now offset ending }
    {
        let start = 3usize.min(field.len());
        Explaining {
            due: Due::Field,
            cursor: Cursor::begin(Subject::Message, &field[start..]),
            ending,
            offset,
            start: 3,
        }
    }

    // A message of a control stream, whose first byte has that offset, at the front of s.
    pub fn begin_message(s: &[u8], offset: u64) -> Explaining
        ensures { result ≡ message_begun s.now offset }
    {
        Explaining {
            due: Due::Part,
            cursor: Cursor::begin(Subject::Message, s),
            ending: Ending::Read,
            offset,
            start: 0,
        }
    }

    // Whether nothing is left to be explained.
    pub fn is_over(self) -> bool
        ensures { result ≡ is_nothing self.due }
    {
        matches!(self.due, Due::Nothing)
    }

    // With no line due: nothing of it is told.
    pub fn over(self) -> Explaining
        ensures { result ≡ duly self Nothing }
    {
        Explaining {
            due: Due::Nothing,
            ..self
        }
    }

    // The next lines of a field, or of a message of a control stream.
    pub fn next(self, out: &mut [u8], at: usize, field: &[u8]) -> NextLines
        ensures { Tells (next_told field.now self) out.old at result out.new }
    {
        match self.due {
            Due::Field => self.tell_field(out, at, field),
            Due::Part => self.tell_part(out, at, field),
            Due::Ending(read) => NextLines {
                at: put_ending(out, at, self.ending, read),
                next: self.over(),
            },
            Due::Nothing => NextLines { at, next: self },
        }
    }

    // A field: its line, and where it is a start or an arrival its value.
    fn tell_field(self, out: &mut [u8], at: usize, field: &[u8]) -> NextLines
        ensures { Tells (field_told field.now self) out.old at result out.new }
    {
        let tag = tag_of(field);
        let start = self.start.min(field.len());
        let offset = self.offset.wrapping_add(self.start as u64);
        let line = put_field_line(out, at, self.offset, field);
        NextLines {
            at: put_field_value(out, line, tag, offset, &field[start..]),
            next: Explaining {
                due: due_after(tag),
                ..self
            },
        }
    }

    // The part at the cursor.
    fn tell_part(self, out: &mut [u8], at: usize, field: &[u8]) -> NextLines
        ensures { Tells (part_told field.now self) out.old at result out.new }
    {
        let start = self.start.min(field.len());
        let offset = self.offset.wrapping_add(self.start as u64);
        let value = &field[start..];
        let told = self.cursor.next(value);
        NextLines {
            at: put_step(out, at, offset, value, told.step),
            next: self.after_step(told),
        }
    }

    // What is left then: after a refused part, only the ending.
    fn after_step(self, told: NextPart) -> Explaining
        ensures { result ≡ after_step told.step told.cursor self }
    {
        match told.step {
            Step::Part(_) => Explaining {
                cursor: told.cursor,
                ..self
            },
            Step::Refused(number) => self.ending(number),
            Step::Faulty(_, number) => self.ending(number),
            Step::Whole(_) => self.ending(0),
        }
    }

    // With the ending due, below what the reader answered: a refusal's number, or 0 for a whole message.
    fn ending(self, read: u8) -> Explaining
        ensures { result ≡ duly self (TheEnding read) }
    {
        Explaining {
            due: Due::Ending(read),
            ..self
        }
    }
}

// What is due behind the line of a field.
fn due_after(tag: u8) -> Due
    ensures { result ≡ due_after tag }
{
    if tag == 2 { Due::Part } else { Due::Ending(0) }
}

// The tag of a field, or 0 where there is none.
pub fn tag_of(field: &[u8]) -> u8
    ensures { result ≡ slice_index field.now 0 }
{
    match field {
        [] => 0,
        [tag, ..] => *tag,
    }
}

impl From<Reason> for Word {
    ghost use Rattle.explanation.specs.Telling.{reason_word};

    ghost from_gives = { λ reason word. word ≡ reason_word reason };

    fn from(reason: Reason) -> Word {
        match reason {
            Reason::NoTag => Word::NoTag,
            Reason::NotFirst => Word::NotFirst,
            Reason::SecondStart => Word::SecondStart,
            Reason::NoStart => Word::NoStart,
            Reason::NoMessage => Word::NoMessage,
            Reason::NoArrival => Word::NoArrival,
        }
    }
}

// What stands below the parts.
fn put_ending(out: &mut [u8], at: usize, ending: Ending, read: u8) -> usize
    ensures { filling out.new result ≡ pour (filling out.old at) (ending_line ending read) }
{
    match ending {
        Ending::Answered(number, rule) => put_answer(out, at, number, rule),
        Ending::Fault(reason) => put_reason(out, at, reason.into()),
        Ending::Read => put_answer(out, at, read, 0),
    }
}
