// Cursors: the first, and one that stands further on.
#![tactic(auto, unfolding(crate::specs::Cursors::ahead_by, crate::specs::Cursors::behind, crate::specs::Cursors::begin_of, crate::specs::Cursors::hand_on))]

ghost use Rattle.std.specs.Prelude.{◌≡◌, length};
ghost use Rattle.parts.specs.Cursors.{ahead_by, behind, begin_of, outline_by, first_stage, onward, hand_on};

use crate::{Cursor, MOST_FIELDS, Place, Stage, Subject};
use outline::{Ahead, Outline};

impl Subject {
    // What is laid out, before its type is known.
    fn outline(self) -> Outline
        ensures { result ≡ outline_by self }
    {
        match self {
            Subject::Message => Outline::Message(0),
            Subject::Datagram => Outline::Datagram(0),
            Subject::Stream => Outline::Stream(0),
            Subject::SubgroupObject => Outline::SubgroupObject,
            Subject::FetchObject => Outline::FetchObject,
        }
    }

    // The header of an object has no type.
    fn first_stage(self) -> Stage
        ensures { result ≡ first_stage self }
    {
        match self {
            Subject::Message | Subject::Datagram | Subject::Stream => Stage::TypeNumber,
            Subject::SubgroupObject | Subject::FetchObject => Stage::Field,
        }
    }
}

impl Place {
    // What stands there.
    pub(crate) fn ahead(self) -> Ahead
        ensures { result ≡ ahead_by self }
    {
        outline::look_ahead(self.outline, &self.numbers[..self.passed.min(MOST_FIELDS)])
    }

    // The place behind that field, which hands on n.
    fn behind(self, n: u64) -> Place
        ensures { result ≡ behind self n }
    {
        if self.passed >= MOST_FIELDS {
            return self;
        }
        let mut numbers = self.numbers;
        numbers[self.passed] = n;
        Place {
            numbers,
            passed: self.passed + 1,
            ..self
        }
    }
}

impl Cursor {
    // Before the first part of what stands at the front of s.
    pub fn begin(subject: Subject, s: &[u8]) -> Cursor
        ensures { result ≡ begin_of subject (length s.now) }
    {
        Cursor {
            place: Place {
                outline: subject.outline(),
                numbers: [0; MOST_FIELDS],
                passed: 0,
            },
            stage: subject.first_stage(),
            at: 0,
            end: s.len(),
        }
    }

    // At another stage, further on.
    pub(crate) fn onward(self, stage: Stage, at: usize) -> Cursor
        ensures { result ≡ onward self stage at }
    {
        Cursor { stage, at, ..self }
    }

    // Behind a field, which hands on n.
    pub(crate) fn hand_on(self, n: u64, at: usize) -> Cursor
        ensures { result ≡ hand_on self n at }
    {
        Cursor {
            place: self.place.behind(n),
            stage: Stage::Field,
            at,
            ..self
        }
    }
}
