// The next part: what stands at a cursor, looked for among the bytes.
#![tactic(auto, unfolding(crate::specs::Telling::cut_in, crate::specs::Telling::ended_at, crate::specs::Telling::tell_number, crate::specs::Telling::tell_byte, crate::specs::Telling::tell_bytes, crate::specs::Telling::tell_in, crate::specs::Telling::next_of))]

ghost use Rattle.std.specs.Prelude.{◌≡◌};
ghost use Rattle.types.specs.Refusals.{number_of};
ghost use Rattle.parts.specs.Advancing.{advanced};
ghost use Rattle.parts.specs.Telling.{cut_by, cut_in, must_fill, ended_at, going, tell_number, tell_byte, tell_bytes, tell_in, next_of};

use crate::{Cursor, Expected, NextPart, Part, Stage, Step, What};
use header::OBJECT_DATAGRAM_STATUS;
use layout::FieldName;
use outline::Outline;
use types::Refusal;

// More bytes can come on a stream, and before the body of a message; none in a body, and in a datagram.
fn why_cut(outline: Outline, stage: Stage) -> Refusal
    ensures { number_of result ≡ cut_by outline stage }
{
    match outline {
        Outline::Message(_) => match stage {
            Stage::TypeNumber | Stage::Length => Refusal::More,
            _ => Refusal::Unfilled,
        },
        Outline::Datagram(_) => Refusal::Unfilled,
        Outline::Stream(_) | Outline::SubgroupObject | Outline::FetchObject => Refusal::More,
    }
}

fn must_fill(outline: Outline) -> bool
    ensures { result ≡ must_fill outline }
{
    match outline {
        Outline::Message(_) => true,
        Outline::Datagram(number) => number == OBJECT_DATAGRAM_STATUS,
        Outline::Stream(_) | Outline::SubgroupObject | Outline::FetchObject => false,
    }
}

impl Cursor {
    // The part at a cursor, of what stands at the front of s; and where the next one stands.
    pub fn next(self, s: &[u8]) -> NextPart
        ensures { result ≡ next_of s.now self }
    {
        self.tell(&s[..self.end.min(s.len())])
    }

    // Among the bytes that it may take.
    fn tell(self, s: &[u8]) -> NextPart
        ensures { result ≡ tell_in s.now self }
    {
        match self.expected() {
            Expected::Number(name, what) => self.tell_number(s, name, what),
            Expected::Byte(name) => self.tell_byte(s, name),
            Expected::Bytes(name, what, size) => self.tell_bytes(s, name, what, size),
            Expected::End => self.ended(s.len()),
            Expected::Refused(number) => NextPart {
                step: Step::Refused(number),
                cursor: self,
            },
        }
    }

    fn tell_number(self, s: &[u8], name: FieldName, what: What) -> NextPart
        ensures { result ≡ tell_number s.now self name what }
    {
        let start = self.at;
        match field::read_number(s, start) {
            Ok((value, end)) => self.told(
                Part {
                    name,
                    what,
                    value,
                    start,
                    end,
                },
                s.len(),
            ),
            Err(_) => self.cut(s.len(), name, what),
        }
    }

    fn tell_byte(self, s: &[u8], name: FieldName) -> NextPart
        ensures { result ≡ tell_byte s.now self name }
    {
        let start = self.at;
        if start >= s.len() {
            return self.cut(s.len(), name, What::Byte);
        }
        let value = s[start] as u64;
        self.told(
            Part {
                name,
                what: What::Byte,
                value,
                start,
                end: start + 1,
            },
            s.len(),
        )
    }

    fn tell_bytes(self, s: &[u8], name: FieldName, what: What, size: u64) -> NextPart
        ensures { result ≡ tell_bytes s.now self name what size }
    {
        let start = self.at;
        if start > s.len() || size > (s.len() - start) as u64 {
            return self.cut(s.len(), name, what);
        }
        self.told(
            Part {
                name,
                what,
                value: 0,
                start,
                end: start + size as usize,
            },
            s.len(),
        )
    }

    // A part of len bytes, and where the next one stands.
    fn told(self, part: Part, len: usize) -> NextPart
        ensures { result ≡ going part (advanced self part.value part.end len) }
    {
        NextPart {
            step: Step::Part(part),
            cursor: self.advance(part.value, part.end, len),
        }
    }

    // The bytes end in a part.
    fn cut(self, end: usize, name: FieldName, what: What) -> NextPart
        ensures { result ≡ cut_in end self name what }
    {
        let part = Part {
            name,
            what,
            value: 0,
            start: self.at,
            end,
        };
        NextPart {
            step: Step::Faulty(part, why_cut(self.place.outline, self.stage).number()),
            cursor: self,
        }
    }

    // No field is left: of a body, and of a status datagram, no byte may be left either.
    fn ended(self, len: usize) -> NextPart
        ensures { result ≡ ended_at len self }
    {
        let at = self.at;
        let step = if at < len && must_fill(self.place.outline) {
            let left = Part {
                name: FieldName::MessageLength,
                what: What::Left,
                value: 0,
                start: at,
                end: len,
            };
            Step::Faulty(left, Refusal::Unfilled.number())
        } else {
            Step::Whole(at)
        };
        NextPart { step, cursor: self }
    }
}
