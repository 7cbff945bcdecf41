// Where the next part stands, once a part was read.
#![tactic(auto, unfolding(crate::specs::Advancing::after_type, crate::specs::Advancing::after_length, crate::specs::Advancing::counted_by, crate::specs::Advancing::entries_left, crate::specs::Advancing::bounded_by, crate::specs::Advancing::advanced))]

ghost use Rattle.std.specs.Prelude.{◌≡◌};
ghost use Rattle.parts.specs.Advancing.{typed_as, behind_type, after_type, after_length, after_first, counted_by, entries_left, after_entry, bounded_by, held_with, advanced_in, advanced};

use crate::expecting::kind_in;
use crate::{Cursor, Place, Stage};
use field::{Kind, LONGEST_TRACK};
use outline::{Ahead, Form, Outline};
use types::{LONGEST_BODY, Refusal};

// What is laid out, by its type.
fn typed_as(outline: Outline, number: u64) -> Outline
    ensures { result ≡ typed_as outline number }
{
    match outline {
        Outline::Message(_) => Outline::Message(number),
        Outline::Datagram(_) => Outline::Datagram(number),
        Outline::Stream(_) => Outline::Stream(number),
        Outline::SubgroupObject => Outline::SubgroupObject,
        Outline::FetchObject => Outline::FetchObject,
    }
}

// A type is known that has a layout; a message's Length comes before its fields.
fn behind_type(ahead: Ahead, outline: Outline) -> Stage
    ensures { result ≡ behind_type ahead outline }
{
    match ahead {
        Ahead::Forbidden => Stage::Refused(Refusal::Unknown.number()),
        Ahead::Done => Stage::Field,
        Ahead::Field(_, _) => match outline {
            Outline::Message(_) => Stage::Length,
            Outline::Datagram(_) | Outline::Stream(_) => Stage::Field,
            Outline::SubgroupObject | Outline::FetchObject => Stage::Field,
        },
    }
}

// How many bytes are held with n more; past the size of a track it makes no difference.
fn held_with(held: usize, n: u64) -> usize
    ensures { result ≡ held_with held n }
{
    held.saturating_add(n as usize).min(LONGEST_TRACK)
}

impl Cursor {
    fn after_type(self, number: u64, at: usize) -> Cursor
        ensures { result ≡ after_type self number at }
    {
        let outline = typed_as(self.place.outline, number);
        let stage = behind_type(outline::look_ahead(outline, &[]), outline);
        let place = Place {
            outline,
            ..self.place
        };
        Cursor {
            place,
            stage,
            at,
            ..self
        }
    }

    // The Length is at most 65,000, and the whole body present, among len bytes; the fields are looked for in it alone.
    fn after_length(self, size: u64, at: usize, len: usize) -> Cursor
        ensures { result ≡ after_length self size at len }
    {
        if size > LONGEST_BODY as u64 {
            return self.onward(Stage::Refused(Refusal::TooLong.number()), at);
        }
        if size > len.saturating_sub(at) as u64 {
            return self.onward(Stage::Refused(Refusal::More.number()), at);
        }
        Cursor {
            stage: Stage::Field,
            at,
            end: at + size as usize,
            ..self
        }
    }

    // What a field began with: a number or a byte is all of it; a length or a count says what follows.
    fn after_first(self, form: Form, n: u64, at: usize) -> Cursor
        ensures { result ≡ after_first self form n at }
    {
        match form {
            Form::Integer | Form::Byte => self.hand_on(n, at),
            Form::Bytes => self.onward(Stage::Content(n), at),
            Form::List(kind) => self.counted(form, kind, n, at),
            Form::Track => self.counted(form, Kind::Namespace, n, at),
        }
    }

    // A count is judged before an entry is looked for.
    fn counted(self, form: Form, kind: Kind, count: u64, at: usize) -> Cursor
        ensures { result ≡ counted_by self form kind count at }
    {
        if !field::is_few(kind, count) {
            return self.onward(Stage::Refused(Refusal::Oversize.number()), at);
        }
        self.entries_left(form, count, 0, at)
    }

    // That many entries are left, when those before hold that many bytes. Behind a track's namespace stands its name.
    fn entries_left(self, form: Form, left: u64, held: usize, at: usize) -> Cursor
        ensures { result ≡ entries_left self form left held at }
    {
        if left > 0 {
            return self.onward(Stage::Entry(left, held), at);
        }
        match form {
            Form::Track => self.onward(Stage::NameLength(held), at),
            Form::List(_) | Form::Integer | Form::Byte | Form::Bytes => self.hand_on(0, at),
        }
    }

    // What an entry began with: its length; its own number, and its length stands behind it; or all of it.
    fn after_entry(self, form: Form, left: u64, held: usize, n: u64, at: usize) -> Cursor
        ensures { result ≡ after_entry self form left held n at }
    {
        match kind_in(form) {
            Kind::Namespace => self.bounded(held, n, Stage::EntryContent(left, held, n), at),
            Kind::Parameters => self.onward(Stage::EntryLength(left, held), at),
            Kind::Versions => self.entries_left(form, left.saturating_sub(1), held, at),
        }
    }

    // A length of n bytes in a track, of whose bytes that many are held: over a size, or what stands behind it.
    fn bounded(self, held: usize, n: u64, stage: Stage, at: usize) -> Cursor
        ensures { result ≡ bounded_by self held n stage at }
    {
        if n > field::most(true, Kind::Namespace, held) {
            return self.onward(Stage::Refused(Refusal::Oversize.number()), at);
        }
        self.onward(stage, at)
    }

    // In a field.
    fn advance_in(self, form: Form, n: u64, at: usize) -> Cursor
        ensures { result ≡ advanced_in self form n at }
    {
        match self.stage {
            Stage::TypeNumber | Stage::Length | Stage::Refused(_) => self,
            Stage::Field => self.after_first(form, n, at),
            Stage::Content(_) => self.hand_on(0, at),
            Stage::Entry(left, held) => self.after_entry(form, left, held, n, at),
            Stage::EntryLength(left, held) => self.onward(Stage::EntryContent(left, held, n), at),
            Stage::EntryContent(left, held, size) => {
                self.entries_left(form, left.saturating_sub(1), held_with(held, size), at)
            }
            Stage::NameLength(held) => self.bounded(held, n, Stage::Content(n), at),
        }
    }

    // After a part that holds the number n and ends at an offset of len bytes.
    pub(crate) fn advance(self, n: u64, at: usize, len: usize) -> Cursor
        ensures { result ≡ advanced self n at len }
    {
        match self.stage {
            Stage::TypeNumber => self.after_type(n, at),
            Stage::Length => self.after_length(n, at, len),
            Stage::Refused(_) => self,
            _ => match self.place.ahead() {
                Ahead::Field(_, form) => self.advance_in(form, n, at),
                Ahead::Done | Ahead::Forbidden => self,
            },
        }
    }
}
