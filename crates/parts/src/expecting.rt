// What stands at a cursor, by its place in the layout and its stage.
#![tactic(auto, unfolding(crate::specs::Expecting::expected_of))]

ghost use Rattle.std.specs.Prelude.{◌≡◌};
ghost use Rattle.parts.specs.Expecting.{kind_in, expected_of, expected_in, expected_ahead, first_of, entry_first};

use crate::{Cursor, Expected, Stage, What};
use field::Kind;
use layout::FieldName;
use outline::{Ahead, Form};
use types::Refusal;

// What the entries of a form are; a track's are those of its namespace.
pub fn kind_in(form: Form) -> Kind
    ensures { result ≡ kind_in form }
{
    match form {
        Form::List(kind) => kind,
        Form::Track | Form::Integer | Form::Byte | Form::Bytes => Kind::Namespace,
    }
}

impl Cursor {
    pub(crate) fn expected(self) -> Expected
        ensures { result ≡ expected_of self }
    {
        match self.stage {
            Stage::TypeNumber => Expected::Number(FieldName::MessageType, What::Number),
            Stage::Length => Expected::Number(FieldName::MessageLength, What::Length),
            Stage::Refused(number) => Expected::Refused(number),
            _ => expected_ahead(self.place.ahead(), self.stage),
        }
    }
}

fn expected_ahead(ahead: Ahead, stage: Stage) -> Expected
    ensures { result ≡ expected_ahead ahead stage }
{
    match ahead {
        Ahead::Field(name, form) => expected_in(name, form, stage),
        Ahead::Done => Expected::End,
        Ahead::Forbidden => Expected::Refused(Refusal::Forbidden.number()),
    }
}

// In a field.
fn expected_in(name: FieldName, form: Form, stage: Stage) -> Expected
    ensures { result ≡ expected_in name form stage }
{
    match stage {
        Stage::Content(size) => Expected::Bytes(name, What::Content, size),
        Stage::Entry(_, _) => entry_first(name, kind_in(form)),
        Stage::EntryLength(_, _) => Expected::Number(name, What::EntryLength),
        Stage::EntryContent(_, _, size) => Expected::Bytes(name, What::EntryContent, size),
        Stage::NameLength(_) => Expected::Number(name, What::Length),
        _ => first(name, form),
    }
}

// What a field begins with.
fn first(name: FieldName, form: Form) -> Expected
    ensures { result ≡ first_of name form }
{
    match form {
        Form::Integer => Expected::Number(name, What::Number),
        Form::Byte => Expected::Byte(name),
        Form::Bytes => Expected::Number(name, What::Length),
        Form::List(_) | Form::Track => Expected::Number(name, What::Count),
    }
}

// What an entry begins with.
fn entry_first(name: FieldName, kind: Kind) -> Expected
    ensures { result ≡ entry_first name kind }
{
    match kind {
        Kind::Namespace => Expected::Number(name, What::EntryLength),
        Kind::Parameters | Kind::Versions => Expected::Number(name, What::EntryNumber),
    }
}
