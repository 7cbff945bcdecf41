// What many layouts have in common.
#![tactic(auto, unfolding(crate::specs::Places::listed, layout::specs::Layout::parameters, layout::specs::Layout::place))]

ghost use Rattle.std.specs.Prelude.{◌≡◌};
ghost use Rattle.layout.specs.Layout.{parameters, largest_place};
ghost use Rattle.outline.specs.Places.{listed, rest_of, ahead_of};

use crate::{Ahead, Form};
use field::Kind;
use layout::FieldName;

// The parameters that end many messages.
pub const PARAMETERS: (FieldName, Form) = (FieldName::Parameters, Form::List(Kind::Parameters));

// A layout that is a list of fields, whatever they hold.
pub fn listed(fields: &[(FieldName, Form)], v: &[u64]) -> Ahead
    ensures { result ≡ ahead_of (rest_of (listed fields.now) v.now) }
{
    match fields.get(v.len()) {
        Some((name, form)) => Ahead::Field(*name, *form),
        None => Ahead::Done,
    }
}

pub fn parameters(v: &[u64]) -> Ahead
    ensures { result ≡ ahead_of (rest_of parameters v.now) }
{
    listed(&[PARAMETERS], v)
}

// And before them the place where a track's content ends.
pub fn largest_place(v: &[u64]) -> Ahead
    ensures { result ≡ ahead_of (rest_of largest_place v.now) }
{
    listed(
        &[
            (FieldName::LargestGroupId, Form::Integer),
            (FieldName::LargestObjectId, Form::Integer),
            PARAMETERS,
        ],
        v,
    )
}
