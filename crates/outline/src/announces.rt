// The layouts of the nine messages about namespaces: a namespace, and what follows it.
#![tactic(auto, unfolding(crate::specs::Places::listed, layout::specs::Layout::failure, layout::specs::Layout::parameters, types::specs::Announces::named))]

ghost use Rattle.std.specs.Prelude.{◌≡◌};
ghost use Rattle.layout.specs.Layout.{done, failure, parameters};
ghost use Rattle.types.specs.Announces.{named};
ghost use Rattle.outline.specs.Places.{rest_of, ahead_of};

use crate::shared::{PARAMETERS, listed};
use crate::{Ahead, Form};
use field::Kind;
use layout::FieldName;

// Nothing follows it.
pub fn alone(v: &[u64], name: FieldName) -> Ahead
    ensures { result ≡ ahead_of (rest_of (named name done) v.now) }
{
    listed(&[(name, Form::List(Kind::Namespace))], v)
}

pub fn with_parameters(v: &[u64], name: FieldName) -> Ahead
    ensures { result ≡ ahead_of (rest_of (named name parameters) v.now) }
{
    listed(&[(name, Form::List(Kind::Namespace)), PARAMETERS], v)
}

pub fn with_failure(v: &[u64], name: FieldName) -> Ahead
    ensures { result ≡ ahead_of (rest_of (named name (failure done)) v.now) }
{
    listed(
        &[
            (name, Form::List(Kind::Namespace)),
            (FieldName::ErrorCode, Form::Integer),
            (FieldName::ReasonPhrase, Form::Bytes),
        ],
        v,
    )
}
