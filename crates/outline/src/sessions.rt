// The layouts of CLIENT_SETUP, SERVER_SETUP and GOAWAY.
#![tactic(auto, unfolding(crate::specs::Places::listed, layout::specs::Layout::parameters, types::specs::Sessions::client_setup, types::specs::Sessions::go_away, types::specs::Sessions::server_setup))]

ghost use Rattle.std.specs.Prelude.{◌≡◌};
ghost use Rattle.types.specs.Sessions.{client_setup, server_setup, go_away};
ghost use Rattle.outline.specs.Places.{rest_of, ahead_of};

use crate::shared::{PARAMETERS, listed};
use crate::{Ahead, Form};
use field::Kind;
use layout::FieldName;

pub fn client_setup(v: &[u64]) -> Ahead
    ensures { result ≡ ahead_of (rest_of client_setup v.now) }
{
    listed(
        &[
            (FieldName::SupportedVersions, Form::List(Kind::Versions)),
            PARAMETERS,
        ],
        v,
    )
}

pub fn server_setup(v: &[u64]) -> Ahead
    ensures { result ≡ ahead_of (rest_of server_setup v.now) }
{
    listed(
        &[(FieldName::SelectedVersion, Form::Integer), PARAMETERS],
        v,
    )
}

pub fn go_away(v: &[u64]) -> Ahead
    ensures { result ≡ ahead_of (rest_of go_away v.now) }
{
    listed(&[(FieldName::NewSessionUri, Form::Bytes)], v)
}
