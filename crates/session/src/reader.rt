// Each body is read field by field, left to right; the first fault decides.
ghost use Rattle.std.specs.Prelude.{◌≡◌};
ghost use Rattle.layout.specs.Layout.{scan};
ghost use Rattle.layout.specs.Typed.{typed};
ghost use Rattle.types.specs.Sessions.{client_setup, server_setup};
ghost use Rattle.types.specs.Table.{client_setup_row, server_setup_row};
ghost use Rattle.types.specs.SessionKinds.{number_of, layout_of};
ghost use Rattle.session.specs.Told.{told};

use crate::{ClientSetup, ServerSetup, SessionMessage};
use field::{Fault, Kind};
use types::kinds::SessionKind;

// The body of a message of this family, from an offset on.
pub fn read(kind: SessionKind, s: &[u8], at: usize) -> Result<(SessionMessage, usize), Fault>
    ensures { told result ≡ typed (number_of kind) (scan (layout_of kind) s.now at) }
{
    match kind {
        SessionKind::ClientSetup => read_client(s, at),
        SessionKind::ServerSetup => read_server(s, at),
        SessionKind::GoAway => {
            let uri = field::read_bytes(s, at)?;
            Ok((SessionMessage::GoAway(uri), uri.end))
        }
    }
}

// CLIENT_SETUP.
fn read_client(s: &[u8], at: usize) -> Result<(SessionMessage, usize), Fault>
    ensures { told result ≡ typed client_setup_row.number (scan client_setup s.now at) }
{
    let versions = field::read_list(s, Kind::Versions, at)?;
    let parameters = field::read_list(s, Kind::Parameters, versions.end)?;
    let m = ClientSetup {
        versions,
        parameters,
    };
    Ok((SessionMessage::ClientSetup(m), parameters.end))
}

// SERVER_SETUP.
fn read_server(s: &[u8], at: usize) -> Result<(SessionMessage, usize), Fault>
    ensures { told result ≡ typed server_setup_row.number (scan server_setup s.now at) }
{
    let (version, a) = field::read_number(s, at)?;
    let parameters = field::read_list(s, Kind::Parameters, a)?;
    let m = ServerSetup {
        version,
        parameters,
    };
    Ok((SessionMessage::ServerSetup(m), parameters.end))
}
