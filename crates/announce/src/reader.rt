// Each body is read field by field, left to right; the first fault decides.
ghost use Rattle.std.specs.Prelude.{◌≡◌};
ghost use Rattle.layout.specs.Layout.{scan};
ghost use Rattle.layout.specs.Typed.{typed};
ghost use Rattle.types.specs.AnnounceKinds.{number_of, layout_of};
ghost use Rattle.announce.specs.Told.{told};

use crate::{Announce, AnnounceMessage, Refusal};
use field::{Fault, Kind};
use types::kinds::AnnounceKind;

// The body of a message of this family, from an offset on: a namespace, and what follows it, which is nothing,
// parameters, or an error code and a reason.
pub fn read(kind: AnnounceKind, s: &[u8], at: usize) -> Result<(AnnounceMessage, usize), Fault>
    ensures { told result ≡ typed (number_of kind) (scan (layout_of kind) s.now at) }
{
    let namespace = field::read_list(s, Kind::Namespace, at)?;
    match kind {
        AnnounceKind::Named(k) => Ok((AnnounceMessage::Named(k, namespace), namespace.end)),
        AnnounceKind::Asked(k) => {
            let parameters = field::read_list(s, Kind::Parameters, namespace.end)?;
            let m = Announce {
                namespace,
                parameters,
            };
            Ok((AnnounceMessage::Asked(k, m), parameters.end))
        }
        AnnounceKind::Refused(k) => {
            let failure = field::read_failure(s, namespace.end)?;
            let m = Refusal { namespace, failure };
            Ok((AnnounceMessage::Refused(k, m), failure.reason.end))
        }
    }
}
