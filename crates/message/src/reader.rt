// A message is read in this order: Type, known or not; Length, at most 65,000; the whole body present; its fields, left
// to right, the first fault deciding; no byte left over.
ghost use Rattle.std.specs.Prelude.{◌≡◌};
ghost use Rattle.layout.specs.Layout.{scan};
ghost use Rattle.layout.specs.Typed.{typed};
ghost use Rattle.types.specs.Table.{layout_of};
ghost use Rattle.types.specs.Kinds.{number_of};
ghost use Rattle.message.specs.Reading.{told, told_body, read_of};

use crate::Message;
use field::Fault;
use types::kinds::Kind;
use types::{LONGEST_BODY, Refusal};

// A message and how many bytes it took.
pub fn read(s: &[u8]) -> Result<(Message, usize), Refusal>
    ensures { told result ≡ read_of s.now }
{
    let (number, a) = field::read_number(s, 0)?;
    let Some(kind) = types::type_of(number) else {
        return Err(Refusal::Unknown);
    };
    let (length, b) = field::read_number(s, a)?;
    if length > LONGEST_BODY as u64 {
        return Err(Refusal::TooLong);
    }
    let left = s.len() - b;
    if length > left as u64 {
        return Err(Refusal::More);
    }
    let end = b + length as usize;
    let (m, last) = read_body(kind, &s[..end], b)?;
    if last != end {
        return Err(Refusal::Unfilled);
    }
    Ok((m, end))
}

// The fields of a body, by the kind of its message, and where they end.
fn read_body(kind: Kind, s: &[u8], at: usize) -> Result<(Message, usize), Fault>
    ensures { told_body result ≡ typed (number_of kind) (scan (layout_of (number_of kind)) s.now at) }
{
    match kind {
        Kind::Subscription(k) => {
            let (m, end) = subscription::read(k, s, at)?;
            Ok((Message::Subscription(m), end))
        }
        Kind::Fetch(k) => {
            let (m, end) = fetch::read(k, s, at)?;
            Ok((Message::Fetch(m), end))
        }
        Kind::Announce(k) => {
            let (m, end) = announce::read(k, s, at)?;
            Ok((Message::Announce(m), end))
        }
        Kind::Session(k) => {
            let (m, end) = session::read(k, s, at)?;
            Ok((Message::Session(m), end))
        }
    }
}
