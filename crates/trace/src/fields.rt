// A field is found at an offset; nothing is copied.
ghost use Rattle.std.specs.Prelude.{◌≡◌};
ghost use Rattle.trace.specs.Fields.{field_of};

use crate::Field;

// The field at an offset, or nothing where the bytes end before it does.
#[tactic(auto, using(crate::proofs::Found::no_value, crate::proofs::Found::there))]
pub fn field_at(s: &[u8], at: usize) -> Option<Field>
    ensures { result ≡ field_of s.now at }
{
    let rest = s.get(at..)?;
    let [tag, high, low, ..] = rest else {
        return None;
    };
    let size = 3 + usize::from(u16::from_be_bytes([*high, *low]));
    if rest.len() < size {
        return None;
    }
    Some(Field {
        tag: *tag,
        start: at + 3,
        end: at + size,
    })
}
