// All fields of a message, one after the other. Each check is made over all of them before the next, and only then
// is a byte written.
ghost use Rattle.std.specs.Prelude.{◌≡◌, ℕ, ◌≤◌, Ok};
ghost use Rattle.common.specs.Answer.{Leaves};
ghost use Rattle.integer.specs.Integer.{greatest};
ghost use Rattle.measure.specs.Fields.{fields_of};
ghost use Rattle.encode.specs.Framing.{framing_of};
ghost use Rattle.encode.specs.Writing.{framed_of, told_writing};

use crate::Refusal;
use crate::putting::put_two;
use crate::several::put_all;
use measure::{Fields, Judge, Unfit};

// What is answered of a message of this number whose body was judged so, before a byte is written: the bytes that its
// body takes, where the whole fits into the room there is.
fn framing(found: Result<usize, Unfit>, number: u64, room: usize) -> Result<usize, Refusal>
    requires { (n : ℕ) → found ≡ Ok n → n ≤ greatest }
    ensures { result ≡ framing_of found number room }
{
    if number > integer::GREATEST {
        return Err(Refusal::Forbidden);
    }
    let n = found?;
    let head = integer::size(number) + integer::size(n as u64);
    if room < head + n {
        return Err(Refusal::TooShort);
    }
    Ok(n)
}

// A message: its type, the length of its body, and the body, which may take longest bytes. 5, 6, 3 and 7 in this order;
// a refusal writes nothing.
pub fn write_framed(
    out: &mut [u8],
    bytes: &[u8],
    f: &Fields,
    longest: u32,
) -> Result<usize, Refusal>
    ensures { Leaves (framed_of longest bytes.now f.now.number (fields_of f.now) out.old)
        (told_writing result) out.new }
{
    let room = longest as usize;
    let found = Judge { bytes, room }.measure_all(f.pieces.as_slice());
    let n = framing(found, f.number, out.len())?;
    // The part after Type and Length is lent to the body.
    let at = put_two(out, f.number, n as u64);
    let c = put_all(&mut out[at..], bytes, f.pieces.as_slice());
    Ok(at + c)
}
