// A data header: numbers, what stands between them, and numbers. They are lent as they are, so that none is copied;
// each check is made over all of it before the next, and only then is a byte written.
ghost use Rattle.std.specs.Prelude.{◌≡◌, true, ◌≤◌, length};
ghost use Rattle.common.specs.Answer.{Leaves};
ghost use Rattle.common.specs.Buffer.{Put};
ghost use Rattle.measure.specs.Fields.{middle_pieces, headed};
ghost use Rattle.measure.specs.Measuring.{right_all, encode_all};
ghost use Rattle.encode.specs.Writing.{bare_of, told_writing};

use crate::Refusal;
use crate::putting::put_text;
use crate::several::put_all;
use measure::{Judge, Middle, Unfit};

// What stands between them, judged to be right and to fit.
fn put_middle(out: &mut [u8], bytes: &[u8], m: Middle) -> usize
    requires m_value { right_all bytes.now (middle_pieces m) ≡ true }
    requires m_in_bounds { length (encode_all bytes.now (middle_pieces m)) ≤ length out.old }
    ensures { Put (encode_all bytes.now (middle_pieces m)) out.old result out.new }
{
    match m {
        Middle::Nothing => 0,
        Middle::Byte(b) => {
            out[0] = b;
            1
        }
        Middle::Bytes(p) => put_text(out, bytes, p),
        Middle::Both(b, p) => {
            out[0] = b;
            let n = put_text(&mut out[1..], bytes, p);
            1 + n
        }
    }
}

// A header: the number of its type, where it has one, is the first in front. 5, then 6, then 7; a refusal writes
// nothing.
pub fn write_header(
    out: &mut [u8],
    bytes: &[u8],
    front: &[u64],
    middle: Middle,
    back: &[u64],
) -> Result<usize, Refusal>
    ensures { Leaves (bare_of bytes.now (headed front.now middle back.now)
        out.old) (told_writing result) out.new }
{
    let room = out.len();
    let judge = Judge { bytes, room };
    let behind = judge.join(judge.measure_middle(middle), judge.measure_all(back));
    match judge.join(judge.measure_all(front), behind) {
        Err(Unfit::Forbidden) => Err(Refusal::Forbidden),
        Err(Unfit::Oversize) => Err(Refusal::Oversize),
        Err(Unfit::TooLong) => Err(Refusal::TooShort),
        Ok(_) => {
            let a = put_all(out, bytes, front);
            let b = put_middle(&mut out[a..], bytes, middle);
            let at = a + b;
            let c = put_all(&mut out[at..], bytes, back);
            Ok(at + c)
        }
    }
}
