// Several fields are put, one after the other.
ghost use Rattle.std.specs.Prelude.{◌≡◌, true, map, ◌≤◌, length};
ghost use Rattle.common.specs.Buffer.{Put};
ghost use Rattle.field.specs.Value.{mean, enc_field};
ghost use Rattle.measure.specs.Judging.{right};
ghost use Rattle.measure.specs.Measuring.{right_all, encode_all};

use crate::putting::{put_number, put_piece};
use field::Piece;
use measure::AsPiece;

// What stands as one field is put as its shortest form.
pub trait PutPiece: AsPiece {
    fn put_in(self, out: &mut [u8], bytes: &[u8]) -> usize
        requires value { right bytes.now (Self.piece self) ≡ true }
        requires in_bounds { length (enc_field (mean bytes.now (Self.piece self))) ≤ length out.old }
        ensures { Put (enc_field (mean bytes.now (Self.piece self))) out.old result out.new };
}

impl PutPiece for Piece {
    fn put_in(self, out: &mut [u8], bytes: &[u8]) -> usize {
        put_piece(out, bytes, self)
    }
}

impl PutPiece for u64 {
    fn put_in(self, out: &mut [u8], bytes: &[u8]) -> usize {
        put_number(out, self)
    }
}

// Each into what is left of the output.
pub fn put_all<P: PutPiece>(out: &mut [u8], bytes: &[u8], parts: &[P]) -> usize
    requires value { right_all bytes.now (map P.piece parts.now) ≡ true }
    requires in_bounds { length (encode_all bytes.now (map P.piece parts.now)) ≤ length out.old }
    ensures { Put (encode_all bytes.now (map P.piece parts.now)) out.old result out.new }
{
    let mut at: usize = 0;
    for part in parts {
        at += part.put_in(&mut out[at..], bytes);
    }
    at
}
