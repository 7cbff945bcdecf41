// How many bytes several fields take, one after the other: those of a message, and those of a header, which are numbers
// and what stands between them.
ghost use Rattle.std.specs.Prelude.{◌≡◌, map};
ghost use Rattle.field.specs.declared.Piece.{Piece};
ghost use Rattle.field.specs.declared.Piece.TheVariants.{Number};
ghost use Rattle.measure.specs.Fields.{middle_pieces};
ghost use Rattle.measure.specs.Measuring.{measured_of, measured_all, told_measured};

use crate::judging::Judge;
use crate::{Middle, Unfit};
use field::Piece;

// What stands as one field: a field of any kind; or a number, which is lent as it is, since headers are made of numbers
// and a field takes six times the room.
pub trait AsPiece: Copy {
    ghost piece: { Self → Piece };

    fn measure_by(self, judge: &Judge) -> Result<usize, Unfit>
        ensures { told_measured result ≡ measured_of judge.now.bytes.now (piece self) judge.now.room };
}

impl AsPiece for Piece {
    ghost piece = { λ p. p };

    fn measure_by(self, judge: &Judge) -> Result<usize, Unfit> {
        judge.measure(self)
    }
}

impl AsPiece for u64 {
    ghost piece = { λ n. Number n };

    fn measure_by(self, judge: &Judge) -> Result<usize, Unfit> {
        judge.number(self)
    }
}

impl Judge<'_> {
    // Several, one after the other.
    pub fn measure_all<P: AsPiece>(&self, parts: &[P]) -> Result<usize, Unfit>
        ensures { told_measured result ≡ measured_all self.now.bytes.now (map P.piece parts.now) self.now.room }
    {
        let mut found = Ok(0);
        for part in parts {
            found = self.join(found, part.measure_by(self));
        }
        found
    }

    // What stands between the numbers of a header.
    pub fn measure_middle(&self, m: Middle) -> Result<usize, Unfit>
        ensures { told_measured result ≡ measured_all self.now.bytes.now (middle_pieces m) self.now.room }
    {
        match m {
            Middle::Nothing => Ok(0),
            Middle::Byte(_) => self.add(1, 0),
            Middle::Bytes(p) => self.span(p),
            Middle::Both(_, p) => self.join(self.add(1, 0), self.span(p)),
        }
    }
}
