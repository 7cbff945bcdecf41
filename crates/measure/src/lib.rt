// What a field is, before a byte of it is written: judged, and measured in its shortest form; alone, among the fields
// of a message, and in a header.
#![tactic(auto)]

ghost use Rattle.std.specs.Prelude.{◌≡◌, take};
ghost use Rattle.measure.specs.Fields.{most_pieces, placed};

mod judging;
mod several;
mod small;

use common::Few;
use field::{Piece, Span};
pub use judging::Judge;
pub use several::AsPiece;
pub use small::are_small;

// Why a field, or several, can't take the bytes that it may: it takes more; it is over a size; it holds what can't be
// written. Of two, the greater is looked for first.
#[derive(Clone, Copy, PartialEq, Eq, PartialOrd, Ord)]
pub enum Unfit {
    TooLong,
    Oversize,
    Forbidden,
}

// How many fields a message has at most.
pub const MOST_PIECES: usize = 10;

// The fields of a message, in their order, and the number of its type.
#[derive(Clone, Copy)]
pub struct Fields {
    pub pieces: Few<Piece, MOST_PIECES>,
    pub number: u64,
}

impl Fields {
    // The number of a type, and the fields of a message of it.
    pub fn of<const N: usize>(number: u64, pieces: [Piece; N]) -> Self
        ensures { result ≡ placed (record { type = number; pieces = take most_pieces pieces.entry }) }
    {
        Fields {
            pieces: Few::of(pieces),
            number,
        }
    }
}

// What stands between the numbers of a header: nothing, a byte, a part of the bytes after its length, or both.
#[derive(Clone, Copy)]
pub enum Middle {
    Nothing,
    Byte(u8),
    Bytes(Span),
    Both(u8, Span),
}
