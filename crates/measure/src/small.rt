// Whether the numbers of fields are integers: none is above the greatest. Counts and lengths are numbers too.
ghost use Rattle.std.specs.Prelude.{◌≡◌};
ghost use Rattle.measure.specs.Small.{small_span, small_piece, small_all};
ghost use Rattle.measure.specs.Fields.{fields_of};

use crate::Fields;
use field::{Piece, Span};

// Whether the length of a part is one. (A part that ends before it starts has none; it is the writer's to refuse.)
fn is_short(p: Span) -> bool
    ensures { result ≡ small_span p }
{
    p.start > p.end || (p.end - p.start) as u64 <= integer::GREATEST
}

#[tactic(auto, unfolding(crate::specs::Small::small_piece))]
fn is_small(p: Piece) -> bool
    ensures { result ≡ small_piece p }
{
    match p {
        Piece::Number(n) => n <= integer::GREATEST,
        Piece::Byte(_) => true,
        Piece::Bytes(b) => is_short(b),
        Piece::List(_, l) => l.count <= integer::GREATEST,
        Piece::Track(t) => t.namespace.count <= integer::GREATEST && is_short(t.name),
    }
}

pub fn are_small(f: &Fields) -> bool
    ensures { result ≡ small_all (fields_of f.now) }
{
    f.pieces.as_slice().iter().all(|p| is_small(*p))
}
