// A field is judged whole: what is forbidden goes before what is over a size, and that before what is too long.
ghost use Rattle.std.specs.Prelude.{◌≡◌, ◌+◌};
ghost use Rattle.field.specs.declared.Piece.TheVariants.{Number};
ghost use Rattle.layout.specs.Permitted.{within};
ghost use Rattle.measure.specs.Judging.{fit, measure_span, measure_list, measure_of};
ghost use Rattle.measure.specs.Measuring.{measured_of, joined_of, told_measured};

use crate::Unfit;
use field::{Entries, Kind, Piece, Span};

// What is judged are parts of these bytes, and may take room bytes at most.
#[derive(Clone, Copy)]
pub struct Judge<'a> {
    pub bytes: &'a [u8],
    pub room: usize,
}

// Each answers how many bytes the shortest form takes.
impl Judge<'_> {
    // a bytes and b more.
    pub(crate) fn add(&self, a: usize, b: usize) -> Result<usize, Unfit>
        ensures { result ≡ fit (a + b) self.now.room }
    {
        if a > self.room || b > self.room - a {
            return Err(Unfit::TooLong);
        }
        Ok(a + b)
    }

    // Two judgements as one: the graver refusal, or both together.
    pub fn join(&self, a: Result<usize, Unfit>, b: Result<usize, Unfit>) -> Result<usize, Unfit>
        ensures { told_measured result ≡ joined_of (told_measured a) (told_measured b) self.now.room }
    {
        match (a, b) {
            (Ok(m), Ok(n)) => self.add(m, n),
            (Err(x), Err(y)) => Err(x.max(y)),
            (Err(x), Ok(_)) => Err(x),
            (Ok(_), Err(y)) => Err(y),
        }
    }

    // An integer.
    pub(crate) fn number(&self, n: u64) -> Result<usize, Unfit>
        ensures { result ≡ measure_of self.now.bytes.now (Number n) self.now.room }
    {
        if n > integer::GREATEST {
            return Err(Unfit::Forbidden);
        }
        self.add(integer::size(n), 0)
    }

    // A length and the bytes of a part.
    pub(crate) fn span(&self, p: Span) -> Result<usize, Unfit>
        ensures { result ≡ measure_span self.now.bytes.now p self.now.room }
    {
        if p.start > p.end || p.end > self.bytes.len() {
            return Err(Unfit::Forbidden);
        }
        let n = p.end - p.start;
        if n as u64 > integer::GREATEST {
            return Err(Unfit::Forbidden);
        }
        self.add(integer::size(n as u64), n)
    }

    // A count and the entries of a part, which must be just those; a name of also bytes follows.
    fn list(&self, kind: Kind, l: Entries, also: usize) -> Result<usize, Unfit>
        ensures { result ≡ measure_list self.now.bytes.now kind l also self.now.room }
    {
        if l.count > integer::GREATEST {
            return Err(Unfit::Forbidden);
        }
        if l.end > self.bytes.len() {
            return Err(Unfit::Forbidden);
        }
        let Ok(w) = field::walk(self.bytes, false, kind, l.count, l.start) else {
            return Err(Unfit::Forbidden);
        };
        if w.end != l.end {
            return Err(Unfit::Forbidden);
        }
        if !field::is_few(kind, l.count) {
            return Err(Unfit::Oversize);
        }
        if !is_within(kind, w.held, also) {
            return Err(Unfit::Oversize);
        }
        self.add(integer::size(l.count), w.size)
    }

    // A field.
    pub fn measure(&self, p: Piece) -> Result<usize, Unfit>
        ensures { told_measured result ≡ measured_of self.now.bytes.now p self.now.room }
    {
        match p {
            Piece::Number(n) => self.number(n),
            Piece::Byte(_) => self.add(1, 0),
            Piece::Bytes(b) => self.span(b),
            Piece::List(kind, l) => self.list(kind, l, 0),
            Piece::Track(t) => {
                if t.name.start > t.name.end {
                    return Err(Unfit::Forbidden);
                }
                let also = t.name.end - t.name.start;
                let fields = self.list(Kind::Namespace, t.namespace, also);
                self.join(fields, self.span(t.name))
            }
        }
    }
}

// Whether 01's sizes let entries hold that many bytes, and a name that many more.
#[tactic(auto, unfolding(layout::specs::Permitted::within))]
fn is_within(kind: Kind, held: usize, also: usize) -> bool
    ensures { result ≡ within kind (held + also) }
{
    match kind {
        Kind::Namespace => held <= field::LONGEST_TRACK && also <= field::LONGEST_TRACK - held,
        Kind::Parameters => true,
        Kind::Versions => true,
    }
}
