// The shortest form of a field, of a message or of a header: judged and measured before a byte is written, then put at
// the front of what is lent.
#![tactic(auto)]

ghost use Rattle.std.specs.Prelude.{◌≡◌};
ghost use Rattle.encode.specs.Framing.{refusal_of};

mod heading;
mod putting;
mod several;
mod writer;

pub use heading::write_header;
use measure::Unfit;
pub use putting::put;
pub use writer::write_framed;

// Why nothing was written: something can't be, is over a size, makes a body too long, or finds the output too short.
#[derive(Clone, Copy, PartialEq, Eq)]
pub enum Refusal {
    Forbidden,
    Oversize,
    TooLong,
    TooShort,
}

// The refusal of a body is its message's.
impl From<Unfit> for Refusal {
    ghost from_gives = { λ unfit refusal. refusal ≡ refusal_of unfit };

    fn from(unfit: Unfit) -> Self {
        match unfit {
            Unfit::Forbidden => Refusal::Forbidden,
            Unfit::Oversize => Refusal::Oversize,
            Unfit::TooLong => Refusal::TooLong,
        }
    }
}
