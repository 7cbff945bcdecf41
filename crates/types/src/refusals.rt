// Refusals by the numbers of document 01, and what is one: bytes that end too soon, and a fault in a body.
ghost use Rattle.std.specs.Prelude.{◌≡◌};
ghost use Rattle.types.specs.Refusals.{number_of, in_body};
ghost use Rattle.types.specs.declared.Refusal.TheVariants.{More};

use crate::Refusal;
use field::{Cut, Fault};

impl Refusal {
    pub fn number(self) -> u8
        ensures { result ≡ number_of self }
    {
        match self {
            Refusal::More => 1,
            Refusal::Unknown => 2,
            Refusal::TooLong => 3,
            Refusal::Unfilled => 4,
            Refusal::Forbidden => 5,
            Refusal::Oversize => 6,
        }
    }
}

// Of a number before a body: more bytes are needed.
impl From<Cut> for Refusal {
    ghost from_gives = { λ _ refusal. refusal ≡ More };

    fn from(_cut: Cut) -> Self {
        Self::More
    }
}

// Of a body, which is all there: a field that is cut doesn't fill it.
impl From<Fault> for Refusal {
    ghost from_gives = { λ fault refusal. refusal ≡ in_body fault };

    fn from(fault: Fault) -> Self {
        match fault {
            Fault::Cut => Self::Unfilled,
            Fault::Forbidden => Self::Forbidden,
            Fault::Oversize => Self::Oversize,
        }
    }
}
