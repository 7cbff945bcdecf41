// What every call looks at first: 14, 5 and 10, in this order.
ghost use Rattle.std.specs.Prelude.{◌≡◌};
ghost use Rattle.ledger.specs.Answers.{no_rule, told_gate, gate_of};

use crate::checks::is_ledger;
use crate::{Answer, Ledger, Session};

// What passes is told to each step by its clause `is_ledger l ≡ true`, and not by a type of its own: a step hands back
// a `Ledger`, so that type would be made here and taken apart in each of them.
// Sound is whether the message or the arrival holds no forbidden value.
#[tactic(auto, unfolding(crate::specs::Answers::gate_of, crate::specs::Answers::stops))]
pub fn gate(l: &Ledger, sound: bool) -> Result<(), Answer>
    ensures { told_gate result ≡ no_rule (gate_of l.now sound) }
{
    if !is_ledger(l) {
        return Err(Answer::NotALedger);
    }
    if !sound {
        return Err(Answer::Forbidden);
    }
    match l.session {
        Session::Open => Ok(()),
        Session::Closed(_) => Err(Answer::AlreadyClosed),
    }
}
