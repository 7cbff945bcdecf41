// What breaking a rule does, and the code that a session is closed with.
ghost use Rattle.std.specs.Prelude.{◌≡◌, true};
ghost use Rattle.ledger.specs.Ledgers.{is_ledger};
ghost use Rattle.ledger.specs.Answers.{told, is_own, close_code};
ghost use Rattle.ledger.specs.Views.{view_of, came_of};
ghost use Rattle.ledger.specs.Steps.{broken, replied};

use crate::{Answer, Ledger, Part, Rule, Session, Taken};

// Whether what the sender sends is this end's own.
fn is_own(part: Part, sender: Part) -> bool
    ensures { result ≡ is_own part sender }
{
    part == sender
}

// A message that breaks a rule: this end's own leaves the ledger as it is, the peer's closes the session.
pub fn break_rule(l: Ledger, own: bool, rule: Rule) -> Taken
    requires { is_ledger l ≡ true }
    ensures { told result ≡ came_of (replied (view_of l) own (broken rule)) }
{
    let next = if own {
        l
    } else {
        Ledger {
            session: Session::Closed(rule),
            ..l
        }
    };
    next.answers(Answer::Breaks(rule))
}

// A message of the sender's that breaks a rule.
pub fn breaks(l: Ledger, sender: Part, rule: Rule) -> Taken
    requires { is_ledger l ≡ true }
    ensures { told result ≡ came_of (replied (view_of l) (is_own l.part sender) (broken rule)) }
{
    break_rule(l, is_own(l.part, sender), rule)
}

// The code that a session is closed with: table 1 of source document 004.
pub fn close_code(rule: Rule) -> u64
    ensures { result ≡ close_code rule }
{
    match rule {
        Rule::R3 => 0x6,
        Rule::R4 => 0x4,
        _ => 0x3,
    }
}
