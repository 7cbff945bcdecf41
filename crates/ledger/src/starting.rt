// A ledger starts with no row in use.
ghost use Rattle.std.specs.Prelude.{◌≡◌};
ghost use Rattle.ledger.specs.Ledgers.{empty_ledger};
ghost use Rattle.ledger.specs.Answers.{told};
ghost use Rattle.ledger.specs.Steps.{start_of};

use crate::{Answer, Ledger, MOST_ROWS, Part, Session, Taken};

// What is handed back where the start is refused has no capacity, and every call on it answers that it is no ledger.
#[tactic(auto, unfolding(crate::specs::Steps::start_of, row::specs::Places::small))]
pub fn start(part: Part, capacity: usize, maximum: u64) -> Taken
    ensures { told result ≡ start_of part capacity maximum }
{
    if capacity < 1 || capacity > MOST_ROWS || maximum > integer::GREATEST {
        return empty(part, 0, 0).answers(Answer::StartRefused);
    }
    empty(part, capacity, maximum).answers(Answer::Done)
}

fn empty(part: Part, capacity: usize, maximum: u64) -> Ledger
    ensures { result ≡ empty_ledger part capacity maximum }
{
    Ledger {
        rows: [row::unused(); MOST_ROWS],
        part,
        session: Session::Open,
        capacity,
        maximum,
        next: 0,
        used: 0,
    }
}
