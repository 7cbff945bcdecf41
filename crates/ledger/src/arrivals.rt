// Arrivals.
ghost use Rattle.std.specs.Prelude.{◌≡◌, true};
ghost use Rattle.ledger.specs.Ledgers.{is_ledger};
ghost use Rattle.ledger.specs.Answers.{told};
ghost use Rattle.ledger.specs.Views.{view_of, came_of};
ghost use Rattle.ledger.specs.Steps.{arrival_step, small_arrival};

use crate::finding::find_alias;
use crate::subscribing::with_row;
use crate::{Answer, Ledger, Taken};
use field::Arrival;
use row::NotCounted;

// Whether no number of an arrival is above the greatest integer.
#[tactic(auto, unfolding(crate::specs::Steps::small_arrival, row::specs::Places::small))]
pub fn is_small(a: Arrival) -> bool
    ensures { result ≡ small_arrival a }
{
    a.alias <= integer::GREATEST && row::is_small(a.place)
}

pub fn count(l: Ledger, a: Arrival) -> Taken
    requires { is_ledger l ≡ true }
    ensures { told result ≡ came_of (arrival_step (view_of l) a) }
{
    let Some(i) = find_alias(&l, a.alias) else {
        return l.answers(Answer::NoRow);
    };
    let counted = match row::arrive(l.rows[i], a.place) {
        Err(NotCounted::Waiting) => return l.answers(Answer::StillPending),
        Err(NotCounted::Outside) => return l.answers(Answer::Outside),
        Ok(counted) => counted,
    };
    with_row(l, i, counted).answers(Answer::Counted)
}
