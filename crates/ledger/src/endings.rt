// SUBSCRIBE_ERROR, SUBSCRIBE_DONE and UNSUBSCRIBE, which free a row.
ghost use Rattle.std.specs.Prelude.{◌≡◌, true, ◌≤◌, ◌<◌};
ghost use Rattle.ledger.specs.Ledgers.{most_rows, is_ledger};
ghost use Rattle.ledger.specs.Answers.{told};
ghost use Rattle.ledger.specs.Views.{view_of, came_of};
ghost use Rattle.ledger.specs.Steps.{by_id, end_at};
ghost use Rattle.ledger.specs.Arrays.{freed};

use crate::finding::find_id;
use crate::rules::breaks;
use crate::subscribing::no_row;
use crate::{Answer, Ledger, MOST_ROWS, Part, Rule, Taken};
use row::Ending;

// The last place for a row.
const LAST: usize = MOST_ROWS - 1;

// A message of this kind, which the part `by` sends.
pub fn end(l: Ledger, by: Part, ending: Ending, id: u64) -> Taken
    requires { is_ledger l ≡ true }
    ensures { told result ≡ came_of (by_id (view_of l) by id (end_at ending)) }
{
    let Some(i) = find_id(&l, id) else {
        return no_row(l, by, id);
    };
    if row::may_end(ending, l.rows[i].state) {
        return without(l, i).answers(Answer::Done);
    }
    breaks(l, by, Rule::R6)
}

// The row is removed, and the rows after it move up one place.
fn without(l: Ledger, at: usize) -> Ledger
    requires { (at < l.used) × (l.used ≤ most_rows) }
    ensures { result ≡ freed l at }
{
    let mut next = l;
    next.rows[at..LAST].copy_from_slice(&l.rows[at + 1..]);
    next.rows[LAST] = row::unused();
    next.used = l.used - 1;
    next
}
