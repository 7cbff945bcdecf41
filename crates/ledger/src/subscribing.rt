// SUBSCRIBE, which adds a row, and SUBSCRIBE_OK, which makes it active.
ghost use Rattle.std.specs.Prelude.{◌≡◌, true, ◌<◌};
ghost use Rattle.ledger.specs.Ledgers.{most_rows, is_ledger};
ghost use Rattle.ledger.specs.Answers.{told, is_own};
ghost use Rattle.ledger.specs.Views.{standing_of, view_of, came_of};
ghost use Rattle.ledger.specs.Steps.{replied, no_row, subscribe_step, by_id, ok_at};
ghost use Rattle.ledger.specs.Arrays.{added, changed};
ghost use Rattle.ledger.specs.declared.Part.TheVariants.{Publisher};

use crate::finding::{find_alias, find_id};
use crate::rules::breaks;
use crate::{Answer, Ledger, Part, Rule, Taken};
use row::Row;
use subscription::{Subscribe, SubscribeOk};

pub fn add(l: Ledger, m: Subscribe) -> Taken
    requires { is_ledger l ≡ true }
    ensures { told result ≡ came_of (subscribe_step (view_of l) m) }
{
    if m.id < l.next {
        return breaks(l, Part::Subscriber, Rule::R2);
    }
    if m.id >= l.maximum {
        return breaks(l, Part::Subscriber, Rule::R3);
    }
    if find_alias(&l, m.alias).is_some() {
        return breaks(l, Part::Subscriber, Rule::R4);
    }
    if l.used >= l.capacity {
        return l.answers(Answer::Full);
    }
    with_last(l, row::pending(m.id, m.alias, row::asked(m.filter))).answers(Answer::Done)
}

// The row is added last, and its ID becomes the highest.
#[tactic(auto, unfolding(crate::specs::Arrays::added))]
fn with_last(l: Ledger, row: Row) -> Ledger
    requires { (l.used < most_rows) × (row.id < l.maximum) }
    ensures { result ≡ added l row }
{
    let mut next = l;
    next.rows[l.used] = row;
    next.used = l.used + 1;
    next.next = row.id + 1;
    next
}

// One row changed.
#[tactic(auto, unfolding(crate::specs::Arrays::changed))]
pub fn with_row(l: Ledger, i: usize, row: Row) -> Ledger
    requires { i < most_rows }
    ensures { result ≡ changed l i row }
{
    let mut next = l;
    next.rows[i] = row;
    next
}

// A message about a subscription that has no row: unknown, or stale.
pub fn no_row(l: Ledger, sender: Part, id: u64) -> Taken
    requires { is_ledger l ≡ true }
    ensures { told result ≡ came_of (replied (view_of l) (is_own l.part sender) (no_row (standing_of l) id)) }
{
    if id < l.next {
        return l.answers(Answer::Stale);
    }
    breaks(l, sender, Rule::R5)
}

pub fn accept(l: Ledger, m: SubscribeOk) -> Taken
    requires { is_ledger l ≡ true }
    ensures { told result ≡ came_of (by_id (view_of l) Publisher m.id (ok_at m.largest)) }
{
    let Some(i) = find_id(&l, m.id) else {
        return no_row(l, Part::Publisher, m.id);
    };
    let Some(opened) = row::open(l.rows[i], m.largest) else {
        return breaks(l, Part::Publisher, Rule::R6);
    };
    with_row(l, i, opened).answers(Answer::Done)
}
