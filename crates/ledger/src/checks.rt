// Whether something is a ledger: every condition of document 01's list.
ghost use Rattle.std.specs.Prelude.{◌≡◌, ◌≤◌, drop};
ghost use Rattle.ledger.specs.Ledgers.{most_rows, held, rising, distinct, all_unused, bounded, is_ledger};

use crate::finding::held;
use crate::{Ledger, MOST_ROWS};

#[tactic(auto, unfolding(crate::specs::Ledgers::is_ledger))]
pub fn is_ledger(l: &Ledger) -> bool
    ensures { result ≡ is_ledger l.now }
{
    if !is_bounded(l) {
        return false;
    }
    do_rise(l) && are_distinct(l) && is_rest_unused(l)
}

// The capacity, the rows in use, and the numbers beside the rows.
#[tactic(auto, unfolding(crate::specs::Ledgers::bounded, row::specs::Places::small))]
fn is_bounded(l: &Ledger) -> bool
    ensures { result ≡ bounded l.now }
{
    l.capacity >= 1
        && l.capacity <= MOST_ROWS
        && l.used <= l.capacity
        && l.maximum <= integer::GREATEST
        && l.next <= integer::GREATEST + 1
}

// The rows in use rise strictly by ID, below the next one, and each is a row.
fn do_rise(l: &Ledger) -> bool
    requires { l.now.used ≤ most_rows }
    ensures { result ≡ rising 0 l.now.next (held l.now) }
{
    let mut low: u64 = 0;
    for row in held(l) {
        if row.id < low || row.id >= l.next || !row::is_row(*row) {
            return false;
        }
        low = row.id + 1;
    }
    true
}

// No alias is held by two rows.
fn are_distinct(l: &Ledger) -> bool
    requires { l.now.used ≤ most_rows }
    ensures { result ≡ distinct (held l.now) }
{
    let rows = held(l);
    for (i, row) in rows.iter().enumerate() {
        let alias = row.alias;
        if rows[i + 1..].iter().any(move |later| later.alias == alias) {
            return false;
        }
    }
    true
}

fn is_rest_unused(l: &Ledger) -> bool
    requires { l.now.used ≤ most_rows }
    ensures { result ≡ all_unused (drop l.now.used l.now.rows) }
{
    l.rows[l.used..].iter().all(|row| row::is_unused(*row))
}
