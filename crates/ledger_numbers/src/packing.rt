// The numbers of a ledger.
ghost use Rattle.std.specs.Prelude.{◌≡◌, ◌≤◌, length};
ghost use Rattle.common.specs.Buffer.{over, Put};
ghost use Rattle.ledger_numbers.specs.Numbers.{part_number, numbers_of_rows, numbers_of};
ghost use Rattle.ledger.specs.Answers.{closing_rule};
ghost use Rattle.ledger_numbers.specs.Naming.{kept_in};

use crate::rows::put_row;
use crate::{LEDGER_NUMBERS, OWN_NUMBERS};
use ledger::{Ledger, Part, Session};
use row::Row;

fn part_number(part: Part) -> u64
    ensures { result ≡ part_number part }
{
    match part {
        Part::Subscriber => 0,
        Part::Publisher => 1,
    }
}

fn session_number(session: Session) -> u64
    ensures { result ≡ closing_rule session }
{
    match session {
        Session::Open => 0,
        Session::Closed(rule) => ledger::rule_number(rule) as u64,
    }
}

// The rows, one after the other.
fn put_rows(out: &mut [u64], rows: &[Row]) -> usize
    requires { length (numbers_of_rows rows.now) ≤ length out.old }
    ensures { Put (numbers_of_rows rows.now) out.old result out.new }
{
    let mut at: usize = 0;
    for row in rows {
        at += put_row(&mut out[at..], *row);
    }
    at
}

// All of them, at the front of out.
pub fn put_ledger(out: &mut [u64], l: &Ledger) -> usize
    requires { length (numbers_of l.now) ≤ length out.old }
    ensures { Put (numbers_of l.now) out.old result out.new }
{
    let own = [
        part_number(l.part),
        session_number(l.session),
        l.capacity as u64,
        l.maximum,
        l.next,
        l.used as u64,
    ];
    out[..OWN_NUMBERS].copy_from_slice(&own);
    OWN_NUMBERS + put_rows(&mut out[OWN_NUMBERS..], &l.rows)
}

// The numbers of the ledger that a call left; where it is none, or there is no room for it, what was there stays.
pub fn keep(numbers: &mut [u64], next: Ledger)
    ensures { numbers.new ≡ kept_in numbers.old next }
{
    if next.capacity != 0 && numbers.len() >= LEDGER_NUMBERS {
        put_ledger(numbers, &next);
    }
}
