// The ledger that numbers name.
ghost use Rattle.std.specs.Prelude.{◌≡◌, ◌≤◌, length, take};
ghost use Rattle.ledger.specs.Ledgers.{most_rows};
ghost use Rattle.ledger_numbers.specs.Numbers.{own_numbers, ledger_numbers, numbers_of};
ghost use Rattle.ledger_numbers.specs.Naming.{rows_named, part_named, rule_named, session_named, ledger_named, are_same, no_ledger, unpack_of};

use crate::packing::put_ledger;
use crate::rows::row_in;
use crate::{LEDGER_NUMBERS, OWN_NUMBERS, ROW_NUMBERS};
use ledger::{Ledger, MOST_ROWS, Part, Rule, Session};
use row::Row;
use std::array;

// Numbers that are no ledger's, and too few, are taken as a ledger that has no room for a row: every call on it answers
// 14.
pub fn unpack(numbers: &[u64]) -> Ledger
    ensures { result ≡ unpack_of numbers.now }
{
    if numbers.len() < LEDGER_NUMBERS {
        return none();
    }
    let l = ledger_in(numbers);
    if !has_numbers(l, numbers) {
        return none();
    }
    l
}

#[tactic(auto, unfolding(ledger::specs::Steps::start_of))]
fn none() -> Ledger
    ensures { result ≡ no_ledger }
{
    ledger::start(Part::Subscriber, 0, 0).ledger
}

#[tactic(auto, unfolding(crate::specs::Naming::part_named))]
fn part_of(n: u64) -> Part
    ensures { result ≡ part_named n }
{
    match n {
        0 => Part::Subscriber,
        _ => Part::Publisher,
    }
}

#[tactic(auto, unfolding(crate::specs::Naming::rule_named))]
fn rule_of(n: u64) -> Rule
    ensures { result ≡ rule_named n }
{
    match n {
        1 => Rule::R1,
        2 => Rule::R2,
        3 => Rule::R3,
        4 => Rule::R4,
        5 => Rule::R5,
        6 => Rule::R6,
        _ => Rule::R7,
    }
}

#[tactic(auto, unfolding(crate::specs::Naming::session_named))]
fn session_of(n: u64) -> Session
    ensures { result ≡ session_named n }
{
    if n == 0 {
        return Session::Open;
    }
    Session::Closed(rule_of(n))
}

// The rows that numbers name. (This and the two after it take the slice, and not its front as an array: `ledger_named`
// is of all the numbers, and that the front names the same ledger didn't close.)
fn rows_in(numbers: &[u64]) -> [Row; MOST_ROWS]
    requires { ledger_numbers ≤ length numbers.now }
    ensures { result ≡ rows_named most_rows numbers.now own_numbers }
{
    let (parts, _) = numbers[OWN_NUMBERS..].as_chunks::<ROW_NUMBERS>();
    array::from_fn(|i| row_in(parts[i]))
}

#[tactic(auto, unfolding(crate::specs::Naming::ledger_named))]
fn ledger_in(numbers: &[u64]) -> Ledger
    requires { ledger_numbers ≤ length numbers.now }
    ensures { result ≡ ledger_named numbers.now }
{
    Ledger {
        rows: rows_in(numbers),
        part: part_of(numbers[0]),
        session: session_of(numbers[1]),
        capacity: numbers[2] as usize,
        maximum: numbers[3],
        next: numbers[4],
        used: numbers[5] as usize,
    }
}

// Whether these are the ledger's own.
fn has_numbers(l: Ledger, numbers: &[u64]) -> bool
    requires { ledger_numbers ≤ length numbers.now }
    ensures { result ≡ are_same (numbers_of l) (take ledger_numbers numbers.now) }
{
    let mut own = [0u64; LEDGER_NUMBERS];
    put_ledger(&mut own, &l);
    own[..] == numbers[..LEDGER_NUMBERS]
}
