// A row as numbers.
ghost use Rattle.std.specs.Prelude.{◌≡◌, ◌≤◌, length};
ghost use Rattle.common.specs.Buffer.{Put};
ghost use Rattle.ledger_numbers.specs.Numbers.{row_numbers, state_number, range_numbers, greatest_numbers, numbers_of_row};
ghost use Rattle.ledger_numbers.specs.Naming.{state_named, range_named, greatest_named, row_named};

use crate::ROW_NUMBERS;
use field::Place;
use row::{Range, Row, State};

// ---- a row's numbers

fn state_number(state: State) -> u64
    ensures { result ≡ state_number state }
{
    match state {
        State::Pending => 0,
        State::Active => 1,
    }
}

fn range_numbers(range: Range) -> [u64; 4]
    ensures { result ≡ range_numbers range }
{
    match range {
        Range::Unknown => [0, 0, 0, 0],
        Range::Open(from) => [1, from.group, from.object, 0],
        Range::Closed(from, last) => [2, from.group, from.object, last],
    }
}

fn greatest_numbers(greatest: Option<Place>) -> [u64; 3]
    ensures { result ≡ greatest_numbers greatest }
{
    match greatest {
        None => [0, 0, 0],
        Some(place) => [1, place.group, place.object],
    }
}

#[tactic(auto, unfolding(crate::specs::Numbers::numbers_of_row))]
fn numbers_of(row: Row) -> [u64; ROW_NUMBERS]
    ensures { result ≡ numbers_of_row row }
{
    let [kind, start_group, start_object, last] = range_numbers(row.range);
    let [shown, group, object] = greatest_numbers(row.greatest);
    [
        row.id,
        row.alias,
        state_number(row.state),
        kind,
        start_group,
        start_object,
        last,
        shown,
        group,
        object,
        row.count,
    ]
}

// At the front of out.
pub fn put_row(out: &mut [u64], row: Row) -> usize
    requires { row_numbers ≤ length out.old }
    ensures { Put (numbers_of_row row) out.old result out.new }
{
    out[..ROW_NUMBERS].copy_from_slice(&numbers_of(row));
    ROW_NUMBERS
}

// ---- the row that numbers name

#[tactic(auto, unfolding(crate::specs::Naming::state_named))]
fn state_of(n: u64) -> State
    ensures { result ≡ state_named n }
{
    match n {
        0 => State::Pending,
        _ => State::Active,
    }
}

#[tactic(auto, unfolding(crate::specs::Naming::range_named))]
fn range_of(n: u64, group: u64, object: u64, last: u64) -> Range
    ensures { result ≡ range_named n group object last }
{
    let from = Place { group, object };
    match n {
        0 => Range::Unknown,
        1 => Range::Open(from),
        _ => Range::Closed(from, last),
    }
}

#[tactic(auto, unfolding(crate::specs::Naming::greatest_named))]
fn greatest_of(n: u64, group: u64, object: u64) -> Option<Place>
    ensures { result ≡ greatest_named n group object }
{
    match n {
        0 => None,
        _ => Some(Place { group, object }),
    }
}

#[tactic(auto, unfolding(crate::specs::Naming::row_named))]
pub fn row_in(numbers: [u64; ROW_NUMBERS]) -> Row
    ensures { result ≡ row_named numbers 0 }
{
    let [
        id,
        alias,
        state,
        kind,
        start_group,
        start_object,
        last,
        shown,
        group,
        object,
        count,
    ] = numbers;
    Row {
        id,
        alias,
        state: state_of(state),
        range: range_of(kind, start_group, start_object, last),
        greatest: greatest_of(shown, group, object),
        count,
    }
}
