// The lines of a report.
ghost use Rattle.std.specs.Prelude.{◌≡◌};
ghost use Rattle.report.specs.Rows.{session_line, columns_line, state_item, group_item, object_item, row_line};

use field::Place;
use ledger::Session;
use row::{Row, State};
use text::{Item, Line, Word};

pub fn session_line(session: Session, rows: u64) -> Line
    ensures { result ≡ session_line session rows }
{
    match session {
        Session::Open => Line::of([Item::Word(Word::Open), Item::Number(rows)]),
        Session::Closed(rule) => Line::of([
            Item::Word(Word::Closed),
            Item::Rule(ledger::rule_number(rule) as u64),
            Item::Number(rows),
        ]),
    }
}

pub fn columns_line() -> Line
    ensures { result ≡ columns_line }
{
    Line::of([Item::Word(Word::Columns)])
}

fn state_item(state: State) -> Item
    ensures { result ≡ state_item state }
{
    match state {
        State::Pending => Item::Word(Word::Pending),
        State::Active => Item::Word(Word::Active),
    }
}

// A row with nothing counted has neither group nor object.
fn place_items(greatest: Option<Place>) -> (Item, Item)
    ensures group { result.0 ≡ group_item greatest }
    ensures object { result.1 ≡ object_item greatest }
{
    match greatest {
        None => (Item::Word(Word::Nothing), Item::Word(Word::Nothing)),
        Some(place) => (Item::Number(place.group), Item::Number(place.object)),
    }
}

pub fn row_line(row: &Row) -> Line
    ensures { result ≡ row_line row.now }
{
    let (group, object) = place_items(row.greatest);
    Line::of([
        Item::Number(row.id),
        Item::Number(row.alias),
        state_item(row.state),
        group,
        object,
        Item::Number(row.count),
    ])
}
