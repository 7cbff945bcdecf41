// Lines of text: words and numbers, with a space between two and a newline at the end.
#![tactic(auto)]

ghost use Rattle.std.specs.Prelude.{◌≡◌};
ghost use Rattle.text.specs.declared.Item.TheVariants.{Number};

mod digits;
mod lines;
mod words;

use common::{Blank, Few};
pub use digits::places;
pub use lines::{fault_line, measure, put};
pub use words::name;

// How many items a line has at most, how many bytes an item takes, and how many a line, with one after each item.
pub const MOST_ITEMS: usize = 6;

pub const LONGEST_ITEM: usize = 33;

pub const LONGEST_LINE: usize = MOST_ITEMS * (LONGEST_ITEM + 1);

// The words that the programs print.
#[derive(Clone, Copy)]
pub enum Word {
    Open,
    Closed,
    Columns,
    Pending,
    Active,
    Nothing,
    TraceFaultAt,
    Start,
    Malformed,
    Arrival,
}

// What stands in a line: a number; a word; a rule by its number; a control message by the number of its type.
#[derive(Clone, Copy)]
pub enum Item {
    Number(u64),
    Word(Word),
    Rule(u64),
    Name(u64),
}

impl Default for Item {
    ghost is_default = { λ item. item ≡ Number 0 };

    fn default() -> Self {
        Item::Number(0)
    }
}

impl Blank for Item {
    ghost blank = { Number 0 };

    ghost only = { λ item is. is };
}

// The items of a line, in their order. One of no items has no bytes.
pub type Line = Few<Item, MOST_ITEMS>;
