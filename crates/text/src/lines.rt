// A line, made of its items; measured, and put at the front of what is lent.
ghost use Rattle.std.specs.Prelude.{◌≡◌, [], ◌∷◌, ◌++◌, ◌≤◌, length};
ghost use Rattle.common.specs.Answer.{Leaves};
ghost use Rattle.common.specs.Buffer.{Put};
ghost use Rattle.text.specs.Lines.{item_of, line_of, fault_line, put_text, told_putting};

use crate::digits::{places, put_number};
use crate::words::{name, put_str};
use crate::{Item, Line, Word};

// The whole report of a trace at fault, and the last line of its answers.
pub fn fault_line(at: u64) -> Line
    ensures { result ≡ fault_line at }
{
    Line::of([Item::Word(Word::TraceFaultAt), Item::Number(at)])
}

// ---- measuring

// How many bytes an item takes.
#[tactic(auto, using(crate::proofs::Bounds::number_few), unfolding(crate::specs::Lines::item_of, types::specs::Letters::letters))]
fn size(item: Item) -> usize
    ensures { result ≡ length (item_of item) }
{
    match item {
        Item::Number(n) => places(n),
        Item::Word(word) => word.as_str().len(),
        Item::Rule(n) => 1 + places(n),
        Item::Name(number) => name(number).len(),
    }
}

// How many bytes a line takes: each item, and one after it.
pub fn measure(line: &Line) -> usize
    ensures { result ≡ length (line_of line.now) }
{
    let mut sum = 0;
    for item in line.as_slice() {
        sum += size(*item) + 1;
    }
    sum
}

// ---- putting

fn put_item(out: &mut [u8], item: Item) -> usize
    requires { length (item_of item) ≤ length out.old }
    ensures { Put (item_of item) out.old result out.new }
{
    match item {
        Item::Number(n) => put_number(out, n),
        Item::Word(word) => put_str(out, word.as_str()),
        Item::Rule(n) => {
            out[0] = b'R';
            1 + put_number(&mut out[1..], n)
        }
        Item::Name(number) => put_str(out, name(number)),
    }
}

// An item, and the byte after it.
fn put_ended(out: &mut [u8], item: Item, end: u8) -> usize
    requires { length (item_of item ++ end ∷ []) ≤ length out.old }
    ensures { Put (item_of item ++ end ∷ []) out.old result out.new }
{
    let at = put_item(out, item);
    out[at] = end;
    at + 1
}

// Each item into what is left of the output: a newline after the last, a space after any other.
fn put_items(out: &mut [u8], items: &[Item]) -> usize
    requires { length (line_of items.now) ≤ length out.old }
    ensures { Put (line_of items.now) out.old result out.new }
{
    let [others @ .., last] = items else {
        return 0;
    };
    let mut at = 0;
    for item in others {
        at += put_ended(&mut out[at..], *item, b' ');
    }
    at + put_ended(&mut out[at..], *last, b'\n')
}

// A line at the front of out; every byte after it stays, and where it doesn't fit none is changed.
pub fn put(out: &mut [u8], line: &Line) -> Option<usize>
    ensures { Leaves (put_text (line_of line.now) out.old) (told_putting result) out.new }
{
    if out.len() < measure(line) {
        return None;
    }
    Some(put_items(out, line.as_slice()))
}
