// What a part holds.
ghost use Rattle.std.specs.Prelude.{◌≡◌};
ghost use Rattle.columns.specs.Pouring.{filling, pour};
ghost use Rattle.explanation_lines.specs.Lines.{type_text, shortest_text, number_text, held_by, value_text, fault_text};

use crate::Held;
use crate::clamping::between;
use columns::{put_byte, put_content, put_hexadecimal, put_item, put_size, put_str};
use parts::{Part, What};
use text::Item;

// A type, in hexadecimal, with its name if it has one.
fn put_type(out: &mut [u8], at: usize, n: u64) -> usize
    ensures { filling out.new result ≡ pour (filling out.old at) (type_text n) }
{
    let name = text::name(n);
    if name.is_empty() {
        let next = put_str(out, at, "0x");
        return put_hexadecimal(out, next, n);
    }
    let named = put_str(out, at, name);
    let opened = put_str(out, named, " (0x");
    let next = put_hexadecimal(out, opened, n);
    put_byte(out, next, b')')
}

// The shortest form of a number that was read from so many bytes, if that is another.
fn put_shortest(out: &mut [u8], at: usize, used: usize, n: u64) -> usize
    ensures { filling out.new result ≡ pour (filling out.old at) (shortest_text used n) }
{
    let size = integer::size(n);
    if used == size {
        return at;
    }
    let next = put_str(out, at, ", shortest form ");
    let mut form = [0u8; 8];
    let _ = integer::write(&mut form, n);
    columns::put_hex(out, next, &form[..size])
}

// A number that was read from so many bytes.
fn put_number(out: &mut [u8], at: usize, typed: bool, used: usize, n: u64) -> usize
    ensures { filling out.new result ≡ pour (filling out.old at) (number_text typed used n) }
{
    if typed {
        let next = put_type(out, at, n);
        return put_shortest(out, next, used, n);
    }
    let next = put_item(out, at, Item::Number(n));
    put_shortest(out, next, used, n)
}

fn held_by(what: What) -> Held
    ensures { result ≡ held_by what }
{
    match what {
        What::Number | What::Length | What::Count => Held::Number,
        What::EntryNumber | What::EntryLength => Held::Number,
        What::Byte => Held::Byte,
        What::Content | What::EntryContent => Held::Bytes,
        What::Left => Held::Left,
    }
}

// A number, a byte, or bytes.
pub fn put_value(out: &mut [u8], at: usize, typed: bool, s: &[u8], part: Part) -> usize
    ensures { filling out.new result ≡ pour (filling out.old at)
        (value_text (held_by part.what) typed s.now part) }
{
    let size = part.end.saturating_sub(part.start);
    match held_by(part.what) {
        Held::Number => put_number(out, at, typed, size, part.value),
        Held::Byte => put_item(out, at, Item::Number(part.value)),
        Held::Bytes => put_content(out, at, between(s, part.start, part.end)),
        Held::Left => put_size(out, at, size as u64),
    }
}

// A part that the end cuts, or so many bytes that no part takes.
pub fn put_fault(out: &mut [u8], at: usize, what: What, size: usize) -> usize
    ensures { filling out.new result ≡ pour (filling out.old at)
        (fault_text (held_by what) size) }
{
    match held_by(what) {
        Held::Left => put_size(out, at, size as u64),
        _ => put_str(out, at, "cut"),
    }
}
