// The values that a trace has itself: a start's, and an arrival's.
ghost use Rattle.std.specs.Prelude.{◌≡◌, false};
ghost use Rattle.columns.specs.Pouring.{filling, pour};
ghost use Rattle.parts.specs.Telling.{part_of};
ghost use Rattle.parts.specs.declared.What.TheVariants.{Number};
ghost use Rattle.layout.specs.declared.FieldName.TheVariants.{MaximumSubscribeId};
ghost use Rattle.explanation_lines.specs.Lines.{part_line, cut_lines, number_lines, arrival_lines, start_lines, value_lines};

use crate::clamping::{first_byte, put_margin};
use crate::lines::{put_faulty_line, put_left_line, put_mark, put_part_line};
use columns::{put_byte, put_item, put_str};
use layout::FieldName;
use parts::{Part, What};
use text::Item;
use types::Refusal;

// A number that the bytes end in.
fn put_cut(out: &mut [u8], at: usize, offset: u64, s: &[u8], name: FieldName, start: usize) -> usize
    ensures { filling out.new result ≡ pour (filling out.old at)
        (cut_lines name offset s.now start) }
{
    let part = Part {
        name,
        what: What::Number,
        value: 0,
        start,
        end: s.len(),
    };
    let next = put_faulty_line(out, at, offset, s, part);
    put_mark(out, next, Refusal::More.number())
}

// A number that is there, from start up to end.
fn put_number_line(
    out: &mut [u8],
    at: usize,
    offset: u64,
    s: &[u8],
    name: FieldName,
    n: u64,
    start: usize,
    end: usize,
) -> usize
    ensures { filling out.new result ≡ pour (filling out.old at)
        (part_line offset s.now false (part_of name Number n start end)) }
{
    let part = Part {
        name,
        what: What::Number,
        value: n,
        start,
        end,
    };
    put_part_line(out, at, offset, s, false, part)
}

// Numbers, one after the other from start on, and what is left after them.
fn put_numbers(
    out: &mut [u8],
    at: usize,
    offset: u64,
    s: &[u8],
    names: &[FieldName],
    start: usize,
) -> usize
    ensures { filling out.new result ≡ pour (filling out.old at)
        (number_lines names.now offset s.now start) }
{
    let mut line = at;
    let mut next = start;
    for name in names {
        let Ok((n, end)) = field::read_number(s, next) else {
            return put_cut(out, line, offset, s, *name, next);
        };
        line = put_number_line(out, line, offset, s, *name, n, next, end);
        next = end;
    }
    put_left_line(out, line, offset, s, next)
}

// Alias, group and object.
pub fn put_arrival(out: &mut [u8], at: usize, offset: u64, s: &[u8]) -> usize
    ensures { filling out.new result ≡ pour (filling out.old at)
        (arrival_lines offset s.now) }
{
    let names = [
        FieldName::TrackAlias,
        FieldName::GroupId,
        FieldName::ObjectId,
    ];
    put_numbers(out, at, offset, s, &names, 0)
}

// A part and a maximum.
pub fn put_start(out: &mut [u8], at: usize, offset: u64, s: &[u8]) -> usize
    ensures { filling out.new result ≡ pour (filling out.old at)
        (start_lines offset s.now) }
{
    let margin = put_margin(out, at, offset, s, 0, 1);
    let called = put_str(out, margin, "  Part: ");
    if s.is_empty() {
        let next = put_str(out, called, "cut\n");
        return put_mark(out, next, Refusal::More.number());
    }
    let part = put_item(out, called, Item::Number(first_byte(s) as u64));
    let next = put_byte(out, part, b'\n');
    put_numbers(out, next, offset, s, &[FieldName::MaximumSubscribeId], 1)
}

// The value of a start, or of an arrival; a message's is told part by part.
pub fn put_field_value(out: &mut [u8], at: usize, tag: u8, offset: u64, s: &[u8]) -> usize
    ensures { filling out.new result ≡ pour (filling out.old at)
        (value_lines tag offset s.now) }
{
    match tag {
        1 => put_start(out, at, offset, s),
        3 => put_arrival(out, at, offset, s),
        _ => at,
    }
}
