// The lines of an explanation.
ghost use Rattle.std.specs.Prelude.{◌≡◌, ◌++◌};
ghost use Rattle.columns.specs.Pouring.{filling, pour};
ghost use Rattle.columns.specs.Columns.{size_text};
ghost use Rattle.explanation_lines.specs.Lines.{newline, tag_words, field_line, called, part_line, faulty_line, left_line, numbered, mark_line, rule_text, answer_line, fault_line, cut_field_line};

use crate::Word;
use crate::clamping::{first_byte, put_margin};
use crate::values::{put_fault, put_value};
use columns::{put_byte, put_item, put_size, put_spaces, put_str};
use labels::{put_label, put_meaning};
use layout::FieldName;
use parts::{Part, What};
use text::Item;

// ---- a field

fn put_tag(out: &mut [u8], at: usize, tag: u8) -> usize
    ensures { filling out.new result ≡ pour (filling out.old at) (tag_words tag) }
{
    match tag {
        1 => put_str(out, at, "start"),
        2 => put_str(out, at, "message"),
        3 => put_str(out, at, "arrival"),
        _ => {
            let next = put_str(out, at, "tag ");
            put_item(out, next, Item::Number(tag as u64))
        }
    }
}

// A size, and the end of the line.
fn put_sized(out: &mut [u8], at: usize, size: usize) -> usize
    ensures { filling out.new result ≡ pour (filling out.old at) (size_text size ++ newline) }
{
    let next = put_size(out, at, size as u64);
    put_byte(out, next, b'\n')
}

// What it is by its tag, and the length of its value.
pub fn put_field_line(out: &mut [u8], at: usize, offset: u64, field: &[u8]) -> usize
    ensures { filling out.new result ≡ pour (filling out.old at)
        (field_line offset field.now) }
{
    let margin = put_margin(out, at, offset, field, 0, 3);
    let tagged = put_tag(out, margin, first_byte(field));
    let next = put_str(out, tagged, ", ");
    put_sized(out, next, field.len().saturating_sub(3))
}

// ---- a part

// Up to what is told of it.
fn put_called(out: &mut [u8], at: usize, offset: u64, s: &[u8], part: Part) -> usize
    ensures { filling out.new result ≡ pour (filling out.old at)
        (called offset s.now part) }
{
    let margin = put_margin(out, at, offset, s, part.start, part.end);
    let indented = put_spaces(out, margin, 2);
    let labelled = put_label(out, indented, part.name, part.what);
    put_str(out, labelled, ": ")
}

pub fn put_part_line(
    out: &mut [u8],
    at: usize,
    offset: u64,
    s: &[u8],
    typed: bool,
    part: Part,
) -> usize
    ensures { filling out.new result ≡ pour (filling out.old at)
        (part_line offset s.now typed part) }
{
    let called = put_called(out, at, offset, s, part);
    let next = put_value(out, called, typed, s, part);
    put_byte(out, next, b'\n')
}

pub fn put_faulty_line(out: &mut [u8], at: usize, offset: u64, s: &[u8], part: Part) -> usize
    ensures { filling out.new result ≡ pour (filling out.old at)
        (faulty_line offset s.now part) }
{
    let called = put_called(out, at, offset, s, part);
    let next = put_fault(out, called, part.what, part.end.saturating_sub(part.start));
    put_byte(out, next, b'\n')
}

// Bytes that are left, if there are any.
pub fn put_left_line(out: &mut [u8], at: usize, offset: u64, s: &[u8], used: usize) -> usize
    ensures { filling out.new result ≡ pour (filling out.old at)
        (left_line offset s.now used) }
{
    if used >= s.len() {
        return at;
    }
    let left = Part {
        name: FieldName::MessageLength,
        what: What::Left,
        value: 0,
        start: used,
        end: s.len(),
    };
    put_faulty_line(out, at, offset, s, left)
}

// ---- by document 01's number (as numbers, since they are printed: the reader's and the ledger's alike)

fn put_numbered(out: &mut [u8], at: usize, number: u8) -> usize
    ensures { filling out.new result ≡ pour (filling out.old at) (numbered number) }
{
    let first = put_item(out, at, Item::Number(number as u64));
    let next = put_str(out, first, ", ");
    put_meaning(out, next, number)
}

// The mark under a part that is refused.
pub fn put_mark(out: &mut [u8], at: usize, number: u8) -> usize
    ensures { filling out.new result ≡ pour (filling out.old at) (mark_line number) }
{
    let marked = put_str(out, at, "                                 ^ ");
    let next = put_numbered(out, marked, number);
    put_byte(out, next, b'\n')
}

// With a 13 stands its rule.
fn put_rule(out: &mut [u8], at: usize, rule: u8) -> usize
    ensures { filling out.new result ≡ pour (filling out.old at) (rule_text rule) }
{
    if rule == 0 {
        return at;
    }
    let next = put_byte(out, at, b' ');
    put_item(out, next, Item::Rule(rule as u64))
}

pub fn put_answer(out: &mut [u8], at: usize, number: u8, rule: u8) -> usize
    ensures { filling out.new result ≡ pour (filling out.old at) (answer_line number rule) }
{
    let answered = put_str(out, at, "     answered ");
    let told = put_numbered(out, answered, number);
    let next = put_rule(out, told, rule);
    put_byte(out, next, b'\n')
}

// Why a trace is at fault.
pub fn put_reason(out: &mut [u8], at: usize, reason: Word) -> usize
    ensures { filling out.new result ≡ pour (filling out.old at) (fault_line reason) }
{
    let fault = put_str(out, at, "     fault: ");
    let next = put_str(out, fault, reason.as_str());
    put_byte(out, next, b'\n')
}

// A field that the trace's end cuts.
pub fn put_cut_field(out: &mut [u8], at: usize, offset: u64, rest: &[u8]) -> usize
    ensures { filling out.new result ≡ pour (filling out.old at)
        (cut_field_line offset rest.now) }
{
    let margin = put_margin(out, at, offset, rest, 0, rest.len());
    let next = put_str(out, margin, "cut field, ");
    put_sized(out, next, rest.len())
}
