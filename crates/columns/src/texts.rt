// Offsets, sizes, and bytes as text.
ghost use Rattle.std.specs.Prelude.{◌≡◌};
ghost use Rattle.columns.specs.Pouring.{filling, pour};
ghost use Rattle.columns.specs.Columns.{offset_column, size_text, is_text, text_or, content_text};

use crate::bytes::{gap, put_byte, put_bytes, put_item, put_spaces};
use crate::hexadecimal::put_hex;
use crate::{MOST_TEXT, OFFSET_WIDTH};
use text::Item;

pub fn put_offset(out: &mut [u8], at: usize, n: u64) -> usize
    ensures { filling out.new result ≡ pour (filling out.old at) (offset_column n) }
{
    let next = put_item(out, at, Item::Number(n));
    put_spaces(out, next, gap(OFFSET_WIDTH, text::places(n)))
}

// So many bytes.
pub fn put_size(out: &mut [u8], at: usize, n: u64) -> usize
    ensures { filling out.new result ≡ pour (filling out.old at) (size_text n) }
{
    let next = put_item(out, at, Item::Number(n));
    let end = put_bytes(out, next, b" byte");
    if n == 1 {
        return end;
    }
    put_byte(out, end, b's')
}

fn is_text(s: &[u8]) -> bool
    ensures { result ≡ is_text s.now }
{
    s.iter().all(|b| *b >= 32 && *b <= 126)
}

fn put_text_or(out: &mut [u8], at: usize, printable: bool, s: &[u8]) -> usize
    ensures { filling out.new result ≡ pour (filling out.old at)
        (text_or printable s.now) }
{
    if !printable {
        return put_hex(out, at, s);
    }
    let first = put_byte(out, at, b'"');
    let next = put_bytes(out, first, s);
    put_byte(out, next, b'"')
}

// Bytes as text where all of them are printable, else in hexadecimal; of more than 24 the first 24, and how many there
// are.
pub fn put_content(out: &mut [u8], at: usize, s: &[u8]) -> usize
    ensures { filling out.new result ≡ pour (filling out.old at)
        (content_text s.now) }
{
    let printable = is_text(s);
    if s.len() <= MOST_TEXT {
        return put_text_or(out, at, printable, s);
    }
    let shown = put_text_or(out, at, printable, &s[..MOST_TEXT]);
    let next = put_bytes(out, shown, b".., ");
    put_size(out, next, s.len() as u64)
}
