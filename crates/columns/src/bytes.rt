// Bytes, one after the other.
ghost use Rattle.std.specs.Prelude.{◌≡◌, [], ◌∷◌};
ghost use Rattle.text.specs.Lines.{item_of};
ghost use Rattle.columns.specs.Pouring.{filling, pour};
ghost use Rattle.columns.specs.Columns.{spaces, gap};

use text::{Item, Line};

pub fn put_byte(out: &mut [u8], at: usize, b: u8) -> usize
    ensures { filling out.new result ≡ pour (filling out.old at) (b ∷ []) }
{
    if at >= out.len() {
        return at;
    }
    out[at] = b;
    at + 1
}

pub fn put_bytes(out: &mut [u8], at: usize, s: &[u8]) -> usize
    ensures { filling out.new result ≡ pour (filling out.old at) s.now }
{
    let mut end = at;
    for b in s {
        end = put_byte(out, end, *b);
    }
    end
}

pub fn put_str(out: &mut [u8], at: usize, s: &str) -> usize
    ensures { filling out.new result ≡ pour (filling out.old at) s.now }
{
    put_bytes(out, at, s.as_bytes())
}

pub fn put_spaces(out: &mut [u8], at: usize, count: usize) -> usize
    ensures { filling out.new result ≡ pour (filling out.old at) (spaces count) }
{
    let mut end = at;
    for _i in 0..count {
        end = put_byte(out, end, b' ');
    }
    end
}

// How many spaces fill a column of a width after a text of that size: at least one.
pub fn gap(width: usize, size: usize) -> usize
    ensures { result ≡ gap width size }
{
    width.saturating_sub(size).max(1)
}

// An item of a line of text, without what stands after it there.
pub fn put_item(out: &mut [u8], at: usize, item: Item) -> usize
    ensures { filling out.new result ≡ pour (filling out.old at) (item_of item) }
{
    let mut line = [0u8; text::LONGEST_ITEM + 1];
    let Some(end) = text::put(&mut line, &Line::of([item])) else {
        return at;
    };
    put_bytes(out, at, &line[..end - 1])
}
