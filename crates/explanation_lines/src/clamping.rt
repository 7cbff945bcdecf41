// Bytes from an offset up to another, as far as they are there.
ghost use Rattle.std.specs.Prelude.{◌≡◌, slice_index};
ghost use Rattle.columns.specs.Pouring.{filling, pour};
ghost use Rattle.explanation_lines.specs.Lines.{between, margin};

// The first byte, or 0 where there is none.
pub fn first_byte(s: &[u8]) -> u8
    ensures { result ≡ slice_index s.now 0 }
{
    match s {
        [first, ..] => *first,
        [] => 0,
    }
}

pub fn between(s: &[u8], start: usize, end: usize) -> &[u8]
    ensures { result.now ≡ between s.now start end }
{
    let last = end.min(s.len());
    &s[start.min(last)..last]
}

// What a line begins with: the offset of its bytes, and the bytes.
pub fn put_margin(
    out: &mut [u8],
    at: usize,
    offset: u64,
    s: &[u8],
    start: usize,
    end: usize,
) -> usize
    ensures { filling out.new result ≡ pour (filling out.old at)
        (margin offset s.now start end) }
{
    let next = columns::put_offset(out, at, offset.wrapping_add(start as u64));
    columns::put_bytes_column(out, next, between(s, start, end))
}
