// Hexadecimal digits, upper case.
ghost use Rattle.std.specs.Prelude.{◌≡◌, ◌<◌, length};
ghost use Rattle.columns.specs.Pouring.{filling, pour};
ghost use Rattle.columns.specs.Columns.{hex_digit, hex_byte, hex_bytes, shown_bytes, bytes_column, hex_of};

use crate::bytes::{gap, put_byte, put_bytes, put_spaces};
use crate::{BYTES_WIDTH, MOST_SHOWN};

fn hex_digit(d: u8) -> u8
    requires { d < 16 }
    ensures { result ≡ hex_digit d }
{
    if d < 10 { b'0' + d } else { b'A' + (d - 10) }
}

// The two digits of a byte.
fn put_hex_byte(out: &mut [u8], at: usize, b: u8) -> usize
    ensures { filling out.new result ≡ pour (filling out.old at) (hex_byte b) }
{
    let next = put_byte(out, at, hex_digit(b / 16));
    put_byte(out, next, hex_digit(b % 16))
}

// The digits of each byte, with a space between two.
pub fn put_hex(out: &mut [u8], at: usize, s: &[u8]) -> usize
    ensures { filling out.new result ≡ pour (filling out.old at) (hex_bytes s.now) }
{
    let [first, others @ ..] = s else {
        return at;
    };
    let mut end = put_hex_byte(out, at, *first);
    for b in others {
        let next = put_byte(out, end, b' ');
        end = put_hex_byte(out, next, *b);
    }
    end
}

// How many places bytes take: two digits each, a space between two; and the two dots after eight of more.
fn shown_size(s: &[u8]) -> usize
    ensures { result ≡ length (shown_bytes s.now) }
{
    if s.len() > MOST_SHOWN {
        return 3 * MOST_SHOWN + 1;
    }
    (3 * s.len()).saturating_sub(1)
}

// Of more than eight bytes the first eight.
fn put_shown(out: &mut [u8], at: usize, s: &[u8]) -> usize
    ensures { filling out.new result ≡ pour (filling out.old at)
        (shown_bytes s.now) }
{
    if s.len() <= MOST_SHOWN {
        return put_hex(out, at, s);
    }
    let next = put_hex(out, at, &s[..MOST_SHOWN]);
    put_bytes(out, next, b"..")
}

// The column of bytes.
pub fn put_bytes_column(out: &mut [u8], at: usize, s: &[u8]) -> usize
    ensures { filling out.new result ≡ pour (filling out.old at)
        (bytes_column s.now) }
{
    let next = put_shown(out, at, s);
    put_spaces(out, next, gap(BYTES_WIDTH, shown_size(s)))
}

// A number, in as many digits as it needs: those of its sixteenth part, and then its last one.
pub fn put_hexadecimal(out: &mut [u8], at: usize, n: u64) -> usize
    ensures { filling out.new result ≡ pour (filling out.old at) (hex_of n) }
{
    if n < 16 {
        return put_byte(out, at, hex_digit(n as u8));
    }
    let next = put_hexadecimal(out, at, n / 16);
    put_byte(out, next, hex_digit((n % 16) as u8))
}
