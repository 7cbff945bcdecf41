// An integer is written in the fewest bytes, at the front of what is lent.
ghost use Rattle.std.specs.Prelude.{◌≡◌};
ghost use Rattle.common.specs.Answer.{Leaves};
ghost use Rattle.integer.specs.Integer.{size_of, write_of, put_form, told_writing};

use crate::Unwritten;

// How many bytes n takes: RFC 9000's table, row by row. The first row whose range has n is that of its shortest form;
// where none has, n is too great to be written.
#[tactic(auto, using(crate::proofs::Widths::sizes))]
pub fn size(n: u64) -> usize
    ensures { result ≡ size_of n }
{
    match n {
        0..=63 => 1,
        0..=16_383 => 2,
        0..=1_073_741_823 => 4,
        0..=4_611_686_018_427_387_903 => 8,
        _ => 0,
    }
}

// n in as many bytes as its size; every byte after them stays.
pub fn write(out: &mut [u8], n: u64) -> Result<usize, Unwritten>
    ensures { Leaves (write_of n out.old) (told_writing result) out.new }
{
    // The table's other columns, in the row that was chosen: its two bits, and how many are left for n after them. They
    // stand in a second match for speed: with constants in each arm, the compiler makes straight code of the loop.
    match size(n) {
        1 => put(out, 1, (0b00 << 6) + n),
        2 => put(out, 2, (0b01 << 14) + n),
        4 => put(out, 4, (0b10 << 30) + n),
        8 => put(out, 8, (0b11 << 62) + n),
        _ => Err(Unwritten::TooGreat),
    }
}

// The low width bytes of m, most significant first, at the front of out.
fn put(out: &mut [u8], width: usize, m: u64) -> Result<usize, Unwritten>
    ensures { Leaves (put_form width m out.old) (told_writing result) out.new }
{
    if out.len() < width {
        return Err(Unwritten::TooShort);
    }
    let mut left = m;
    for i in (0..width).rev() {
        out[i] = (left % 256) as u8;
        left /= 256;
    }
    Ok(width)
}
