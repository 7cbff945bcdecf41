// Numbers in decimal digits.
ghost use Rattle.std.specs.Prelude.{◌≡◌, ◌≤◌, length};
ghost use Rattle.common.specs.Buffer.{Put};
ghost use Rattle.text.specs.Decimals.{decimal_of};

// How many digits n has.
pub fn places(n: u64) -> usize
    ensures { result ≡ length (decimal_of n) }
{
    match n.checked_ilog10() {
        Some(log) => log as usize + 1,
        None => 1,
    }
}

// The digits of n at the front of out, the last one first.
pub fn put_number(out: &mut [u8], n: u64) -> usize
    requires { length (decimal_of n) ≤ length out.old }
    ensures { Put (decimal_of n) out.old result out.new }
{
    let count = places(n);
    let mut left = n;
    for i in (0..count).rev() {
        out[i] = b'0' + (left % 10) as u8;
        left /= 10;
    }
    count
}
