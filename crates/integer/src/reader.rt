// An integer is read from the front of bytes. Its first two bits say how many bytes it takes; a longer form than needed
// is read like any other.
ghost use Rattle.std.specs.Prelude.{◌≡◌, ◌-◌, ◌/◌, ◌^◌, ◌≤◌, ◌<◌, length, get_or, drop};
ghost use Rattle.integer.specs.Integer.{wide, room as room_of, spell, read_of, told};

use crate::Cut;

pub fn read(s: &[u8]) -> Result<(u64, usize), Cut>
    ensures { told result ≡ read_of s.now }
{
    if s.len() == 0 {
        return Err(Cut);
    }
    let first = s[0];
    // Constants in each arm: the compiler then makes straight code of the loop.
    match first {
        0..=63 => gather(s, 1, 0x100, 0x40),
        64..=127 => gather(s, 2, 0x100, 0x4000),
        128..=191 => gather(s, 4, 0x1_0000, 0x4000_0000),
        _ => gather(s, 8, 0x1_0000_0000, 0x4000_0000_0000_0000),
    }
}

// What stands at an offset. Past the end nothing does, so more bytes are needed.
pub fn read_at(s: &[u8], at: usize) -> Result<(u64, usize), Cut>
    ensures { told result ≡ read_of (drop at s.now) }
{
    if s.len() < at {
        return Err(Cut);
    }
    read(&s[at..])
}

// The number that width bytes spell, less what the first two bits add to it: a form of that many bytes has room for the
// numbers below room. Each half is spelled by itself, so that the compiler loads its bytes at once, and the first half
// counts step times.
fn gather(s: &[u8], width: usize, step: u64, room: u64) -> Result<(u64, usize), Cut>
    requires { (width ≡ wide (get_or s.now 0 0)) × (step ≡ 256 ^ (width - width / 2)) × (room ≡ room_of width) }
    ensures { told result ≡ read_of s.now }
{
    if s.len() < width {
        return Err(Cut);
    }
    let half = width / 2;
    let high = spelled(&s[..half]);
    let low = spelled(&s[half..width]);
    let number = high * step + low;
    Ok((number % room, width))
}

// The number that up to eight bytes spell, most significant first.
fn spelled(s: &[u8]) -> u64
    requires { length s.now ≤ 8 }
    ensures { (result ≡ spell 0 s.now) × (result < 256 ^ length s.now) }
{
    let mut number: u64 = 0;
    for x in s {
        number = number * 256 + *x as u64;
    }
    number
}
