// What the programs share: bytes come into a lent buffer, text goes to standard output a page at a time, and what
// failed is said. (The loop that reads stays in each program: what becomes of a piece, and of the end, differs, and a
// loop that was handed both would have to say in its contract what they do with the buffer.)
#![tactic(auto)]

ghost use Rattle.std.specs.Prelude.{◌≡◌, ◌+◌, ◌-◌, ◌≤◌, IfOk, IfErr, OnOk, is_err, length, min, take};
ghost use Rattle.console.specs.Failures.{IsInput, IsOutput};

use std::io::Read;
use std::{fmt, io};

// What failed, and why.
#[derive(Drop)]
pub enum Failed {
    Input(io::Error),
    Output(io::Error),
}

impl fmt::Display for Failed {
    fn fmt<W: fmt::Write>(&self, f: &mut fmt::Formatter<W>) -> fmt::Result {
        match self {
            Failed::Input(e) => write!(f, "standard input: {e}"),
            Failed::Output(e) => write!(f, "standard output: {e}"),
        }
    }
}

// Says on standard error that a program failed, and why. It answers whether it did fail.
pub fn say_failed(rt: &impl Eprint, program: &str, done: Result<(), Failed>) -> bool
    ensures { result ≡ is_err done }
{
    match done {
        Ok(()) => false,
        Err(e) => {
            let _ = eprintln!(rt; "{program}: {e}");
            true
        }
    }
}

// One read into buffer, after what is left of the bytes before, which stays. It answers how many came: none where no
// room is left.
pub fn read_behind(rt: &impl Input, buffer: &mut [u8], left: usize) -> Result<usize, Failed>
    ensures count { IfOk result (λ n. n ≤ length buffer.old - left) }
    ensures front { take left buffer.new ≡ take left buffer.old }
    ensures failure { IfErr result IsInput }
{
    if left > buffer.len() {
        return Ok(0);
    }
    rt.reader().read(&mut buffer[left..]).map_err(Failed::Input)
}

// Fills buffer from a reader, as far as what is read goes. It answers how many bytes came. (No `for`: it counts bytes,
// and a read brings as many as it likes.)
pub fn read_full(from: &mut impl Read, buffer: &mut [u8]) -> io::Result<usize>
    ensures { IfOk result (λ n. n ≤ length buffer.old) }
{
    let mut filled: usize = 0;
    while filled < buffer.len() {
        let n = from.read(&mut buffer[filled..])?;
        if n == 0 {
            break;
        }
        filled += n;
    }
    Ok(filled)
}

// Text is written.
pub fn write(rt: &impl Print, text: &[u8]) -> Result<(), Failed>
    ensures { IfErr result IsOutput }
{
    rt.write_all(text).map_err(Failed::Output)
}

// Text that waits to be written, at the front of a page.
#[derive(Drop)]
pub struct Page {
    pub bytes: [u8; 65536],
    pub used: usize,
    ghost within: { used ≤ 65536 },
}

impl Page {
    pub fn new() -> Page
        ensures { result.used ≡ 0 }
    {
        Page {
            bytes: [0u8; 65536],
            used: 0,
        }
    }

    // Whatever waits is written.
    pub fn flush(&mut self, rt: &impl Print) -> Result<(), Failed>
        ensures { OnOk result (self.new.used ≡ 0) }
    {
        write(rt, &self.bytes[..self.used])?;
        self.used = 0;
        Ok(())
    }

    // Room for so many bytes more, if a page has so much. Where there is none, what waits is written.
    pub fn make_room(&mut self, rt: &impl Print, size: usize) -> Result<(), Failed>
        ensures { OnOk result (self.new.used + min size 65536 ≤ 65536) }
    {
        if self.bytes.len() - self.used < size {
            return self.flush(rt);
        }
        Ok(())
    }
}
