// Bytes as text, in hexadecimal, as cases and answers have them: two digits each, and a run of equal bytes as one of
// them, `*` and how many they are.
use crate::ROOM;
use std::io;

// ---- read

// What is held of a line: how many bytes, the last of them, and a first digit that waits for its second.
#[derive(Clone, Copy)]
struct Held {
    count: usize,
    last: u8,
    high: Option<u8>,
}

// The value of a hexadecimal digit.
fn digit(c: u8) -> Option<u8> {
    match c {
        b'0'..=b'9' => Some(c - b'0'),
        b'A'..=b'F' => Some(c - b'A' + 10),
        b'a'..=b'f' => Some(c - b'a' + 10),
        _ => None,
    }
}

impl Held {
    // Adds a byte, where there is room for it.
    fn add(self, bytes: &mut [u8], byte: u8) -> Option<Held> {
        *bytes.get_mut(self.count)? = byte;
        Some(Held {
            count: self.count + 1,
            last: byte,
            ..self
        })
    }

    // Takes one character: a second digit makes a byte with the first, and what is no digit is passed over.
    fn take(self, bytes: &mut [u8], c: u8) -> Option<Held> {
        let Some(low) = digit(c) else {
            return Some(self);
        };
        match self.high {
            None => Some(Held {
                high: Some(low),
                ..self
            }),
            Some(high) => Held { high: None, ..self }.add(bytes, high << 4 | low),
        }
    }
}

// The number that decimal digits spell. One over the room doesn't grow any more.
fn decimal(digits: &[u8]) -> usize {
    digits.iter().fold(0usize, |n, c| {
        if ROOM < n {
            n
        } else {
            n * 10 + usize::from(c % 16)
        }
    })
}

// The bytes that digits spell, put at the front of a buffer; none where there is no room for all of them. A byte
// followed by `*` and a decimal number stands that many times.
pub fn decode<'a>(text: &[u8], bytes: &'a mut [u8]) -> Option<&'a [u8]> {
    let mut held = Held {
        count: 0,
        last: 0,
        high: None,
    };
    for (i, part) in text.split(|c| *c == b'*').enumerate() {
        let end = part
            .iter()
            .position(|c| !c.is_ascii_digit())
            .unwrap_or(part.len());
        let (digits, rest) = part.split_at(if i == 0 { 0 } else { end });
        for _ in 1..decimal(digits) {
            held = held.add(bytes, held.last)?;
        }
        for c in rest {
            held = held.take(bytes, *c)?;
        }
    }
    bytes.get(..held.count)
}

// ---- printed

// Bytes in hexadecimal; a run of 16 or more equal ones as the byte, `*` and how many they are, with a space before and
// after it.
pub fn say_bytes(rt: &impl Print, bytes: &[u8]) -> io::Result<()> {
    let mut behind_run = false;
    for (i, run) in bytes.chunk_by(|a, b| a == b).enumerate() {
        let is_run = 16 <= run.len();
        if 0 < i && (is_run || behind_run) {
            print!(rt; " ")?;
        }
        if is_run {
            print!(rt; "{:02x}*{}", run[0], run.len())?;
        } else {
            for byte in run {
                print!(rt; "{byte:02x}")?;
            }
        }
        behind_run = is_run;
    }
    Ok(())
}
