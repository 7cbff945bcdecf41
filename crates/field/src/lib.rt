// The kinds of field that control messages and data headers are made of, read at an offset of the caller's bytes:
// numbers as they are, bytes as parts of the caller's. Nothing is copied. (The bytes and an offset stay two parameters,
// as definitions have them, `field_at integer s at`: a reader that went on by itself would have to say, for each
// refusal, where it stands then.)
#![tactic(auto)]

ghost use Rattle.std.specs.Prelude.{◌≡◌};
ghost use Rattle.field.specs.declared.Fault.TheVariants.{Cut as CutShort};
ghost use Rattle.field.specs.declared.Piece.TheVariants.{Number};

mod pairs;
mod reader;
mod rules;
mod walking;

use common::Blank;
pub use integer::Cut;
pub use pairs::{read_failure, read_place};
pub use reader::{is_few, read_byte, read_bytes, read_list, read_number, read_track};
pub use rules::{is_askable, is_givable};
pub use walking::{entry_at, most, walk};

// Document 01's sizes: the fields of a namespace; its bytes and the name's together; the parameters.
pub const MOST_FIELDS: u64 = 32;

pub const LONGEST_TRACK: usize = 4_096;

pub const MOST_PARAMETERS: u64 = 64;

// A part of the caller's bytes: from start up to end.
#[derive(Clone, Copy)]
pub struct Span {
    pub start: usize,
    pub end: usize,
}

// A part of the caller's bytes that holds count entries.
#[derive(Clone, Copy)]
pub struct Entries {
    pub start: usize,
    pub end: usize,
    pub count: u64,
}

// What entries are: the fields of a namespace, each a length and bytes; parameters, each a type, a length and bytes;
// versions, each a number.
#[derive(Clone, Copy)]
pub enum Kind {
    Namespace,
    Parameters,
    Versions,
}

// A full track name: the fields of its namespace, and its name.
#[derive(Clone, Copy)]
pub struct Track {
    pub namespace: Entries,
    pub name: Span,
}

// A field as it was found.
#[derive(Clone, Copy)]
pub enum Piece {
    Number(u64),
    Byte(u8),
    Bytes(Span),
    List(Kind, Entries),
    Track(Track),
}

// What stands where a list of fields holds none.
impl Default for Piece {
    ghost is_default = { λ p. p ≡ Number 0 };

    fn default() -> Self {
        Piece::Number(0)
    }
}

impl Blank for Piece {
    ghost blank = { Number 0 };

    ghost only = { λ p is. is };
}

// A place in a track: a group and an object. Places are ordered by group first.
#[derive(Clone, Copy, PartialEq, Eq, PartialOrd, Ord)]
pub struct Place {
    pub group: u64,
    pub object: u64,
}

// An arrival: the alias of its track, and its place.
#[derive(Clone, Copy)]
pub struct Arrival {
    pub alias: u64,
    pub place: Place,
}

// Why something failed: a code, and the reason in words.
#[derive(Clone, Copy)]
pub struct Failure {
    pub code: u64,
    pub reason: Span,
}

// Why a field is refused: the bytes end before it does; it holds a forbidden value; it is over a size.
#[derive(Clone, Copy)]
pub enum Fault {
    Cut,
    Forbidden,
    Oversize,
}

impl From<Cut> for Fault {
    ghost from_gives = { λ _ fault. fault ≡ CutShort };

    fn from(_cut: Cut) -> Fault {
        Fault::Cut
    }
}

// One entry: its number, 0 where it has none, and its bytes, none where it has none.
#[derive(Clone, Copy)]
pub struct Entry {
    pub number: u64,
    pub bytes: Span,
}

// What entries come to: where they end, how many bytes they hold, and how many their shortest form takes.
#[derive(Clone, Copy)]
pub struct Sums {
    pub end: usize,
    pub held: usize,
    pub size: usize,
}
