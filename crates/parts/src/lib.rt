// A message or a data header, part by part: the bytes of each part, what it is, and which field of the layout it
// belongs to. One part is told at a time, by a cursor that the caller keeps; nothing is held of the parts before.
#![tactic(auto)]

mod advancing;
mod cursors;
mod expecting;
mod telling;

use layout::FieldName;
use outline::Outline;

// How many fields a layout has at most.
pub const MOST_FIELDS: usize = 10;

// What a part is: an integer, or a byte, that is a field; the length of bytes, and the bytes; how many entries a list
// has; the number that an entry begins with, the length of its bytes, and the bytes; bytes that no field takes.
#[derive(Clone, Copy)]
pub enum What {
    Number,
    Byte,
    Length,
    Content,
    Count,
    EntryNumber,
    EntryLength,
    EntryContent,
    Left,
}

// A part: the field that it belongs to, what it is, the number that it holds (0 where it holds bytes), and where it
// stands.
#[derive(Clone, Copy)]
pub struct Part {
    pub name: FieldName,
    pub what: What,
    pub value: u64,
    pub start: usize,
    pub end: usize,
}

// What is read: a control message; or what a datagram, a stream, or an object on one of the two streams begins with.
#[derive(Clone, Copy)]
pub enum Subject {
    Message,
    Datagram,
    Stream,
    SubgroupObject,
    FetchObject,
}

// A place in a layout: what is laid out, and the numbers that the fields so far handed on.
// They stay an array and a count: a cursor may have any numbers behind those passed, which a Few would exclude.
#[derive(Clone, Copy)]
pub struct Place {
    pub outline: Outline,
    pub numbers: [u64; MOST_FIELDS],
    pub passed: usize,
}

// Where in a field, or before the first, the next part stands. An entry has the entries that are left, itself among
// them, and the bytes that those before it hold.
#[derive(Clone, Copy)]
pub enum Stage {
    TypeNumber,
    Length,
    Refused(u8),
    Field,
    Content(u64),
    Entry(u64, usize),
    EntryLength(u64, usize),
    EntryContent(u64, usize, u64),
    NameLength(usize),
}

// Where the next part stands: in the layout, in its field, among the bytes; and where the bytes end that it may take.
#[derive(Clone, Copy)]
pub struct Cursor {
    pub place: Place,
    pub stage: Stage,
    pub at: usize,
    pub end: usize,
}

// What is told: a part; that the part before is refused, by 01's number; a part that is refused itself, since the bytes
// end in it or no field takes it; or that all is told, and how many bytes it took.
#[derive(Clone, Copy)]
pub enum Step {
    Part(Part),
    Refused(u8),
    Faulty(Part, u8),
    Whole(usize),
}

// And where the next part stands; the cursor stays where no part follows.
#[derive(Clone, Copy)]
pub struct NextPart {
    pub step: Step,
    pub cursor: Cursor,
}

// What stands at a cursor.
#[derive(Clone, Copy)]
enum Expected {
    Number(FieldName, What),
    Byte(FieldName),
    Bytes(FieldName, What, u64),
    End,
    Refused(u8),
}
