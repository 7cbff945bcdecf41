// A trace: fields, each a tag of one byte, a length of two and as many bytes.
#![tactic(auto)]

mod fields;

pub use fields::field_at;

// A field: its tag, and where its value stands among the bytes, up to the field's end.
#[derive(Clone, Copy)]
pub struct Field {
    pub tag: u8,
    pub start: usize,
    pub end: usize,
}
