// Lines in columns, put into a lent buffer from an offset on: offsets, bytes in hexadecimal, bytes as text. What
// doesn't fit the buffer is lost, so that no function asks for room; each hands back where the next byte goes. (Buffer
// and offset stay two parameters: a struct that holds a `&mut` has to say in each contract that it keeps the buffer,
// `page.new.out.ghost_name ≡ page.old.out.ghost_name`, which is longer than what each says of the text.)
#![tactic(auto)]

mod bytes;
mod hexadecimal;
mod texts;

pub use bytes::{put_byte, put_bytes, put_item, put_spaces, put_str};
pub use hexadecimal::{put_bytes_column, put_hex, put_hexadecimal};
pub use texts::{put_content, put_offset, put_size};

// The places that an offset takes, and the bytes beside it.
pub const OFFSET_WIDTH: usize = 5;

pub const BYTES_WIDTH: usize = 26;

// How many bytes are shown in hexadecimal, and of a text.
pub const MOST_SHOWN: usize = 8;

pub const MOST_TEXT: usize = 24;
