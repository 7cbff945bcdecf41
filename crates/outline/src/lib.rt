// Which field stands where in a layout. A place in a layout is told by the numbers that the fields before it handed on,
// one for each: what an integer or a byte holds, and 0 for any other field. Each layout of the definitions is one
// function here.
#![tactic(auto)]

mod announces;
mod fetches;
mod headers;
mod laid;
mod sessions;
mod shared;
mod subscriptions;

use field::Kind;
pub use laid::look_ahead;
use layout::FieldName;

// The forms of field.
#[derive(Clone, Copy)]
pub enum Form {
    Integer,
    Byte,
    Bytes,
    List(Kind),
    Track,
}

// What stands at a place: a field; or nothing more; or nothing, since a value before it is forbidden.
// It stays an enum of its own: three names are plainer than a Result of an Option.
#[derive(Clone, Copy)]
pub enum Ahead {
    Field(FieldName, Form),
    Done,
    Forbidden,
}

// What has a layout: the body of a message, by the number of its type; what follows the type of a datagram or of a
// stream, by its number; the header of an object on a subgroup's stream, or on a fetch's.
#[derive(Clone, Copy)]
pub enum Outline {
    Message(u64),
    Datagram(u64),
    Stream(u64),
    SubgroupObject,
    FetchObject,
}
