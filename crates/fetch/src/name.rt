// The track that a message names, by its name.
ghost use Rattle.std.specs.Prelude.{◌≡◌};
ghost use Rattle.fetch.specs.Names.{name_span};

use crate::{FetchMessage, Range};
use field::Span;

// Where the name of the message's track stands in the bytes that it was read from; an empty part where it has none.
pub fn name_of(m: FetchMessage) -> Span
    ensures { result ≡ name_span m }
{
    match m {
        FetchMessage::Fetch(f) => match f.range {
            Range::Standalone(r) => r.track.name,
            Range::Joining(_) => Span { start: 0, end: 0 },
        },
        FetchMessage::TrackStatusRequest(track) => track.name,
        FetchMessage::TrackStatus(t) => t.track.name,
        _ => Span { start: 0, end: 0 },
    }
}
