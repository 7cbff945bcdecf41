// The name of the track that a message names, handed back as the same part of the caller's bytes.
ghost use Rattle.std.specs.Prelude.{◌≡◌};
ghost use Rattle.message.specs.Part.{PartOf};
ghost use Rattle.message.specs.Names.{name_span, named_span};

use crate::Message;
use field::Span;

// The part of s, the bytes that m was read from, that is the name of its track: not a copy, and not the same bytes
// elsewhere. It is the empty part at the front of s where m has none, and where it lies outside s.
pub fn track_name<'a>(s: &'a [u8], m: Message) -> &'a [u8]
    ensures { PartOf s.entry result (named_span s.now m) }
{
    let name = name_of(m);
    let start = name.start;
    let end = name.end;
    if start > end {
        return &s[..0];
    }
    if end > s.len() {
        return &s[..0];
    }
    &s[start..end]
}

// Where it stands.
fn name_of(m: Message) -> Span
    ensures { result ≡ name_span m }
{
    match m {
        Message::Subscription(m) => subscription::name_of(m),
        Message::Fetch(m) => fetch::name_of(m),
        _ => Span { start: 0, end: 0 },
    }
}
