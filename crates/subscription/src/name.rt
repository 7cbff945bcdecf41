// The track that a message names, by its name.
ghost use Rattle.std.specs.Prelude.{◌≡◌};
ghost use Rattle.subscription.specs.Names.{name_span};

use crate::SubscriptionMessage;
use field::Span;

// Where the name of the message's track stands in the bytes that it was read from; an empty part where it has none.
pub fn name_of(m: SubscriptionMessage) -> Span
    ensures { result ≡ name_span m }
{
    match m {
        SubscriptionMessage::Subscribe(s) => s.track.name,
        _ => Span { start: 0, end: 0 },
    }
}
