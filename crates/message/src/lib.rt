// Control messages: section 8 of source document 004. A message is Type, Length and a body of Length bytes.
#![tactic(auto)]

mod name;
mod reader;

use announce::AnnounceMessage;
use fetch::FetchMessage;
pub use name::track_name;
pub use reader::read;
use session::SessionMessage;
use subscription::SubscriptionMessage;

#[derive(Clone, Copy)]
pub enum Message {
    Subscription(SubscriptionMessage),
    Fetch(FetchMessage),
    Announce(AnnounceMessage),
    Session(SessionMessage),
}
