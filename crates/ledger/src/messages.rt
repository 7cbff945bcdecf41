// A message is taken by a ledger, which hands back the next ledger and an answer: a method for each kind of message,
// and for arrivals.
ghost use Rattle.std.specs.Prelude.{◌≡◌, true};
ghost use Rattle.message.specs.declared.Message.TheVariants.{Subscription};
ghost use Rattle.subscription.specs.declared.SubscriptionMessage.TheVariants.{Subscribe as ASubscribe, SubscribeOk as ASubscribeOk, SubscribeError as ASubscribeError, Unsubscribe as AUnsubscribe, SubscribeDone as ASubscribeDone, MaxSubscribeId as AMaxSubscribeId};
ghost use Rattle.ledger.specs.Ledgers.{is_ledger};
ghost use Rattle.ledger.specs.Answers.{told};
ghost use Rattle.ledger.specs.Views.{view_of, came_of};
ghost use Rattle.ledger.specs.Steps.{unchanged, maximum_step, subscription_step, take_of, malformed_of, arrival_of};

use crate::arrivals::{count, is_small};
use crate::endings::end;
use crate::gating::gate;
use crate::rules::{break_rule, breaks};
use crate::subscribing::{accept, add};
use crate::{Answer, Ledger, Part, Rule, Taken};
use field::Arrival;
use message::Message;
use row::Ending;
use subscription::{Subscribe, SubscribeDone, SubscribeError, SubscribeOk, SubscriptionMessage};

impl Ledger {
    // Whether it is a ledger: every condition of document 01's list.
    pub fn is_ledger(self) -> bool
        ensures { result ≡ is_ledger self }
    {
        crate::checks::is_ledger(&self)
    }

    pub fn subscribe(self, x: Subscribe) -> Taken
        ensures { told result ≡ take_of self (Subscription (ASubscribe x)) }
    {
        self.take(Message::Subscription(SubscriptionMessage::Subscribe(x)))
    }

    pub fn subscribe_ok(self, x: SubscribeOk) -> Taken
        ensures { told result ≡ take_of self (Subscription (ASubscribeOk x)) }
    {
        self.take(Message::Subscription(SubscriptionMessage::SubscribeOk(x)))
    }

    pub fn subscribe_error(self, x: SubscribeError) -> Taken
        ensures { told result ≡ take_of self (Subscription (ASubscribeError x)) }
    {
        self.take(Message::Subscription(SubscriptionMessage::SubscribeError(x)))
    }

    pub fn subscribe_done(self, x: SubscribeDone) -> Taken
        ensures { told result ≡ take_of self (Subscription (ASubscribeDone x)) }
    {
        self.take(Message::Subscription(SubscriptionMessage::SubscribeDone(x)))
    }

    pub fn unsubscribe(self, id: u64) -> Taken
        ensures { told result ≡ take_of self (Subscription (AUnsubscribe id)) }
    {
        self.take(Message::Subscription(SubscriptionMessage::Unsubscribe(id)))
    }

    pub fn max_subscribe_id(self, id: u64) -> Taken
        ensures { told result ≡ take_of self (Subscription (AMaxSubscribeId id)) }
    {
        self.take(Message::Subscription(SubscriptionMessage::MaxSubscribeId(id)))
    }

    // Bytes of the peer's that are no message.
    pub fn malformed(self) -> Taken
        ensures { told result ≡ malformed_of self }
    {
        if let Err(answer) = gate(&self, true) {
            return self.answers(answer);
        }
        break_rule(self, false, Rule::R1)
    }

    pub fn arrival(self, a: Arrival) -> Taken
        ensures { told result ≡ arrival_of self a }
    {
        if let Err(answer) = gate(&self, is_small(a)) {
            return self.answers(answer);
        }
        count(self, a)
    }

    // Any whole message.
    pub fn take(self, m: Message) -> Taken
        ensures { told result ≡ take_of self m }
    {
        if let Err(answer) = gate(&self, message_writer::is_sound(m)) {
            return self.answers(answer);
        }
        let Message::Subscription(x) = m else {
            return other(self);
        };
        keep(self, x)
    }
}

// A message about a subscription, by its kind.
fn keep(l: Ledger, m: SubscriptionMessage) -> Taken
    requires { is_ledger l ≡ true }
    ensures { told result ≡ came_of (subscription_step (view_of l) m) }
{
    match m {
        SubscriptionMessage::Subscribe(x) => add(l, x),
        SubscriptionMessage::SubscribeOk(x) => accept(l, x),
        SubscriptionMessage::SubscribeError(x) => end(
            l,
            Part::Publisher,
            Ending::SubscribeError,
            x.id,
        ),
        SubscriptionMessage::SubscribeDone(x) => end(
            l,
            Part::Publisher,
            Ending::SubscribeDone,
            x.id,
        ),
        SubscriptionMessage::Unsubscribe(id) => end(l, Part::Subscriber, Ending::Unsubscribe, id),
        SubscriptionMessage::MaxSubscribeId(id) => raise(l, id),
        _ => other(l),
    }
}

// A message that the ledger doesn't keep.
fn other(l: Ledger) -> Taken
    requires { is_ledger l ≡ true }
    ensures { told result ≡ came_of (unchanged (view_of l) 9) }
{
    l.answers(Answer::NotKept)
}

// MAX_SUBSCRIBE_ID raises the maximum.
fn raise(l: Ledger, id: u64) -> Taken
    requires { is_ledger l ≡ true }
    ensures { told result ≡ came_of (maximum_step (view_of l) id) }
{
    if id <= l.maximum {
        return breaks(l, Part::Publisher, Rule::R7);
    }
    Ledger { maximum: id, ..l }.answers(Answer::Done)
}
