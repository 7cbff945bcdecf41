// A message as its fields, in the order of its layout; and whether its values are permitted.
ghost use Rattle.std.specs.Prelude.{◌≡◌};
ghost use Rattle.layout.specs.Allowed.{allowed};
ghost use Rattle.types.specs.Table.{allowed_typed};
ghost use Rattle.measure.specs.Fields.{placed};
ghost use Rattle.types.specs.Subscriptions.{subscribe};
ghost use Rattle.subscription.specs.Told.{subscribe_pieces, ok_pieces, update_pieces, typed_of};

use crate::{Filter, Subscribe, SubscribeOk, SubscribeUpdate, SubscriptionMessage};
use field::{Kind, Piece};
use measure::Fields;
use types::ends_after;

// The number of its type.
pub fn number(m: SubscriptionMessage) -> u64
    ensures { result ≡ (typed_of m).type }
{
    match m {
        SubscriptionMessage::SubscribeUpdate(_) => 0x2,
        SubscriptionMessage::Subscribe(_) => 0x3,
        SubscriptionMessage::SubscribeOk(_) => 0x4,
        SubscriptionMessage::SubscribeError(_) => 0x5,
        SubscriptionMessage::Unsubscribe(_) => 0xA,
        SubscriptionMessage::SubscribeDone(_) => 0xB,
        SubscriptionMessage::MaxSubscribeId(_) => 0x15,
        SubscriptionMessage::SubscribesBlocked(_) => 0x1A,
    }
}

pub fn fields(m: SubscriptionMessage) -> Fields
    ensures { result ≡ placed (typed_of m) }
{
    let number = number(m);
    match m {
        SubscriptionMessage::SubscribeUpdate(x) => update_fields(number, x),
        SubscriptionMessage::Subscribe(x) => subscribe_fields(number, x),
        SubscriptionMessage::SubscribeOk(x) => ok_fields(number, x),
        SubscriptionMessage::SubscribeError(x) => Fields::of(
            number,
            [
                Piece::Number(x.id),
                Piece::Number(x.failure.code),
                Piece::Bytes(x.failure.reason),
                Piece::Number(x.alias),
            ],
        ),
        SubscriptionMessage::Unsubscribe(id) => Fields::of(number, [Piece::Number(id)]),
        SubscriptionMessage::SubscribeDone(x) => Fields::of(
            number,
            [
                Piece::Number(x.id),
                Piece::Number(x.status),
                Piece::Number(x.streams),
                Piece::Bytes(x.reason),
            ],
        ),
        SubscriptionMessage::MaxSubscribeId(id) => Fields::of(number, [Piece::Number(id)]),
        SubscriptionMessage::SubscribesBlocked(id) => Fields::of(number, [Piece::Number(id)]),
    }
}

fn update_fields(number: u64, x: SubscribeUpdate) -> Fields
    ensures { result ≡ placed (record { type = number; pieces = update_pieces x }) }
{
    Fields::of(
        number,
        [
            Piece::Number(x.id),
            Piece::Number(x.start.group),
            Piece::Number(x.start.object),
            Piece::Number(x.end_group),
            Piece::Byte(x.priority),
            Piece::List(Kind::Parameters, x.parameters),
        ],
    )
}

// The five fields before the filter are the same for each filter.
fn subscribe_fields(number: u64, x: Subscribe) -> Fields
    ensures { result ≡ placed (record { type = number; pieces = subscribe_pieces x }) }
{
    let a = Piece::Number(x.id);
    let b = Piece::Number(x.alias);
    let c = Piece::Track(x.track);
    let d = Piece::Byte(x.priority);
    let e = Piece::Byte(x.order);
    let last = Piece::List(Kind::Parameters, x.parameters);
    match x.filter {
        Filter::Latest => Fields::of(number, [a, b, c, d, e, Piece::Number(2), last]),
        Filter::From(start) => {
            let group = Piece::Number(start.group);
            let object = Piece::Number(start.object);
            Fields::of(
                number,
                [a, b, c, d, e, Piece::Number(3), group, object, last],
            )
        }
        Filter::Range(start, end_group) => {
            let group = Piece::Number(start.group);
            let object = Piece::Number(start.object);
            let end = Piece::Number(end_group);
            Fields::of(
                number,
                [a, b, c, d, e, Piece::Number(4), group, object, end, last],
            )
        }
    }
}

fn ok_fields(number: u64, x: SubscribeOk) -> Fields
    ensures { result ≡ placed (record { type = number; pieces = ok_pieces x }) }
{
    let id = Piece::Number(x.id);
    let expires = Piece::Number(x.expires);
    let order = Piece::Byte(x.order);
    let last = Piece::List(Kind::Parameters, x.parameters);
    match x.largest {
        None => Fields::of(number, [id, expires, order, Piece::Byte(0), last]),
        Some(largest) => {
            let group = Piece::Number(largest.group);
            let object = Piece::Number(largest.object);
            Fields::of(
                number,
                [id, expires, order, Piece::Byte(1), group, object, last],
            )
        }
    }
}

// Whether a message holds no value that its layout forbids.
pub fn is_allowed(m: SubscriptionMessage) -> bool
    ensures { result ≡ allowed_typed (typed_of m) }
{
    match m {
        SubscriptionMessage::SubscribeUpdate(_) => true,
        SubscriptionMessage::Subscribe(x) => is_subscribe_allowed(x),
        SubscriptionMessage::SubscribeOk(x) => field::is_givable(x.order),
        SubscriptionMessage::SubscribeError(_) => true,
        SubscriptionMessage::Unsubscribe(_) => true,
        SubscriptionMessage::SubscribeDone(_) => true,
        SubscriptionMessage::MaxSubscribeId(_) => true,
        SubscriptionMessage::SubscribesBlocked(_) => true,
    }
}

// Its order, and then its filter: a range that ends before it starts.
fn is_subscribe_allowed(x: Subscribe) -> bool
    ensures { result ≡ allowed subscribe (subscribe_pieces x) }
{
    if !field::is_askable(x.order) {
        return false;
    }
    match x.filter {
        Filter::Latest => true,
        Filter::From(_) => true,
        Filter::Range(start, end_group) => ends_after(start.group, end_group),
    }
}
