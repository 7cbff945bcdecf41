// What a field of a trace is, by its tag and its value.
ghost use Rattle.std.specs.Prelude.{◌≡◌};
ghost use Rattle.common.specs.Answer.{number};
ghost use Rattle.message.specs.Reading.{told};
ghost use Rattle.replay.specs.Events.{started_by, control_by, malformed_by, arrived_by, as_event, event_of};

use crate::Event;
use field::Arrival;
use ledger::Part;
use message::Message;
use types::Refusal;

pub fn event_of(tag: u8, value: &[u8]) -> Event
    ensures { result ≡ event_of tag value.now }
{
    match tag {
        1 => started(value),
        2 => control(value),
        3 => match arrived(value) {
            Some(a) => Event::Arrived(a),
            None => Event::Fault,
        },
        _ => Event::Fault,
    }
}

// A part and a maximum.
fn started(value: &[u8]) -> Event
    ensures { result ≡ started_by value.now }
{
    let Ok((maximum, end)) = field::read_number(value, 1) else {
        return Event::Fault;
    };
    if end != value.len() {
        return Event::Fault;
    }
    match value[0] {
        0 => Event::Start(Part::Subscriber, maximum),
        1 => Event::Start(Part::Publisher, maximum),
        _ => Event::Fault,
    }
}

// Only a whole message that fills its field reaches the ledger; every other reading ends here.
fn control(value: &[u8]) -> Event
    ensures { result ≡ control_by value.now }
{
    let reading = message::read(value);
    let Ok((m, used)) = reading else {
        return malformed(reading);
    };
    if used != value.len() {
        return Event::Fault;
    }
    Event::Control(m)
}

// A reading of no message: where more bytes are needed it is a fault, else it is malformed, with the reader's number.
#[tactic(auto, unfolding(common::specs::Answer::number))]
fn malformed(reading: Result<(Message, usize), Refusal>) -> Event
    ensures { result ≡ malformed_by (number (told reading)) }
{
    match reading {
        Ok(_) | Err(Refusal::More) => Event::Fault,
        Err(refusal) => Event::Malformed(refusal.number()),
    }
}

// Alias, group and object, where that is what the value holds.
pub fn arrived(value: &[u8]) -> Option<Arrival>
    ensures { as_event result ≡ arrived_by value.now }
{
    let Ok((alias, next)) = field::read_number(value, 0) else {
        return None;
    };
    let Ok((place, end)) = field::read_place(value, next) else {
        return None;
    };
    if end != value.len() {
        return None;
    }
    Some(Arrival { alias, place })
}
