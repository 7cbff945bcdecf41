// A ledger, which the caller holds as numbers (the crate ledger_numbers says which). What is no ledger answers 14, and
// stays as it is.
ghost use Rattle.std.specs.Prelude.{◌≡◌, [], Err};
ghost use Rattle.common.specs.Answer.{number};
ghost use Rattle.message.specs.Reading.{told};
ghost use Rattle.ledger.specs.Runs.{told_filled};
ghost use Rattle.rewrite.specs.Rewriting.{Does};
ghost use Rattle.ledger_calls.specs.Calls.{start_call, malformed_call, arrival_call, message_call, arrivals_call};

use field::{Arrival, Place};
use ledger::{Part, RunRefused};
use message::Message;
use types::Refusal;

// A new ledger, with no row in use. The part is 0 for the subscriber's end and 1 for the publisher's.
pub fn start(part: u64, rows: u64, maximum: u64, numbers: &mut [u64]) -> u64
    ensures { Does (start_call part rows maximum numbers.old) result numbers.new [] }
{
    if part > 1 {
        return 5;
    }
    let own = if part == 0 {
        Part::Subscriber
    } else {
        Part::Publisher
    };
    let started = ledger::start(own, rows as usize, maximum);
    let said = ledger::number(started.answer) as u64;
    if said != 8 {
        return said;
    }
    if numbers.len() < ledger_numbers::LEDGER_NUMBERS {
        return 7;
    }
    ledger_numbers::keep(numbers, started.ledger);
    8
}

// The control message at the front of s: into `info` the bytes used, and the rule that it breaks. Only a whole message
// reaches the ledger; every other reading ends here.
pub fn take(s: &[u8], numbers: &mut [u64], info: &mut [u64]) -> u64
    ensures { Does (message_call s.now numbers.old info.old) result
        numbers.new info.new }
{
    let reading = message::read(s);
    let Ok((m, used)) = reading else {
        return refused(reading);
    };
    let l = ledger_numbers::unpack(numbers);
    let taken = l.take(m);
    let said = ledger::number(taken.answer) as u64;
    if said == 14 {
        return 14;
    }
    if info.len() < 2 {
        return 7;
    }
    info[0] = used as u64;
    info[1] = ledger::broken(taken.answer) as u64;
    ledger_numbers::keep(numbers, taken.ledger);
    said
}

// Document 01's number of a reading of no message.
#[tactic(auto, unfolding(common::specs::Answer::number))]
fn refused(reading: Result<(Message, usize), Refusal>) -> u64
    ensures { result ≡ number (told reading) }
{
    match reading {
        Ok(_) => 0,
        Err(refusal) => refusal.number() as u64,
    }
}

// Bytes of the peer's that are no message.
pub fn malformed(numbers: &mut [u64]) -> u64
    ensures { Does (malformed_call numbers.old) result numbers.new [] }
{
    let closed = ledger_numbers::unpack(numbers).malformed();
    ledger_numbers::keep(numbers, closed.ledger);
    ledger::number(closed.answer) as u64
}

// An arrival.
pub fn arrival(alias: u64, group: u64, object: u64, numbers: &mut [u64]) -> u64
    ensures { Does (arrival_call (record { alias = alias; place = record { group = group; object = object } })
        numbers.old) result numbers.new [] }
{
    let place = Place { group, object };
    let counted = ledger_numbers::unpack(numbers).arrival(Arrival { alias, place });
    ledger_numbers::keep(numbers, counted.ledger);
    ledger::number(counted.answer) as u64
}

// A run of arrivals, three numbers each: 01's number of each at the front of `answers`.
pub fn arrivals(run: &[u64], numbers: &mut [u64], answers: &mut [u8]) -> u64
    ensures { Does (arrivals_call run.now numbers.old answers.old) result
        numbers.new answers.new }
{
    let ran = ledger_numbers::unpack(numbers).arrivals(run, answers);
    ledger_numbers::keep(numbers, ran.ledger);
    match ran.answer {
        Ok(_) => 0,
        Err(why) => run_refusal(why),
    }
}

// Document 01's number of a run that is not taken.
#[tactic(auto, unfolding(common::specs::Answer::number))]
fn run_refusal(why: RunRefused) -> u64
    ensures { result ≡ number (told_filled (Err why)) }
{
    match why {
        RunRefused::NotALedger => 14,
        RunRefused::TooShort => 7,
    }
}
