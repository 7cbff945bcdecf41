// Answers scripts of calls on a ledger: each line of standard input is a script, calls with `;` between them, and what
// each is answered is printed. `start PART CAPACITY MAXIMUM`, `subscribe ID ALIAS ORDER FILTER [GROUP OBJECT [END_GROUP
// [PARAMETERS]]]` (how many parameters it has), `ok ID ORDER CONTENT [GROUP OBJECT]`, `error ID`, `done ID`,
// `unsubscribe ID`, `max ID`, `malformed`, `other`, `arrive ALIAS GROUP OBJECT`.
#![tactic(auto)]

use field::{Arrival, Entries, Failure, Place, Span, Track};
use ledger::{Answer, Ledger, Part, Taken};
use message::Message;
use session::SessionMessage;
use std::io;
use subscription::{Filter, Subscribe, SubscribeDone, SubscribeError, SubscribeOk};

// ---- calls

// A part of no bytes, and entries of no bytes: of both the ledger looks at the numbers alone.
const NO_SPAN: Span = Span { start: 0, end: 0 };

fn entries(count: u64) -> Entries {
    Entries {
        start: 0,
        end: 0,
        count,
    }
}

// Each subscription asks for a track of its own, which its ID names: one namespace field, and a name of one byte that
// stands where the ID says.
fn track(id: u64) -> Track {
    let at = (id % 4096) as usize;
    Track {
        namespace: entries(1),
        name: Span {
            start: at,
            end: at + 1,
        },
    }
}

// A filter type that no message holds is forbidden.
fn subscribe(l: Ledger, numbers: [u64; 8]) -> Taken {
    let [id, alias, order, kind, group, object, end_group, parameters] = numbers;
    let start = Place { group, object };
    let filter = match kind {
        2 => Filter::Latest,
        3 => Filter::From(start),
        4 => Filter::Range(start, end_group),
        _ => {
            return Taken {
                answer: Answer::Forbidden,
                ledger: l,
            };
        }
    };
    l.subscribe(Subscribe {
        id,
        alias,
        track: track(id),
        priority: 0,
        order: (order % 256) as u8,
        filter,
        parameters: entries(parameters),
    })
}

fn accept(l: Ledger, id: u64, order: u64, largest: Option<Place>) -> Taken {
    l.subscribe_ok(SubscribeOk {
        id,
        expires: 0,
        order: (order % 256) as u8,
        largest,
        parameters: entries(0),
    })
}

fn fail(l: Ledger, id: u64) -> Taken {
    let failure = Failure {
        code: 0,
        reason: NO_SPAN,
    };
    l.subscribe_error(SubscribeError {
        id,
        failure,
        alias: 0,
    })
}

fn finish(l: Ledger, id: u64) -> Taken {
    l.subscribe_done(SubscribeDone {
        id,
        status: 0,
        streams: 0,
        reason: NO_SPAN,
    })
}

// ---- the text

// Whether the letters of a call are its word.
fn is(call: &[u8], word: &[u8]) -> bool {
    call.iter().filter(|c| c.is_ascii_lowercase()).eq(word)
}

// A number with one more digit; one that has no room for it stays.
fn with_digit(n: u64, digit: u8) -> u64 {
    if n > 1_844_674_407_370_955_159 {
        return n;
    }
    n * 10 + u64::from(digit % 16)
}

// The first eight numbers of a call; one that isn't there is 0.
fn numbers_of(call: &[u8]) -> [u64; 8] {
    let mut numbers = [0u64; 8];
    let runs = call
        .split(|c| !c.is_ascii_digit())
        .filter(|digits| !digits.is_empty());
    for (n, digits) in numbers.iter_mut().zip(runs) {
        *n = digits.iter().fold(0u64, |n, digit| with_digit(n, *digit));
    }
    numbers
}

// A call by its word. One that is unknown is taken for a message that the ledger doesn't keep.
fn take(l: Ledger, call: &[u8]) -> Taken {
    let numbers = numbers_of(call);
    let [first, second, third, fourth, fifth, ..] = numbers;
    if is(call, b"start") {
        let part = if first == 0 {
            Part::Subscriber
        } else {
            Part::Publisher
        };
        return ledger::start(part, second as usize, third);
    }
    if is(call, b"subscribe") {
        return subscribe(l, numbers);
    }
    if is(call, b"ok") {
        let largest = match third {
            0 => None,
            _ => Some(Place {
                group: fourth,
                object: fifth,
            }),
        };
        return accept(l, first, second, largest);
    }
    if is(call, b"error") {
        return fail(l, first);
    }
    if is(call, b"done") {
        return finish(l, first);
    }
    if is(call, b"unsubscribe") {
        return l.unsubscribe(first);
    }
    if is(call, b"max") {
        return l.max_subscribe_id(first);
    }
    if is(call, b"malformed") {
        return l.malformed();
    }
    if is(call, b"arrive") {
        return l.arrival(Arrival {
            alias: first,
            place: Place {
                group: second,
                object: third,
            },
        });
    }
    l.take(Message::Session(SessionMessage::GoAway(NO_SPAN)))
}

fn print(rt: &impl Print, answer: Answer) -> io::Result<()> {
    print!(rt; "{}", ledger::number(answer))?;
    if let Answer::Breaks(rule) = answer {
        print!(rt; " R{}", ledger::rule_number(rule))?;
    }
    Ok(())
}

// Each call with the `;` or the newline after it. What stands after the last of these is not answered.
fn answer_scripts(rt: &impl Print, text: &[u8]) -> io::Result<()> {
    let mut l = ledger::start(Part::Subscriber, 0, 0).ledger;
    for call in text.split_inclusive(|c| matches!(*c, b';' | b'\n')) {
        let behind = match call {
            [.., b';'] => ", ",
            [.., b'\n'] => "\n",
            _ => return Ok(()),
        };
        let taken = take(l, call);
        print(rt, taken.answer)?;
        print!(rt; "{behind}")?;
        l = taken.ledger;
    }
    Ok(())
}

// Reads 65,536 bytes of standard input at most.
fn main(rt: HostRuntime) -> io::Result<()> {
    let mut text = [0u8; 65536];
    let n = console::read_full(&mut rt.reader(), &mut text)?;
    answer_scripts(&rt, &text[..n])
}
