// The ledger of subscriptions in one direction: which module is subscribed, and the greatest place each has shown. A
// message or an arrival is taken by a ledger, which hands back the next ledger and an answer.
#![tactic(auto)]

ghost use Rattle.std.specs.Prelude.{◌≡◌};

mod arrivals;
mod checks;
mod endings;
mod finding;
mod gating;
mod messages;
mod numbers;
mod rules;
mod run;
mod starting;
mod subscribing;

pub use numbers::{broken, number, rule_number};
use row::Row;
pub use rules::close_code;
pub use starting::start;

// How many rows a ledger has places for.
pub const MOST_ROWS: usize = 64;

// The end of a session that a ledger belongs to, or that sends a message.
#[derive(Clone, Copy, PartialEq, Eq)]
pub enum Part {
    Subscriber,
    Publisher,
}

// The rules that a message may break.
#[derive(Clone, Copy)]
pub enum Rule {
    R1,
    R2,
    R3,
    R4,
    R5,
    R6,
    R7,
}

// A session is open, or closed by the rule that a peer's message broke. (It stays an enum of its own: `Some(R6)` would
// not say that it is closed.)
#[derive(Clone, Copy)]
pub enum Session {
    Open,
    Closed(Rule),
}

// The rows in use stand first, rising by ID. `next` is one more than the highest ID accepted, 0 for none. (An array and
// a count, and no type that rules out more rows than there are places: what is no ledger is answered 14.)
#[derive(Clone, Copy)]
pub struct Ledger {
    pub rows: [Row; MOST_ROWS],
    pub part: Part,
    pub session: Session,
    pub capacity: usize,
    pub maximum: u64,
    pub next: u64,
    pub used: usize,
}

impl Ledger {
    // What is said, with this ledger as the next.
    fn answers(self, answer: Answer) -> Taken
        ensures { result ≡ record { answer = answer; ledger = self } }
    {
        Taken {
            answer,
            ledger: self,
        }
    }
}

// What a ledger answers, in the order of document 01's numbers: 5, 8 to 19.
#[derive(Clone, Copy)]
pub enum Answer {
    Forbidden,
    Done,
    NotKept,
    AlreadyClosed,
    Full,
    Stale,
    Breaks(Rule),
    NotALedger,
    StartRefused,
    Counted,
    Outside,
    NoRow,
    StillPending,
}

// The next ledger and an answer.
#[derive(Clone, Copy)]
pub struct Taken {
    pub answer: Answer,
    pub ledger: Ledger,
}

// Why a run of arrivals is not taken: it is no ledger, or there is no room for the arrivals' answers.
#[derive(Clone, Copy)]
pub enum RunRefused {
    NotALedger,
    TooShort,
}

// What a run of arrivals answers: how many there were.
#[derive(Clone, Copy)]
pub struct Ran {
    pub answer: Result<usize, RunRefused>,
    pub ledger: Ledger,
}
