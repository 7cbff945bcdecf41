// A run of arrivals in one call: whether it is a ledger, and open, is looked at once, and the ledger stays in its
// place.
ghost use Rattle.std.specs.Prelude.{◌≡◌, true, map};
ghost use Rattle.row.specs.Rows.{arrived_number};
ghost use Rattle.ledger.specs.Ledgers.{is_open};
ghost use Rattle.ledger.specs.Answers.{stops};
ghost use Rattle.ledger.specs.Steps.{alias_of, small_arrival};
ghost use Rattle.ledger.specs.Arrays.{find};
ghost use Rattle.ledger.specs.Runs.{run_of, Runs, itself};

use crate::arrivals::is_small;
use crate::checks::is_ledger;
use crate::{Ledger, MOST_ROWS, Ran, RunRefused, Session};
use field::{Arrival, Place};
use row::{NotCounted, Row};

impl Ledger {
    // The run holds three numbers for each arrival: alias, group, object. Document 01's number for each is put at the
    // front of answers. What is no ledger takes none of them.
    pub fn arrivals(self, run: &[u64], answers: &mut [u8]) -> Ran
        ensures { Runs (run_of self run.now answers.old) result answers.new }
    {
        if !is_ledger(&self) {
            return Ran {
                answer: Err(RunRefused::NotALedger),
                ledger: self,
            };
        }
        let (came, _) = run.as_chunks::<3>();
        if answers.len() < came.len() {
            return Ran {
                answer: Err(RunRefused::TooShort),
                ledger: self,
            };
        }
        let opened = is_open(self.session);
        let names = aliases(&self);
        let mut l = self;
        for (k, [alias, group, object]) in came.iter().enumerate() {
            let place = Place {
                group: *group,
                object: *object,
            };
            let mut n = first(
                opened,
                Arrival {
                    alias: *alias,
                    place,
                },
            );
            if n == 0 {
                n = 18;
                if let Some(i) = find_name(&names[..self.used], *alias) {
                    let row = l.rows[i];
                    let came = row::arrive(row, place);
                    l.rows[i] = came.unwrap_or(row);
                    n = arrived_number(came);
                }
            }
            answers[k] = n;
        }
        Ran {
            answer: Ok(came.len()),
            ledger: l,
        }
    }
}

fn is_open(session: Session) -> bool
    ensures { result ≡ is_open session }
{
    matches!(session, Session::Open)
}

// An arrival at a ledger: 5, 10 in this order, or 0 where it is looked at.
#[tactic(auto, unfolding(crate::specs::Answers::stops))]
fn first(opened: bool, a: Arrival) -> u8
    ensures { result ≡ stops true (small_arrival a) opened }
{
    if !is_small(a) {
        5
    } else if !opened {
        10
    } else {
        0
    }
}

// The aliases of all rows.
fn aliases(l: &Ledger) -> [u64; MOST_ROWS]
    ensures { result ≡ map alias_of l.now.rows }
{
    let mut names = [0u64; MOST_ROWS];
    for (i, row) in l.rows.iter().enumerate() {
        names[i] = row.alias;
    }
    names
}

fn find_name(names: &[u64], alias: u64) -> Option<usize>
    ensures { result ≡ find itself alias 0 names.now }
{
    names.iter().position(|name| *name == alias)
}

// Document 01's number for what an arrival came to.
fn arrived_number(came: Result<Row, NotCounted>) -> u8
    ensures { result ≡ arrived_number came }
{
    match came {
        Err(NotCounted::Waiting) => 19,
        Err(NotCounted::Outside) => 17,
        Ok(_) => 16,
    }
}
