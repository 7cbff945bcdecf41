// A trace is fed in pieces. Whole fields are taken off the front of each; what is left goes in front of the next piece.
ghost use Rattle.std.specs.Prelude.{◌≡◌, ◌*◌, ◌≤◌, length};
ghost use Rattle.replay.specs.Progressing.{fed_of, arrived_all};
ghost use Rattle.replay.specs.Gathering.{Turns};

use crate::events::event_of;
use crate::gathering::gather;
use crate::{Fed, Progress, Stage};
use trace::field_at;

impl Progress {
    // All whole fields from the front of s on.
    pub fn feed(self, s: &[u8]) -> Fed
        ensures { result ≡ fed_of self s.now }
    {
        let mut run = [0u64; 3072];
        let mut answers = [0u8; 1024];
        let mut progress = self;
        let mut used = 0;
        while let Some(fed) = turn(progress, s, used, &mut run, &mut answers) {
            progress = fed.progress;
            used = fed.used;
        }
        Fed { progress, used }
    }
}

// The arrivals that stand at an offset, or else one field, where a whole one stands there.
fn turn(p: Progress, s: &[u8], at: usize, run: &mut [u64], answers: &mut [u8]) -> Option<Fed>
    requires { (at ≤ length s.now) × (length run.old ≡ 3 * length answers.old) }
    ensures { Turns p s.now at result }
{
    if !matches!(p.stage, Stage::Running) {
        return one(p, s, at);
    }
    let g = gather(s, at, run);
    if g.count == 0 {
        return one(p, s, at);
    }
    Some(Fed {
        progress: arrive(p, &run[..3 * g.count], answers, g.end - at),
        used: g.end,
    })
}

// One field.
fn one(p: Progress, s: &[u8], at: usize) -> Option<Fed>
    requires { at ≤ length s.now }
    ensures { Turns p s.now at result }
{
    let f = field_at(s, at)?;
    let stepped = p.step(event_of(f.tag, &s[f.start..f.end]), f.end - at);
    Some(Fed {
        progress: stepped.progress,
        used: f.end,
    })
}

// Arrivals are taken together, whose fields have size bytes.
fn arrive(p: Progress, run: &[u64], answers: &mut [u8], size: usize) -> Progress
    requires { length run.now ≤ 3 * length answers.old }
    ensures { result ≡ arrived_all p run.now size }
{
    Progress {
        ledger: p.ledger.arrivals(run, answers).ledger,
        offset: p.offset.wrapping_add(size as u64),
        ..p
    }
}
