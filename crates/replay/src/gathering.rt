// Arrivals that stand next to each other are gathered, to be taken by the ledger in one call.
ghost use Rattle.std.specs.Prelude.{◌≡◌, ◌≤◌, length};
ghost use Rattle.replay.specs.Events.{as_event};
ghost use Rattle.replay.specs.Gathering.{Gathers, arrival_in};

use crate::Gathered;
use crate::events::arrived;
use field::Arrival;
use trace::{Field, field_at};

// Whole fields from an offset on, as long as they are arrivals and run has room: three numbers each.
pub fn gather(s: &[u8], at: usize, run: &mut [u64]) -> Gathered
    requires { at ≤ length s.now }
    ensures { Gathers s.now at result run.old run.new }
{
    let room = run.len() / 3;
    let mut end = at;
    for count in 0..room {
        let Some(f) = field_at(s, end) else {
            return Gathered { count, end };
        };
        let Some(a) = arrival_in(s, f) else {
            return Gathered { count, end };
        };
        run[3 * count] = a.alias;
        run[3 * count + 1] = a.place.group;
        run[3 * count + 2] = a.place.object;
        end = f.end;
    }
    Gathered { count: room, end }
}

// Whether a field is an arrival, and which.
fn arrival_in(s: &[u8], f: Field) -> Option<Arrival>
    requires { (f.start ≤ f.end) × (f.end ≤ length s.now) }
    ensures { as_event result ≡ arrival_in s.now f }
{
    if f.tag != 3 {
        return None;
    }
    arrived(&s[f.start..f.end])
}
