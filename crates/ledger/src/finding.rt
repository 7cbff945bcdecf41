// Where a row in use stands: the first with this ID, or with this alias. (Two functions of a line: one that is handed
// the test would say by `F.post` what each says by its equation.)
ghost use Rattle.std.specs.Prelude.{◌≡◌, ◌≤◌};
ghost use Rattle.ledger.specs.Ledgers.{most_rows, held};
ghost use Rattle.ledger.specs.Steps.{id_of, alias_of};
ghost use Rattle.ledger.specs.Arrays.{find};

use crate::Ledger;
use row::Row;

// The rows in use.
#[tactic(auto, unfolding(crate::specs::Ledgers::held))]
pub fn held(l: &Ledger) -> &[Row]
    requires { l.now.used ≤ most_rows }
    ensures { result.now ≡ held l.now }
{
    &l.rows[..l.used]
}

pub fn find_id(l: &Ledger, id: u64) -> Option<usize>
    requires { l.now.used ≤ most_rows }
    ensures { result ≡ find id_of id 0 (held l.now) }
{
    held(l).iter().position(|row| row.id == id)
}

pub fn find_alias(l: &Ledger, alias: u64) -> Option<usize>
    requires { l.now.used ≤ most_rows }
    ensures { result ≡ find alias_of alias 0 (held l.now) }
{
    held(l).iter().position(|row| row.alias == alias)
}
