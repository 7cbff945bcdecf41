// Places, compared by group first.
ghost use Rattle.std.specs.Prelude.{◌≡◌};
ghost use Rattle.row.specs.Places.{before, small_place};

use field::Place;

// Whether p stands before q.
#[tactic(auto, unfolding(crate::specs::Places::before))]
pub fn is_before(p: Place, q: Place) -> bool
    ensures { result ≡ before p q }
{
    p < q
}

// Whether no number of p is above the greatest integer.
#[tactic(auto, unfolding(crate::specs::Places::small, crate::specs::Places::small_place))]
pub fn is_small(p: Place) -> bool
    ensures { result ≡ small_place p }
{
    p.group <= integer::GREATEST && p.object <= integer::GREATEST
}
