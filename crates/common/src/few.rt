// A list of at most so many items, which lie in the value itself: a contract sees the list.
ghost use Rattle.std.specs.Prelude.{◌≡◌, ◌≤◌, ◌-◌, ◌++◌, ⊤, List, drop, length, replicate, take};
ghost use Rattle.std.proofs.Common.{rules};
ghost use Rattle.std.proofs.lemmas.List.{length-take-le, take-append-drop};

use std::alloc::AllocError;
use std::marker::Model;

// What lies in a place that is not used: the only default there is.
pub trait Blank: Copy + Default {
    ghost blank: { Self };

    ghost only: { (item : Self) → Self.is_default item → item ≡ blank };
}

// At most MOST items. A place that is not used is blank, so that the list gives all its places back, and a Few may be
// Copy. (arrayvec's ArrayVec would have to be filled item by item: it is made from an array of its own size alone.)
#[derive(Copy)]
pub struct Few<T: Blank, const MOST: usize> {
    at: [T; MOST],
    used: usize,
}

impl<T: Blank, const MOST: usize> Model for Few<T, MOST> {
    ghost Value = { List T };

    ghost view = { λ f. take f.used f.at };

    ghost invariant = { λ f. (f.used ≤ MOST) × (length f.at ≡ MOST) × (drop f.used f.at ≡ replicate (MOST - f.used)
        T.blank) };

    ghost inverse = { λ items. record { at = items ++ replicate (MOST - length items) T.blank; used = length items } };

    ghost inverse_ok = { λ f fits. Prim.search (
      rules,
      length-take-le f.used f.at,
      take-append-drop f.used f.at,
      fits,
    ) };
}

impl<T: Blank, const MOST: usize> Clone for Few<T, MOST> {
    ghost is_clone = { λ few copy. copy ≡ few };

    ghost is_infallible = { λ few. ⊤ };

    fn clone(&self) -> Result<Self, AllocError> {
        Ok(*self)
    }
}

impl<T: Blank, const MOST: usize> Few<T, MOST> {
    // The first MOST of these items: all of them, where they are no more.
    #[tactic(auto, using(crate::proofs::BlankPlaces::places, crate::proofs::BlankPlaces::blank_behind))]
    pub fn of<const N: usize>(items: [T; N]) -> Self
        ensures { result ≡ take MOST items }
    {
        let used = N.min(MOST);
        let mut at = [T::default(); MOST];
        at[..used].copy_from_slice(&items[..used]);
        Few { at, used }
    }

    // The items, in their order.
    pub fn as_slice(&self) -> &[T]
        ensures value { result.now ≡ self.now }
        ensures fits { length result.now ≤ MOST }
    {
        &self.at[..self.used]
    }
}
