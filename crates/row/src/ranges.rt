// The range of places that a subscription asks for.
ghost use Rattle.std.specs.Prelude.{◌≡◌};
ghost use Rattle.row.specs.Ranges.{in_range, is_known, small_range, asked_of, latest, moved, settled_of};

use crate::Range;
use crate::places::{is_before, is_small};
use field::Place;
use subscription::Filter;

#[tactic(auto, unfolding(crate::specs::Ranges::in_range))]
pub fn contains(range: Range, p: Place) -> bool
    ensures { result ≡ in_range range p }
{
    match range {
        Range::Unknown => false,
        Range::Open(start) => !is_before(p, start),
        Range::Closed(start, last) => !is_before(p, start) && p.group <= last,
    }
}

#[tactic(auto, unfolding(crate::specs::Ranges::is_known))]
pub fn is_known(range: Range) -> bool
    ensures { result ≡ is_known range }
{
    !matches!(range, Range::Unknown)
}

// Whether no number of the range is above the greatest integer.
#[tactic(auto, unfolding(crate::specs::Ranges::small_range, crate::specs::Places::small))]
pub fn is_small_range(range: Range) -> bool
    ensures { result ≡ small_range range }
{
    match range {
        Range::Unknown => true,
        Range::Open(start) => is_small(start),
        Range::Closed(start, last) => is_small(start) && last <= integer::GREATEST,
    }
}

// What a filter asks for: from the latest on is not known before a SUBSCRIBE_OK.
pub fn asked(filter: Filter) -> Range
    ensures { result ≡ asked_of filter }
{
    match filter {
        Filter::Latest => Range::Unknown,
        Filter::From(start) => Range::Open(start),
        Filter::Range(start, last) => Range::Closed(start, last),
    }
}

fn latest_place(largest: Option<Place>) -> Place
    ensures { result ≡ latest largest }
{
    largest.unwrap_or(Place {
        group: 0,
        object: 0,
    })
}

// Where a range that was asked for starts: what lies in groups before the largest is past.
fn moved_start(start: Place, largest: Option<Place>) -> Place
    ensures { result ≡ moved start largest }
{
    match largest {
        Some(place) if start.group < place.group => place,
        _ => start,
    }
}

// What a range becomes by a SUBSCRIBE_OK, whose largest place tells whether content exists.
#[tactic(auto, unfolding(crate::specs::Ranges::settled_of))]
pub fn settled(range: Range, largest: Option<Place>) -> Range
    ensures { result ≡ settled_of range largest }
{
    match range {
        Range::Unknown => Range::Open(latest_place(largest)),
        Range::Open(start) => Range::Open(moved_start(start, largest)),
        Range::Closed(start, last) => Range::Closed(moved_start(start, largest), last),
    }
}
