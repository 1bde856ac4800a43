//! Searches among the booked intervals of one resource.
ghost use Rattle.bforest_indexed.specs.Indexed.{count, entries};
ghost use Rattle.interval_books.specs.Bookings.{AreApart, first_met, holding};
ghost use Rattle.std.specs.Prelude.{◌<◌, ◌≡◌};

use bforest_indexed::Maps;

/// The booked interval that an interval meets, or the one with the least start where it meets several. Two searches.
pub(crate) fn first_met(
    maps: &Maps<u64, u64, ()>,
    index: usize,
    start: u64,
    end: u64,
) -> Option<(u64, u64)>
    requires within { index < count maps.now }
    requires apart { AreApart (entries maps.now index) }
    requires interval { start < end }
    ensures { result ≡ first_met (entries maps.now index) start end }
{
    let before = holding(maps, index, start);
    if before.is_some() {
        return before;
    }
    match maps.get_or_greater(index, start) {
        Some(next) if next.0 < end => Some(next),
        _ => None,
    }
}

/// The booked interval that contains a moment. One search.
pub(crate) fn holding(maps: &Maps<u64, u64, ()>, index: usize, moment: u64) -> Option<(u64, u64)>
    requires within { index < count maps.now }
    requires apart { AreApart (entries maps.now index) }
    ensures { result ≡ holding (entries maps.now index) moment }
{
    match maps.get_or_less(index, moment) {
        Some(last) if moment < last.1 => Some(last),
        _ => None,
    }
}
