//! The entries of a map, read by a cursor.
ghost use Rattle.bforest.specs.Forest.{IsLive, list_of};
ghost use Rattle.bforest.specs.Entries.{IsIncreasing};
ghost use Rattle.std.specs.Ordering.{nat_cmp};

use crate::random::added;
use bforest::{Map, MapForest};

/// Adds each entry to a checksum, from the first on. It is inlined into the loop over the maps, as `rustc` does with that of `BTreeMap`.
#[inline(always)]
pub(crate) fn read_on(map: &Map<u32, u32>, forest: &MapForest<u32, u32>, sum: u64) -> u64
    requires live { IsLive forest.now map.now }
    requires increasing { IsIncreasing nat_cmp (list_of forest.now map.now) }
{
    let mut cursor = map.cursor(forest, &());
    let (Some(value), Some(key)) = (cursor.goto_first(), cursor.key()) else {
        return sum;
    };
    let mut sum = added_entry(sum, (key, value));
    while let Some(entry) = cursor.next() {
        sum = added_entry(sum, entry);
    }
    sum
}

/// Adds each entry to a checksum, from the last back.
pub(crate) fn read_back(map: &Map<u32, u32>, forest: &MapForest<u32, u32>, sum: u64) -> u64
    requires live { IsLive forest.now map.now }
    requires increasing { IsIncreasing nat_cmp (list_of forest.now map.now) }
{
    let mut cursor = map.cursor(forest, &());
    let mut sum = sum;
    while let Some(entry) = cursor.prev() {
        sum = added_entry(sum, entry);
    }
    sum
}

// A checksum to which one more entry is added.
fn added_entry(sum: u64, entry: (u32, u32)) -> u64 {
    added(sum, entry.0.wrapping_add(entry.1))
}
