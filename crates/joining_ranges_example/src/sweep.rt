//! A loop by a writing cursor.
ghost use Rattle.bforest.specs.Bounds.{without_between};
ghost use Rattle.bforest.specs.Cursor.{Goes, IsCursor, comparator, entries, spot};
ghost use Rattle.bforest.specs.Entries.{IsIncreasing, is_present};
ghost use Rattle.bforest.specs.Forest.{IsLive, IsSearchable, list_of};
ghost use Rattle.bforest.specs.Memory.{MapsFitInMemory};
ghost use Rattle.std.specs.List.{filter};
ghost use Rattle.std.specs.Ordering.{is_gt};
ghost use Rattle.std.specs.Prelude.{drop, take, true, ◌++◌, ◌≡◌};

use bforest::{Comparator, Map, MapCursorMut, MapForest};

/// Removes the entries behind `first`, which is a key, up to `last`.
pub(crate) fn remove_between<K: Copy, V: Copy, C: Comparator<K>>(
    map: &mut Map<K, V>,
    forest: &mut MapForest<K, V>,
    comp: &C,
    first: K,
    last: K,
)
    requires searchable { IsSearchable (C.order comp.now) forest.old map.old }
    requires present { is_present (C.order comp.now) (list_of forest.old map.old) first ≡ true }
    ensures live { IsLive forest.new map.new }
    ensures increasing { IsIncreasing (C.order comp.now) (list_of forest.new map.new) }
    ensures list { list_of forest.new map.new
        ≡ without_between (C.order comp.now) first last (list_of forest.old map.old) }
{
    let mut cursor = map.cursor_mut(forest, comp);
    cursor.goto(first);
    cursor.next();
    remove_up_to(&mut cursor, comp, last);
}

// Removes the entries from the cursor's place on whose keys are not greater than `last`.
fn remove_up_to<K: Copy, V: Copy, C: Comparator<K>>(
    cursor: &mut MapCursorMut<K, V, C>,
    comp: &C,
    last: K,
)
    requires valid { IsCursor C.order cursor.old }
    requires same_order { comparator cursor.old ≡ comp.now }
    requires fits { MapsFitInMemory K.row V.row }
    ensures goes { Goes C.order cursor.old cursor.new (spot cursor.old) }
    ensures list { entries cursor.new ≡ take (spot cursor.old) (entries cursor.old)
        ++ filter (λ x. is_gt (C.order comp.now x.0 last)) (drop (spot cursor.old) (entries cursor.old)) }
{
    while let Some(entry) = cursor.entry() {
        if comp.cmp(entry.0, last).is_gt() {
            break;
        }
        cursor.remove();
    }
}
