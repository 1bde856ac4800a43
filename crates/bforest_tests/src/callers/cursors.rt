//! What a caller can prove of cursors from their contracts alone.
ghost use Rattle.bforest.specs.Calls.{Inserts};
ghost use Rattle.bforest.specs.Cursor.{IsCursor, Moves, entries, spot};
ghost use Rattle.bforest.specs.Forest.{IsLive, list_of};
ghost use Rattle.bforest.specs.declared.map_forest.TheConstants.{MAP_LEAF};
ghost use Rattle.bforest.specs.Memory.{MapsFitInMemory};
ghost use Rattle.bforest.specs.Entries.{IsIncreasing};
ghost use Rattle.std.specs.Prelude.{IsSome, Option, slice_get, ℕ, ◌+◌, ◌≡◌, ◌≢◌};

use bforest::{Comparator, Map, MapCursor, MapCursorMut, MapForest, OutOfMemory};

/// Inserts by a cursor, which is an insertion into the map.
pub fn insert_by_cursor<K: Copy, V: Copy, C: Comparator<K>>(
    map: &mut Map<K, V>,
    key: K,
    value: V,
    forest: &mut MapForest<K, V>,
    comp: &C,
) -> Result<Option<V>, OutOfMemory>
    requires live { IsLive forest.old map.old }
    requires increasing { IsIncreasing (C.order comp.now) (list_of forest.old map.old) }
    ensures inserted { Inserts MAP_LEAF (C.order comp.now) forest.old map.old key value result
        forest.new map.new }
{
    map.cursor_mut(forest, comp).try_insert(key, value)
}

/// Inserts by a cursor, which leaves each other map as it is, whether or not the insertion fails.
pub fn insert_by_cursor_beside<K: Copy, V: Copy, C: Comparator<K>>(
    map: &mut Map<K, V>,
    entry: (K, V),
    forest: &mut MapForest<K, V>,
    comp: &C,
) -> Result<Option<V>, OutOfMemory>
    requires live { IsLive forest.old map.old }
    requires increasing { IsIncreasing (C.order comp.now) (list_of forest.old map.old) }
    ensures others { (other : Option ℕ) → IsLive forest.old other → other ≢ map.old
        → list_of forest.new other ≡ list_of forest.old other }
{
    insert_by_cursor(map, entry.0, entry.1, forest, comp)
}

/// The entry behind the one where a cursor stands: a step on to an entry and one back leave the cursor as it was.
pub fn peek_next<K: Copy, V: Copy, C: Comparator<K>>(
    cursor: &mut MapCursor<K, V, C>,
) -> Option<(K, V)>
    requires fits { MapsFitInMemory K.row V.row }
    ensures value { result ≡ slice_get cursor.old.entries (cursor.old.spot + 1) }
    ensures stays { IsSome result → cursor.new ≡ cursor.old }
{
    let next = cursor.next()?;
    cursor.prev();
    Some(next)
}

/// The entry behind the one where a writing cursor stands: a step on to an entry and one back leave the cursor as it was.
pub fn peek_next_mut<K: Copy, V: Copy, C: Comparator<K>>(
    cursor: &mut MapCursorMut<K, V, C>,
) -> Option<(K, V)>
    requires valid { IsCursor C.order cursor.old }
    requires fits { MapsFitInMemory K.row V.row }
    ensures value { result ≡ slice_get (entries cursor.old) (spot cursor.old + 1) }
    ensures stays { IsSome result → Moves C.order cursor.old cursor.new (spot cursor.old) }
{
    let next = cursor.next()?;
    cursor.prev();
    Some(next)
}
