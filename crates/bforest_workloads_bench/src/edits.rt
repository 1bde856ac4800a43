//! Work by one cursor on a map or on a set.
ghost use Rattle.bforest.specs.Cursor.{IsCursor};
ghost use Rattle.bforest.specs.SetCursor.{IsCursor as IsSetCursor};
ghost use Rattle.bforest.specs.Entries.{IsIncreasing};
ghost use Rattle.bforest.specs.Forest.{IsLive, IsSearchable, list_of};
ghost use Rattle.bforest.specs.Memory.{MapsFitInMemory, SetsFitInMemory};
ghost use Rattle.bforest_workloads_bench.specs.Cursors.{MapContinues, SetContinues};

use bforest::{Comparator, Map, MapCursorMut, MapForest, OutOfMemory, Set, SetCursor, SetForest};

/// Inserts entries into a map, each from where the insertion before has left a cursor, and counts the new keys. The cursor starts where a
/// search for the first key ends.
pub(crate) fn put_entries<K: Copy, V: Copy, C: Comparator<K>>(
    map: &mut Map<K, V>,
    entries: &[(K, V)],
    forest: &mut MapForest<K, V>,
    comp: &C,
) -> Result<u32, OutOfMemory>
    requires { IsSearchable (C.order comp.now) forest.old map.old }
    ensures live { IsLive forest.new map.new }
    ensures increasing { IsIncreasing (C.order comp.now) (list_of forest.new map.new) }
{
    let mut cursor = map.cursor_mut(forest, comp);
    put_here(&mut cursor, entries)
}

// Inserts entries, each from where the insertion before has left the cursor. Counts the new keys.
fn put_here<K: Copy, V: Copy, C: Comparator<K>>(
    cursor: &mut MapCursorMut<K, V, C>,
    entries: &[(K, V)],
) -> Result<u32, OutOfMemory>
    requires valid { IsCursor C.order cursor.old }
    requires fits { MapsFitInMemory K.row V.row }
    ensures continues { MapContinues C.order cursor.old cursor.new }
{
    let mut count = 0u32;
    for entry in entries {
        if cursor.insert(entry.0, entry.1)?.is_none() {
            count = count.wrapping_add(1);
        }
        cursor.next();
    }
    Ok(count)
}

/// Inserts keys into a set by one cursor, and removes as many from `first` on. Counts the new keys and the removed ones.
pub(crate) fn edit_keys<K: Copy, C: Comparator<K>>(
    set: &mut Set<K>,
    keys: &[K],
    first: K,
    forest: &mut SetForest<K>,
    comp: &C,
) -> Result<u32, OutOfMemory>
    requires { IsSearchable (C.order comp.now) forest.old set.old }
    ensures live { IsLive forest.new set.new }
    ensures increasing { IsIncreasing (C.order comp.now) (list_of forest.new set.new) }
{
    let mut cursor = set.cursor(forest, comp);
    let count = put_keys(&mut cursor, keys)?;
    Ok(count.wrapping_add(take_keys(&mut cursor, first, keys.len())))
}

// Inserts keys, each from where the insertion before has left the cursor. Counts the new ones.
fn put_keys<K: Copy, C: Comparator<K>>(
    cursor: &mut SetCursor<K, C>,
    keys: &[K],
) -> Result<u32, OutOfMemory>
    requires valid { IsSetCursor C.order cursor.old }
    requires fits { SetsFitInMemory K.row }
    ensures continues { SetContinues C.order cursor.old cursor.new }
{
    let mut count = 0u32;
    for key in keys {
        if cursor.insert(*key)? {
            count = count.wrapping_add(1);
        }
        cursor.next();
    }
    Ok(count)
}

// Removes at most `most` keys, from `first` on. Counts the removed ones.
fn take_keys<K: Copy, C: Comparator<K>>(cursor: &mut SetCursor<K, C>, first: K, most: usize) -> u32
    requires valid { IsSetCursor C.order cursor.old }
    requires fits { SetsFitInMemory K.row }
    ensures continues { SetContinues C.order cursor.old cursor.new }
{
    cursor.goto(first);
    let mut count = 0u32;
    for _ in 0..most {
        if cursor.remove().is_some() {
            count = count.wrapping_add(1);
        }
    }
    count
}
