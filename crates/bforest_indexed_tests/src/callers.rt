//! What a caller can prove of maps by an index from their contracts alone.
ghost use Rattle.bforest.specs.Calls.{RemovesAt};
ghost use Rattle.bforest.specs.Forest.{list_of, memory_of, slots_of};
ghost use Rattle.bforest.specs.declared.map_forest.TheConstants.{MAP_LEAF};
ghost use Rattle.bforest.specs.Entries.{value_for};
ghost use Rattle.bforest_indexed.specs.Indexed.{HasRoom, StaysWithin, comparator, count, entries, table};
ghost use Rattle.std.specs.Ordering.{is_eq, nat_cmp};
ghost use Rattle.std.specs.Prelude.{IfOk, IsOk, Some, false, is_some, length, true, ◌-◌, ◌<◌, ◌≡◌};

use bforest::MapCursorMut;
use bforest_indexed::{Comparator, Edit, Idx, Maps, OutOfMemory, Sets};
use std::alloc::AllocError;

/// Inserts an entry where there is room for `room.0` maps of `room.1` entries each, and stays within these numbers: that never fails.
pub fn insert_in_room<K: Copy, V: Copy, C: Comparator<K>>(
    maps: &mut Maps<K, V, C>,
    room: (usize, usize),
    index: usize,
    entry: (K, V),
) -> Result<Option<V>, OutOfMemory>
    requires within { index < count maps.old }
    requires stays { StaysWithin (C.order (comparator maps.old)) room.0 room.1 maps.old index entry.0 }
    requires made { HasRoom MAP_LEAF room.0 room.1 (table maps.old) }
    ensures taken { IsOk result }
{
    maps.insert(index, entry.0, entry.1)
}

/// Makes that room, and inserts the entry: where the room could be made, the insertion does not fail.
pub fn make_room_and_insert<K: Copy, V: Copy, C: Comparator<K>>(
    maps: &mut Maps<K, V, C>,
    room: (usize, usize),
    index: usize,
    entry: (K, V),
) -> Result<Result<Option<V>, OutOfMemory>, OutOfMemory>
    requires within { index < count maps.old }
    requires stays { StaysWithin (C.order (comparator maps.old)) room.0 room.1 maps.old index entry.0 }
    ensures taken { IfOk result (λ put. IsOk put) }
{
    maps.reserve_for(room.0, room.1)?;
    Ok(maps.insert(index, entry.0, entry.1))
}

/// Inserts a value and looks its key up again: the lookup finds it.
pub fn insert_and_get<V: Copy>(
    maps: &mut Maps<u32, V, ()>,
    index: usize,
    key: u32,
    value: V,
) -> Result<Option<V>, OutOfMemory>
    requires within { index < count maps.old }
    ensures { IfOk result (λ found. found ≡ Some value) }
{
    maps.insert(index, key, value)?;
    Ok(maps.get(index, key))
}

/// Adds a map and inserts a value into it, by an index of any type: a lookup by the index that the addition returned finds it.
pub fn push_and_get<V: Copy, I: Idx>(
    maps: &mut Maps<u32, V, (), I>,
    key: u32,
    value: V,
) -> Result<Option<V>, OutOfMemory>
    requires nameable { I.names (count maps.old) }
    ensures found { IfOk result (λ found. found ≡ Some value) }
{
    match maps.push() {
        Ok(index) => {
            maps.insert(index, key, value)?;
            Ok(maps.get(index, key))
        }
        Err(_) => Err(OutOfMemory::Memory),
    }
}

/// Inserts a value and looks another key up: its value stays.
pub fn insert_and_get_other(
    maps: &mut Maps<u32, u32, ()>,
    index: usize,
    key: u32,
    value: u32,
    other: u32,
) -> Result<Option<u32>, OutOfMemory>
    requires within { index < count maps.old }
    requires apart { is_eq (nat_cmp key other) ≡ false }
    ensures { IfOk result (λ found. found
        ≡ value_for nat_cmp (entries maps.old index) other) }
{
    maps.insert(index, key, value)?;
    Ok(maps.get(index, other))
}

/// Removes a key and looks another key up: its value stays.
pub fn remove_and_get_other<V: Copy>(
    maps: &mut Maps<u32, V, ()>,
    index: usize,
    key: u32,
    other: u32,
) -> Option<V>
    requires within { index < count maps.old }
    requires apart { is_eq (nat_cmp key other) ≡ false }
    ensures { result ≡ value_for nat_cmp (entries maps.old index) other }
{
    maps.remove(index, key);
    maps.get(index, other)
}

/// Inserts a key into a set and looks for it: it is there.
pub fn insert_and_test(
    sets: &mut Sets<u32, ()>,
    index: usize,
    key: u32,
) -> Result<bool, OutOfMemory>
    requires within { index < count sets.old }
    ensures { IfOk result (λ found. found ≡ true) }
{
    sets.insert(index, key)?;
    Ok(sets.contains(index, key))
}

/// Inserts a key into a set and looks for another: whether it is there stays.
pub fn insert_and_test_other(
    sets: &mut Sets<u32, ()>,
    index: usize,
    key: u32,
    other: u32,
) -> Result<bool, OutOfMemory>
    requires within { index < count sets.old }
    requires apart { is_eq (nat_cmp key other) ≡ false }
    ensures { IfOk result (λ found. found
        ≡ is_some (value_for nat_cmp (entries sets.old index) other)) }
{
    sets.insert(index, key)?;
    Ok(sets.contains(index, other))
}

/// Removes a key from a set and looks for another: whether it is there stays.
pub fn remove_and_test_other(sets: &mut Sets<u32, ()>, index: usize, key: u32, other: u32) -> bool
    requires within { index < count sets.old }
    requires apart { is_eq (nat_cmp key other) ≡ false }
    ensures { result ≡ is_some (value_for nat_cmp (entries sets.old index) other) }
{
    sets.remove(index, key);
    sets.contains(index, other)
}

/// Makes room for maps, and then the maps: where the room could be made, they can be.
pub fn make_in_room<K: Copy, V: Copy, C: Comparator<K>>(
    maps: &mut Maps<K, V, C>,
    room: (usize, usize),
) -> Result<Result<(), AllocError>, OutOfMemory>
    ensures { IfOk result (λ made. IsOk made) }
{
    maps.reserve_for(room.0, room.1)?;
    Ok(maps.grow_to(room.0))
}

/// Work that removes the last entry of a map, and answers its value.
#[derive(Drop)]
pub struct RemoveLast;

impl<K: Copy, V: Copy, C: Comparator<K>> Edit<K, V, C> for RemoveLast {
    type Answer = Option<V>;

    // The last entry is removed, and the nodes that are left over are free.
    ghost leaves = { λ _ f h _ f' h'. RemovesAt MAP_LEAF f h (length (list_of f h) - 1) f' h' };

    fn edit(self, cursor: &mut MapCursorMut<K, V, C>) -> Option<V> {
        let _last = cursor.prev();
        cursor.remove()
    }
}

/// Removes the last entry of a map by a cursor. What the work says of the table is known of the whole call: no slot was added and no memory
/// was taken.
pub fn remove_last<K: Copy, V: Copy, C: Comparator<K>>(
    maps: &mut Maps<K, V, C>,
    index: usize,
) -> Option<V>
    requires within { index < count maps.old }
    ensures slots { slots_of (table maps.new) ≡ slots_of (table maps.old) }
    ensures memory { memory_of (table maps.new) ≡ memory_of (table maps.old) }
{
    maps.edit(index, RemoveLast)
}
