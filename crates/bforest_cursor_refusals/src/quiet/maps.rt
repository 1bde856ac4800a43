//! Calls on a map.
ghost use Rattle.bforest.specs.Forest.{IsLive, list_of};
ghost use Rattle.bforest.specs.Entries.{IsIncreasing};

use super::{LAST, MIDDLE, whole_maps};
use crate::Seen;
use bforest::{Comparator, Map, MapForest, OutOfMemory};
use std::ops::Bound;

/// Fills, reads, changes and empties a map of a forest in which all nodes lie free, and ends with the forest.
pub(crate) fn all(mut forest: MapForest<u32, u32>, seen: &mut Seen) {
    let free = forest.free_slots();
    seen.note(forest.reserve_nodes(free) == Ok(()) && forest.slots() == free);
    let mut map = Map::default();
    seen.note(fill(&mut map, &mut forest));
    seen.note(read(&map, &forest));
    seen.note(whole_maps::ends(&map, &forest));
    seen.note(whole_maps::values(&mut map, &mut forest));
    seen.note(whole_maps::pops(&mut map, &mut forest));
    seen.note(change(&mut map, &mut forest));
    seen.note(whole_maps::copies(&map, &mut forest));
    seen.note(whole_maps::loads(&mut forest));
    seen.note(empty(&mut map, &mut forest));
    seen.note(map.is_empty() && forest.free_slots() == free);
    forest.clear();
    map = Map::default();
    seen.note(forest.slots() == 0 && forest.reserve_nodes(free) == Ok(()));
    seen.note(fill(&mut map, &mut forest));
    seen.note(forest.holds(&map) && map.into_iter(forest).next() == Some((1, 1)));
}

// Inserts each key, and once more with another value.
fn fill(map: &mut Map<u32, u32>, forest: &mut MapForest<u32, u32>) -> bool {
    let mut is_right = true;
    for key in 1..=LAST {
        if !forest.holds(map) || !map.increases(forest, &()) {
            return false;
        }
        is_right = map.insert(key, 0, forest, &()) == Ok(None) && is_right;
        is_right = map.try_insert(key, key, forest, &()) == Ok(Some(0)) && is_right;
    }
    is_right
}

// Makes each call that changes nothing.
fn read(map: &Map<u32, u32>, forest: &MapForest<u32, u32>) -> bool {
    if !forest.holds(map) || !map.increases(forest, &()) {
        return false;
    }
    let mut count = 0u32;
    for (key, value) in map.iter(forest) {
        count = count.wrapping_add((key == value) as u32);
    }
    let mut range = map.range((Bound::Excluded(4), Bound::Included(20)), forest, &());
    count == LAST
        && !map.clone().is_empty()
        && map.is_same_handle(&map.clone())
        && map.levels(forest) == 2
        && map.get(LAST, forest, &()) == Some(LAST)
        && map.get_or_less(99, forest, &()) == Some((LAST, LAST))
        && range.next() == Some((5, 5))
        && range.next_back() == Some((20, 20))
        && look(map, MIDDLE, forest, &()) == (Some(MIDDLE), Some(MIDDLE), Some(1))
}

// Makes each call of a reading cursor. Returns the value and the key at a key, and the first value.
fn look<K: Copy, V: Copy, C: Comparator<K>>(
    map: &Map<K, V>,
    key: K,
    forest: &MapForest<K, V>,
    comp: &C,
) -> (Option<V>, Option<K>, Option<V>)
    requires live { IsLive forest.now map.now }
    requires increasing { IsIncreasing (C.order comp.now) (list_of forest.now map.now) }
{
    let mut cursor = map.cursor(forest, comp);
    let value = cursor.goto(key);
    cursor.next();
    cursor.prev();
    let found = cursor.key();
    let first = cursor.goto_first();
    if cursor.entry().is_some() && cursor.value().is_some() && !cursor.is_empty() {
        cursor.goto_end();
    }
    (value, found, first)
}

// Makes each call of a writing cursor, and those that remove entries, until two are left. The nodes that this frees serve the insertions.
fn change(map: &mut Map<u32, u32>, forest: &mut MapForest<u32, u32>) -> bool {
    if !forest.holds(map) || !map.increases(forest, &()) {
        return false;
    }
    let edited = edit(map, (MIDDLE, 0), forest, &());
    if !forest.holds(map) || !map.increases(forest, &()) {
        return false;
    }
    let removed = map.remove(LAST, forest, &());
    map.retain(forest, |key, _value| key <= 2);
    edited == (Some(MIDDLE), Ok(None), Ok(Some(0)), Some(MIDDLE)) && removed == Some(LAST)
}

// Makes each call of a writing cursor. Returns what the removal, both insertions and the search answered.
fn edit<K: Copy, V: Copy, C: Comparator<K>>(
    map: &mut Map<K, V>,
    entry: (K, V),
    forest: &mut MapForest<K, V>,
    comp: &C,
) -> (
    Option<V>,
    Result<Option<V>, OutOfMemory>,
    Result<Option<V>, OutOfMemory>,
    Option<K>,
)
    requires live { IsLive forest.old map.old }
    requires increasing { IsIncreasing (C.order comp.now) (list_of forest.old map.old) }
{
    let mut cursor = map.cursor_mut(forest, comp);
    cursor.goto_first();
    cursor.next();
    cursor.prev();
    cursor.goto(entry.0);
    let removed = cursor.remove();
    let put = cursor.try_insert(entry.0, entry.1);
    let again = cursor.insert(entry.0, entry.1);
    cursor.entry();
    cursor.value();
    let key = if cursor.is_empty() {
        None
    } else {
        cursor.key()
    };
    if let Some(value) = cursor.value_mut() {
        *value = entry.1;
    }
    (removed, put, again, key)
}

// Clears the map, and the forest.
fn empty(map: &mut Map<u32, u32>, forest: &mut MapForest<u32, u32>) -> bool {
    if !forest.holds(map) {
        return false;
    }
    map.clear(forest);
    map.is_empty()
}
