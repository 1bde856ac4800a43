//! Insertions by a cursor into a map.
ghost use Rattle.bforest.specs.Forest.{IsLive, list_of};
ghost use Rattle.bforest.specs.Entries.{IsIncreasing};

use crate::Seen;
use bforest::{Comparator, Map, MapForest, OutOfMemory};

/// The number of entries of a map: one more than two levels hold, inserted in order.
const ENTRIES: u32 = 36;

/// The number of nodes that the entries take.
const NODES: u32 = 12;

/// Grows a map by a cursor, beside another map.
pub(crate) fn grow(forest: &mut MapForest<u32, u32>, seen: &mut Seen) {
    let nothing = Map::new();
    let mut other = Map::new();
    put(&mut other, 7, forest, &nothing, seen);
    let mut map = Map::new();
    for key in 1..=ENTRIES {
        put(&mut map, key, forest, &other, seen);
    }
    seen.note(forest.free_slots() == 0);
}

/// Reserves the nodes: then no insertion fails. In the end all nodes are free.
pub(crate) fn grow_ahead(forest: &mut MapForest<u32, u32>, seen: &mut Seen) {
    if let Err(error) = forest.reserve_nodes(NODES) {
        seen.refuse(error, forest.slots() == 0 && forest.free_slots() == 0);
        seen.note(forest.reserve_nodes(NODES).is_ok());
    }
    let mut map = Map::new();
    for key in 1..=ENTRIES {
        let put = put_once(&mut map, key, forest);
        seen.note(put == Some((Ok(None), Some(key))));
    }
    if forest.holds(&map) {
        map.clear(forest);
    }
}

// Inserts an absent key, and repeats once a call that failed.
fn put(
    map: &mut Map<u32, u32>,
    key: u32,
    forest: &mut MapForest<u32, u32>,
    other: &Map<u32, u32>,
    seen: &mut Seen,
) {
    let before = state(map, other, forest);
    let place = key_from(map, key, forest);
    match put_once(map, key, forest) {
        Some((Err(error), at)) => {
            seen.refuse(error, at == place && state(map, other, forest) == before);
            let again = put_once(map, key, forest);
            seen.note(again == Some((Ok(None), Some(key))));
        }
        put => seen.note(put == Some((Ok(None), Some(key)))),
    }
    seen.note(digest(other, forest) == before.1);
}

// Inserts by a cursor if the conditions hold. Also returns the key where the cursor stands then.
fn put_once(
    map: &mut Map<u32, u32>,
    key: u32,
    forest: &mut MapForest<u32, u32>,
) -> Option<(Result<Option<u32>, OutOfMemory>, Option<u32>)> {
    if !forest.holds(map) || !map.increases(forest, &()) {
        return None;
    }
    Some(put_by(map, key, key, forest, &()))
}

// Inserts by a cursor. Also returns the key where the cursor stands then.
fn put_by<K: Copy, V: Copy, C: Comparator<K>>(
    map: &mut Map<K, V>,
    key: K,
    value: V,
    forest: &mut MapForest<K, V>,
    comp: &C,
) -> (Result<Option<V>, OutOfMemory>, Option<K>)
    requires live { IsLive forest.old map.old }
    requires increasing { IsIncreasing (C.order comp.now) (list_of forest.old map.old) }
{
    let mut cursor = map.cursor_mut(forest, comp);
    let put = cursor.try_insert(key, value);
    (put, cursor.key())
}

// The first key that is not less than `key`.
fn key_from(map: &Map<u32, u32>, key: u32, forest: &MapForest<u32, u32>) -> Option<u32> {
    if !forest.holds(map) || !map.increases(forest, &()) {
        return None;
    }
    let mut cursor = map.cursor(forest, &());
    cursor.goto(key);
    cursor.key()
}

// The values that stay where an insertion fails.
fn state(
    map: &Map<u32, u32>,
    other: &Map<u32, u32>,
    forest: &MapForest<u32, u32>,
) -> (u32, u32, u32, u32) {
    (
        digest(map, forest),
        digest(other, forest),
        forest.slots(),
        forest.free_slots(),
    )
}

// A hash of the entries of a map.
fn digest(map: &Map<u32, u32>, forest: &MapForest<u32, u32>) -> u32 {
    if !forest.holds(map) {
        return 0;
    }
    let mut digest = 1u32;
    for (key, value) in map.iter(forest) {
        digest = digest
            .wrapping_mul(31)
            .wrapping_add(key)
            .wrapping_mul(31)
            .wrapping_add(value);
    }
    digest
}
