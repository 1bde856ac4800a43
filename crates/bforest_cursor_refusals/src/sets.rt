//! Insertions by a cursor into a set.
ghost use Rattle.bforest.specs.Forest.{IsLive, list_of};
ghost use Rattle.bforest.specs.Entries.{IsIncreasing};

use crate::Seen;
use bforest::{Comparator, OutOfMemory, Set, SetForest};
use std::ops::Bound;

/// The number of keys of a set: one leaf more than an inner node has children, inserted in order.
const KEYS: u32 = 72;

/// The number of nodes that the keys take.
const NODES: u32 = 12;

/// Grows a set by a cursor, beside another set.
pub(crate) fn grow(forest: &mut SetForest<u32>, seen: &mut Seen) {
    let nothing = Set::new();
    let mut other = Set::new();
    put(&mut other, 7, forest, &nothing, seen);
    let mut set = Set::new();
    for key in 1..=KEYS {
        put(&mut set, key, forest, &other, seen);
    }
    seen.note(forest.free_slots() == 0);
}

/// Reserves the nodes: then no insertion fails. In the end all nodes are free.
pub(crate) fn grow_ahead(forest: &mut SetForest<u32>, seen: &mut Seen) {
    if let Err(error) = forest.reserve_nodes(NODES) {
        seen.refuse(error, forest.slots() == 0 && forest.free_slots() == 0);
        seen.note(forest.reserve_nodes(NODES).is_ok());
    }
    let mut set = Set::new();
    for key in 1..=KEYS {
        let put = put_once(&mut set, key, forest);
        seen.note(put == Some((Ok(true), Some(key))));
    }
    if forest.holds(&set) {
        set.clear(forest);
    }
}

// Inserts an absent key, and repeats once a call that failed.
fn put(
    set: &mut Set<u32>,
    key: u32,
    forest: &mut SetForest<u32>,
    other: &Set<u32>,
    seen: &mut Seen,
) {
    let before = state(set, other, forest);
    let place = key_from(set, key, forest);
    match put_once(set, key, forest) {
        Some((Err(error), at)) => {
            seen.refuse(error, at == place && state(set, other, forest) == before);
            let again = put_once(set, key, forest);
            seen.note(again == Some((Ok(true), Some(key))));
        }
        put => seen.note(put == Some((Ok(true), Some(key)))),
    }
    seen.note(digest(other, forest) == before.1);
}

// Inserts by a cursor if the conditions hold. Also returns the key where the cursor stands then.
fn put_once(
    set: &mut Set<u32>,
    key: u32,
    forest: &mut SetForest<u32>,
) -> Option<(Result<bool, OutOfMemory>, Option<u32>)> {
    if !forest.holds(set) || !set.increases(forest, &()) {
        return None;
    }
    Some(put_by(set, key, forest, &()))
}

// Inserts by a cursor. Also returns the key where the cursor stands then.
fn put_by<K: Copy, C: Comparator<K>>(
    set: &mut Set<K>,
    key: K,
    forest: &mut SetForest<K>,
    comp: &C,
) -> (Result<bool, OutOfMemory>, Option<K>)
    requires live { IsLive forest.old set.old }
    requires increasing { IsIncreasing (C.order comp.now) (list_of forest.old set.old) }
{
    let mut cursor = set.cursor(forest, comp);
    let put = cursor.try_insert(key);
    (put, cursor.elem())
}

// The first key that is not less than `key`.
fn key_from(set: &Set<u32>, key: u32, forest: &SetForest<u32>) -> Option<u32> {
    if !forest.holds(set) || !set.increases(forest, &()) {
        return None;
    }
    set.range((Bound::Included(key), Bound::Unbounded), forest, &())
        .next()
}

// The values that stay where an insertion fails.
fn state(set: &Set<u32>, other: &Set<u32>, forest: &SetForest<u32>) -> (u32, u32, u32, u32) {
    (
        digest(set, forest),
        digest(other, forest),
        forest.slots(),
        forest.free_slots(),
    )
}

// A hash of the keys of a set.
fn digest(set: &Set<u32>, forest: &SetForest<u32>) -> u32 {
    if !forest.holds(set) {
        return 0;
    }
    let mut digest = 1u32;
    for key in set.iter(forest) {
        digest = digest.wrapping_mul(31).wrapping_add(key);
    }
    digest
}
