//! Calls on a set.
ghost use Rattle.bforest.specs.Forest.{IsLive, list_of};
ghost use Rattle.bforest.specs.Entries.{IsIncreasing};

use super::{LAST, MIDDLE, whole_sets};
use crate::Seen;
use bforest::{Comparator, OutOfMemory, Set, SetForest};
use std::ops::Bound;

/// Fills, reads, changes and empties a set of a forest in which all nodes lie free, and clears the forest.
pub(crate) fn all(forest: &mut SetForest<u32>, seen: &mut Seen) {
    let free = forest.free_slots();
    seen.note(forest.reserve_nodes(free) == Ok(()) && forest.slots() == free);
    let mut set = Set::default();
    seen.note(fill(&mut set, forest));
    seen.note(read(&set, forest));
    seen.note(whole_sets::ends(&set, forest));
    seen.note(whole_sets::pops(&mut set, forest));
    seen.note(change(&mut set, forest));
    seen.note(whole_sets::copies(&set, forest));
    seen.note(whole_sets::loads(forest));
    seen.note(empty(&mut set, forest));
    seen.note(set.is_empty() && forest.free_slots() == free);
    forest.clear();
    seen.note(forest.slots() == 0);
}

// Inserts each key twice.
fn fill(set: &mut Set<u32>, forest: &mut SetForest<u32>) -> bool {
    let mut is_right = true;
    for key in 1..=LAST {
        if !forest.holds(set) || !set.increases(forest, &()) {
            return false;
        }
        is_right = set.insert(key, forest, &()) == Ok(true) && is_right;
        is_right = set.try_insert(key, forest, &()) == Ok(false) && is_right;
    }
    is_right
}

// Makes each call that changes nothing.
fn read(set: &Set<u32>, forest: &SetForest<u32>) -> bool {
    if !forest.holds(set) || !set.increases(forest, &()) {
        return false;
    }
    let mut count = 0u32;
    for key in set.iter(forest) {
        count = count.wrapping_add((key <= LAST) as u32);
    }
    let mut range = set.range((Bound::Excluded(4), Bound::Included(20)), forest, &());
    count == LAST
        && !set.clone().is_empty()
        && set.is_same_handle(&set.clone())
        && set.levels(forest) == 2
        && set.contains(LAST, forest, &())
        && set.get_or_less(99, forest, &()) == Some(LAST)
        && range.next() == Some(5)
        && range.next_back() == Some(20)
}

// Makes each call of a cursor, and those that remove keys, until two are left. The nodes that this frees serve the insertions.
fn change(set: &mut Set<u32>, forest: &mut SetForest<u32>) -> bool {
    if !forest.holds(set) || !set.increases(forest, &()) {
        return false;
    }
    let edited = edit(set, MIDDLE, forest, &());
    if !forest.holds(set) || !set.increases(forest, &()) {
        return false;
    }
    let removed = set.remove(LAST, forest, &());
    set.retain(forest, |key| key <= 2);
    edited == (Some(MIDDLE), Ok(true), Ok(false), Some(MIDDLE)) && removed
}

// Makes each call of a cursor. Returns what the removal and both insertions answered, and the key that stands there then.
fn edit<K: Copy, C: Comparator<K>>(
    set: &mut Set<K>,
    key: K,
    forest: &mut SetForest<K>,
    comp: &C,
) -> (
    Option<K>,
    Result<bool, OutOfMemory>,
    Result<bool, OutOfMemory>,
    Option<K>,
)
    requires live { IsLive forest.old set.old }
    requires increasing { IsIncreasing (C.order comp.now) (list_of forest.old set.old) }
{
    let mut cursor = set.cursor(forest, comp);
    cursor.goto_first();
    cursor.next();
    cursor.prev();
    cursor.goto(key);
    let removed = cursor.remove();
    let put = cursor.try_insert(key);
    let again = cursor.insert(key);
    (
        removed,
        put,
        again,
        if cursor.is_empty() {
            None
        } else {
            cursor.elem()
        },
    )
}

// Clears the set.
fn empty(set: &mut Set<u32>, forest: &mut SetForest<u32>) -> bool {
    if !forest.holds(set) {
        return false;
    }
    set.clear(forest);
    set.is_empty()
}
