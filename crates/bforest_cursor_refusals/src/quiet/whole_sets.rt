//! Calls on both ends of a set, and on whole sets.
use super::{LAST, MIDDLE};
use bforest::{Set, SetForest};
use std::ops::Bound;

// Reads both ends, and counts.
pub(super) fn ends(set: &Set<u32>, forest: &SetForest<u32>) -> bool {
    if !forest.holds(set) || !set.increases(forest, &()) {
        return false;
    }
    let fewest = Set::<u32>::fewest_nodes_for(LAST as usize);
    set.first(forest) == Some(1)
        && set.last(forest) == Some(LAST)
        && set.get_or_greater(0, forest, &()) == Some(1)
        && set.iter_back(forest).next() == Some(LAST)
        && set.len(forest) == LAST as usize
        && Set::<u32>::nodes_for(LAST as usize) >= fewest
        && forest.nodes_in_use() <= forest.node_limit()
}

// Takes the keys at both ends out, and puts them in again.
pub(super) fn pops(set: &mut Set<u32>, forest: &mut SetForest<u32>) -> bool {
    if !forest.holds(set) {
        return false;
    }
    let first = set.pop_first(forest);
    if !forest.holds(set) {
        return false;
    }
    let last = set.pop_last(forest);
    if !forest.holds(set) || !set.increases(forest, &()) {
        return false;
    }
    let put = set.insert(1, forest, &());
    if !forest.holds(set) || !set.increases(forest, &()) {
        return false;
    }
    let put_last = set.insert(LAST, forest, &());
    first == Some(1) && last == Some(LAST) && put == Ok(true) && put_last == Ok(true)
}

// Copies the set of the keys 1 and 2, and takes the copy apart again.
pub(super) fn copies(set: &Set<u32>, forest: &mut SetForest<u32>) -> bool {
    if !forest.holds(set) {
        return false;
    }
    let Ok(mut copy) = set.deep_clone(forest) else {
        return false;
    };
    if !forest.holds(&copy) || !copy.increases(forest, &()) {
        return false;
    }
    copy.shift(1, |key| key, forest, &());
    if !forest.holds(&copy) || !copy.increases(forest, &()) {
        return false;
    }
    let went = copy.remove_range((Bound::Included(2), Bound::Excluded(MIDDLE)), forest, &());
    if !forest.holds(&copy) || !copy.increases(forest, &()) {
        return false;
    }
    if !forest.holds(set) || !set.increases(forest, &()) {
        return false;
    }
    let within = copy.is_subset(set, forest, &()) && !copy.is_disjoint(set, forest, &());
    went && within && pairs(&copy, set, forest) && takes(&mut copy, set, forest)
}

// Reads the set of the key 1 beside that of the keys 1 and 2.
fn pairs(copy: &Set<u32>, set: &Set<u32>, forest: &SetForest<u32>) -> bool {
    if !forest.holds(copy) || !copy.increases(forest, &()) {
        return false;
    }
    if !forest.holds(set) || !set.increases(forest, &()) {
        return false;
    }
    let (mut either, mut both) = (
        copy.union(set, forest, &()),
        copy.intersection(set, forest, &()),
    );
    let mut own = copy.difference(set, forest, &());
    let mut one = copy.symmetric_difference(set, forest, &());
    either.next() == Some(1)
        && both.next() == Some(1)
        && own.next().is_none()
        && one.next() == Some(2)
}

// Keeps what another set has, and then what it has not, which is nothing.
fn takes(copy: &mut Set<u32>, set: &Set<u32>, forest: &mut SetForest<u32>) -> bool {
    if !forest.holds(copy) || !copy.increases(forest, &()) {
        return false;
    }
    if !forest.holds(set) || !set.increases(forest, &()) {
        return false;
    }
    let changed = copy.intersect_with(set, forest, &());
    if !forest.holds(copy) || !copy.increases(forest, &()) {
        return false;
    }
    if !forest.holds(set) || !set.increases(forest, &()) {
        return false;
    }
    !changed && copy.difference_with(set, forest, &()) && copy.is_empty()
}

// Loads a set, and clears it.
pub(super) fn loads(forest: &mut SetForest<u32>) -> bool {
    let Ok(mut set) = Set::load(&[1, 2], forest) else {
        return false;
    };
    if !forest.holds(&set) {
        return false;
    }
    set.clear(forest);
    set.is_empty()
}
