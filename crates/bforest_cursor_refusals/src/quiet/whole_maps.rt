//! Calls on both ends of a map, on the values there, and on whole maps.
use super::{LAST, MIDDLE};
use bforest::{Map, MapForest};
use std::ops::Bound;

// Reads both ends, and counts.
pub(super) fn ends(map: &Map<u32, u32>, forest: &MapForest<u32, u32>) -> bool {
    if !forest.holds(map) || !map.increases(forest, &()) {
        return false;
    }
    let fewest = Map::<u32, u32>::fewest_nodes_for(LAST as usize);
    map.first(forest) == Some((1, 1))
        && map.last(forest) == Some((LAST, LAST))
        && map.get_or_greater(0, forest, &()) == Some((1, 1))
        && map.iter_back(forest).next() == Some((LAST, LAST))
        && map.len(forest) == LAST as usize
        && Map::<u32, u32>::nodes_for(LAST as usize) >= fewest
        && forest.nodes_in_use() <= forest.node_limit()
}

// Makes each call that changes a value in its place.
pub(super) fn values(map: &mut Map<u32, u32>, forest: &mut MapForest<u32, u32>) -> bool {
    if !forest.holds(map) || !map.increases(forest, &()) {
        return false;
    }
    let updated = map.update(MIDDLE, |value| value, forest, &());
    if !forest.holds(map) || !map.increases(forest, &()) {
        return false;
    }
    let lent = if let Some(value) = forest.get_mut(map, MIDDLE, &()) {
        *value = MIDDLE;
        true
    } else {
        false
    };
    if !forest.holds(map) || !map.increases(forest, &()) {
        return false;
    }
    let found = map.get_or_insert(MIDDLE, 0, forest, &());
    if !forest.holds(map) || !map.increases(forest, &()) {
        return false;
    }
    let put = map.update_or_insert(MIDDLE, 0, |value| value, forest, &());
    lent && updated == Some(MIDDLE) && found == Ok(MIDDLE) && put == Ok(MIDDLE)
}

// Takes the entries at both ends out, and puts them in again.
pub(super) fn pops(map: &mut Map<u32, u32>, forest: &mut MapForest<u32, u32>) -> bool {
    if !forest.holds(map) {
        return false;
    }
    let first = map.pop_first(forest);
    if !forest.holds(map) {
        return false;
    }
    let last = map.pop_last(forest);
    if !forest.holds(map) || !map.increases(forest, &()) {
        return false;
    }
    let put = map.insert(1, 1, forest, &());
    if !forest.holds(map) || !map.increases(forest, &()) {
        return false;
    }
    let put_last = map.insert(LAST, LAST, forest, &());
    first == Some((1, 1)) && last == Some((LAST, LAST)) && put == Ok(None) && put_last == Ok(None)
}

// Copies the map of the keys 1 and 2, and takes the copy apart again.
pub(super) fn copies(map: &Map<u32, u32>, forest: &mut MapForest<u32, u32>) -> bool {
    if !forest.holds(map) {
        return false;
    }
    let Ok(mut copy) = map.deep_clone(forest) else {
        return false;
    };
    if !forest.holds(&copy) || !copy.increases(forest, &()) {
        return false;
    }
    copy.shift(1, |key| key, forest, &());
    if !forest.holds(&copy) || !copy.increases(forest, &()) {
        return false;
    }
    let went = copy.remove_range((Bound::Included(2), Bound::Excluded(MIDDLE)), forest, &());
    if !forest.holds(&copy) || !copy.increases(forest, &()) {
        return false;
    }
    if !forest.holds(map) || !map.increases(forest, &()) {
        return false;
    }
    let within = copy.is_subset(map, forest, &());
    went && within && !copy.is_disjoint(map, forest, &()) && takes(&mut copy, map, forest)
}

// Keeps what another map has, and then what it has not, which is nothing.
fn takes(copy: &mut Map<u32, u32>, map: &Map<u32, u32>, forest: &mut MapForest<u32, u32>) -> bool {
    if !forest.holds(copy) || !copy.increases(forest, &()) {
        return false;
    }
    if !forest.holds(map) || !map.increases(forest, &()) {
        return false;
    }
    let changed = copy.intersect_with(map, forest, &());
    if !forest.holds(copy) || !copy.increases(forest, &()) {
        return false;
    }
    if !forest.holds(map) || !map.increases(forest, &()) {
        return false;
    }
    !changed && copy.difference_with(map, forest, &()) && copy.is_empty()
}

// Loads a map, and clears it.
pub(super) fn loads(forest: &mut MapForest<u32, u32>) -> bool {
    let Ok(mut map) = Map::load(&[(1, 1), (2, 2)], forest) else {
        return false;
    };
    if !forest.holds(&map) {
        return false;
    }
    map.clear(forest);
    map.is_empty()
}
