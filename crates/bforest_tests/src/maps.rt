//! Maps in the order of their keys' type.

use crate::checked::{NumberForest, Numbers, ascending, insert};
use bforest::{Map, MapForest, Set};
use std::default::Default;
use std::mem::size_of;

// A handle takes 4 bytes, whatever its keys and values take.
const _: () = prove!(size_of::<Map<u64, u64>>() == 4);

const _: () = prove!(size_of::<Set<u64>>() == 4);

// The README's example: for a map that is used by itself the checker finds the conditions of each call.
#[test]
fn the_first_example(rt: HostRuntime) {
    let mut forest: NumberForest = MapForest::new(rt.alloc());
    let mut map = Map::new();
    assert_eq!(rt; map.insert(5, 50, &mut forest, &()), Ok(None));
    assert_eq!(rt; map.insert(5, 51, &mut forest, &()), Ok(Some(50)));
    assert_eq!(rt; map.get(5, &forest, &()), Some(51));
}

#[test]
fn a_tried_insertion_answers_the_old_value(rt: HostRuntime) {
    let mut forest: NumberForest = MapForest::new(rt.alloc());
    let mut map = Map::new();
    assert_eq!(rt; map.try_insert(5, 50, &mut forest, &()), Ok(None));
    assert_eq!(rt; map.try_insert(5, 51, &mut forest, &()), Ok(Some(50)));
}

#[test]
fn an_iterator_ends_once(rt: HostRuntime) {
    let mut forest: NumberForest = MapForest::new(rt.alloc());
    let mut map = Map::new();
    assert_eq!(rt; map.insert(u32::MAX, 1, &mut forest, &()), Ok(None));
    let mut iter = map.iter(&forest);
    assert_eq!(rt; iter.next(), Some((u32::MAX, 1)));
    assert_eq!(rt; iter.next(), None);
    assert_eq!(rt; iter.next(), None);
}

#[test]
fn an_iterator_that_owns_its_forest_ends_for_good(rt: HostRuntime) {
    let mut forest: NumberForest = MapForest::new(rt.alloc());
    let map = ascending(&rt, 36, &mut forest);
    assert!(rt; forest.holds(&map));
    let mut entries = map.into_iter(forest);
    for key in 1..=36u32 {
        assert_eq!(rt; entries.next(), Some((key, key)));
    }
    assert_eq!(rt; entries.next(), None);
    assert_eq!(rt; entries.next(), None);
}

#[test]
fn an_empty_map_takes_no_node(rt: HostRuntime) {
    let forest: NumberForest = MapForest::new(rt.alloc());
    let map: Numbers = Map::default();
    assert!(rt; map.is_empty());
    assert!(rt; forest.holds(&map));
    assert!(rt; map.increases(&forest, &()));
    assert_eq!(rt; forest.slots(), 0);
    assert_eq!(rt; forest.node_limit(), u32::MAX);
}

#[test]
fn a_handle_of_another_forest_is_not_held(rt: HostRuntime) {
    let mut forest: NumberForest = MapForest::new(rt.alloc());
    let other: NumberForest = MapForest::new(rt.alloc());
    let mut map = Map::new();
    assert_eq!(rt; insert(&rt, &mut map, (1, 10), &mut forest, &()), Ok(None));
    assert!(rt; forest.holds(&map));
    assert!(rt; !other.holds(&map));
}
