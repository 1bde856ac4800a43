//! The first entry and the last, the first from a key on, and the value of a key that is inserted where it is absent.

use crate::checked::{NumberForest, Numbers, ascending};
use bforest::{Map, MapForest, Set, SetForest};
use std::process::Abort;

/// Reads the first entry and the last, and removes both.
fn take_ends(rt: &impl Abort, map: &mut Numbers, first: u32, last: u32, forest: &mut NumberForest) {
    assert!(rt; forest.holds(map));
    assert_eq!(rt; map.first(forest), Some((first, first)));
    assert_eq!(rt; map.last(forest), Some((last, last)));
    assert_eq!(rt; map.pop_first(forest), Some((first, first)));
    assert_eq!(rt; map.pop_last(forest), Some((last, last)));
}

#[test]
fn a_map_is_emptied_from_both_ends(rt: HostRuntime) {
    let mut forest: NumberForest = MapForest::new(rt.alloc());
    let mut map = ascending(&rt, 36, &mut forest);
    for turn in 1..=18u32 {
        take_ends(&rt, &mut map, turn, 37 - turn, &mut forest);
    }
    assert!(rt; map.is_empty());
    assert_eq!(rt; forest.free_slots(), forest.slots());
    assert_eq!(rt; forest.nodes_in_use(), 0);
}

#[test]
fn a_value_is_inserted_once(rt: HostRuntime) {
    let mut forest: NumberForest = MapForest::new(rt.alloc());
    let mut map = Map::new();
    assert_eq!(rt; map.get_or_insert(5, 50, &mut forest, &()), Ok(50));
    assert_eq!(rt; map.get_or_insert(5, 51, &mut forest, &()), Ok(50));
    assert_eq!(rt; map.get_or_greater(5, &forest, &()), Some((5, 50)));
    assert_eq!(rt; map.get_or_greater(6, &forest, &()), None);
}

#[test]
fn a_set_has_a_first_key_and_a_last(rt: HostRuntime) {
    let mut forest: SetForest<u32> = SetForest::new(rt.alloc());
    let mut set = Set::new();
    assert_eq!(rt; set.insert(7, &mut forest, &()), Ok(true));
    assert_eq!(rt; set.insert(3, &mut forest, &()), Ok(true));
    assert_eq!(rt; set.first(&forest), Some(3));
    assert_eq!(rt; set.last(&forest), Some(7));
    assert_eq!(rt; set.get_or_greater(4, &forest, &()), Some(7));
    assert_eq!(rt; set.pop_last(&mut forest), Some(7));
    assert_eq!(rt; set.pop_first(&mut forest), Some(3));
    assert_eq!(rt; set.pop_first(&mut forest), None);
}
