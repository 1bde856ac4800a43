//! How many nodes maps and sets can have.

use crate::checked::{NumberForest, Numbers, insert};
use bforest::{Map, MapForest, Set};

// The number of entries, and the most nodes of a map and of a set of so many, counted by hand.
#[test]
fn each_node_holds_as_few_as_it_may(rt: HostRuntime) {
    for (entries, of_map, of_set) in [
        (0usize, 0usize, 0usize),
        (1, 1, 1),
        (4, 1, 1),
        (5, 3, 1),
        (8, 3, 1),
        (9, 4, 3),
        (10, 4, 3),
        (17, 8, 4),
        (100, 35, 18),
        (10_000, 3_336, 1_670),
        (1_000_000, 333_337, 166_671),
        (
            usize::MAX,
            6_148_914_691_236_517_205,
            3_074_457_345_618_258_603,
        ),
    ] {
        assert_eq!(rt; Numbers::nodes_for(entries), of_map);
        assert_eq!(rt; Set::<u32>::nodes_for(entries), of_set);
    }
}

// A map of at most 20 entries has at most 8 nodes, so none of these insertions fails: in each turn the least keys go, and greater
// ones come.
#[test]
fn a_map_never_needs_more(rt: HostRuntime) {
    assert_eq!(rt; Numbers::nodes_for(20), 8);
    let mut forest: NumberForest = MapForest::with_node_limit(rt.alloc(), 8);
    let mut map = Map::new();
    for key in 0..200u32 {
        if 20 <= key {
            assert!(rt; forest.holds(&map));
            assert_eq!(rt; map.pop_first(&mut forest), Some((key - 20, key - 20)));
        }
        assert_eq!(rt;
            insert(&rt, &mut map, (key, key), &mut forest, &()),
            Ok(None)
        );
    }
}
