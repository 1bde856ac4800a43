//! Nodes that are reserved.

use crate::checked::{NumberForest, insert};
use bforest::{Map, MapForest, OutOfMemory};

// For each number of nodes to reserve: the answer, the greatest key inserted then, the slots, and the free slots.
#[test]
fn nodes_are_taken_ahead(rt: HostRuntime) {
    let mut forest: NumberForest = MapForest::with_node_limit(rt.alloc(), 5);
    let mut map = Map::new();
    let mut next = 1u32;
    for (count, answer, last, slots, free) in [
        (6, Err(OutOfMemory::Full), 0u32, 0, 0),
        (3, Ok(()), 0, 3, 3),
        (3, Ok(()), 7, 3, 2),
        (0, Ok(()), 8, 3, 0),
        (3, Err(OutOfMemory::Full), 8, 3, 0),
        (2, Ok(()), 8, 5, 2),
        (1, Ok(()), 8, 5, 2),
        (0, Ok(()), 16, 5, 0),
        (0, Ok(()), 19, 5, 0),
    ] {
        assert_eq!(rt; forest.reserve_nodes(count), answer);
        for key in next..=last {
            assert_eq!(rt;
                insert(&rt, &mut map, (key, key), &mut forest, &()),
                Ok(None)
            );
        }
        next = last.wrapping_add(1);
        assert_eq!(rt; forest.slots(), slots);
        assert_eq!(rt; forest.free_slots(), free);
    }
    assert_eq!(rt;
        insert(&rt, &mut map, (20, 20), &mut forest, &()),
        Err(OutOfMemory::Full)
    );
    forest.clear();
    assert_eq!(rt; forest.node_limit(), 5);
    assert_eq!(rt; forest.slots(), 0);
}
