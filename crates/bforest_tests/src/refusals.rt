//! Insertions that fail by the limit on nodes.

use crate::checked::{NumberForest, try_insert};
use bforest::{Map, MapForest, OutOfMemory};

#[test]
fn a_limit_of_none_refuses_all(rt: HostRuntime) {
    let mut forest: NumberForest = MapForest::with_node_limit(rt.alloc(), 0);
    let mut map = Map::new();
    assert_eq!(rt;
        try_insert(&rt, &mut map, (1, 1), &mut forest, &()),
        Err(OutOfMemory::Full)
    );
    assert!(rt; map.is_empty());
    assert_eq!(rt; forest.slots(), 0);
}
