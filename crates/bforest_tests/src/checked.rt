//! Calls on maps of numbers, each after a test of its conditions.
use bforest::{Comparator, Map, MapForest, OutOfMemory};
use std::alloc::{AllocError, Global};
use std::process::Abort;

/// A map of numbers to numbers.
pub(crate) type Numbers = Map<u32, u32>;

/// A forest of maps of numbers to numbers.
pub(crate) type NumberForest = MapForest<u32, u32>;

/// The answer of an insertion.
pub(crate) type Put = Result<Option<u32>, OutOfMemory>;

/// `insert`, after a test of its conditions.
pub(crate) fn insert<C: Comparator<u32>>(
    rt: &impl Abort,
    map: &mut Numbers,
    (key, value): (u32, u32),
    forest: &mut NumberForest,
    comp: &C,
) -> Put {
    assert!(rt; forest.holds(map));
    assert!(rt; map.increases(forest, comp));
    map.insert(key, value, forest, comp)
}

/// `try_insert`, after a test of its conditions.
pub(crate) fn try_insert<C: Comparator<u32>>(
    rt: &impl Abort,
    map: &mut Numbers,
    (key, value): (u32, u32),
    forest: &mut NumberForest,
    comp: &C,
) -> Put {
    assert!(rt; forest.holds(map));
    assert!(rt; map.increases(forest, comp));
    map.try_insert(key, value, forest, comp)
}

/// The entries that `iter` yields.
pub(crate) fn entries(
    rt: &impl Abort,
    alloc: Global,
    map: &Numbers,
    forest: &NumberForest,
) -> Result<Vec<(u32, u32)>, AllocError> {
    assert!(rt; forest.holds(map));
    map.iter(forest).collect(alloc)
}

/// A map of the keys 1 to `most`, each with itself as value, inserted in ascending order.
pub(crate) fn ascending(rt: &impl Abort, most: u32, forest: &mut NumberForest) -> Numbers {
    let mut map = Map::new();
    for key in 1..=most {
        assert_eq!(rt; insert(rt, &mut map, (key, key), forest, &()), Ok(None));
    }
    map
}
