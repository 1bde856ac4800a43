//! Iterators over a map.
ghost use Rattle.bforest.specs.Forest.{IsLive, list_of};
ghost use Rattle.bforest.specs.Memory.{MapsFitInMemory};
ghost use Rattle.std.specs.Iterator.{YieldsFirst, item_count};
ghost use Rattle.std.specs.Prelude.{◌≡◌};

use crate::map::Map;
use crate::map_forest::{MAP_LEAF, MapForest};
use bforest_trees::{Reader, Trees};
use std::marker::Model;

/// An iterator over the entries of a map, in order. It is fused. [`Map::iter`] makes it. A step compares nothing.
#[derive(Drop)]
pub struct MapIter<'a, K: Copy, V: Copy> {
    trees: &'a Trees<K, V, MAP_LEAF>,
    reader: Reader<'a, K, V, MAP_LEAF>,
}

impl<'a, K: Copy, V: Copy> Model for MapIter<'a, K, V> {
    ghost use Rattle.bforest_trees.specs.Layout.{IsReader, left_of};
    ghost use Rattle.std.specs.Prelude.{List};

    ghost Value = { List (K × V) };

    ghost view = { λ i. left_of i.trees.now i.reader };

    ghost invariant = { λ i. IsReader i.trees.now i.reader };
}

impl<'a, K: Copy, V: Copy> MapIter<'a, K, V> {
    /// Returns an iterator over the entries of a map.
    #[inline(always)]
    pub(crate) fn new(map: &Map<K, V>, forest: &'a MapForest<K, V>) -> MapIter<'a, K, V>
        requires { IsLive forest.now map.now }
        ensures entries { result ≡ list_of forest.now map.now }
        ensures fits { MapsFitInMemory K.row V.row }
    {
        let trees = &forest.trees;
        MapIter {
            trees,
            reader: Reader::new(map.root, trees),
        }
    }
}

impl<'a, K: Copy, V: Copy> Iterator for MapIter<'a, K, V> {
    ghost use Rattle.bforest.specs.Memory.{MapsFitInMemory};

    type Item = (K, V);

    ghost can_next = { λ _. MapsFitInMemory K.row V.row };

    ghost next_gives = { YieldsFirst (λ entries. entries) };

    ghost remaining = { item_count (λ entries. entries) };

    #[inline(always)]
    fn next(&mut self) -> Option<(K, V)> {
        self.reader.next(self.trees)
    }
}
