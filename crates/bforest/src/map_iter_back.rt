//! Iterators over a map, from the last entry to the first.
ghost use Rattle.bforest.specs.Forest.{IsLive, list_of};
ghost use Rattle.bforest.specs.Memory.{MapsFitInMemory};
ghost use Rattle.std.specs.Iterator.{YieldsFirst, item_count};
ghost use Rattle.std.specs.Prelude.{reverse, ◌≡◌};

use crate::map::Map;
use crate::map_forest::{MAP_LEAF, MapForest};
use bforest_core::PackedNode;
use bforest_trees::{Look, Trees};
use std::marker::Model;

/// An iterator over the entries of a map, from the last to the first. It is fused. [`Map::iter_back`] makes it. A step compares nothing.
#[derive(Drop)]
pub struct MapIterBack<'a, K: Copy, V: Copy> {
    trees: &'a Trees<K, V, MAP_LEAF>,
    root: PackedNode,
    look: Look<'a, K, V>,
}

impl<'a, K: Copy, V: Copy> Model for MapIterBack<'a, K, V> {
    ghost use Rattle.bforest_trees.specs.Looks.{LooksBack, left_before};
    ghost use Rattle.std.specs.Prelude.{List};

    ghost Value = { List (K × V) };

    ghost view = { λ i. left_before i.trees.now i.root i.look };

    ghost invariant = { λ i. LooksBack i.trees.now i.root i.look };
}

impl<'a, K: Copy, V: Copy> MapIterBack<'a, K, V> {
    /// Returns an iterator over the entries of a map, from the last to the first.
    #[inline(always)]
    pub(crate) fn new(map: &Map<K, V>, forest: &'a MapForest<K, V>) -> MapIterBack<'a, K, V>
        requires { IsLive forest.now map.now }
        ensures entries { result ≡ reverse (list_of forest.now map.now) }
        ensures fits { MapsFitInMemory K.row V.row }
    {
        MapIterBack {
            trees: &forest.trees,
            root: map.root,
            look: Look::end(),
        }
    }
}

impl<'a, K: Copy, V: Copy> Iterator for MapIterBack<'a, K, V> {
    ghost use Rattle.bforest.specs.Memory.{MapsFitInMemory};

    type Item = (K, V);

    ghost can_next = { λ _. MapsFitInMemory K.row V.row };

    ghost next_gives = { YieldsFirst (λ entries. entries) };

    ghost remaining = { item_count (λ entries. entries) };

    #[inline(always)]
    fn next(&mut self) -> Option<(K, V)> {
        self.look.prev(self.root, self.trees)
    }
}
