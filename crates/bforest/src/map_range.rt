//! The entries of a map within bounds.
ghost use Rattle.bforest.specs.Memory.{MapsFitInMemory};
ghost use Rattle.std.specs.Iterator.{YieldsFirst, YieldsLast, item_count};

use crate::map_forest::MAP_LEAF;
use bforest_core::{Comparator, PackedNode};
use bforest_trees::{Ends, Trees};
use std::marker::{Model, PhantomData};

/// A double-ended iterator over the entries of a map within bounds, in order. It is fused, at both ends.
/// [`Map::range`](crate::Map::range) makes it. A step compares nothing.
#[derive(Drop)]
pub struct MapRange<'a, K: Copy, V: Copy, C: Comparator<K>> {
    pub(crate) trees: &'a Trees<K, V, MAP_LEAF>,
    pub(crate) root: PackedNode,
    pub(crate) ends: Ends<'a, K, V>,
    pub(crate) mark: PhantomData<C>,
}

impl<'a, K: Copy, V: Copy, C: Comparator<K>> Model for MapRange<'a, K, V, C> {
    ghost use Rattle.bforest_trees.specs.Range.{IsRange, left_in};
    ghost use Rattle.std.specs.Prelude.{List};

    ghost Value = { List (K × V) };

    ghost view = { λ r. left_in r.trees.now r.root r.ends };

    ghost invariant = { λ r. IsRange r.trees.now r.root r.ends };
}

impl<'a, K: Copy, V: Copy, C: Comparator<K>> Iterator for MapRange<'a, K, V, C> {
    type Item = (K, V);

    ghost can_next = { λ _. MapsFitInMemory K.row V.row };

    ghost next_gives = { YieldsFirst (λ entries. entries) };

    ghost remaining = { item_count (λ entries. entries) };

    #[inline(always)]
    fn next(&mut self) -> Option<(K, V)> {
        self.trees.range_next(self.root, &mut self.ends)
    }
}

impl<'a, K: Copy, V: Copy, C: Comparator<K>> DoubleEndedIterator for MapRange<'a, K, V, C> {
    ghost can_next_back = { λ _. MapsFitInMemory K.row V.row };

    ghost next_back_gives = { YieldsLast (λ entries. entries) };

    #[inline(always)]
    fn next_back(&mut self) -> Option<(K, V)> {
        self.trees.range_next_back(self.root, &mut self.ends)
    }
}
