//! Forests of maps.
ghost use Rattle.bforest.specs.Forest.{IsLive, IsSearchable, empty, list_of};
ghost use Rattle.bforest.specs.Lending.{lends_value_for, lends_value_of};
ghost use Rattle.bforest.specs.Written.{WritesFor, with_value_for};
ghost use Rattle.bforest_core.specs.Paths.{index_of, leaf_of};
ghost use Rattle.bforest_core.specs.Table.{with_value_at};
ghost use Rattle.bforest_core.specs.declared.path.Path.{Path};
ghost use Rattle.bforest_nodes.specs.Entries.{value_at_place, value_for};
ghost use Rattle.bforest_trees.specs.Place.{IsWritten, OnSpot};
ghost use Rattle.std.specs.Borrow.{sem};
ghost use Rattle.std.specs.Option.{option_copied_mut};
ghost use Rattle.std.specs.Prelude.{IsTrue, OnSome, Option, Some, ◌↔◌, ◌≡◌, ℕ};

use crate::forest::Forest;
use crate::map::Map;
use bforest_core::{Comparator, Node};
use bforest_trees::Trees;
use std::alloc::Global;

/// The most entries of a leaf of a map.
pub const MAP_LEAF: usize = 7;

/// Many ordered maps in one table of nodes. A forest owns all entries; a [`Map`] is a handle to one tree in it.
///
/// A slot of the table is the place of one node. Slots that no tree uses form the free list, from which insertions take nodes before the
/// table grows.
pub type MapForest<K, V> = Forest<K, V, MAP_LEAF>;

impl<K: Copy, V: Copy> MapForest<K, V> {
    /// Returns an empty forest of at most 4294967295 slots, which is how many nodes 32 bits can name. No memory is taken.
    pub fn new(alloc: Global) -> Self
        ensures empty { result ≡ empty u32.MAX }
    {
        MapForest::with_node_limit(alloc, u32::MAX)
    }

    /// Returns an empty forest of at most `limit` slots. No memory is taken. A limit of 0 is allowed: then each insertion fails.
    pub fn with_node_limit(alloc: Global, limit: u32) -> Self
        ensures empty { result ≡ empty limit }
    {
        Forest {
            trees: Trees::with_limit(alloc, limit),
        }
    }

    /// Returns whether a handle is live here: whether it is empty or names a tree of this forest, which each call on a handle requires.
    ///
    /// Visits all nodes of the forest. No comparison. A handle does not know its forest: one that was filled in another forest is live
    /// here if this forest has a tree of its number.
    pub fn holds(&self, map: &Map<K, V>) -> bool
        ensures live { IsTrue result ↔ IsLive self.now map.now }
    {
        self.trees.holds(map.root)
    }

    /// Returns a mutable reference to the value of the entry of `map` whose key compares equal to `key`, or `None`. No other entry changes,
    /// and no key and no node.
    ///
    /// One search, as in [`Map::get`]. The reference ends before the next call on the forest.
    pub fn get_mut<C: Comparator<K>>(&mut self, map: &Map<K, V>, key: K, comp: &C) -> Option<&mut V>
        requires { IsSearchable (C.order comp.now) self.old map.now }
        ensures* writes_back { sem 𝓛
            (lends_value_for K.row V.row (C.order comp.now) self.entry map.now key result) }
        ensures value { option_copied_mut result
            ≡ value_for (C.order comp.now) (list_of self.old map.now) key }
        ensures written { OnSome result ((w : V) → WritesFor (C.order comp.now) self.old map.now key w
            (with_value_for (C.order comp.now) self.old map.now key w)) }
    {
        self.trees.get_mut(map.root, key, comp)
    }

    /// The value of the entry where a path stands, by the path's leaf and its index there, for writing.
    pub(crate) fn value_at(&mut self, leaf: Node, index: usize) -> &mut V
        requires stands { (h : Option ℕ) × (path : Path K V MAP_LEAF) × OnSpot self.old h path
            × (leaf ≡ leaf_of path) × (index ≡ index_of path) }
        ensures* writes_back { sem 𝓛 (lends_value_of K.row V.row self.entry leaf index result) }
        ensures value { (h : Option ℕ) (path : Path K V MAP_LEAF) (at : OnSpot self.old h path)
            → leaf ≡ leaf_of path → index ≡ index_of path
            → value_at_place (list_of self.old h) at.place ≡ Some result.now }
        ensures written { (h : Option ℕ) (path : Path K V MAP_LEAF) (at : OnSpot self.old h path)
            → leaf ≡ leaf_of path → index ≡ index_of path
            → (w : V) → IsWritten self.old (with_value_at self.old leaf index w) h path at.place w }
    {
        self.trees.value_at(leaf, index)
    }
}
