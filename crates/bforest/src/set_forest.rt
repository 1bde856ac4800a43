//! Forests of sets.
ghost use Rattle.bforest.specs.Forest.{IsLive, empty};
ghost use Rattle.std.specs.Prelude.{IsTrue, ◌↔◌, ◌≡◌};

use crate::forest::Forest;
use crate::set::Set;
use bforest_core::SetValue;
use bforest_trees::Trees;
use std::alloc::Global;

/// The most keys of a leaf of a set.
pub const SET_LEAF: usize = 15;

/// Many ordered sets in one table of nodes. A forest owns all keys; a [`Set`] is a handle to one tree in it.
///
/// A slot of the table is the place of one node. Slots that no tree uses form the free list, from which insertions take nodes before the
/// table grows.
pub type SetForest<K> = Forest<K, SetValue, SET_LEAF>;

impl<K: Copy> SetForest<K> {
    /// Returns an empty forest of at most 4294967295 slots, which is how many nodes 32 bits can name. No memory is taken.
    pub fn new(alloc: Global) -> Self
        ensures empty { result ≡ empty u32.MAX }
    {
        SetForest::with_node_limit(alloc, u32::MAX)
    }

    /// Returns an empty forest of at most `limit` slots. No memory is taken. A limit of 0 is allowed: then each insertion fails.
    pub fn with_node_limit(alloc: Global, limit: u32) -> Self
        ensures empty { result ≡ empty limit }
    {
        Forest {
            trees: Trees::with_limit(alloc, limit),
        }
    }

    /// Returns whether a handle is live here: whether it is empty or names a tree of this forest, which each call on a handle requires.
    ///
    /// Visits all nodes of the forest. No comparison. A handle does not know its forest: one that was filled in another forest is live
    /// here if this forest has a tree of its number.
    pub fn holds(&self, set: &Set<K>) -> bool
        ensures live { IsTrue result ↔ IsLive self.now set.now }
    {
        self.trees.holds(set.root)
    }
}
