//! Iterators over a set, from the last key to the first.
ghost use Rattle.bforest.specs.Forest.{IsLive};
ghost use Rattle.bforest.specs.Memory.{SetsFitInMemory};
ghost use Rattle.bforest.specs.Set.{elements};
ghost use Rattle.std.specs.Iterator.{YieldsFirst, item_count};
ghost use Rattle.std.specs.Prelude.{reverse, ◌≡◌};

use crate::entry::key_of;
use crate::set::Set;
use crate::set_forest::{SET_LEAF, SetForest};
use bforest_core::{PackedNode, SetValue};
use bforest_trees::{Look, Trees};
use std::marker::Model;

/// An iterator over the keys of a set, from the last to the first. It is fused. [`Set::iter_back`] makes it. A step compares nothing.
#[derive(Drop)]
pub struct SetIterBack<'a, K: Copy> {
    trees: &'a Trees<K, SetValue, SET_LEAF>,
    root: PackedNode,
    look: Look<'a, K, SetValue>,
}

impl<'a, K: Copy> Model for SetIterBack<'a, K> {
    ghost use Rattle.bforest_trees.specs.Looks.{LooksBack, left_before};
    ghost use Rattle.std.specs.Map.{keys_of};
    ghost use Rattle.std.specs.Prelude.{List};

    ghost Value = { List K };

    ghost view = { λ i. keys_of (left_before i.trees.now i.root i.look) };

    ghost invariant = { λ i. LooksBack i.trees.now i.root i.look };
}

impl<'a, K: Copy> SetIterBack<'a, K> {
    /// Returns an iterator over the keys of a set, from the last to the first.
    #[inline(always)]
    pub(crate) fn new(set: &Set<K>, forest: &'a SetForest<K>) -> SetIterBack<'a, K>
        requires { IsLive forest.now set.now }
        ensures keys { result ≡ reverse (elements forest.now set.now) }
        ensures fits { SetsFitInMemory K.row }
    {
        SetIterBack {
            trees: &forest.trees,
            root: set.root,
            look: Look::end(),
        }
    }
}

impl<'a, K: Copy> Iterator for SetIterBack<'a, K> {
    ghost use Rattle.bforest.specs.Memory.{SetsFitInMemory};

    type Item = K;

    ghost can_next = { λ _. SetsFitInMemory K.row };

    ghost next_gives = { YieldsFirst (λ keys. keys) };

    ghost remaining = { item_count (λ keys. keys) };

    #[inline(always)]
    fn next(&mut self) -> Option<K> {
        key_of(self.look.prev(self.root, self.trees))
    }
}
