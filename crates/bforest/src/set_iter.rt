//! Iterators over a set.
ghost use Rattle.bforest.specs.Forest.{IsLive};
ghost use Rattle.bforest.specs.Memory.{SetsFitInMemory};
ghost use Rattle.bforest.specs.Set.{elements};
ghost use Rattle.std.specs.Iterator.{YieldsFirst, item_count};
ghost use Rattle.std.specs.Prelude.{◌≡◌};

use crate::entry::key_of;
use crate::set::Set;
use crate::set_forest::{SET_LEAF, SetForest};
use bforest_core::SetValue;
use bforest_trees::{Reader, Trees};
use std::marker::Model;

/// An iterator over the keys of a set, in order. It is fused. [`Set::iter`] makes it. A step compares nothing.
#[derive(Drop)]
pub struct SetIter<'a, K: Copy> {
    trees: &'a Trees<K, SetValue, SET_LEAF>,
    reader: Reader<'a, K, SetValue, SET_LEAF>,
}

impl<'a, K: Copy> Model for SetIter<'a, K> {
    ghost use Rattle.bforest_trees.specs.Layout.{IsReader, left_of};
    ghost use Rattle.std.specs.Map.{keys_of};
    ghost use Rattle.std.specs.Prelude.{List};

    ghost Value = { List K };

    ghost view = { λ i. keys_of (left_of i.trees.now i.reader) };

    ghost invariant = { λ i. IsReader i.trees.now i.reader };
}

impl<'a, K: Copy> SetIter<'a, K> {
    /// Returns an iterator over the keys of a set.
    #[inline(always)]
    pub(crate) fn new(set: &Set<K>, forest: &'a SetForest<K>) -> SetIter<'a, K>
        requires { IsLive forest.now set.now }
        ensures keys { result ≡ elements forest.now set.now }
        ensures fits { SetsFitInMemory K.row }
    {
        let trees = &forest.trees;
        SetIter {
            trees,
            reader: Reader::new(set.root, trees),
        }
    }
}

impl<'a, K: Copy> Iterator for SetIter<'a, K> {
    ghost use Rattle.bforest.specs.Memory.{SetsFitInMemory};

    type Item = K;

    ghost can_next = { λ _. SetsFitInMemory K.row };

    ghost next_gives = { YieldsFirst (λ keys. keys) };

    ghost remaining = { item_count (λ keys. keys) };

    #[inline(always)]
    fn next(&mut self) -> Option<K> {
        key_of(self.reader.next(self.trees))
    }
}
