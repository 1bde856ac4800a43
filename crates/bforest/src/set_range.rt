//! The keys of a set within bounds.
ghost use Rattle.bforest.specs.Memory.{SetsFitInMemory};
ghost use Rattle.std.specs.Iterator.{YieldsFirst, YieldsLast, item_count};

use crate::entry::key_of;
use crate::set_forest::SET_LEAF;
use bforest_core::{Comparator, PackedNode, SetValue};
use bforest_trees::{Ends, Trees};
use std::marker::{Model, PhantomData};

/// A double-ended iterator over the keys of a set within bounds, in order. It is fused, at both ends.
/// [`Set::range`](crate::Set::range) makes it. A step compares nothing.
#[derive(Drop)]
pub struct SetRange<'a, K: Copy, C: Comparator<K>> {
    pub(crate) trees: &'a Trees<K, SetValue, SET_LEAF>,
    pub(crate) root: PackedNode,
    pub(crate) ends: Ends<'a, K, SetValue>,
    pub(crate) mark: PhantomData<C>,
}

impl<'a, K: Copy, C: Comparator<K>> Model for SetRange<'a, K, C> {
    ghost use Rattle.bforest_trees.specs.Range.{IsRange, left_in};
    ghost use Rattle.std.specs.Map.{keys_of};
    ghost use Rattle.std.specs.Prelude.{List};

    ghost Value = { List K };

    ghost view = { λ r. keys_of (left_in r.trees.now r.root r.ends) };

    ghost invariant = { λ r. IsRange r.trees.now r.root r.ends };
}

impl<'a, K: Copy, C: Comparator<K>> Iterator for SetRange<'a, K, C> {
    type Item = K;

    ghost can_next = { λ _. SetsFitInMemory K.row };

    ghost next_gives = { YieldsFirst (λ keys. keys) };

    ghost remaining = { item_count (λ keys. keys) };

    #[inline(always)]
    fn next(&mut self) -> Option<K> {
        key_of(self.trees.range_next(self.root, &mut self.ends))
    }
}

impl<'a, K: Copy, C: Comparator<K>> DoubleEndedIterator for SetRange<'a, K, C> {
    ghost can_next_back = { λ _. SetsFitInMemory K.row };

    ghost next_back_gives = { YieldsLast (λ keys. keys) };

    #[inline(always)]
    fn next_back(&mut self) -> Option<K> {
        key_of(self.trees.range_next_back(self.root, &mut self.ends))
    }
}
