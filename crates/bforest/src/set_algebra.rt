//! Iterators over the union, the intersection and the differences of two sets.
ghost use Rattle.bforest.specs.Memory.{SetsFitInMemory};
ghost use Rattle.std.specs.Iterator.{YieldsFirst, item_count};

use crate::set_merge::Merge;
use bforest_core::Comparator;
use std::marker::Model;

/// An iterator over the keys of either of two sets, in order. It is fused. [`Set::union`](crate::Set::union) makes it. A step compares at
/// most once.
#[derive(Drop)]
pub struct SetUnion<'a, K: Copy, C: Comparator<K>> {
    pub(crate) merge: Merge<'a, K, C>,
}

impl<'a, K: Copy, C: Comparator<K>> Model for SetUnion<'a, K, C> {
    ghost use Rattle.bforest.specs.Sides.{in_either};
    ghost use Rattle.std.specs.Prelude.{List};

    ghost Value = { List K };

    ghost view = { λ u. in_either C.order u.merge };
}

impl<'a, K: Copy, C: Comparator<K>> Iterator for SetUnion<'a, K, C> {
    type Item = K;

    ghost can_next = { λ _. SetsFitInMemory K.row };

    ghost next_gives = { YieldsFirst (λ keys. keys) };

    ghost remaining = { item_count (λ keys. keys) };

    #[inline(always)]
    fn next(&mut self) -> Option<K> {
        self.merge.next_in_either()
    }
}

/// An iterator over the keys of a set that another one has too, in order. It is fused. [`Set::intersection`](crate::Set::intersection)
/// makes it. A step compares at most once for each key of either set that it passes.
#[derive(Drop)]
pub struct SetIntersection<'a, K: Copy, C: Comparator<K>> {
    pub(crate) merge: Merge<'a, K, C>,
}

impl<'a, K: Copy, C: Comparator<K>> Model for SetIntersection<'a, K, C> {
    ghost use Rattle.bforest.specs.Sides.{in_both};
    ghost use Rattle.std.specs.Prelude.{List};

    ghost Value = { List K };

    ghost view = { λ i. in_both C.order i.merge };
}

impl<'a, K: Copy, C: Comparator<K>> Iterator for SetIntersection<'a, K, C> {
    type Item = K;

    ghost can_next = { λ _. SetsFitInMemory K.row };

    ghost next_gives = { YieldsFirst (λ keys. keys) };

    ghost remaining = { item_count (λ keys. keys) };

    #[inline(always)]
    fn next(&mut self) -> Option<K> {
        self.merge.next_in_both()
    }
}

/// An iterator over the keys of a set that another one does not have, in order. It is fused. [`Set::difference`](crate::Set::difference)
/// makes it. A step compares at most once for each key of either set that it passes.
#[derive(Drop)]
pub struct SetDifference<'a, K: Copy, C: Comparator<K>> {
    pub(crate) merge: Merge<'a, K, C>,
}

impl<'a, K: Copy, C: Comparator<K>> Model for SetDifference<'a, K, C> {
    ghost use Rattle.bforest.specs.Sides.{in_first};
    ghost use Rattle.std.specs.Prelude.{List};

    ghost Value = { List K };

    ghost view = { λ d. in_first C.order d.merge };
}

impl<'a, K: Copy, C: Comparator<K>> Iterator for SetDifference<'a, K, C> {
    type Item = K;

    ghost can_next = { λ _. SetsFitInMemory K.row };

    ghost next_gives = { YieldsFirst (λ keys. keys) };

    ghost remaining = { item_count (λ keys. keys) };

    #[inline(always)]
    fn next(&mut self) -> Option<K> {
        self.merge.next_in_first()
    }
}

/// An iterator over the keys that one of two sets has alone, in order. It is fused.
/// [`Set::symmetric_difference`](crate::Set::symmetric_difference) makes it. A step compares at most once for each key of either set that
/// it passes.
#[derive(Drop)]
pub struct SetSymmetricDifference<'a, K: Copy, C: Comparator<K>> {
    pub(crate) merge: Merge<'a, K, C>,
}

impl<'a, K: Copy, C: Comparator<K>> Model for SetSymmetricDifference<'a, K, C> {
    ghost use Rattle.bforest.specs.Sides.{in_one};
    ghost use Rattle.std.specs.Prelude.{List};

    ghost Value = { List K };

    ghost view = { λ d. in_one C.order d.merge };
}

impl<'a, K: Copy, C: Comparator<K>> Iterator for SetSymmetricDifference<'a, K, C> {
    type Item = K;

    ghost can_next = { λ _. SetsFitInMemory K.row };

    ghost next_gives = { YieldsFirst (λ keys. keys) };

    ghost remaining = { item_count (λ keys. keys) };

    #[inline(always)]
    fn next(&mut self) -> Option<K> {
        self.merge.next_in_one()
    }
}
