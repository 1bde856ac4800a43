//! Reading two trees side by side, in the order of their keys.
ghost use Rattle.bforest_nodes.specs.Entries.{IsIncreasing};
ghost use Rattle.bforest_trees.specs.Layout.{IsReader, left_of};
ghost use Rattle.bforest_trees.specs.Merge.{CanTake, Compares, Finds, HoldsNext, TakesLeast, TakesNew};
ghost use Rattle.std.specs.Prelude.{Some, ◌≡◌};

use crate::reader::Reader;
use crate::trees::Trees;
use bforest_core::{Comparator, NodePool};
use std::cmp::Ordering;

/// How the next keys of two readers compare, of which the first has one. Where the second has none left, the first is the lesser.
#[inline(always)]
pub(crate) fn order_of<'a, K: Copy, V: Copy, const N: usize, C: Comparator<K>>(
    first: &Reader<'a, K, V, N>,
    second: &mut Reader<'a, K, V, N>,
    trees: &'a Trees<K, V, N>,
    comp: &C,
) -> Ordering
    requires first { IsReader trees.now first.now }
    requires second { IsReader trees.now second.old }
    requires holds { HoldsNext first.now }
    ensures { Compares trees.now (C.order comp.now) first.now second.old (Some result) first.now second.new }
{
    if second.has_next(trees) {
        comp.cmp(first.key(), second.key())
    } else {
        Ordering::Less
    }
}

/// How the next keys of two readers compare, or `None` where neither has one left. Where one has none, that of the other is the lesser.
#[inline(always)]
pub(crate) fn next_order<'a, K: Copy, V: Copy, const N: usize, C: Comparator<K>>(
    first: &mut Reader<'a, K, V, N>,
    second: &mut Reader<'a, K, V, N>,
    trees: &'a Trees<K, V, N>,
    comp: &C,
) -> Option<Ordering>
    requires first { IsReader trees.now first.old }
    requires second { IsReader trees.now second.old }
    ensures { Compares trees.now (C.order comp.now) first.old second.old result first.new second.new }
{
    if first.has_next(trees) {
        return Some(order_of(first, second, trees, comp));
    }
    if second.has_next(trees) {
        Some(Ordering::Greater)
    } else {
        None
    }
}

/// Takes the lesser of the next entries of two readers off, and returns it, or `None` where neither has one left. Where they compare equal,
/// both are taken off, and that of the first is returned.
#[inline(always)]
pub(crate) fn take_least<'a, K: Copy, V: Copy, const N: usize, C: Comparator<K>>(
    first: &mut Reader<'a, K, V, N>,
    second: &mut Reader<'a, K, V, N>,
    pool: &'a NodePool<K, V, N>,
    comp: &C,
) -> Option<(K, V)>
    requires first { IsReader pool.now first.old }
    requires second { IsReader pool.now second.old }
    ensures least { TakesLeast pool.now (C.order comp.now) first.old second.old result first.new second.new }
    ensures root { first.new.root ≡ first.old.root }
    ensures second_root { second.new.root ≡ second.old.root }
{
    if !first.goes_on(pool) {
        return second.take_next(pool);
    }
    if !second.goes_on(pool) {
        return Some(first.take_first());
    }
    let order = comp.cmp(first.key(), second.key());
    if order.is_gt() {
        return Some(second.take_first());
    }
    if order.is_eq() {
        second.pass();
    }
    Some(first.take_first())
}

/// Takes the lesser of the next entries of two readers off, or both where they compare equal. Returns that of the other where it is the
/// lesser, and else reads none.
#[inline(always)]
pub(crate) fn take_new<'a, K: Copy, V: Copy, const N: usize>(
    order: Ordering,
    own: &mut Reader<'a, K, V, N>,
    other: &mut Reader<'a, K, V, N>,
) -> Option<(K, V)>
    requires holds { CanTake (Some order) own.old other.old }
    ensures { TakesNew order own.old other.old result own.new other.new }
{
    match order {
        Ordering::Less => {
            own.pass();
            None
        }
        Ordering::Greater => Some(other.take_first()),
        Ordering::Equal => {
            own.pass();
            other.pass();
            None
        }
    }
}

/// Whether a key is among those that are left to a reader. Removes those that are less.
#[inline(always)]
pub(crate) fn finds<'a, K: Copy, V: Copy, const N: usize, C: Comparator<K>>(
    key: K,
    reader: &mut Reader<'a, K, V, N>,
    trees: &'a Trees<K, V, N>,
    comp: &C,
) -> bool
    requires reader { IsReader trees.now reader.old }
    requires increasing { IsIncreasing (C.order comp.now) (left_of trees.now reader.old) }
    ensures { Finds trees.now (C.order comp.now) key reader.old result reader.new }
{
    while reader.has_next(trees) {
        let order = comp.cmp(key, reader.key());
        if order.is_eq() {
            return true;
        }
        if order.is_lt() {
            return false;
        }
        reader.pass();
    }
    false
}
