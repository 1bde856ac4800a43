//! The entries of trees, in order, while a tree is made of them in the same table.
ghost use Rattle.bforest_nodes.specs.Content.{IsLeafCapacity};
ghost use Rattle.bforest_nodes.specs.Entries.{IsIncreasing};
ghost use Rattle.bforest_trees.specs.Layout.{IsMark, IsReader, behind, left_of};
ghost use Rattle.bforest_trees.specs.Merge.{Gathers, GoesOn};
ghost use Rattle.bforest_trees.specs.Union.{united};
ghost use Rattle.std.specs.Prelude.{length, ◌<◌, ◌≡◌, ◌≤◌};

use crate::merge::take_least;
use crate::reader::{Mark, Reader};
use bforest_core::{Comparator, LeafSource, Node, NodeData, NodePool};

/// The entries of a tree.
#[derive(Drop)]
pub(crate) struct OneTree {
    mark: Mark,
}

impl OneTree {
    /// All entries of a handle's tree.
    pub(crate) fn new(mark: Mark) -> OneTree
        ensures { result.mark ≡ mark }
    {
        OneTree { mark }
    }
}

impl<K: Copy, V: Copy, const N: usize> LeafSource<K, V, N> for OneTree {
    ghost reads = { λ s table. IsMark table s.mark };

    ghost left = { λ s table. behind table s.mark };

    fn next_leaf(&mut self, pool: &mut NodePool<K, V, N>, count: usize) -> (K, Node) {
        let mut reader = Reader::resume(self.mark, pool);
        let leaf = next_tree_leaf(&mut reader, pool, count);
        self.mark = reader.mark(pool);
        (leaf.leaf_crit_key(), pool.add_node(leaf))
    }
}

/// The union of the entries of two trees. Where a key is in both, the first tree's entry is the union's.
#[derive(Drop)]
pub(crate) struct UnionOf<'c, C> {
    first: Mark,
    second: Mark,
    comp: &'c C,
}

impl<'c, C> UnionOf<'c, C> {
    /// The union of all entries of two trees.
    pub(crate) fn new(first: Mark, second: Mark, comp: &'c C) -> UnionOf<'c, C>
        ensures first { result.first ≡ first }
        ensures second { result.second ≡ second }
        ensures comp { result.comp.now ≡ comp.now }
    {
        UnionOf {
            first,
            second,
            comp,
        }
    }
}

impl<'c, K: Copy, V: Copy, const N: usize, C: Comparator<K>> LeafSource<K, V, N>
    for UnionOf<'c, C> {
    ghost reads = { λ s table. IsMark table s.first × IsMark table s.second
        × IsIncreasing (C.order s.comp.now) (behind table s.first)
        × IsIncreasing (C.order s.comp.now) (behind table s.second) };

    ghost left = { λ s table. united (C.order s.comp.now) (behind table s.first) (behind table s.second) };

    fn next_leaf(&mut self, pool: &mut NodePool<K, V, N>, count: usize) -> (K, Node) {
        let mut first = Reader::resume(self.first, pool);
        let mut second = Reader::resume(self.second, pool);
        let leaf = next_union_leaf(&mut first, &mut second, pool, count, self.comp);
        self.first = first.mark(pool);
        self.second = second.mark(pool);
        (leaf.leaf_crit_key(), pool.add_node(leaf))
    }
}

// Takes the next `count` entries of a reader off, and returns a leaf of them.
fn next_tree_leaf<'a, K: Copy, V: Copy, const N: usize>(
    reader: &mut Reader<'a, K, V, N>,
    pool: &'a NodePool<K, V, N>,
    count: usize,
) -> NodeData<K, V, N>
    requires capacity { IsLeafCapacity N }
    requires reader { IsReader pool.now reader.old }
    requires some { 0 < count }
    requires few { count ≤ N }
    requires enough { count ≤ length (left_of pool.now reader.old) }
    ensures gathers { Gathers (left_of pool.now reader.old) (left_of pool.now reader.new) result
        count }
    ensures reader { IsReader pool.now reader.new }
    ensures root { reader.new.root ≡ reader.old.root }
{
    let (key, value) = reader.take_next(pool).unwrap();
    let mut leaf = NodeData::new_leaf(key, value);
    let mut index = 1;
    while index < count {
        let (key, value) = reader.take_next(pool).unwrap();
        leaf.push_entry(key, value);
        index += 1;
    }
    leaf
}

// Takes the first `count` entries of the union of two readers off, and returns a leaf of them.
fn next_union_leaf<'a, K: Copy, V: Copy, const N: usize, C: Comparator<K>>(
    first: &mut Reader<'a, K, V, N>,
    second: &mut Reader<'a, K, V, N>,
    pool: &'a NodePool<K, V, N>,
    count: usize,
    comp: &C,
) -> NodeData<K, V, N>
    requires capacity { IsLeafCapacity N }
    requires first { IsReader pool.now first.old }
    requires second { IsReader pool.now second.old }
    requires increasing { IsIncreasing (C.order comp.now) (left_of pool.now first.old) }
    requires other_increasing { IsIncreasing (C.order comp.now) (left_of pool.now second.old) }
    requires some { 0 < count }
    requires few { count ≤ N }
    requires enough { count ≤ length (united (C.order comp.now) (left_of pool.now first.old)
        (left_of pool.now second.old)) }
    ensures gathers { Gathers (united (C.order comp.now) (left_of pool.now first.old)
        (left_of pool.now second.old)) (united (C.order comp.now) (left_of pool.now first.new)
        (left_of pool.now second.new)) result count }
    ensures first { GoesOn pool.now (C.order comp.now) first.old first.new }
    ensures second { GoesOn pool.now (C.order comp.now) second.old second.new }
{
    let (key, value) = take_least(first, second, pool, comp).unwrap();
    let mut leaf = NodeData::new_leaf(key, value);
    let mut index = 1;
    while index < count {
        let (key, value) = take_least(first, second, pool, comp).unwrap();
        leaf.push_entry(key, value);
        index += 1;
    }
    leaf
}
