//! Reading the entries of a tree in order.
ghost use Rattle.bforest_core.specs.Paths.{list_under};
ghost use Rattle.bforest_core.specs.Trees.{IsUnion, is_root};
ghost use Rattle.bforest_trees.specs.Forest.{IsLive, list_of};
ghost use Rattle.bforest_trees.specs.Layout.{Entered, IsMark, IsReader, Opens, behind, left_of};
ghost use Rattle.std.specs.Iterator.{YieldsFirst};
ghost use Rattle.std.specs.Prelude.{IsTrue, List, Some, [], false, length, slice_get, true, ◌+◌, ◌<◌, ◌≡◌, ◌≤◌};

use crate::trees::Trees;
use bforest_core::{Node, NodePool, PackedNode, Spot};

/// The entries of a tree that are still to be read: those of one leaf, held as two slices, and those behind that leaf. A step inside a leaf
/// reads the slices alone; the spot is for the steps from leaf to leaf.
#[derive(Drop)]
pub struct Reader<'a, K: Copy, V: Copy, const N: usize> {
    keys: &'a [K],
    vals: &'a [V],
    // The index of the leaf's next entry.
    index: usize,
    root: Node,
    // The place of the leaf.
    spot: Spot,
}

/// Where a reader stopped, with nothing borrowed.
#[derive(Clone, Copy, Drop)]
pub(crate) struct Mark {
    root: Node,
    spot: Spot,
    // The index of the leaf's next entry.
    index: usize,
    // Whether there is one.
    some: bool,
}

impl<'a, K: Copy, V: Copy, const N: usize> Reader<'a, K, V, N> {
    /// A reader of all entries of a handle's tree, if it has one.
    #[inline(always)]
    pub fn new(handle: PackedNode, trees: &'a Trees<K, V, N>) -> Reader<'a, K, V, N>
        requires live { IsLive trees.now handle }
        ensures left { left_of trees.now result ≡ list_of trees.now handle }
        ensures reader { IsReader trees.now result }
    {
        match handle.expand() {
            Some(root) => Reader::of(root, &trees.pool),
            None => Reader {
                keys: &[],
                vals: &[],
                index: 0,
                root: Node::new(0),
                spot: Spot::root(Node::new(0)),
            },
        }
    }

    /// A reader that goes on where one stopped.
    #[inline(always)]
    pub(crate) fn resume(mark: Mark, pool: &'a NodePool<K, V, N>) -> Reader<'a, K, V, N>
        requires union { IsUnion N pool.now }
        requires mark { IsMark pool.now mark }
        ensures left { left_of pool.now result ≡ behind pool.now mark }
        ensures reader { IsReader pool.now result }
        ensures root { result.root ≡ mark.root }
    {
        if !mark.some {
            return Reader {
                keys: &[],
                vals: &[],
                index: 0,
                root: mark.root,
                spot: Spot::root(mark.root),
            };
        }
        let leaf = mark.spot.leaf(mark.root, pool);
        let (keys, vals) = pool.node(leaf).unwrap_leaf();
        Reader {
            keys,
            vals,
            index: mark.index,
            root: mark.root,
            spot: mark.spot,
        }
    }

    /// Where the reader stops.
    #[inline(always)]
    pub(crate) fn mark(&mut self, pool: &'a NodePool<K, V, N>) -> Mark
        requires reader { IsReader pool.now self.old }
        ensures mark { IsMark pool.now result }
        ensures left { behind pool.now result ≡ left_of pool.now self.old }
        ensures root { result.root ≡ self.old.root }
    {
        let some = self.goes_on(pool);
        Mark {
            root: self.root,
            spot: self.spot,
            index: self.index,
            some,
        }
    }

    // A reader of all entries of the tree under a root.
    #[inline(always)]
    fn of(root: Node, pool: &'a NodePool<K, V, N>) -> Reader<'a, K, V, N>
        requires union { IsUnion N pool.now }
        requires root { IsTrue (is_root pool.now.nodes root) }
        ensures left { left_of pool.now result ≡ list_under pool.now root }
        ensures reader { IsReader pool.now result }
    {
        let (spot, leaf) = Spot::first(root, pool);
        Reader::at(root, spot, leaf, pool)
    }

    // A reader with a leaf of which no entry is read.
    #[inline(always)]
    fn at(root: Node, spot: Spot, leaf: Node, pool: &'a NodePool<K, V, N>) -> Reader<'a, K, V, N>
        requires opens { (left : List (K × V)) × Opens N pool.now left root spot leaf }
        ensures entered { (left : List (K × V)) → Opens N pool.now left root spot leaf
            → Entered pool.now left result }
        ensures root { result.root ≡ root }
    {
        let (keys, vals) = pool.node(leaf).unwrap_leaf();
        Reader {
            keys,
            vals,
            index: 0,
            root,
            spot,
        }
    }

    /// Removes the first of the entries that are left, and returns it.
    #[inline(always)]
    pub fn next(&mut self, trees: &'a Trees<K, V, N>) -> Option<(K, V)>
        requires reader { IsReader trees.now self.old }
        ensures steps { YieldsFirst (left_of trees.now) self.old result self.new }
        ensures reader { IsReader trees.now self.new }
    {
        self.take_next(&trees.pool)
    }

    /// Removes the first of the entries that are left, as they are read from the trees' pool, and returns it.
    #[inline(always)]
    pub(crate) fn take_next(&mut self, pool: &'a NodePool<K, V, N>) -> Option<(K, V)>
        requires reader { IsReader pool.now self.old }
        ensures steps { YieldsFirst (left_of pool.now) self.old result self.new }
        ensures reader { IsReader pool.now self.new }
        ensures root { self.new.root ≡ self.old.root }
    {
        if self.goes_on(pool) {
            Some(self.take_first())
        } else {
            None
        }
    }

    /// Whether an entry is left. Where those of the leaf are read, goes to the next leaf.
    #[inline(always)]
    pub(crate) fn has_next(&mut self, trees: &'a Trees<K, V, N>) -> bool
        requires reader { IsReader trees.now self.old }
        ensures entered { result ≡ true → Entered trees.now (left_of trees.now self.old) self.new }
        ensures none { result ≡ false → left_of trees.now self.old ≡ [] }
        ensures same { result ≡ false → self.new ≡ self.old }
    {
        self.goes_on(&trees.pool)
    }

    /// Whether an entry is left, as it is read from the trees' pool. Where those of the leaf are read, goes to the next leaf.
    #[inline(always)]
    pub(crate) fn goes_on(&mut self, pool: &'a NodePool<K, V, N>) -> bool
        requires reader { IsReader pool.now self.old }
        ensures entered { result ≡ true → Entered pool.now (left_of pool.now self.old) self.new }
        ensures none { result ≡ false → left_of pool.now self.old ≡ [] }
        ensures same { result ≡ false → self.new ≡ self.old }
        ensures root { self.new.root ≡ self.old.root }
    {
        if self.index < self.keys.len() {
            return true;
        }
        self.enter_next(pool)
    }

    /// The key of the first entry, which is in the leaf that the reader holds.
    #[inline(always)]
    pub(crate) fn key(&self) -> K
        requires within { self.now.index < length self.now.keys.now }
        ensures key { slice_get self.now.keys.now self.now.index ≡ Some result }
    {
        self.keys[self.index]
    }

    // Goes to the next leaf. Returns whether there is one.
    #[inline(always)]
    fn enter_next(&mut self, pool: &'a NodePool<K, V, N>) -> bool
        requires reader { IsReader pool.now self.old }
        requires read { length self.old.keys.now ≤ self.old.index }
        ensures entered { result ≡ true → Entered pool.now (left_of pool.now self.old) self.new }
        ensures none { result ≡ false → left_of pool.now self.old ≡ [] }
        ensures same { result ≡ false → self.new ≡ self.old }
        ensures root { self.new.root ≡ self.old.root }
    {
        match self.spot.next(self.root, pool) {
            Some((spot, leaf)) => {
                *self = Reader::at(self.root, spot, leaf, pool);
                true
            }
            None => false,
        }
    }

    /// Removes the first entry, which is in the leaf that the reader holds, and returns it.
    #[inline(always)]
    pub(crate) fn take_first(&mut self) -> (K, V)
        requires within { self.old.index < length self.old.keys.now }
        requires same { length self.old.keys.now ≡ length self.old.vals.now }
        ensures key { slice_get self.old.keys.now self.old.index ≡ Some result.0 }
        ensures value { slice_get self.old.vals.now self.old.index ≡ Some result.1 }
        ensures rest { self.new ≡ record self.old { index = self.old.index + 1 } }
    {
        let vals = &self.vals[..self.keys.len()];
        let entry = (self.keys[self.index], vals[self.index]);
        self.pass();
        entry
    }

    /// Removes the first entry, which is in the leaf that the reader holds, and does not read it.
    #[inline(always)]
    pub(crate) fn pass(&mut self)
        requires within { self.old.index < length self.old.keys.now }
        ensures rest { self.new ≡ record self.old { index = self.old.index + 1 } }
    {
        self.index += 1;
    }
}
