//! Entries, in order, of which leaves are made one after another.
ghost use Rattle.bforest_core.specs.Sources.{Feeds, TakesEntries, MakesLeaf};
ghost use Rattle.bforest_core.specs.Table.{Table, free_count};
ghost use Rattle.std.specs.Prelude.{List, drop, length, ◌<◌, ◌^◌, ◌≤◌};

use crate::pool::NodePool;
use bforest_nodes::{Node, Source};

/// Entries that are asked for leaf after leaf, with the pool in hand: so they may come from other trees of the same pool, while a tree is
/// built of them.
pub trait LeafSource<K: Copy, V: Copy, const N: usize> {
    /// Whether the entries can be read from a table.
    ghost reads: { Self → Table K V → Type 0 };

    /// The entries that are left, as they are read from a table.
    ghost left: { Self → Table K V → List (K × V) };

    /// Makes the front of the free list a leaf of the first `count` entries that are left, and takes these off. Returns the first key, and
    /// the leaf. Takes no memory, and no other slot changes.
    fn next_leaf(&mut self, pool: &mut NodePool<K, V, N>, count: usize) -> (K, Node)
        requires some { 0 < count }
        requires few { count ≤ N }
        requires room { 0 < free_count pool.old }
        requires feeds { (base : Table K V) × Feeds N (reads self.old) (left self.old) base pool.old count }
        ensures gives { (base : Table K V) → Feeds N (reads self.old) (left self.old) base pool.old count
            → TakesEntries (left self.old base) (left self.new base) count (reads self.new base) result.0 }
        ensures leaf { (base : Table K V) → Feeds N (reads self.old) (left self.old) base pool.old count
            → MakesLeaf pool.old pool.new (left self.old base) count result.1 };
}

/// The entries of a list, of which so many have been taken off.
#[derive(Clone, Copy, Drop)]
pub struct InOrder<S> {
    /// All entries of the list.
    pub entries: S,
    /// How many of them have been taken off.
    pub done: usize,
}

impl<K: Copy, V: Copy, const N: usize, S: Source<K, V>> LeafSource<K, V, N> for InOrder<S> {
    ghost reads = { λ s table. (s.done ≤ length (S.list s.entries))
        × (length (S.list s.entries) < 2 ^ 64) };

    ghost left = { λ s table. drop s.done (S.list s.entries) };

    #[inline(always)]
    fn next_leaf(&mut self, pool: &mut NodePool<K, V, N>, count: usize) -> (K, Node) {
        let entries = self.entries.part(self.done, count);
        self.done += count;
        (entries.entry(0).0, pool.add_leaf(entries))
    }
}
