//! Removing the entry where a path is.
ghost use Rattle.std.specs.Prelude.{remove, true, false, IfSome, ◌≡◌, ◌≢◌, ℕ, ◌+◌, ◌-◌, ◌<◌, ◌≤◌, ◌↔◌, List, [], ◌∷◌, ◌++◌, length, get_or, slice_get, Some, None};
ghost use Rattle.bforest_nodes.specs.Content.{IsLeafCapacity};
ghost use Rattle.bforest_core.specs.Levels.{LevelNode, flat, node, Tree, most_levels};
ghost use Rattle.bforest_core.specs.Sizes.{shrink};
ghost use Rattle.bforest_core.specs.Table.{IsUsed, Table};
ghost use Rattle.bforest_core.specs.Place.{IsPathAt, leaf_content, root_of, count};
ghost use Rattle.bforest_core.specs.Removal.{UpTo, Trimmed, StandsIn, HasOthers, IsSingle, LeafLoss, Removed, Emptied, Unbalanced};
ghost use Rattle.bforest_core.specs.Change.{Changes, Ends, GivesInOrder, GivesNodes, Shrinks};
ghost use Rattle.bforest_core.specs.Trees.{IsUnion};

use crate::access::{child, copy_over, entries, last_key, leaf_key, remove_entry};
use crate::path::Path;
use crate::pool::NodePool;
use bforest_nodes::Node;

impl<K: Copy, V: Copy, const N: usize> Path<K, V, N> {
    ghost use Rattle.bforest_core.specs.Paths.{LeafLost, NextLeafIs, OnEntry, RemovesHere, RemovesNext, nodes_of};

    /// Removes the entry here, and returns the root of its tree, or `None` if it was the tree's last entry, whose node is freed with it.
    /// The path goes to the next entry, or to the end. Takes no memory.
    ///
    /// A leaf that falls under half full is filled from its right neighbour or merged into it, and so on upwards; a root with a single
    /// child is discarded. Freed nodes are in front of the free list: those of the path from the leaf up, and in front of them the old
    /// root.
    pub fn remove(&mut self, pool: &mut NodePool<K, V, N>) -> Option<Node>
        requires union { IsUnion N pool.old }
        requires stands { OnEntry pool.old self.old }

        ensures { RemovesHere pool.old pool.new self.old self.new result }
    {
        let root = self.root();
        if entries(pool, self.node[0]) == 1 {
            self.remove_leaf(root, pool)
        } else {
            Some(self.remove_entry(root, pool))
        }
    }

    /// Restores the tree under `root` after the path's leaf lost the entry at the path's index, and nothing else changed. Returns the root
    /// that the tree has then, or `None` if it is empty. For a caller that does not use the path afterwards: nothing is stated of where it
    /// goes.
    ///
    /// The rows above get the leaf's first key. A leaf that falls under half full is filled from its right neighbour or merged into it, as
    /// `remove` does, and a leaf with no entry is freed.
    pub fn heal(&mut self, root: Node, pool: &mut NodePool<K, V, N>) -> Option<Node>
        requires taken { (old : Table K V) × (place : ℕ) × LeafLost old pool.old root place self.old }
        ensures healed { (old : Table K V) (place : ℕ) → LeafLost old pool.old root place self.old
            → Shrinks N old pool.new (nodes_of self.old) root place result }
    {
        let left = entries(pool, self.node[0]);
        if left == 0 {
            return self.remove_leaf(root, pool);
        }
        self.renew_first(pool);
        if left > N / 2 {
            return Some(root);
        }
        Some(self.rebalance_leaf(root, pool))
    }

    /// The leaf behind the path's and the key of its last entry, or `None` where the path's leaf is the last.
    pub fn next_leaf(&self, pool: &NodePool<K, V, N>) -> Option<(Node, K)>
        requires union { IsUnion N pool.now }
        requires stands { OnEntry pool.now self.now }
        ensures next { (at : OnEntry pool.now self.now) → NextLeafIs at result }
    {
        match self.right_sibling(1, pool) {
            None => None,
            Some(next) => Some((next.1, last_key(pool, next.1).1)),
        }
    }

    /// Removes all entries of the leaf `next`, which is behind the path's, and returns the root of the tree. The path stays on its entry.
    /// Takes no memory.
    ///
    /// The other leaves stay as they are. A node above that falls under half full is filled from its right neighbour or merged into it, and
    /// so on upwards; a root with a single child is discarded. Freed nodes are in front of the free list: those that were the path's, from
    /// the leaf up, and in front of them the old root.
    pub fn remove_next_leaf(&mut self, next: Node, pool: &mut NodePool<K, V, N>) -> Node
        requires union { IsUnion N pool.old }
        requires next { (at : OnEntry pool.old self.old) × (gone : List (K × V))
            × (rest : List (LevelNode K V)) × (at.on.stands.leaf.after ≡ node next gone ∷ rest) }
        ensures { (at : OnEntry pool.old self.old) (gone : List (K × V)) (rest : List (LevelNode K V))
            → at.on.stands.leaf.after ≡ node next gone ∷ rest
            → RemovesNext pool.old pool.new self.old self.new at rest result }
    {
        let root = self.root();
        let here = self.node[0];
        copy_over(pool, here, next);
        pool.free_node(here);
        self.node[0] = next;
        self.merge_above(1, pool);
        self.collapse_root(root, pool)
    }

    // Balances the path's leaf, which lost an entry, with its right neighbour, and so on upwards. Returns the tree's root.
    #[inline(always)]
    fn rebalance_leaf(&mut self, root: Node, pool: &mut NodePool<K, V, N>) -> Node
        requires capacity { IsLeafCapacity N }
        requires lost { Unbalanced N pool.old self.old.node self.old.entry self.old.size root }
        ensures { (u : Unbalanced N pool.old self.old.node self.old.entry self.old.size root)
            → Removed N u.old pool.new self.old.node (λ now. u.place < length (flat now.leaves)
            → IsPathAt self.new.node self.new.entry self.new.size now u.place) u.tree u.place result }
    {
        if self.rebalance(0, N - N / 2, pool) {
            self.merge_above(1, pool);
            self.collapse_root(root, pool)
        } else {
            root
        }
    }

    // Frees the path's leaf, which has one entry, or had one before it was removed, and goes to the end: only the rightmost leaf can have
    // one entry. Returns the tree's root, or `None` if the tree is empty.
    fn remove_leaf(&mut self, root: Node, pool: &mut NodePool<K, V, N>) -> Option<Node>
        requires capacity { IsLeafCapacity N }
        requires used { IsUsed pool.old (get_or self.old.node 0 0) }
        requires single { (old : Table K V) × (tree : Tree K V) × (place : ℕ)
            × StandsIn N old self.old.node self.old.entry self.old.size tree place × (root_of tree ≡ root)
            × IsSingle old pool.old (get_or self.old.node 0 0) }
        ensures removed { (old : Table K V) (tree : Tree K V) (place : ℕ)
            → StandsIn N old self.old.node self.old.entry self.old.size tree place
            → IsSingle old pool.old (get_or self.old.node 0 0) → IfSome result (λ root'.
            Removed N old pool.new self.old.node
            (λ now. IsPathAt self.new.node self.new.entry self.new.size now place) tree place root') }
        ensures emptied { result ≡ None → (old : Table K V) (tree : Tree K V) (place : ℕ)
            → StandsIn N old self.old.node self.old.entry self.old.size tree place
            → IsSingle old pool.old (get_or self.old.node 0 0) → Emptied N old pool.new tree place }
        ensures end { self.new.size ≡ 0 }
    {
        pool.free_node(self.node[0]);
        if self.size == 1 {
            self.size = 0;
            return None;
        }
        self.remove_emptied(1, pool);
        let top = self.collapse_root(root, pool);
        self.size = 0;
        Some(top)
    }

    // Removes the entry from the path's leaf, which has others. Returns the tree's root.
    fn remove_entry(&mut self, root: Node, pool: &mut NodePool<K, V, N>) -> Node
        requires capacity { IsLeafCapacity N }
        requires stands { (tree : Tree K V) × (place : ℕ) × StandsIn N pool.old self.old.node self.old.entry
            self.old.size tree place × (root_of tree ≡ root) }
        requires others { (x y : K × V) × (es : List (K × V))
            × (slice_get pool.old.nodes (get_or self.old.node 0 0) ≡ Some (leaf_content (x ∷ y ∷ es))) }
        ensures { (tree : Tree K V) (place : ℕ) → StandsIn N pool.old self.old.node self.old.entry
            self.old.size tree place → Removed N pool.old pool.new self.old.node
            (λ now. IsPathAt self.new.node self.new.entry self.new.size now place) tree place result }
    {
        self.take_entry(pool);
        if self.is_past_end(pool) {
            self.size = 0;
            return root;
        }
        self.rebalance_leaf(root, pool)
    }

    // Removes the entry from the path's leaf, which has others. If it was the first, the rows above get the key of the next.
    fn take_entry(&self, pool: &mut NodePool<K, V, N>)
        requires stands { (tree : Tree K V) × (place : ℕ) × StandsIn N pool.old self.now.node self.now.entry
            self.now.size tree place }
        requires others { (x y : K × V) × (es : List (K × V))
            × (slice_get pool.old.nodes (get_or self.now.node 0 0) ≡ Some (leaf_content (x ∷ y ∷ es))) }
        ensures { (tree : Tree K V) (place : ℕ) → StandsIn N pool.old self.now.node self.now.entry
            self.now.size tree place → LeafLoss N pool.old pool.new self.now.node self.now.entry self.now.size
            tree place }
    {
        remove_entry(pool, self.node[0], self.entry[0] as usize);
        self.renew_first(pool);
    }

    // Gives the rows above the first key of the path's leaf, which lost the entry at the path's index and has others, if it was the first.
    fn renew_first(&self, pool: &mut NodePool<K, V, N>)
        requires taken { (old : Table K V) × (tree : Tree K V) × (place : ℕ)
            × StandsIn N old self.now.node self.now.entry self.now.size tree place
            × HasOthers old pool.old self.now.node self.now.entry }
        ensures { (old : Table K V) (tree : Tree K V) (place : ℕ)
            → StandsIn N old self.now.node self.now.entry self.now.size tree place
            → HasOthers old pool.old self.now.node self.now.entry
            → LeafLoss N old pool.new self.now.node self.now.entry self.now.size tree place }
    {
        if self.entry[0] > 0 {
            return;
        }
        let key = leaf_key(pool, self.node[0]);
        self.update_separator(1, key, pool);
    }

    // Whether the path is past its leaf's last entry, and no leaf follows.
    fn is_past_end(&self, pool: &NodePool<K, V, N>) -> bool
        requires height { self.now.size ≤ most_levels }
        requires lost { (old : Table K V) × (tree : Tree K V) × (place : ℕ)
            × LeafLoss N old pool.now self.now.node self.now.entry self.now.size tree place }
        ensures past { result ≡ true → (old : Table K V) (tree : Tree K V) (place : ℕ)
            → (l : LeafLoss N old pool.now self.now.node self.now.entry self.now.size tree place)
            → (l.after ≡ []) × (get_or self.now.entry 0 0 ≡ length l.entries) }
        ensures within { result ≡ false → (old : Table K V) (tree : Tree K V) (place : ℕ)
            → (l : LeafLoss N old pool.now self.now.node self.now.entry self.now.size tree place)
            → get_or self.now.entry 0 0 < length (l.entries ++ flat l.after) }
    {
        if (self.entry[0] as usize) < entries(pool, self.node[0]) {
            return false;
        }
        self.right_sibling(1, pool).is_none()
    }

    // Discards and frees roots with a single child, from `root` downwards. Returns the root that stays; the path loses one level for each.
    pub(super) fn collapse_root(&mut self, root: Node, pool: &mut NodePool<K, V, N>) -> Node
        requires height { self.old.size ≤ most_levels }
        requires rooted { (rows : List (List (LevelNode K ℕ))) × (list : List (K × ℕ))
            × UpTo pool.old self.old.size rows list root }
        ensures trimmed { (rows : List (List (LevelNode K ℕ))) (list : List (K × ℕ))
            → UpTo pool.old self.old.size rows list root → (freed : List ℕ)
            × Trimmed pool.old pool.new self.old.size self.new.size rows list root result freed }
        ensures nodes { self.new.node ≡ self.old.node }
        ensures entries { self.new.entry ≡ self.old.entry }
    {
        if self.size == 1 {
            return root;
        }
        let count = entries(pool, root);
        if count > 1 {
            return root;
        }
        let only = child(pool, root, 0);
        pool.free_node(root);
        self.size -= 1;
        self.collapse_root(only, pool)
    }
}
