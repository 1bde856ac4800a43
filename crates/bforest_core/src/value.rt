//! The value of a key, and the last entry up to a key.
ghost use Rattle.std.specs.Prelude.{◌≡◌, ◌≤◌, ◌+◌, ◌-◌, ℕ, IsTrue, List, length, slice_get, Some};
ghost use Rattle.bforest_nodes.specs.Content.{IsLeafCapacity};
ghost use Rattle.bforest_nodes.specs.Entries.{IsIncreasing, value_for};
ghost use Rattle.bforest_core.specs.Descent.{HasBelow, IsFirst, IsLast, OnBelow, SearchThrough};
ghost use Rattle.bforest_core.specs.Leaves.{SearchEndsAt, entry_up_to};
ghost use Rattle.bforest_core.specs.Levels.{LevelNode, flat, heads};
ghost use Rattle.bforest_core.specs.Place.{leaf_content};
ghost use Rattle.bforest_core.specs.Spots.{NumberAt};
ghost use Rattle.bforest_core.specs.Trees.{IsUnion, is_root, tree_of};
ghost use Rattle.bforest_core.specs.Updates.{UpdatesUnder};

use crate::access::{child, follow, last_index, leaf_entry, look_up};
use crate::pool::NodePool;
use bforest_nodes::{Comparator, Node};

impl<K: Copy, V: Copy, const N: usize> NodePool<K, V, N> {
    /// The value of a key in the tree under `root`. Reads one node of each level, and keeps no path.
    pub fn value_of<C: Comparator<K>>(&self, key: K, root: Node, comp: &C) -> Option<V>
        requires union { IsUnion N self.now }
        requires root { IsTrue (is_root self.now.nodes root) }
        requires increasing { IsIncreasing (C.order comp.now) (flat (tree_of self.now.nodes root).leaves) }
        ensures value { result
            ≡ value_for (C.order comp.now) (flat (tree_of self.now.nodes root).leaves) key }
    {
        self.value_below(key, root, 0, comp)
    }

    // The value of a key, the search for which goes through `node`; `depth` levels are above it.
    fn value_below<C: Comparator<K>>(&self, key: K, node: Node, depth: usize, comp: &C) -> Option<V>
        requires capacity { IsLeafCapacity N }
        requires through { (leaves : List (LevelNode K V))
            × SearchThrough (C.order comp.now) N self.now.nodes leaves key node depth }
        ensures { (leaves : List (LevelNode K V))
            → SearchThrough (C.order comp.now) N self.now.nodes leaves key node depth → result
            ≡ value_for (C.order comp.now) (flat leaves) key }
    {
        if !self.node(node).is_inner() {
            return look_up(self, node, key, comp).1;
        }
        let (_, child) = follow(self, node, key, comp);
        self.value_below(key, child, depth + 1, comp)
    }

    /// Replaces the value of a key in the tree under `root` by what `change` returns of it, and returns that, or `None` if the key is
    /// absent. `change` is called before anything is written. Reads one node of each level, and keeps no path.
    pub fn update<C: Comparator<K>, F: FnOnce(V) -> V>(
        &mut self,
        key: K,
        root: Node,
        change: F,
        comp: &C,
    ) -> Option<V>
        requires union { IsUnion N self.old }
        requires root { IsTrue (is_root self.old.nodes root) }
        requires increasing { IsIncreasing (C.order comp.now) (flat (tree_of self.old.nodes root).leaves) }
        requires callable { (v : V) → value_for (C.order comp.now) (flat (tree_of self.old.nodes root).leaves)
            key ≡ Some v → F.pre change v }
        ensures { UpdatesUnder F.FnOnce N (C.order comp.now) self.old self.new root key change result }
    {
        let leaf = self.leaf_of(key, root, comp);
        let (index, value) = look_up(self, leaf, key, comp);
        let changed = change(value?);
        *self.value_mut(leaf, index) = changed;
        Some(changed)
    }

    /// The first entry in the tree under `root`. Reads one node of each level.
    pub fn first_entry(&self, root: Node) -> (K, V)
        requires union { IsUnion N self.now }
        requires root { IsTrue (is_root self.now.nodes root) }
        ensures entry { slice_get (flat (tree_of self.now.nodes root).leaves) 0 ≡ Some result }
    {
        let leaf = self.first_leaf(root, 0);
        self.node(leaf).entry(0)
    }

    /// The last entry in the tree under `root`. Reads one node of each level.
    pub fn last_entry(&self, root: Node) -> (K, V)
        requires union { IsUnion N self.now }
        requires root { IsTrue (is_root self.now.nodes root) }
        ensures entry { slice_get (flat (tree_of self.now.nodes root).leaves)
            (length (flat (tree_of self.now.nodes root).leaves) - 1) ≡ Some result }
    {
        let leaf = self.last_leaf(root, 0);
        let last = last_index(self, leaf);
        self.node(leaf).entry(last)
    }

    // The first leaf below a node; `depth` levels are above the node.
    fn first_leaf(&self, node: Node, depth: usize) -> Node
        requires capacity { IsLeafCapacity N }
        requires under { (level : ℕ) × HasBelow N self.now.nodes IsFirst node level × (depth + level ≤ 16) }
        ensures { (level : ℕ) → OnBelow N self.now.nodes IsFirst node level
            (λ leaves lower top. NumberAt (heads leaves) 0 result) }
    {
        if !self.node(node).is_inner() {
            return node;
        }
        let first = child(self, node, 0);
        self.first_leaf(first, depth + 1)
    }

    // The last leaf below a node; `depth` levels are above the node.
    fn last_leaf(&self, node: Node, depth: usize) -> Node
        requires capacity { IsLeafCapacity N }
        requires under { (level : ℕ) × HasBelow N self.now.nodes IsLast node level × (depth + level ≤ 16) }
        ensures { (level : ℕ) → OnBelow N self.now.nodes IsLast node level
            (λ leaves lower top. NumberAt (heads leaves) (length leaves - 1) result) }
    {
        if !self.node(node).is_inner() {
            return node;
        }
        let index = last_index(self, node);
        let last = child(self, node, index);
        self.last_leaf(last, depth + 1)
    }

    // The leaf in which a search for `key` in the tree under `root` ends.
    fn leaf_of<C: Comparator<K>>(&self, key: K, root: Node, comp: &C) -> Node
        requires union { IsUnion N self.now }
        requires root { IsTrue (is_root self.now.nodes root) }
        requires increasing { IsIncreasing (C.order comp.now) (flat (tree_of self.now.nodes root).leaves) }
        ensures leaf { (place : ℕ) × SearchEndsAt (C.order comp.now) self.now root key place result }
    {
        self.leaf_below(key, root, 0, comp)
    }

    // The leaf in which a search for `key` ends, which goes through `node`; `depth` levels are above it.
    fn leaf_below<C: Comparator<K>>(&self, key: K, node: Node, depth: usize, comp: &C) -> Node
        requires capacity { IsLeafCapacity N }
        requires through { (root : ℕ) × SearchThrough (C.order comp.now) N self.now.nodes
            (tree_of self.now.nodes root).leaves key node depth }
        ensures { (root : ℕ) → SearchThrough (C.order comp.now) N self.now.nodes
            (tree_of self.now.nodes root).leaves key node depth
            → (place : ℕ) × SearchEndsAt (C.order comp.now) self.now root key place result }
    {
        if !self.node(node).is_inner() {
            return node;
        }
        let (_, child) = follow(self, node, key, comp);
        self.leaf_below(key, child, depth + 1, comp)
    }

    /// The last entry in the tree under `root` whose key is not greater than `key`. Reads one node of each level, and keeps no path.
    pub fn entry_at_most<C: Comparator<K>>(&self, key: K, root: Node, comp: &C) -> Option<(K, V)>
        requires union { IsUnion N self.now }
        requires root { IsTrue (is_root self.now.nodes root) }
        requires increasing { IsIncreasing (C.order comp.now) (flat (tree_of self.now.nodes root).leaves) }
        ensures entry { result
            ≡ entry_up_to (C.order comp.now) (flat (tree_of self.now.nodes root).leaves) key }
    {
        let leaf = self.leaf_of(key, root, comp);
        self.entry_in_leaf(key, leaf, comp)
    }

    // The last entry of a leaf whose key is not greater than `key`.
    //
    // Where a search for `key` ends in the leaf, it is that of the tree: `key` is less than all keys of the leaf only if it is less than
    // all keys of the tree.
    fn entry_in_leaf<C: Comparator<K>>(&self, key: K, leaf: Node, comp: &C) -> Option<(K, V)>
        requires capacity { IsLeafCapacity N }
        requires leaf { (entries : List (K × V)) × (slice_get self.now.nodes leaf
            ≡ Some (leaf_content entries)) × IsIncreasing (C.order comp.now) entries }
        ensures { (entries : List (K × V)) → slice_get self.now.nodes leaf ≡ Some (leaf_content entries)
            → result ≡ entry_up_to (C.order comp.now) entries key }
    {
        let (index, value) = look_up(self, leaf, key, comp);
        if value.is_some() {
            return leaf_entry(self, leaf, index);
        }
        if index == 0 {
            return None;
        }
        leaf_entry(self, leaf, index - 1)
    }
}
