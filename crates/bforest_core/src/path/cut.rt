//! Removing the entry where a path is and all behind it, or all in front of it.
ghost use Rattle.std.specs.Prelude.{◌≡◌, ◌≢◌, ℕ, ◌<◌, ◌≤◌, ◌↔◌, List, slice_get, Some};
ghost use Rattle.bforest_nodes.specs.Content.{Content, IsFree, IsLeafCapacity, entry_count, first_part, last_part};
ghost use Rattle.bforest_core.specs.Cut.{LeavesFront, OnBranch};
ghost use Rattle.bforest_core.specs.Detach.{LeavesBehind};
ghost use Rattle.bforest_core.specs.Levels.{LevelNode, top_level};
ghost use Rattle.bforest_core.specs.Table.{IsUsed, with_freed, with_node};
ghost use Rattle.bforest_core.specs.Trees.{IsUnion};

use crate::access::{child, entries};
use crate::path::Path;
use crate::path::detach::fill_edge;
use crate::pool::NodePool;
use bforest_nodes::Node;

impl<K: Copy, V: Copy, const N: usize> Path<K, V, N> {
    ghost use Rattle.bforest_core.specs.Paths.{CutsFrontHere, CutsHere, OnEntry};

    /// Removes the entry here and all behind it, and returns the root of what is left, or `None` if this was the first entry. The path goes
    /// to the end. Takes no memory.
    ///
    /// Whole subtrees are freed. On each level the nodes in front of the path stay as they are, and the node on the path keeps what is in
    /// front of the path's index. A root with a single child is discarded.
    pub fn cut(&mut self, pool: &mut NodePool<K, V, N>) -> Option<Node>
        requires union { IsUnion N pool.old }
        requires stands { OnEntry pool.old self.old }
        ensures { CutsHere pool.old pool.new self.old self.new result }
    {
        let root = self.root();
        if self.cut_below(root, self.size - 1, pool) == 0 {
            self.size = 0;
            return None;
        }
        let top = self.collapse_root(root, pool);
        self.size = 0;
        Some(top)
    }

    /// Removes all entries in front of the one here, which is not the first, and returns the root of what is left. The path goes to the
    /// end. Takes no memory.
    ///
    /// Whole subtrees are freed. On each level the nodes behind the path stay as they are, and the node on the path keeps what is there and
    /// behind. Then the first node of each level is filled from its right neighbour, or merged into it, where it is at most half full. A
    /// root with a single child is discarded.
    pub fn cut_front(&mut self, pool: &mut NodePool<K, V, N>) -> Node
        requires union { IsUnion N pool.old }
        requires stands { (at : OnEntry pool.old self.old) × (0 < at.place) }
        ensures { CutsFrontHere pool.old pool.new self.old self.new result }
    {
        let levels = self.size;
        let root = self.root();
        self.cut_in_front(root, levels - 1, pool);
        fill_edge(pool, root, levels - 1);
        let left = self.collapse_root(root, pool);
        self.size = 0;
        left
    }

    // Frees what is in front of the path below its node on a level. The node keeps what is at the path and behind it.
    fn cut_in_front(&self, node: Node, level: usize, pool: &mut NodePool<K, V, N>)
        requires capacity { IsLeafCapacity N }
        requires low { level ≤ top_level }
        requires branch { (leaves : List (LevelNode K V)) × (lower : List (List (LevelNode K ℕ)))
            × (place : ℕ)
            × OnBranch N pool.old self.now.node self.now.entry level node leaves lower place }
        ensures { (leaves : List (LevelNode K V)) (lower : List (List (LevelNode K ℕ))) (place : ℕ)
            → OnBranch N pool.old self.now.node self.now.entry level node leaves lower place
            → LeavesBehind pool.old pool.new leaves lower place node }
    {
        let index = self.entry[level] as usize;
        if level == 0 {
            keep_back(pool, node, index);
            return;
        }
        let below = child(pool, node, index);
        pool.free_children(node, 0, index);
        self.cut_in_front(below, level - 1, pool);
        keep_back(pool, node, index);
    }

    // Cuts what is below the path's node on a level, and the node too: what is in front of the path stays. Returns how many nodes of this
    // level are left: the node, or none.
    fn cut_below(&self, node: Node, level: usize, pool: &mut NodePool<K, V, N>) -> usize
        requires capacity { IsLeafCapacity N }
        requires low { level ≤ top_level }
        requires branch { (leaves : List (LevelNode K V)) × (lower : List (List (LevelNode K ℕ)))
            × (place : ℕ)
            × OnBranch N pool.old self.now.node self.now.entry level node leaves lower place }
        ensures left { (leaves : List (LevelNode K V)) (lower : List (List (LevelNode K ℕ))) (place : ℕ)
            → OnBranch N pool.old self.now.node self.now.entry level node leaves lower place
            → LeavesFront pool.old pool.new leaves lower place }
        ensures none { (leaves : List (LevelNode K V)) (lower : List (List (LevelNode K ℕ))) (place : ℕ)
            → OnBranch N pool.old self.now.node self.now.entry level node leaves lower place
            → (result ≡ 0) ↔ (place ≡ 0) }
        ensures one { result ≤ 1 }
    {
        let index = self.entry[level] as usize;
        if level == 0 {
            return keep_front(pool, node, index);
        }
        let below = child(pool, node, index);
        pool.free_children(node, index + 1, entries(pool, node));
        let kept = self.cut_below(below, level - 1, pool);
        keep_front(pool, node, index + kept)
    }
}

// Keeps the first `count` children or entries of a node, or frees the node where that is none. Returns how many nodes are left: this one,
// or none.
fn keep_front<K: Copy, V: Copy, const N: usize>(
    pool: &mut NodePool<K, V, N>,
    node: Node,
    count: usize,
) -> usize
    requires used { IsUsed pool.old node }
    requires within { (content : Content K V) × (slice_get pool.old.nodes node ≡ Some content)
        × (¬ IsFree content) × (count ≤ entry_count content) }
    ensures none { count ≡ 0 → (result ≡ 0) × (pool.new ≡ with_freed pool.old node) }
    ensures some { count ≢ 0 → (content : Content K V) → slice_get pool.old.nodes node ≡ Some content
        → (result ≡ 1) × (pool.new ≡ with_node pool.old node (first_part count content)) }
    ensures one { result ≤ 1 }
{
    if count == 0 {
        pool.free_node(node);
        0
    } else {
        pool.node_mut(node).keep_front(count);
        1
    }
}

// Keeps the children or entries of a node from an index on.
fn keep_back<K: Copy, V: Copy, const N: usize>(
    pool: &mut NodePool<K, V, N>,
    node: Node,
    from: usize,
)
    requires used { IsUsed pool.old node }
    requires within { (content : Content K V) × (slice_get pool.old.nodes node ≡ Some content)
        × (¬ IsFree content) × (from < entry_count content) }
    ensures { (content : Content K V) → slice_get pool.old.nodes node ≡ Some content → pool.new
        ≡ with_node pool.old node (last_part from content) }
{
    pool.node_mut(node).keep_back(from);
}
