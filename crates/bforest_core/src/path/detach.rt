//! Detaching the entry where a path is, and all behind it, as a tree of its own.
ghost use Rattle.std.specs.Prelude.{◌≡◌, ◌≢◌, ℕ, ◌+◌, ◌/◌, ◌<◌, ◌≤◌, ◌↔◌, Bool, List, length, slice_get, Some};
ghost use Rattle.bforest_nodes.specs.Content.{Content, IsFree, IsLeafCapacity, entry_count};
ghost use Rattle.bforest_core.specs.Change.{node_count, severed};
ghost use Rattle.bforest_core.specs.Cut.{OnBranch};
ghost use Rattle.bforest_core.specs.Detach.{FillsChild, FillsEdge, HasChildren, OnEdge, Parts, Severs, row_sizes};
ghost use Rattle.bforest_core.specs.Levels.{LevelNode, top_level};
ghost use Rattle.bforest_core.specs.Removal.{Item, content_at, most_at};
ghost use Rattle.bforest_core.specs.Sizes.{backs, fronts};
ghost use Rattle.bforest_core.specs.Table.{IsUsed, Table, free_count};
ghost use Rattle.bforest_core.specs.Trees.{IsUnion};

use crate::access::{child, entries, remove_child, separator, set_child, set_separator};
use crate::path::{MIN_CHILDREN, Path};
use crate::pool::NodePool;
use bforest_nodes::Node;

impl<K: Copy, V: Copy, const N: usize> Path<K, V, N> {
    ghost use Rattle.bforest_core.specs.Paths.{DetachesHere, OnEntry, sizes_under};

    /// Detaches the entry here, which is not the first, and all behind it. Returns the root of what is in front, and that of a tree of the
    /// others. The path goes to the end.
    ///
    /// On each level the nodes beside the path stay as they are, and belong to the part on their side. A node of the path that has entries
    /// or children on both sides keeps those in front, and the others go to a new node. Then the first node of each level of the second
    /// tree is filled from its right neighbour, or merged into it, where it is at most half full. Roots with a single child are discarded.
    ///
    /// Takes `nodes_to_detach` nodes, which have to be free, and no memory.
    pub fn detach(&mut self, pool: &mut NodePool<K, V, N>) -> (Node, Node)
        requires union { IsUnion N pool.old }
        requires stands { (at : OnEntry pool.old self.old) × (0 < at.place)
            × (severed at.place (sizes_under pool.old at.root) ≤ free_count pool.old) }
        ensures { DetachesHere pool.old pool.new self.old self.new result }
    {
        let levels = self.size;
        let root = self.root();
        let behind = self.detach_below(root, levels - 1, pool);
        let front = self.collapse_root(root, pool);
        fill_edge(pool, behind, levels - 1);
        self.size = levels;
        let back = self.collapse_root(behind, pool);
        self.size = 0;
        (front, back)
    }

    /// How many nodes `detach` takes: as many as nodes of the path have entries or children on both sides. None where the path is on the
    /// first entry.
    pub fn nodes_to_detach(&self) -> u32
        requires stands { (table : Table K V) × IsUnion N table × OnEntry table self.now }
        ensures count { (table : Table K V) → IsUnion N table → (at : OnEntry table self.now) → result
            ≡ severed at.place (sizes_under table at.root) }
        ensures first { (table : Table K V) → IsUnion N table → (at : OnEntry table self.now) → (result ≡ 0)
            ↔ (at.place ≡ 0) }
        ensures few { (table : Table K V) → IsUnion N table → (at : OnEntry table self.now) → result
            ≤ length (sizes_under table at.root) }
    {
        self.severed_up_to(self.size - 1)
    }

    // How many of the path's nodes up to a level have entries or children on both sides.
    fn severed_up_to(&self, level: usize) -> u32
        requires capacity { IsLeafCapacity N }
        requires low { level ≤ top_level }
        requires branch { (table : Table K V) × (node : ℕ) × (leaves : List (LevelNode K V))
            × (lower : List (List (LevelNode K ℕ))) × (place : ℕ)
            × OnBranch N table self.now.node self.now.entry level node leaves lower place }
        ensures count { (table : Table K V) (node : ℕ) (leaves : List (LevelNode K V))
            (lower : List (List (LevelNode K ℕ))) (place : ℕ)
            → OnBranch N table self.now.node self.now.entry level node leaves lower place
            → result + node_count (row_sizes leaves lower)
            ≡ node_count (fronts place (row_sizes leaves lower))
            + node_count (backs place (row_sizes leaves lower)) }
        ensures first { (table : Table K V) (node : ℕ) (leaves : List (LevelNode K V))
            (lower : List (List (LevelNode K ℕ))) (place : ℕ)
            → OnBranch N table self.now.node self.now.entry level node leaves lower place
            → (result ≡ 0) ↔ (place ≡ 0) }
        ensures few { result ≤ level + 1 }
    {
        let at_first = self.entry[level] == 0;
        if level == 0 {
            return if at_first { 0 } else { 1 };
        }
        let below = self.severed_up_to(level - 1);
        if below == 0 && at_first { 0 } else { below + 1 }
    }

    // Detaches what is below the path's node on a level from the path on. Returns the node over it: this one where nothing is in front,
    // else a new one.
    fn detach_below(&self, node: Node, level: usize, pool: &mut NodePool<K, V, N>) -> Node
        requires capacity { IsLeafCapacity N }
        requires low { level ≤ top_level }
        requires branch { (leaves : List (LevelNode K V)) × (lower : List (List (LevelNode K ℕ)))
            × (place : ℕ) × OnBranch N pool.old self.now.node self.now.entry level node leaves lower place
            × (node_count (fronts place (row_sizes leaves lower))
            + node_count (backs place (row_sizes leaves lower))
            ≤ node_count (row_sizes leaves lower) + free_count pool.old) }
        ensures parts { (leaves : List (LevelNode K V)) (lower : List (List (LevelNode K ℕ))) (place : ℕ)
            → OnBranch N pool.old self.now.node self.now.entry level node leaves lower place
            → Parts pool.old pool.new leaves lower place result }
        ensures whole { (leaves : List (LevelNode K V)) (lower : List (List (LevelNode K ℕ))) (place : ℕ)
            → OnBranch N pool.old self.now.node self.now.entry level node leaves lower place
            → place ≡ 0 → (result ≡ node) × (pool.new ≡ pool.old) }
        ensures parted { (leaves : List (LevelNode K V)) (lower : List (List (LevelNode K ℕ))) (place : ℕ)
            → OnBranch N pool.old self.now.node self.now.entry level node leaves lower place
            → place ≢ 0 → result ≢ node }
    {
        let index = self.entry[level] as usize;
        if level == 0 {
            return sever(pool, node, index, index);
        }
        let below = child(pool, node, index);
        let first = self.detach_below(below, level - 1, pool);
        if first == below {
            return sever(pool, node, index, index);
        }
        let behind = sever(pool, node, index, index + 1);
        set_child(pool, behind, 0, first);
        behind
    }
}

// Leaves the first `count` children or entries to a node, and moves those from the index `from` on to a new one, which is returned. Where
// none is left to the node, it is returned itself, unchanged.
fn sever<K: Copy, V: Copy, const N: usize>(
    pool: &mut NodePool<K, V, N>,
    node: Node,
    from: usize,
    count: usize,
) -> Node
    requires used { IsUsed pool.old node }
    requires within { (content : Content K V) × (slice_get pool.old.nodes node ≡ Some content)
        × (¬ IsFree content) × (from < entry_count content) × (count ≤ entry_count content) }
    requires room { count ≢ 0 → 0 < free_count pool.old }
    ensures none { count ≡ 0 → (result ≡ node) × (pool.new ≡ pool.old) }
    ensures some { count ≢ 0 → (content : Content K V) → slice_get pool.old.nodes node ≡ Some content
        → (result ≢ node) × Severs pool.old pool.new node from count content result }
    ensures used { IsUsed pool.new result }
{
    if count == 0 {
        return node;
    }
    let behind = pool.copy_node(node);
    pool.node_mut(behind).keep_back(from);
    pool.node_mut(node).keep_front(count);
    behind
}

// Fills the first node of each level below a node, which is the first of its level, from its right neighbour, the highest level first. So
// each parent has a second child, and one to spare.
pub(super) fn fill_edge<K: Copy, V: Copy, const N: usize>(
    pool: &mut NodePool<K, V, N>,
    node: Node,
    level: usize,
)
    requires capacity { IsLeafCapacity N }
    requires low { level ≤ top_level }
    requires edge { (leaves : List (LevelNode K V)) × (rows : List (List (LevelNode K ℕ))) × (first : K)
        × (rest : List (K × ℕ)) × OnEdge N pool.old level node leaves rows first rest }
    ensures { (leaves : List (LevelNode K V)) (rows : List (List (LevelNode K ℕ))) (first : K)
        (rest : List (K × ℕ)) → OnEdge N pool.old level node leaves rows first rest
        → FillsEdge N pool.old pool.new node leaves rows first rest }
{
    let (mut first, mut up) = (node, level);
    while up > 0 {
        up -= 1;
        fill_child(pool, first, half_capacity::<N>(up));
        first = child(pool, first, 0);
    }
}

// Half of what a node on a level can hold: entries in a leaf, else children.
fn half_capacity<const N: usize>(level: usize) -> usize
    ensures leaf { level ≡ 0 → result ≡ N / 2 }
    ensures inner { level ≢ 0 → result ≡ 4 }
{
    if level == 0 { N / 2 } else { MIN_CHILDREN }
}

// Fills the first child of a node from the second, if there is one, where it has at most `half` entries or children. Merges it into that
// one where everything fits there.
fn fill_child<K: Copy, V: Copy, const N: usize>(
    pool: &mut NodePool<K, V, N>,
    node: Node,
    half: usize,
)
    requires capacity { IsLeafCapacity N }
    requires children { (leaf : Bool) × (row : List (LevelNode K (Item V leaf)))
        × HasChildren (content_at leaf) pool.old node row × (half ≡ most_at leaf N / 2) }
    ensures { (leaf : Bool) (row : List (LevelNode K (Item V leaf)))
        → HasChildren (content_at leaf) pool.old node row → half ≡ most_at leaf N / 2
        → FillsChild (content_at leaf) (most_at leaf N) pool.old pool.new node row }
{
    if entries(pool, node) < 2 {
        return;
    }
    let first = child(pool, node, 0);
    if entries(pool, first) > half {
        return;
    }
    let second = child(pool, node, 1);
    let key = separator(pool, node, 0);
    match pool.balance_nodes(first, key, second) {
        Some(key) => set_separator(pool, node, 0, key),
        None => {
            let _answer = remove_child(pool, node, 0);
            pool.free_node(first);
        }
    }
}
