//! Queries on the trees of a pool, and freeing a tree.
ghost use Rattle.std.specs.Prelude.{◌≡◌, ℕ, ◌+◌, ◌-◌, ◌*◌, ◌/◌, ◌^◌, ◌<◌, ◌≤◌, ◌↔◌, IsTrue, List, [], ◌∷◌, ◌++◌, length, slice_get, Some};
ghost use Rattle.std.specs.List.{flat_map};
ghost use Rattle.bforest_nodes.specs.Content.{Content, IsLeafCapacity, children_of};
ghost use Rattle.bforest_core.specs.Change.{Ends, GivesNodes};
ghost use Rattle.bforest_core.specs.Levels.{LevelNode, flat, half_of, sizes_of, most_levels, top_level};
ghost use Rattle.bforest_core.specs.Cut.{Between};
ghost use Rattle.bforest_core.specs.Descent.{NodeOver, Under};
ghost use Rattle.bforest_core.specs.Place.{count, Distinct};
ghost use Rattle.bforest_core.specs.Removal.{numbers_under};
ghost use Rattle.bforest_core.specs.Table.{slot_count};
ghost use Rattle.bforest_core.specs.Trades.{Frees};
ghost use Rattle.bforest_core.specs.Trees.{IsUnion, is_root, numbers_down, tree_of};

use crate::pool::NodePool;
use bforest_nodes::{Node, NodeData};

impl<K: Copy, V: Copy, const N: usize> NodePool<K, V, N> {
    /// Whether this is the number of a root: of a used slot that no inner node names. Looks at all slots.
    pub fn is_root(&self, node: Node) -> bool
        ensures value { result ≡ is_root self.now.nodes node }
    {
        node.number() < self.slots() && !self.node(node).is_free() && !self.is_child(node)
    }

    /// Ends the tree under a root: all its nodes are freed and put in front of the free list, each before those below it, and later
    /// children before earlier ones. Reads each node, and each inner node twice for each of its children, and takes no memory.
    pub fn free_tree(&mut self, root: Node)
        requires union { IsUnion N self.old }
        requires root { IsTrue (is_root self.old.nodes root) }
        ensures ended { Ends N self.old self.new root }
        ensures account { GivesNodes (sizes_of (tree_of self.old.nodes root)) [] self.old self.new }
        ensures order { self.new.chain
            ≡ numbers_down self.old.nodes (length (tree_of self.old.nodes root).above) root ++ self.old.chain }
    {
        self.free_below(root, 0);
    }

    // Frees a node at this depth and everything below it. Most nodes are leaves, which are freed without a call of their own.
    #[cycle(freeing)]
    #[inline(always)]
    fn free_below(&mut self, node: Node, depth: usize)
        requires capacity { IsLeafCapacity N }
        requires under { (leaves : List (LevelNode K V)) × (lower : List (List (LevelNode K ℕ))) × (first : K)
            × Under N self.old.nodes leaves lower ((first, node) ∷ [])
            × Distinct (numbers_under leaves lower ++ self.old.chain) × (depth + length lower ≤ top_level) }
        ensures { (leaves : List (LevelNode K V)) (lower : List (List (LevelNode K ℕ))) (first : K)
            → Under N self.old.nodes leaves lower ((first, node) ∷ [])
            → Distinct (numbers_under leaves lower ++ self.old.chain)
            → Frees self.old self.new (numbers_under leaves lower) []
            (numbers_down self.old.nodes (length lower) node) }
    {
        if self.node(node).is_inner() {
            self.free_under(node, depth);
        } else {
            self.free_node(node);
        }
    }

    // Frees a node and everything below it, in a call of its own.
    #[cycle(freeing)]
    fn free_under(&mut self, node: Node, depth: usize)
        requires capacity { IsLeafCapacity N }
        requires under { (leaves : List (LevelNode K V)) × (lower : List (List (LevelNode K ℕ))) × (first : K)
            × Under N self.old.nodes leaves lower ((first, node) ∷ [])
            × Distinct (numbers_under leaves lower ++ self.old.chain) × (depth + length lower ≤ top_level) }
        ensures { (leaves : List (LevelNode K V)) (lower : List (List (LevelNode K ℕ))) (first : K)
            → Under N self.old.nodes leaves lower ((first, node) ∷ [])
            → Distinct (numbers_under leaves lower ++ self.old.chain)
            → Frees self.old self.new (numbers_under leaves lower) []
            (numbers_down self.old.nodes (length lower) node) }
    {
        for index in 0..self.child_count(node) {
            let child = self.node(node).child(index);
            self.free_below(child, depth + 1);
        }
        self.free_node(node);
    }

    // Frees everything below some children of a node, from this index on up to another. The node still names them.
    pub(crate) fn free_children(&mut self, node: Node, from: usize, to: usize)
        requires capacity { IsLeafCapacity N }
        requires children { (leaves : List (LevelNode K V)) × (lower : List (List (LevelNode K ℕ)))
            × (top : List (K × ℕ)) × Between N self.old node from to leaves lower top }
        ensures { (leaves : List (LevelNode K V)) (lower : List (List (LevelNode K ℕ))) (top : List (K × ℕ))
            → Between N self.old node from to leaves lower top
            → (given : List ℕ) × Frees self.old self.new (numbers_under leaves lower) [] given }
    {
        for index in from..to {
            let child = self.node(node).child(index);
            self.free_below(child, 0);
        }
    }

    // Whether an inner node names this node.
    fn is_child(&self, node: Node) -> bool
        ensures { IsTrue result ↔ (0 < count node (flat_map children_of self.now.nodes)) }
    {
        for number in 0..self.slots() {
            if names(self.node(Node::new(number)), node) {
                return true;
            }
        }
        false
    }

    /// The height of the tree under a root: its levels, the root's and the leaves' included. Reads one node of each.
    pub fn levels(&self, root: Node) -> usize
        requires union { IsUnion N self.now }
        requires root { IsTrue (is_root self.now.nodes root) }
        ensures value { result ≡ length (sizes_of (tree_of self.now.nodes root)) }
        ensures leaves { length (tree_of self.now.nodes root).leaves
            ≤ (length (flat (tree_of self.now.nodes root).leaves) + (half_of N - 1)) / half_of N }
        ensures depth { 2 ≤ result → half_of N * 4 ^ (result - 2)
            < length (flat (tree_of self.now.nodes root).leaves) }
        ensures most { result ≤ most_levels }
    {
        self.levels_from(root, 0)
    }

    // The height of what is below a node, with the node; `depth` levels are above it.
    fn levels_from(&self, node: Node, depth: usize) -> usize
        requires capacity { IsLeafCapacity N }
        requires under { (leaves : List (LevelNode K V)) × (n : NodeOver N self.now.nodes leaves node)
            × (depth + length n.lower ≤ top_level) }
        ensures { (leaves : List (LevelNode K V)) (n : NodeOver N self.now.nodes leaves node) → result
            ≡ length n.lower + 1 }
    {
        if self.node(node).is_inner() {
            self.levels_from(self.node(node).child(0), depth + 1) + 1
        } else {
            1
        }
    }
}

// Whether the slot is an inner node that names this child.
fn names<K: Copy, V: Copy, const N: usize>(slot: &NodeData<K, V, N>, child: Node) -> bool
    ensures { IsTrue result ↔ (0 < count child (children_of slot.now)) }
{
    slot.is_inner() && slot.unwrap_inner().1.contains(&child)
}
