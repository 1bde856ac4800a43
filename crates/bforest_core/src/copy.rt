//! Copying a tree.
ghost use Rattle.std.specs.Prelude.{◌≡◌, ℕ, ◌+◌, ◌<◌, ◌≤◌, ◌↔◌, IfOk, IsOk, IsTrue, OnErr, Err, List, [], ◌∷◌, ◌++◌, length};
ghost use Rattle.bforest_nodes.specs.Content.{IsLeafCapacity};
ghost use Rattle.bforest_core.specs.Change.{PlantsTree, node_count};
ghost use Rattle.bforest_core.specs.Copies.{Copies};
ghost use Rattle.bforest_core.specs.Descent.{Under};
ghost use Rattle.bforest_core.specs.Levels.{LevelNode, flat, sizes_of, top_level};
ghost use Rattle.bforest_core.specs.Place.{Distinct};
ghost use Rattle.bforest_core.specs.Removal.{numbers_under};
ghost use Rattle.bforest_core.specs.Table.{NeedsGrowth, free_count, room, slot_count};
ghost use Rattle.bforest_core.specs.Trees.{IsUnion, is_root, tree_of};

use crate::access::set_child;
use crate::pool::{NodePool, OutOfMemory};
use bforest_nodes::Node;

impl<K: Copy, V: Copy, const N: usize> NodePool<K, V, N> {
    /// Makes a second tree of the same entries, in nodes of the same sizes, and returns its root. Reads each node once to count it and once
    /// to copy it, and compares no keys.
    ///
    /// Takes as many nodes as the tree has; one `reserve` before the first change provides them.
    ///
    /// # Errors
    ///
    /// The errors of `reserve` of that many nodes. After either the pool is as before.
    pub fn copy_tree(&mut self, root: Node) -> Result<Node, OutOfMemory>
        requires union { IsUnion N self.old }
        requires root { IsTrue (is_root self.old.nodes root) }
        ensures planted { IfOk result (λ copy. PlantsTree N self.old self.new copy
            (flat (tree_of self.old.nodes root).leaves) (sizes_of (tree_of self.old.nodes root))) }
        ensures err { OnErr result (self.new ≡ self.old) }
        ensures full { (result ≡ Err OutOfMemory.Full)
            ↔ (room self.old < node_count (sizes_of (tree_of self.old.nodes root))) }
        ensures memory { result ≡ Err OutOfMemory.Memory
            → NeedsGrowth (node_count (sizes_of (tree_of self.old.nodes root))) self.old }
        ensures enough { node_count (sizes_of (tree_of self.old.nodes root)) ≤ free_count self.old
            → IsOk result }
    {
        self.reserve(self.tree_nodes(root))?;
        Ok(self.copy_below(root, 0))
    }

    /// How many nodes the tree under a root has. Reads each of them.
    pub fn tree_nodes(&self, root: Node) -> u32
        requires union { IsUnion N self.now }
        requires root { IsTrue (is_root self.now.nodes root) }
        ensures value { result ≡ node_count (sizes_of (tree_of self.now.nodes root)) }
    {
        self.nodes_below(root, 0)
    }

    // How many nodes there are at a node and below it; `depth` levels are above it.
    fn nodes_below(&self, node: Node, depth: usize) -> u32
        requires capacity { IsLeafCapacity N }
        requires under { (leaves : List (LevelNode K V)) × (lower : List (List (LevelNode K ℕ))) × (first : K)
            × Under N self.now.nodes leaves lower ((first, node) ∷ [])
            × (length (numbers_under leaves lower) ≤ slot_count self.now) × (depth + length lower ≤ top_level) }
        ensures { (leaves : List (LevelNode K V)) (lower : List (List (LevelNode K ℕ))) (first : K)
            → Under N self.now.nodes leaves lower ((first, node) ∷ [])
            → result ≡ length (numbers_under leaves lower) }
    {
        let mut nodes = 1;
        for index in 0..self.child_count(node) {
            nodes += self.nodes_below(self.node(node).child(index), depth + 1);
        }
        nodes
    }

    // Copies a node and everything below it, and returns the copy; `depth` levels are above the node.
    fn copy_below(&mut self, node: Node, depth: usize) -> Node
        requires capacity { IsLeafCapacity N }
        requires under { (leaves : List (LevelNode K V)) × (lower : List (List (LevelNode K ℕ))) × (first : K)
            × Under N self.old.nodes leaves lower ((first, node) ∷ [])
            × Distinct (numbers_under leaves lower ++ self.old.chain) × (depth + length lower ≤ top_level)
            × (length (numbers_under leaves lower) ≤ free_count self.old) }
        ensures { (leaves : List (LevelNode K V)) (lower : List (List (LevelNode K ℕ))) (first : K)
            → Under N self.old.nodes leaves lower ((first, node) ∷ [])
            → Distinct (numbers_under leaves lower ++ self.old.chain)
            → Copies self.old self.new (numbers_under leaves lower) node result }
    {
        let copy = self.copy_node(node);
        for index in 0..self.child_count(node) {
            let child = self.node(node).child(index);
            let made = self.copy_below(child, depth + 1);
            set_child(self, copy, index, made);
        }
        copy
    }
}
