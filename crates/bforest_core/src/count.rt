//! Counting the entries of a tree.
ghost use Rattle.std.specs.Prelude.{◌≡◌, ℕ, ◌≤◌, IsTrue, List, [], ◌∷◌, length};
ghost use Rattle.bforest_nodes.specs.Content.{IsLeafCapacity};
ghost use Rattle.bforest_core.specs.Descent.{Under};
ghost use Rattle.bforest_core.specs.Levels.{LevelNode, flat};
ghost use Rattle.bforest_core.specs.Paths.{list_under};
ghost use Rattle.bforest_core.specs.Trees.{IsUnion, is_root};

use crate::pool::NodePool;
use bforest_nodes::Node;

impl<K: Copy, V: Copy, const N: usize> NodePool<K, V, N> {
    /// How many entries the tree under a root has. Each leaf tells how many it has; no entry is read, and no key compared.
    pub fn tree_entries(&self, root: Node) -> usize
        requires union { IsUnion N self.now }
        requires root { IsTrue (is_root self.now.nodes root) }
        ensures value { result ≡ length (list_under self.now root) }
    {
        if self.child_count(root) == 0 {
            return self.node(root).entries();
        }
        self.entries_below(root, self.levels(root) - 1)
    }

    // How many entries are below an inner node, which has `level` levels below it.
    fn entries_below(&self, node: Node, level: usize) -> usize
        requires capacity { IsLeafCapacity N }
        requires inner { 1 ≤ level }
        requires under { (leaves : List (LevelNode K V)) × (lower : List (List (LevelNode K ℕ))) × (first : K)
            × Under N self.now.nodes leaves lower ((first, node) ∷ []) × (length lower ≡ level)
            × (length (flat leaves) ≤ 1099511627776) }
        ensures { (leaves : List (LevelNode K V)) (lower : List (List (LevelNode K ℕ))) (first : K)
            → Under N self.now.nodes leaves lower ((first, node) ∷ []) → length lower ≡ level
            → result ≡ length (flat leaves) }
    {
        if level == 1 {
            return self.leaf_entries(node);
        }
        let mut entries = 0;
        for index in 0..self.child_count(node) {
            entries += self.entries_below(self.node(node).child(index), level - 1);
        }
        entries
    }

    // How many entries the leaves have that are the children of a node.
    fn leaf_entries(&self, node: Node) -> usize
        requires capacity { IsLeafCapacity N }
        requires under { (leaves : List (LevelNode K V)) × (lower : List (List (LevelNode K ℕ))) × (first : K)
            × Under N self.now.nodes leaves lower ((first, node) ∷ []) × (length lower ≡ 1)
            × (length (flat leaves) ≤ 1099511627776) }
        ensures { (leaves : List (LevelNode K V)) (lower : List (List (LevelNode K ℕ))) (first : K)
            → Under N self.now.nodes leaves lower ((first, node) ∷ []) → length lower ≡ 1
            → result ≡ length (flat leaves) }
    {
        let mut entries = 0;
        for index in 0..self.child_count(node) {
            let leaf = self.node(node).child(index);
            entries += self.node(leaf).entries();
        }
        entries
    }
}
