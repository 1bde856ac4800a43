//! Moving a path to a key.
ghost use Rattle.std.specs.Prelude.{◌≡◌, ℕ, ◌+◌, ◌-◌, ◌<◌, ◌≤◌, IsTrue, List, ◌∷◌, ◌++◌, length, get_or, slice_get, slice_set, Some};
ghost use Rattle.bforest_nodes.specs.Content.{IsLeafCapacity};
ghost use Rattle.bforest_core.specs.Levels.{LevelNode, flat, top_level};
ghost use Rattle.bforest_core.specs.Descent.{Reached, SearchThrough};
ghost use Rattle.bforest_core.specs.Leaves.{EndsIn};
ghost use Rattle.bforest_nodes.specs.Entries.{IsIncreasing};
ghost use Rattle.bforest_core.specs.Trees.{IsUnion, is_root};

use crate::access::{follow, look_up};
use crate::path::Path;
use crate::pool::NodePool;
use bforest_nodes::{Comparator, Node};

impl<K: Copy, V: Copy, const N: usize> Path<K, V, N> {
    ghost use Rattle.bforest_core.specs.Paths.{GoesTo, index_of, list_under};

    /// Goes to where a search for `key` ends in the tree under `root`, and returns the key's value. Where the key is absent, the path
    /// stands at the leaf's place for it, which may be past the leaf's last entry.
    pub fn find<C: Comparator<K>>(
        &mut self,
        key: K,
        root: Node,
        pool: &NodePool<K, V, N>,
        comp: &C,
    ) -> Option<V>
        requires union { IsUnion N pool.now }
        requires root { IsTrue (is_root pool.now.nodes root) }
        requires increasing { IsIncreasing (C.order comp.now) (list_under pool.now root) }
        ensures { GoesTo (C.order comp.now) pool.now root key result self.new }
    {
        let leaf = self.find_leaf(key, root, pool, comp);
        let (index, value) = look_up(pool, leaf, key, comp);
        self.set_index(index);
        value
    }

    /// Goes to the leaf in which a search for `key` ends in the tree under `root`, and returns it. The path's index there is 0, also where
    /// the key is elsewhere in the leaf.
    pub fn find_leaf<C: Comparator<K>>(
        &mut self,
        key: K,
        root: Node,
        pool: &NodePool<K, V, N>,
        comp: &C,
    ) -> Node
        requires union { IsUnion N pool.now }
        requires root { IsTrue (is_root pool.now.nodes root) }
        requires increasing { IsIncreasing (C.order comp.now) (list_under pool.now root) }
        ensures { EndsIn (C.order comp.now) pool.now root key result self.new.node self.new.entry
            self.new.size }
    {
        let levels = pool.levels(root);
        self.size = levels;
        self.descend(key, root, levels - 1, pool, comp)
    }

    /// Goes to an index in the path's leaf.
    pub fn set_index(&mut self, index: usize)
        requires { index ≤ 255 }
        ensures node { self.new.node ≡ self.old.node }
        ensures entry { self.new.entry ≡ slice_set self.old.entry 0 index }
        ensures index { index_of self.new ≡ index }
        ensures size { self.new.size ≡ self.old.size }
    {
        self.entry[0] = index as u8;
    }

    // Descends from `node` on `level` to the leaf in which a search for `key` ends. Returns the leaf.
    fn descend<C: Comparator<K>>(
        &mut self,
        key: K,
        node: Node,
        level: usize,
        pool: &NodePool<K, V, N>,
        comp: &C,
    ) -> Node
        requires capacity { IsLeafCapacity N }
        requires height { level ≤ top_level }
        requires under { (leaves : List (LevelNode K V))
            × (on : SearchThrough (C.order comp.now) N pool.now.nodes leaves key node 0)
            × (level ≡ length on.lower) }
        ensures descended { (leaves : List (LevelNode K V))
            (on : SearchThrough (C.order comp.now) N pool.now.nodes leaves key node 0) → level ≡ length on.lower
            → Reached (C.order comp.now) pool.now.nodes leaves on.lower key (length on.before) self.old.node
            self.old.entry self.new.node self.new.entry result }
        ensures size { self.new.size ≡ self.old.size }
    {
        if level == 0 {
            self.set_level(0, node, 0);
            return node;
        }
        let (index, child) = follow(pool, node, key, comp);
        self.set_level(level, node, index);
        self.descend(key, child, level - 1, pool, comp)
    }

    // Writes the path's node and index on a level.
    pub(super) fn set_level(&mut self, level: usize, node: Node, index: usize)
        requires within { level ≤ top_level }
        requires most { index ≤ 255 }
        ensures node { self.new.node ≡ slice_set self.old.node level node }
        ensures entry { self.new.entry ≡ slice_set self.old.entry level index }
        ensures here { (get_or self.new.node level 0 ≡ node) × (get_or self.new.entry level 0 ≡ index) }
        ensures size { self.new.size ≡ self.old.size }
    {
        self.node[level] = node;
        self.entry[level] = index as u8;
    }
}
