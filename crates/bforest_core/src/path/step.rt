//! Steps from an entry to the next and to the previous one.
ghost use Rattle.std.specs.Prelude.{◌≡◌, ℕ, suc, ◌+◌, ◌-◌, ◌<◌, ◌≤◌, ◌≢◌, ◌↔◌, IfSome, IsTrue, false, true, List, [], ◌∷◌, ◌++◌, length, get_or, slice_get, Some, None, if◌then◌else◌};
ghost use Rattle.bforest_nodes.specs.Content.{IsLeafCapacity};
ghost use Rattle.bforest_core.specs.Levels.{LevelNode, flat, most_levels, top_level};
ghost use Rattle.bforest_core.specs.Descent.{HasBelow, IsFirst, IsLast, Led, OnBelow};
ghost use Rattle.bforest_nodes.specs.Entries.{place};
ghost use Rattle.bforest_core.specs.Place.{inner_content, entry_items, leaf_content, Stands, entry_before};
ghost use Rattle.bforest_core.specs.Trees.{IsUnion, is_root};
ghost use Rattle.bforest_core.specs.Steps.{Advances, AreFirst, AreLast, HasOver, MoreAt, OnOver, OnTree, Retreats, Turned, TurnedBack};

use crate::access::{child, entries, last_index, leaf_entry};
use crate::path::Path;
use crate::pool::NodePool;
use bforest_nodes::Node;

impl<K: Copy, V: Copy, const N: usize> Path<K, V, N> {
    ghost use Rattle.bforest_core.specs.Paths.{IsAtEnd, OnEntry, OnLeaf, Pointing, Standing, StandingUnder, StandsAt, StandsOn, index_of, leaf_of, list_under};

    /// Goes to the first entry of the tree under `root`, and returns it.
    pub fn first(&mut self, root: Node, pool: &NodePool<K, V, N>) -> (K, V)
        requires union { IsUnion N pool.now }
        requires root { IsTrue (is_root pool.now.nodes root) }
        ensures value { slice_get (list_under pool.now root) 0 ≡ Some result }
        ensures stands { StandsOn pool.now root self.new 0 }
    {
        self.first_leaf(root, pool);
        self.entry_here(pool)
    }

    /// Goes to the first entry of the tree under `root`, and returns its leaf.
    pub fn first_leaf(&mut self, root: Node, pool: &NodePool<K, V, N>) -> Node
        requires union { IsUnion N pool.now }
        requires root { IsTrue (is_root pool.now.nodes root) }
        ensures leaf { result ≡ leaf_of self.new }
        ensures index { index_of self.new ≡ 0 }
        ensures stands { (entries : List (K × V)) × OnLeaf pool.now root self.new 0 entries }
    {
        if !pool.node(root).is_inner() {
            self.set_root_node(root);
            return root;
        }
        let levels = pool.levels(root);
        self.size = levels;
        self.descend_first(root, levels - 1, pool);
        self.node[0]
    }

    // Descends from `node` on `level` to the first entry below it.
    fn descend_first(&mut self, node: Node, level: usize, pool: &NodePool<K, V, N>)
        requires capacity { IsLeafCapacity N }
        requires height { level ≤ top_level }
        requires under { HasBelow N pool.now.nodes IsFirst node level }
        ensures led { OnBelow N pool.now.nodes IsFirst node level (λ leaves lower top. Led leaves lower 0 top
            self.old.node self.old.entry self.new.node self.new.entry) }
        ensures size { self.new.size ≡ self.old.size }
    {
        self.set_level(level, node, 0);
        if level == 0 {
            return;
        }
        let child = child(pool, node, 0);
        self.descend_first(child, level - 1, pool);
    }

    /// Goes to the next entry and returns it. From the last entry it goes to the end, where it returns `None` from then on.
    pub fn next(&mut self, pool: &NodePool<K, V, N>) -> Option<(K, V)>
        requires union { IsUnion N pool.now }
        requires stands { (¬ IsAtEnd self.old) → OnEntry pool.now self.old }
        ensures value { (at : OnEntry pool.now self.old)
            → result ≡ slice_get (list_under pool.now at.root) (suc at.place) }
        ensures stands { (at : OnEntry pool.now self.old)
            → StandsAt pool.now at.root self.new (suc at.place) }
        ensures end { result ≡ None → IsAtEnd self.new }
        ensures stays { IsAtEnd self.old → result ≡ None }
    {
        if self.size == 0 {
            return None;
        }
        let Some(entry) = self.next_entry(pool) else {
            self.size = 0;
            return None;
        };
        Some(entry)
    }

    // Goes to the next entry and returns it. At the last entry it returns `None`, and changes nothing.
    fn next_entry(&mut self, pool: &NodePool<K, V, N>) -> Option<(K, V)>
        requires capacity { IsLeafCapacity N }
        requires height { self.old.size ≤ most_levels }
        requires stands { OnTree N pool.now.nodes self.old.node self.old.entry self.old.size }
        ensures value { (s : OnTree N pool.now.nodes self.old.node self.old.entry self.old.size)
            → result ≡ slice_get (flat s.tree.leaves) (suc s.place) }
        ensures moved { IfSome result (λ entry.
            (s : OnTree N pool.now.nodes self.old.node self.old.entry self.old.size)
            → Stands self.new.node self.new.entry self.old.size s.tree (suc s.place)) }
        ensures last { result ≡ None
            → (s : OnTree N pool.now.nodes self.old.node self.old.entry self.old.size)
            → suc s.place ≡ length (flat s.tree.leaves) }
        ensures same { result ≡ None → self.new ≡ self.old }
        ensures size { self.new.size ≡ self.old.size }
    {
        let next = self.entry[0] as usize + 1;
        if let Some(entry) = self.leaf_entry(next, pool) {
            self.set_entry(next);
            return Some(entry);
        }
        if !self.next_node(0, pool) {
            return None;
        }
        self.set_entry(0);
        Some(self.entry_here(pool))
    }

    // The entry of the path's leaf at this index, or `None` if there is none.
    fn leaf_entry(&self, index: usize, pool: &NodePool<K, V, N>) -> Option<(K, V)>
        requires { (entries : List (K × V)) × (slice_get pool.now.nodes (get_or self.now.node 0 0)
            ≡ Some (leaf_content entries)) }
        ensures value { (entries : List (K × V)) → slice_get pool.now.nodes (get_or self.now.node 0 0)
            ≡ Some (leaf_content entries) → result ≡ slice_get entries index }
        ensures most { IfSome result (λ entry. index ≤ 255) }
    {
        leaf_entry(pool, self.node[0], index)
    }

    // Whether the path's leaf has an entry at this index.
    fn has_entry(&self, index: usize, pool: &NodePool<K, V, N>) -> bool
        requires { (entries : List (K × V)) × (slice_get pool.now.nodes (get_or self.now.node 0 0)
            ≡ Some (leaf_content entries)) }
        ensures within { (entries : List (K × V)) → slice_get pool.now.nodes (get_or self.now.node 0 0)
            ≡ Some (leaf_content entries) → IsTrue result ↔ (index < length entries) }
        ensures most { IsTrue result → index ≤ 255 }
    {
        index < entries(pool, self.node[0])
    }

    /// The entry here, or `None` at the end.
    pub fn entry(&self, pool: &NodePool<K, V, N>) -> Option<(K, V)>
        requires union { IsUnion N pool.now }
        requires stands { (¬ IsAtEnd self.now) → OnEntry pool.now self.now }
        ensures value { (at : Standing pool.now self.now) → result ≡ slice_get (list_under pool.now at.root)
            at.place }
        ensures end { IsAtEnd self.now → result ≡ None }
    {
        if self.size > 0 {
            Some(self.entry_here(pool))
        } else {
            None
        }
    }

    // The path's entry.
    pub(super) fn entry_here(&self, pool: &NodePool<K, V, N>) -> (K, V)
        requires { (entries : List (K × V)) × (slice_get pool.now.nodes (get_or self.now.node 0 0)
            ≡ Some (leaf_content entries)) × (get_or self.now.entry 0 0 < length entries) }
        ensures { (entries : List (K × V)) → slice_get pool.now.nodes (get_or self.now.node 0 0)
            ≡ Some (leaf_content entries) → slice_get entries (get_or self.now.entry 0 0) ≡ Some result }
    {
        pool.node(self.node[0]).entry(self.entry[0] as usize)
    }

    // Goes to this entry of the path's leaf.
    pub(super) fn set_entry(&mut self, index: usize)
        requires most { index ≤ 255 }
        ensures nodes { self.new.node ≡ self.old.node }
        ensures here { get_or self.new.entry 0 0 ≡ index }
        ensures above { (level : ℕ) → level ≢ 0 → get_or self.new.entry level 0
            ≡ get_or self.old.entry level 0 }
        ensures size { self.new.size ≡ self.old.size }
    {
        self.entry[0] = index as u8;
    }

    // Moves the path's node on `level` to the next one. Where there is none it returns false, and changes nothing.
    pub(super) fn next_node(&mut self, level: usize, pool: &NodePool<K, V, N>) -> bool
        requires height { self.old.size ≤ most_levels }
        requires over { HasOver pool.now.nodes self.old.node self.old.entry (suc level) self.old.size }
        ensures moved { result ≡ true → Advances pool.now.nodes self.old.node self.old.entry self.new.node
            self.new.entry level self.old.size }
        ensures last { result ≡ false → OnOver pool.now.nodes self.old.node self.old.entry (suc level)
            self.old.size (λ rows list place. suc place ≡ length list) }
        ensures same { result ≡ false → self.new ≡ self.old }
        ensures size { self.new.size ≡ self.old.size }
    {
        if level + 1 == self.size {
            return false;
        }
        let entry = self.entry[level + 1] as usize;
        if self.has_child(level + 1, entry + 1, pool) {
            self.go_to_child(level, entry + 1, pool);
            return true;
        }
        self.next_far(level, pool)
    }

    // Moves the path's node on `level`, the last child of its parent, to the next one. Where there is none it returns false, and changes
    // nothing.
    #[inline(never)]
    fn next_far(&mut self, level: usize, pool: &NodePool<K, V, N>) -> bool
        requires height { self.old.size ≤ most_levels }
        requires over { HasOver pool.now.nodes self.old.node self.old.entry (suc level) self.old.size }
        requires parent { suc level ≢ self.old.size }
        requires last { AreLast pool.now.nodes self.old.node self.old.entry (suc level) (level + 2) }
        ensures moved { result ≡ true → Advances pool.now.nodes self.old.node self.old.entry self.new.node
            self.new.entry level self.old.size }
        ensures last { result ≡ false → OnOver pool.now.nodes self.old.node self.old.entry (suc level)
            self.old.size (λ rows list place. suc place ≡ length list) }
        ensures same { result ≡ false → self.new ≡ self.old }
        ensures size { self.new.size ≡ self.old.size }
    {
        let turn = self.next_turn(level + 2, pool);
        if turn == self.size {
            return false;
        }
        let index = self.entry[turn] as usize + 1;
        self.go_to_child(turn - 1, index, pool);
        self.go_first(turn - 1, level, pool);
        true
    }

    // The lowest level from this one on where the path's node has a child behind the path's, or else the height.
    fn next_turn(&self, level: usize, pool: &NodePool<K, V, N>) -> usize
        requires height { self.now.size ≤ most_levels }
        requires over { HasOver pool.now.nodes self.now.node self.now.entry level self.now.size }
        ensures within { (level ≤ result) × (result ≤ self.now.size) }
        ensures last { AreLast pool.now.nodes self.now.node self.now.entry level result }
        ensures turns { result ≢ self.now.size → MoreAt pool.now.nodes self.now.node self.now.entry result }
    {
        if level == self.size {
            return level;
        }
        let next = self.entry[level] as usize + 1;
        if self.has_child(level, next, pool) {
            return level;
        }
        self.next_turn(level + 1, pool)
    }

    // Descends from the path's node on level `from`, which has just moved to the next of its level, to the first node below it on `level`.
    fn go_first(&mut self, from: usize, level: usize, pool: &NodePool<K, V, N>)
        requires within { level ≤ from }
        requires turned { (path : List ℕ) × (indices : List ℕ) × (size : ℕ)
            × Turned pool.now.nodes path indices self.old.node self.old.entry level from size
            × HasOver pool.now.nodes path indices (suc level) size }
        ensures moved { (path : List ℕ) (indices : List ℕ) (size : ℕ)
            → Turned pool.now.nodes path indices self.old.node self.old.entry level from size
            → Advances pool.now.nodes path indices self.new.node self.new.entry level size }
        ensures size { self.new.size ≡ self.old.size }
    {
        if from == level {
            return;
        }
        self.go_to_child(from - 1, 0, pool);
        self.go_first(from - 1, level, pool);
    }

    // Whether the path's inner node on `level` has a child at this index. This is inlined, since a way down asks it on each level: a call
    // of its own takes one in twelve of the instructions of insertions in order by a cursor.
    #[inline(always)]
    fn has_child(&self, level: usize, index: usize, pool: &NodePool<K, V, N>) -> bool
        requires within { level ≤ top_level }
        requires inner { (entries : List (K × ℕ)) × (slice_get pool.now.nodes (get_or self.now.node level 0)
            ≡ Some (inner_content entries)) }
        ensures within { (entries : List (K × ℕ)) → slice_get pool.now.nodes (get_or self.now.node level 0)
            ≡ Some (inner_content entries) → IsTrue result ↔ (index < length entries) }
        ensures most { IsTrue result → index ≤ 255 }
    {
        index < entries(pool, self.node[level])
    }

    // Goes to another child of the path's node above `level`.
    #[inline(always)]
    fn go_to_child(&mut self, level: usize, index: usize, pool: &NodePool<K, V, N>)
        requires within { level ≤ 15 }
        requires most { index ≤ 255 }
        requires inner { (entries : List (K × ℕ))
            × (slice_get pool.now.nodes (get_or self.old.node (suc level) 0) ≡ Some (inner_content entries))
            × (index < length entries) }
        ensures child { (entries : List (K × ℕ))
            → slice_get pool.now.nodes (get_or self.old.node (suc level) 0) ≡ Some (inner_content entries)
            → slice_get (entry_items entries) index ≡ Some (get_or self.new.node level 0) }
        ensures nodes { (other : ℕ) → other ≢ level → get_or self.new.node other 0
            ≡ get_or self.old.node other 0 }
        ensures entry { get_or self.new.entry (suc level) 0 ≡ index }
        ensures entries { (other : ℕ) → other ≢ suc level → get_or self.new.entry other 0
            ≡ get_or self.old.entry other 0 }
        ensures size { self.new.size ≡ self.old.size }
    {
        let child = child(pool, self.node[level + 1], index);
        self.node[level] = child;
        self.entry[level + 1] = index as u8;
    }

    /// Goes from one past a leaf's last entry to the first entry of the next leaf, or to the end. Anywhere else nothing changes.
    pub fn normalize(&mut self, pool: &NodePool<K, V, N>)
        requires union { IsUnion N pool.now }
        requires points { (¬ IsAtEnd self.old) → Pointing pool.now self.old }
        ensures stands { (at : Pointing pool.now self.old) → StandsAt pool.now at.root self.new at.place }
        ensures end { IsAtEnd self.old → IsAtEnd self.new }
    {
        if self.size == 0 {
            return;
        }
        if self.has_entry(self.entry[0] as usize, pool) {
            return;
        }
        if self.next_node(0, pool) {
            self.set_entry(0);
        } else {
            self.size = 0;
        }
    }

    /// Goes to the previous entry and returns it; from the end it goes to the last. At the first entry it stays, and returns `None`.
    #[inline(always)]
    pub fn prev(&mut self, root: Node, pool: &NodePool<K, V, N>) -> Option<(K, V)>
        requires union { IsUnion N pool.now }
        requires root { IsTrue (is_root pool.now.nodes root) }
        requires stands { StandingUnder pool.now root self.old }
        ensures value { (at : StandingUnder pool.now root self.old)
            → result ≡ entry_before (list_under pool.now root) at.place }
        ensures stands { (at : StandingUnder pool.now root self.old)
            → StandsOn pool.now root self.new (at.place - 1) }
    {
        if self.size == 0 {
            return Some(self.last(root, pool));
        }
        if self.prev_entry(pool) {
            Some(self.entry_here(pool))
        } else {
            None
        }
    }

    // Goes to the last entry of the tree under `root`, and returns it. In a call of its own, so that `prev`, which seldom makes it, keeps
    // no registers for it.
    #[inline(never)]
    fn last(&mut self, root: Node, pool: &NodePool<K, V, N>) -> (K, V)
        requires union { IsUnion N pool.now }
        requires root { IsTrue (is_root pool.now.nodes root) }
        ensures value { slice_get (list_under pool.now root) (length (list_under pool.now root) - 1)
            ≡ Some result }
        ensures stands { StandsOn pool.now root self.new (length (list_under pool.now root) - 1) }
    {
        let height = pool.levels(root);
        self.size = height;
        self.descend_last(root, height - 1, pool);
        self.entry_here(pool)
    }

    // Descends from `node`, the last of its level, to the last entry below it.
    fn descend_last(&mut self, node: Node, level: usize, pool: &NodePool<K, V, N>)
        requires capacity { IsLeafCapacity N }
        requires height { level ≤ top_level }
        requires under { HasBelow N pool.now.nodes IsLast node level }
        ensures led { OnBelow N pool.now.nodes IsLast node level (λ leaves lower top. Led leaves lower
            (length (flat leaves) - 1) top self.old.node self.old.entry self.new.node self.new.entry) }
        ensures size { self.new.size ≡ self.old.size }
    {
        let last = last_index(pool, node);
        self.set_level(level, node, last);
        if level == 0 {
            return;
        }
        let child = child(pool, node, last);
        self.descend_last(child, level - 1, pool);
    }

    // Goes to the previous entry. At the first it returns false, and changes nothing.
    fn prev_entry(&mut self, pool: &NodePool<K, V, N>) -> bool
        requires capacity { IsLeafCapacity N }
        requires height { self.old.size ≤ most_levels }
        requires stands { OnTree N pool.now.nodes self.old.node self.old.entry self.old.size }
        ensures moved { result ≡ true
            → (s : OnTree N pool.now.nodes self.old.node self.old.entry self.old.size)
            → (0 < s.place) × Stands self.new.node self.new.entry self.old.size s.tree (s.place - 1) }
        ensures first { result ≡ false
            → (s : OnTree N pool.now.nodes self.old.node self.old.entry self.old.size) → s.place ≡ 0 }
        ensures same { result ≡ false → self.new ≡ self.old }
        ensures size { self.new.size ≡ self.old.size }
    {
        let here = self.entry[0] as usize;
        if here > 0 {
            self.set_entry(here - 1);
            return true;
        }
        let moved = self.prev_node(0, pool);
        if moved {
            let last = last_index(pool, self.node[0]);
            self.set_entry(last);
        }
        moved
    }

    // Moves the path's node on `level` to the previous one. Where there is none it returns false, and changes nothing.
    fn prev_node(&mut self, level: usize, pool: &NodePool<K, V, N>) -> bool
        requires height { self.old.size ≤ most_levels }
        requires over { HasOver pool.now.nodes self.old.node self.old.entry (suc level) self.old.size }
        ensures moved { result ≡ true → Retreats pool.now.nodes self.old.node self.old.entry self.new.node
            self.new.entry level self.old.size }
        ensures first { result ≡ false → OnOver pool.now.nodes self.old.node self.old.entry (suc level)
            self.old.size (λ rows list place. place ≡ 0) }
        ensures same { result ≡ false → self.new ≡ self.old }
        ensures size { self.new.size ≡ self.old.size }
    {
        let turn = self.prev_turn(level + 1);
        if turn == self.size {
            return false;
        }
        let index = self.entry[turn] as usize - 1;
        self.go_to_child(turn - 1, index, pool);
        self.go_last(turn - 1, level, pool);
        true
    }

    // The lowest level from this one on where the path's node has a child before the path's, or else the height.
    fn prev_turn(&self, level: usize) -> usize
        requires height { self.now.size ≤ most_levels }
        requires within { level ≤ self.now.size }
        ensures within { (level ≤ result) × (result ≤ self.now.size) }
        ensures first { AreFirst self.now.entry level result }
        ensures turns { result ≢ self.now.size → 0 < get_or self.now.entry result 0 }
    {
        if level == self.size {
            return level;
        }
        if self.entry[level] > 0 {
            return level;
        }
        self.prev_turn(level + 1)
    }

    // Descends from the path's node on level `from`, which has just moved to the previous of its level, to the last node below it on
    // `level`.
    fn go_last(&mut self, from: usize, level: usize, pool: &NodePool<K, V, N>)
        requires within { level ≤ from }
        requires turned { (path : List ℕ) × (indices : List ℕ) × (size : ℕ)
            × TurnedBack pool.now.nodes path indices self.old.node self.old.entry level from size
            × HasOver pool.now.nodes path indices (suc level) size }
        ensures moved { (path : List ℕ) (indices : List ℕ) (size : ℕ)
            → TurnedBack pool.now.nodes path indices self.old.node self.old.entry level from size
            → Retreats pool.now.nodes path indices self.new.node self.new.entry level size }
        ensures size { self.new.size ≡ self.old.size }
    {
        if from == level {
            return;
        }
        let last = last_index(pool, self.node[from]);
        self.go_to_child(from - 1, last, pool);
        self.go_last(from - 1, level, pool);
    }
}
