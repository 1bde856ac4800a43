//! Inserting an entry where a path is.
ghost use Rattle.std.specs.Prelude.{insert, IfOk, IsOk, OnOk, OnErr, Ok, Err, ◌≡◌, ℕ, suc, ◌+◌, ◌-◌, ◌<◌, ◌≤◌, ◌↔◌, false, true, List, [], ◌∷◌, ◌++◌, map, length, get_or, Some, if◌then◌else◌};
ghost use Rattle.bforest_core.specs.Table.{IsFullAt, NeedsGrowth, room, free_count};
ghost use Rattle.bforest_core.specs.Levels.{sizes, Tree, sizes_of, most_levels, top_level};
ghost use Rattle.bforest_core.specs.Sizes.{gain_above, need_above, growth, need};
ghost use Rattle.bforest_core.specs.Climb.{top_of, GrownBy, HalvedBy, Inserted, LeafHalved, OneAbove, Placed};
ghost use Rattle.bforest_nodes.specs.Entries.{place};
ghost use Rattle.bforest_core.specs.Trees.{IsUnion};
ghost use Rattle.bforest_core.specs.Change.{Changes, TakesNodes};

use crate::access::{put_child, put_entry};
use crate::path::{MIN_CHILDREN, Path};
use crate::pool::{NodePool, OutOfMemory};
use bforest_nodes::Node;

// The right half of a node that was split.
#[derive(Clone, Copy, Drop)]
pub(super) struct RightHalf<K> {
    // The first key below the half.
    key: K,
    node: Node,
    // Whether the path moved to the half.
    moved: bool,
}

impl<K: Copy, V: Copy, const N: usize> Path<K, V, N> {
    ghost use Rattle.bforest_core.specs.Paths.{InsertsHere, Placing, leaf_of, sizes_under};

    /// Inserts an entry here, and returns the tree's root. The path stands at the entry afterwards.
    ///
    /// Takes one node for each full node from the leaf upwards, and one for a new root where all are full; one `reserve` before the first
    /// change provides them.
    ///
    /// # Errors
    ///
    /// The errors of `reserve` of that many nodes. After either the pool and the path are as before.
    pub fn insert(
        &mut self,
        key: K,
        value: V,
        pool: &mut NodePool<K, V, N>,
    ) -> Result<Node, OutOfMemory>
        requires union { IsUnion N pool.old }
        requires placed { Placing pool.old self.old }

        ensures { InsertsHere pool.old pool.new self.old self.new key value result }
    {
        if self.put_here(key, value, pool) {
            return Ok(self.root());
        }
        self.insert_full(key, value, pool)
    }

    /// Inserts an entry here as `insert` does, where the path's leaf is full.
    ///
    /// # Errors
    ///
    /// Those of `insert`.
    pub fn insert_full(
        &mut self,
        key: K,
        value: V,
        pool: &mut NodePool<K, V, N>,
    ) -> Result<Node, OutOfMemory>
        requires union { IsUnion N pool.old }
        requires placed { Placing pool.old self.old }
        requires full { IsFullAt N pool.old.nodes (leaf_of self.old) }

        ensures { InsertsHere pool.old pool.new self.old self.new key value result }
    {
        pool.reserve(self.needed_here(pool))?;
        self.split_leaf(key, value, pool);
        Ok(self.root())
    }

    // The root of the path's tree.
    pub(super) fn root(&self) -> Node
        requires some { 0 < self.now.size }
        requires height { self.now.size ≤ most_levels }
        ensures { result ≡ top_of self.now.node self.now.size }
    {
        self.node[self.size - 1]
    }

    /// How many nodes an insertion here takes: one for each full node from the leaf upwards, and one for a new root where all are full.
    pub fn needed(&self, pool: &NodePool<K, V, N>) -> u32
        requires union { IsUnion N pool.now }
        requires placed { Placing pool.now self.now }
        ensures value { (at : Placing pool.now self.now) → result
            ≡ need N at.place (sizes_under pool.now at.root) }
    {
        self.needed_here(pool)
    }

    // The nodes that an insertion takes, for a path whose tree is not named by its root.
    fn needed_here(&self, pool: &NodePool<K, V, N>) -> u32
        requires height { self.now.size ≤ most_levels }
        requires placed { (tree : Tree K V) × (place : ℕ) × Placed N pool.now self.now.node self.now.entry
            self.now.size tree place }
        ensures value { (tree : Tree K V) (place : ℕ) → Placed N pool.now self.now.node self.now.entry
            self.now.size tree place → result ≡ need N place (sizes_of tree) }
    {
        if pool.node(self.node[0]).is_full() {
            self.needed_above(1, pool)
        } else {
            0
        }
    }

    // How many nodes a split of the path's node below level `up` takes.
    #[tactic(auto, using(crate::proofs::removal::Asked::one_low))]
    fn needed_above(&self, up: usize, pool: &NodePool<K, V, N>) -> u32
        requires height { self.now.size ≤ most_levels }
        requires pending { OneAbove pool.now self.now.node self.now.entry up self.now.size }
        ensures value { (w : OneAbove pool.now self.now.node self.now.entry up self.now.size)
            → result ≡ need_above (Some (length w.before)) (map sizes w.rows) }
        ensures few { result + up ≤ 2 + self.now.size }
    {
        if up == self.size {
            2
        } else if pool.node(self.node[up]).is_full() {
            self.needed_above(up + 1, pool) + 1
        } else {
            1
        }
    }

    // Inserts the entry into the path's leaf. Where there is no room it returns false, and changes nothing.
    fn put_here(&self, key: K, value: V, pool: &mut NodePool<K, V, N>) -> bool
        requires placed { (tree : Tree K V) × (place : ℕ) × Placed N pool.old self.now.node self.now.entry
            self.now.size tree place }
        ensures inserted { result ≡ true → (tree : Tree K V) (place : ℕ)
            → Placed N pool.old self.now.node self.now.entry self.now.size tree place
            → Inserted N pool.old pool.new self.now.node self.now.entry self.now.node self.now.entry
            self.now.size self.now.size tree place (key, value) }
        ensures full { result ≡ false → IsFullAt N pool.old.nodes (get_or self.now.node 0 0) }
        ensures pool { result ≡ false → pool.new ≡ pool.old }
    {
        put_entry(pool, self.node[0], self.entry[0] as usize, key, value)
    }

    // Splits the path's full leaf, and inserts the entry into one half.
    fn split_leaf(&mut self, key: K, value: V, pool: &mut NodePool<K, V, N>)
        requires height { self.old.size ≤ most_levels }
        requires full { IsFullAt N pool.old.nodes (get_or self.old.node 0 0) }
        requires placed { (tree : Tree K V) × (place : ℕ) × Placed N pool.old self.old.node self.old.entry
            self.old.size tree place × (need N place (sizes_of tree) ≤ length pool.old.chain)
            × (length (growth N place (sizes_of tree)) ≤ most_levels) }
        ensures inserted { (tree : Tree K V) (place : ℕ) → Placed N pool.old self.old.node self.old.entry
            self.old.size tree place → Inserted N pool.old pool.new self.old.node self.old.entry self.new.node
            self.new.entry self.old.size self.new.size tree place (key, value) }
    {
        let leaf = self.node[0];
        let half = self.halve_leaf(key, value, pool);
        self.insert_above(1, leaf, half, pool);
    }

    // Splits the path's full leaf, and inserts the entry into one half, to which the path moves. Returns the right half.
    fn halve_leaf(&mut self, key: K, value: V, pool: &mut NodePool<K, V, N>) -> RightHalf<K>
        requires room { 0 < length pool.old.chain }
        requires full { IsFullAt N pool.old.nodes (get_or self.old.node 0 0) }
        requires placed { (tree : Tree K V) × (place : ℕ) × Placed N pool.old self.old.node self.old.entry
            self.old.size tree place }
        ensures halved { (tree : Tree K V) (place : ℕ) → Placed N pool.old self.old.node self.old.entry
            self.old.size tree place → LeafHalved N pool.old pool.new self.old.node self.old.entry
            self.new.node self.new.entry self.old.size tree place (key, value) result.key result.node result.moved }
        ensures size { self.new.size ≡ self.old.size }
    {
        let leaf = self.node[0];
        let index = self.entry[0] as usize;
        let (right, halves) = pool.split_node(leaf, index);
        let first = halves.crit_key;
        if index <= N / 2 {
            let _room = put_entry(pool, leaf, index, key, value);
            RightHalf {
                key: first,
                node: right,
                moved: false,
            }
        } else {
            let behind = index - halves.lhs_entries;
            let _room = put_entry(pool, right, behind, key, value);
            self.node[0] = right;
            self.entry[0] = behind as u8;
            RightHalf {
                key: first_key(behind, key, first),
                node: right,
                moved: true,
            }
        }
    }

    // Inserts the right half after `left`, the other half of the split node, which is or was the path's node below level `up`. The path
    // moves to the right half if it moved there below.
    fn insert_above(
        &mut self,
        up: usize,
        left: Node,
        half: RightHalf<K>,
        pool: &mut NodePool<K, V, N>,
    )
        requires height { self.old.size ≤ most_levels }
        requires pending { (w : OneAbove pool.old self.old.node self.old.entry up self.old.size)
            × (w.x.1 ≡ left)
            × (need_above (Some (length w.before)) (map sizes w.rows) ≤ suc (length pool.old.chain))
            × (up + length (gain_above (Some (length w.before)) (map sizes w.rows)) ≤ most_levels) }
        ensures { (w : OneAbove pool.old self.old.node self.old.entry up self.old.size) → w.x.1 ≡ left
            → (taken : List ℕ) × GrownBy w (half.key, half.node) half.moved pool.new self.new.node
            self.new.entry self.new.size taken }
    {
        if up == self.size {
            self.push_root(left, half, pool);
        } else if !self.insert_here(up, half, pool) {
            let node = self.node[up];
            let next = self.split_here(up, half, pool);
            self.insert_above(up + 1, node, next, pool);
        }
    }

    // Makes a new root of the old root `left` and of the right half.
    fn push_root(&mut self, left: Node, half: RightHalf<K>, pool: &mut NodePool<K, V, N>)
        requires height { self.old.size ≤ top_level }
        requires room { 0 < length pool.old.chain }
        ensures { (w : OneAbove pool.old self.old.node self.old.entry self.old.size self.old.size)
            → w.x.1 ≡ left → (taken : List ℕ) × GrownBy w (half.key, half.node) half.moved pool.new
            self.new.node self.new.entry self.new.size taken }
    {
        let root = pool.inner_node(left, half.key, half.node);
        self.node[self.size] = root;
        self.entry[self.size] = index_behind(0, half.moved) as u8;
        self.size += 1;
    }

    // Inserts the right half into the path's node on level `up`, after the path's child. Where there is no room it returns false, and
    // changes nothing.
    fn insert_here(&mut self, up: usize, half: RightHalf<K>, pool: &mut NodePool<K, V, N>) -> bool
        requires height { self.old.size ≤ most_levels }
        requires within { up < self.old.size }
        requires pending { OneAbove pool.old self.old.node self.old.entry up self.old.size }
        ensures grown { result ≡ true → (w : OneAbove pool.old self.old.node self.old.entry up self.old.size)
            → GrownBy w (half.key, half.node) half.moved pool.new self.new.node self.new.entry
            self.new.size [] }
        ensures full { result ≡ false → IsFullAt N pool.old.nodes (get_or self.old.node up 0) }
        ensures pool { result ≡ false → pool.new ≡ pool.old }
        ensures path { result ≡ false → self.new ≡ self.old }
        ensures size { self.new.size ≡ self.old.size }
    {
        let node = self.node[up];
        let entry = self.entry[up] as usize;
        if put_child(pool, node, entry, half.key, half.node) {
            self.entry[up] = index_behind(entry, half.moved) as u8;
            true
        } else {
            false
        }
    }

    // Splits the path's full node on level `up`, and inserts the right half of the level below after the path's child. The path moves to
    // the half with its place. Returns the right half of this level.
    fn split_here(
        &mut self,
        up: usize,
        half: RightHalf<K>,
        pool: &mut NodePool<K, V, N>,
    ) -> RightHalf<K>
        requires height { self.old.size ≤ most_levels }
        requires within { up < self.old.size }
        requires room { 0 < length pool.old.chain }
        requires full { IsFullAt N pool.old.nodes (get_or self.old.node up 0) }
        requires pending { OneAbove pool.old self.old.node self.old.entry up self.old.size }
        ensures halved { (w : OneAbove pool.old self.old.node self.old.entry up self.old.size)
            → HalvedBy w (half.key, half.node) half.moved pool.new self.new.node self.new.entry result.key
            result.node result.moved }
        ensures size { self.new.size ≡ self.old.size }
    {
        let node = self.node[up];
        let entry = self.entry[up] as usize;
        let (right, halves) = pool.split_node(node, entry);
        if entry < MIN_CHILDREN {
            let _room = put_child(pool, node, entry, half.key, half.node);
            self.entry[up] = index_behind(entry, half.moved) as u8;
            RightHalf {
                key: halves.crit_key,
                node: right,
                moved: false,
            }
        } else {
            let _room = put_child(pool, right, entry - MIN_CHILDREN, half.key, half.node);
            self.node[up] = right;
            self.entry[up] = index_behind(entry - MIN_CHILDREN, half.moved) as u8;
            RightHalf {
                key: halves.crit_key,
                node: right,
                moved: true,
            }
        }
    }
}

// The index, or the next one if the path moved to the right half.
fn index_behind(index: usize, moved: bool) -> usize
    requires { index < 8 }
    ensures value { result ≡ (if moved then suc index else index) }
    ensures most { result ≤ 8 }
{
    if moved { index + 1 } else { index }
}

// The first key of a leaf whose first key was `first`, after an insertion at the index.
pub(super) fn first_key<K: Copy>(index: usize, key: K, first: K) -> K
    ensures front { index ≡ 0 → result ≡ key }
    ensures behind { 0 < index → result ≡ first }
{
    if index == 0 { key } else { first }
}
