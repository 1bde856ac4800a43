//! The way from a root down to a leaf, in one word.
ghost use Rattle.std.specs.Prelude.{length, slice_get, ◌≡◌, ℕ, suc, ◌+◌, ◌-◌, ◌*◌, ◌/◌, ◌%◌, ◌^◌, ◌<◌, ◌≤◌, List, None, Some, IfSome, IsTrue, true, false};
ghost use Rattle.bforest_core.specs.Change.{Shrinks};
ghost use Rattle.bforest_core.specs.Climb.{Inserted};
ghost use Rattle.bforest_core.specs.Levels.{LevelNode, Tree, sizes_of};
ghost use Rattle.bforest_core.specs.Paths.{list_under};
ghost use Rattle.bforest_core.specs.Sizes.{need};
ghost use Rattle.bforest_core.specs.Table.{IsFullAt, Table};
ghost use Rattle.bforest_core.specs.Removal.{LeafLoss, Shrunk, Trimmed, UpTo};
ghost use Rattle.bforest_core.specs.Trees.{IsUnion, is_root, tree_of};
ghost use Rattle.bforest_core.specs.Ways.{CountsAt, EndsOnWay, Follows, HalvedOn, InsertsAt, LeadsUp, OnWay, PlacedIn, PlacedOn, Retraces, ShortOn, ShrinksOn, TakenOn};
ghost use Rattle.bforest_nodes.specs.Content.{Content, entry_count};
ghost use Rattle.bforest_nodes.specs.Entries.{IsIncreasing};

use crate::access::{
    child, entries, follow, last_index, leaf_key, put_child, put_entry, remove_child, remove_entry,
    separator, set_separator,
};
use crate::path::insert::first_key;
use crate::path::{MIN_CHILDREN, Path};
use crate::pool::{NodePool, OutOfMemory};
use bforest_nodes::{Comparator, Node};

/// The way from a root down to a leaf, as a number with an octal digit for each inner node on it: the index of the child at which it goes
/// on. The digit of the leaf's parent is the last.
#[derive(Clone, Copy, Drop)]
pub struct Way {
    code: u64,
    leaf: Node,
    // The leaf's parent, or the leaf where it has none.
    parent: Node,
    // How many digits there are.
    height: u32,
}

impl Way {
    /// The way to the leaf in which a search for `key` ends in the tree under `root`.
    #[inline(always)]
    pub fn find<K: Copy, V: Copy, const N: usize, C: Comparator<K>>(
        key: K,
        root: Node,
        pool: &NodePool<K, V, N>,
        comp: &C,
    ) -> Way
        requires union { IsUnion N pool.now }
        requires root { IsTrue (is_root pool.now.nodes root) }
        requires increasing { IsIncreasing (C.order comp.now) (list_under pool.now root) }
        ensures ends { EndsOnWay (C.order comp.now) pool.now root key result }
    {
        let mut way = Way::root(root);
        while pool.node(way.leaf).is_inner() {
            let (index, child) = follow(pool, way.leaf, key, comp);
            way = way.below(index, child);
        }
        way
    }

    /// The way to the first leaf of the tree under `root`.
    #[inline(always)]
    pub fn first<K: Copy, V: Copy, const N: usize>(root: Node, pool: &NodePool<K, V, N>) -> Way
        requires union { IsUnion N pool.now }
        requires root { IsTrue (is_root pool.now.nodes root) }
        ensures first { OnWay pool.now root result 0 0 }
    {
        let mut way = Way::root(root);
        while pool.node(way.leaf).is_inner() {
            let first = child(pool, way.leaf, 0);
            way = way.below(0, first);
        }
        way
    }

    /// The way to the last leaf of the tree under `root`.
    #[inline(always)]
    pub fn last<K: Copy, V: Copy, const N: usize>(root: Node, pool: &NodePool<K, V, N>) -> Way
        requires union { IsUnion N pool.now }
        requires root { IsTrue (is_root pool.now.nodes root) }
        ensures last { (index : ℕ)
            × OnWay pool.now root result index (length (list_under pool.now root) - 1) }
    {
        let mut way = Way::root(root);
        while pool.node(way.leaf).is_inner() {
            let index = last_index(pool, way.leaf);
            let last = child(pool, way.leaf, index);
            way = way.below(index, last);
        }
        way
    }

    /// The leaf.
    #[inline(always)]
    pub fn leaf(&self) -> Node
        ensures leaf { result ≡ self.now.leaf }
    {
        self.leaf
    }

    // The way to a root, as far as it is the leaf.
    #[inline(always)]
    fn root(root: Node) -> Way
        ensures code { result.code ≡ 0 }
        ensures leaf { result.leaf ≡ root }
        ensures parent { result.parent ≡ root }
        ensures height { result.height ≡ 0 }
    {
        Way {
            code: 0,
            leaf: root,
            parent: root,
            height: 0,
        }
    }

    // One level down, to a child at an index.
    #[inline(always)]
    fn below(self, index: usize, child: Node) -> Way
        requires code { self.code < 35184372088832 }
        requires height { self.height < 16 }
        requires index { index < 8 }
        ensures code { result.code ≡ self.code * 8 + index }
        ensures leaf { result.leaf ≡ child }
        ensures parent { result.parent ≡ self.leaf }
        ensures height { result.height ≡ suc self.height }
    {
        Way {
            code: self.code * 8 + index as u64,
            leaf: child,
            parent: self.leaf,
            height: self.height + 1,
        }
    }

    // The index of the child at which the way goes on, this many levels above the leaf's parent.
    #[inline(always)]
    fn digit(&self, level: u32) -> usize
        requires level { level ≤ 16 }
        ensures digit { result ≡ self.now.code / 2 ^ (3 * level) % 8 }
    {
        ((self.code >> (3 * level)) % 8) as usize
    }
}

impl<K: Copy, V: Copy, const N: usize> Path<K, V, N> {
    // Goes a way, to an index in its leaf.
    pub(super) fn go(&mut self, way: &Way, index: usize, root: Node, pool: &NodePool<K, V, N>)
        requires most { index ≤ 255 }
        requires up { (path indices : List ℕ) × (size : ℕ) × Follows way.now path indices size
            × LeadsUp pool.now.nodes root path indices size }
        ensures went { (path indices : List ℕ) (size : ℕ) → Follows way.now path indices size
            → LeadsUp pool.now.nodes root path indices size
            → Retraces path indices size index self.new.node self.new.entry self.new.size }
    {
        let (mut node, mut level) = (root, way.height);
        self.size = level as usize + 1;
        while level > 0 {
            let digit = way.digit(level - 1);
            self.set_level(level as usize, node, digit);
            node = child(pool, node, digit);
            level -= 1;
        }
        self.set_level(0, node, index);
    }
}

impl<K: Copy, V: Copy, const N: usize> NodePool<K, V, N> {
    /// Removes the first entry of the tree under `root`. Returns it, and the root that the tree has then, or `None` if it is empty.
    pub fn take_first(&mut self, root: Node) -> ((K, V), Option<Node>)
        requires union { IsUnion N self.old }
        requires root { IsTrue (is_root self.old.nodes root) }
        ensures entry { slice_get (list_under self.old root) 0 ≡ Some result.0 }
        ensures taken { (nodes : List ℕ) × Shrinks N self.old self.new nodes root 0 result.1 }
    {
        let way = Way::first(root, self);
        let entry = self.node(way.leaf).entry(0);
        remove_entry(self, way.leaf, 0);
        if way.height == 0 {
            return (entry, self.heal_alone(root));
        }
        (entry, self.heal_on(&way, 0, root))
    }

    /// Removes the last entry of the tree under `root`. Returns it, and the root that the tree has then, or `None` if it is empty.
    pub fn take_last(&mut self, root: Node) -> ((K, V), Option<Node>)
        requires union { IsUnion N self.old }
        requires root { IsTrue (is_root self.old.nodes root) }
        ensures entry { slice_get (list_under self.old root) (length (list_under self.old root) - 1)
            ≡ Some result.0 }
        ensures taken { (nodes : List ℕ)
            × Shrinks N self.old self.new nodes root (length (list_under self.old root) - 1) result.1 }
    {
        let way = Way::last(root, self);
        let last = last_index(self, way.leaf);
        let entry = self.node(way.leaf).entry(last);
        remove_entry(self, way.leaf, last);
        if last > 0 {
            // The last leaf of a tree may have any number of entries.
            return (entry, Some(root));
        }
        if way.height == 0 {
            return (entry, self.heal_alone(root));
        }
        (entry, self.heal_far(&way, last, root))
    }

    /// Restores the tree under `root` after the leaf of a way lost the entry at an index, and nothing else changed. Returns the root that
    /// the tree has then, or `None` if it is empty.
    #[inline(always)]
    pub fn heal_on(&mut self, way: &Way, index: usize, root: Node) -> Option<Node>
        requires most { index ≤ 255 }
        requires taken { (old : Table K V) × (place : ℕ) × TakenOn N old self.old root way.now index place }
        ensures healed { (old : Table K V) (place : ℕ) (t : TakenOn N old self.old root way.now index place)
            → ShrinksOn N old self.new root place t.path t.size result }
    {
        if entries(self, way.leaf) <= N / 2 {
            return self.heal_short(way, index, root);
        }
        if self.renew_near(way, index) {
            return Some(root);
        }
        self.heal_far(way, index, root)
    }

    // Gives the leaf's first key, where the leaf lost its first entry and has others, to the row of its parent. Where a row further up has
    // it, it returns false, and changes nothing.
    #[inline(always)]
    fn renew_near(&mut self, way: &Way, index: usize) -> bool
        requires taken { (old : Table K V) × (root place : ℕ)
            × TakenOn N old self.old root way.now index place }
        requires some { (content : Content K V) → slice_get self.old.nodes way.now.leaf ≡ Some content
            → 0 < entry_count content }
        ensures renewed { result ≡ true → (old : Table K V) (root place : ℕ)
            → (t : TakenOn N old self.old root way.now index place)
            → LeafLoss N old self.new t.path t.indices t.size (tree_of old.nodes root) place }
        ensures children { (m : ℕ) → CountsAt self.old way.now.parent m → CountsAt self.new way.now.parent m }
        ensures same { result ≡ false → self.new ≡ self.old }
    {
        if index > 0 {
            return true;
        }
        let digit = way.digit(0);
        if digit > 0 {
            let key = leaf_key(self, way.leaf);
            set_separator(self, way.parent, digit - 1, key);
            return true;
        }
        // No row names the first leaf of a tree by its key.
        way.code == 0
    }

    // Restores the tree where the leaf has too few entries.
    #[inline(never)]
    fn heal_short(&mut self, way: &Way, index: usize, root: Node) -> Option<Node>
        requires most { index ≤ 255 }
        requires taken { (old : Table K V) × (place : ℕ) × TakenOn N old self.old root way.now index place }
        requires short { (content : Content K V) → slice_get self.old.nodes way.now.leaf ≡ Some content
            → entry_count content ≤ N / 2 }
        ensures healed { (old : Table K V) (place : ℕ) (t : TakenOn N old self.old root way.now index place)
            → ShrinksOn N old self.new root place t.path t.size result }
    {
        match self.heal_beside(way, index, root) {
            Some(root) => Some(root),
            None => self.heal_far(way, index, root),
        }
    }

    // Restores the tree where the leaf has too few entries, and no node but it, its parent and its right neighbour there has to change, and
    // returns its root. Else it returns `None`, and changes nothing.
    #[inline(always)]
    fn heal_beside(&mut self, way: &Way, index: usize, root: Node) -> Option<Node>
        requires taken { (old : Table K V) × (place : ℕ) × TakenOn N old self.old root way.now index place }
        requires short { (content : Content K V) → slice_get self.old.nodes way.now.leaf ≡ Some content
            → entry_count content ≤ N / 2 }
        ensures healed { IfSome result (λ left. (old : Table K V) (place : ℕ)
            → (t : TakenOn N old self.old root way.now index place)
            → ShrinksOn N old self.new root place t.path t.size (Some left)) }
        ensures same { result ≡ None → self.new ≡ self.old }
    {
        if way.height == 0 {
            return None;
        }
        let children = entries(self, way.parent);
        if way.height > 1 && children <= MIN_CHILDREN {
            return None;
        }
        if way.digit(0) + 1 >= children {
            return None;
        }
        if !self.renew_near(way, index) {
            return None;
        }
        Some(self.balance_on(way, root))
    }

    // Fills the short leaf of a way from its right neighbour, or merges it into the neighbour. Returns the tree's root.
    fn balance_on(&mut self, way: &Way, root: Node) -> Node
        requires short { ShortOn N self.old root way.now }
        ensures { (s : ShortOn N self.old root way.now)
            → Shrunk N s.unbalanced.old self.new s.path s.unbalanced.tree s.unbalanced.place result }
    {
        let digit = way.digit(0);
        let key = separator(self, way.parent, digit);
        let right = child(self, way.parent, digit + 1);
        match self.balance_nodes(way.leaf, key, right) {
            Some(new_key) => {
                set_separator(self, way.parent, digit, new_key);
                root
            }
            None => {
                self.free_node(way.leaf);
                // The removal of the first child takes the first separator with it, so it does not matter which key was written there.
                let low = separator(self, way.parent, digit.saturating_sub(1));
                set_separator(self, way.parent, digit, low);
                let _answer = remove_child(self, way.parent, digit);
                self.collapse_on(way, root)
            }
        }
    }

    // Discards and frees a root with a single child. Returns the root that stays.
    fn collapse_on(&mut self, way: &Way, root: Node) -> Node
        requires height { way.now.height ≤ 16 }
        requires rooted { (rows : List (List (LevelNode K ℕ))) × (list : List (K × ℕ))
            × UpTo self.old (way.now.height + 1) rows list root }
        ensures { (size : ℕ) × ((rows : List (List (LevelNode K ℕ))) (list : List (K × ℕ))
            → UpTo self.old (way.now.height + 1) rows list root → (freed : List ℕ)
            × Trimmed self.old self.new (way.now.height + 1) size rows list root result freed) }
    {
        // Of the path only its height counts.
        let mut path = Path {
            size: way.height as usize + 1,
            ..Path::default()
        };
        path.collapse_root(root, self)
    }

    // Restores the tree by a path.
    #[inline(never)]
    fn heal_far(&mut self, way: &Way, index: usize, root: Node) -> Option<Node>
        requires most { index ≤ 255 }
        requires taken { (old : Table K V) × (place : ℕ) × TakenOn N old self.old root way.now index place }
        ensures healed { (old : Table K V) (place : ℕ) (t : TakenOn N old self.old root way.now index place)
            → ShrinksOn N old self.new root place t.path t.size result }
    {
        let mut path = Path::default();
        path.go(way, index, root, self);
        path.heal(root, self)
    }

    /// Inserts an absent key at an index of the leaf of a way. Returns the root of its tree. Where the leaf has room, nothing else changes.
    ///
    /// # Errors
    ///
    /// Those of `Path::insert`.
    #[inline(always)]
    pub fn insert_on(
        &mut self,
        way: &Way,
        index: usize,
        root: Node,
        key: K,
        value: V,
    ) -> Result<Node, OutOfMemory>
        requires union { IsUnion N self.old }
        requires most { index ≤ 255 }
        requires placed { (place : ℕ) × PlacedOn self.old root way.now index place }
        ensures put { (place : ℕ) → PlacedOn self.old root way.now index place
            → InsertsAt N self.old self.new root place key value result }
    {
        if put_entry(self, way.leaf, index, key, value) {
            return Ok(root);
        }
        self.put_on(way, index, root, key, value)
    }

    /// Inserts an absent key at an index of the full leaf of a way. Returns the root of its tree.
    ///
    /// # Errors
    ///
    /// Those of `Path::insert`.
    #[inline(never)]
    pub fn put_on(
        &mut self,
        way: &Way,
        index: usize,
        root: Node,
        key: K,
        value: V,
    ) -> Result<Node, OutOfMemory>
        requires union { IsUnion N self.old }
        requires most { index ≤ 255 }
        requires placed { (place : ℕ) × PlacedOn self.old root way.now index place }
        requires full { IsFullAt N self.old.nodes way.now.leaf }
        ensures put { (place : ℕ) → PlacedOn self.old root way.now index place
            → InsertsAt N self.old self.new root place key value result }
    {
        if self.node(way.parent).is_full() {
            return self.put_far(way, index, root, key, value);
        }
        self.reserve(1)?;
        self.split_on(way, index, key, value);
        Ok(root)
    }

    // Splits the full leaf of a way, whose parent has room, and inserts an entry at an index.
    #[inline(always)]
    fn split_on(&mut self, way: &Way, index: usize, key: K, value: V)
        requires full { IsFullAt N self.old.nodes way.now.leaf }
        requires room { 0 < length self.old.chain }
        requires placed { (tree : Tree K V) × (place : ℕ) × PlacedIn N self.old way.now index tree place
            × (need N place (sizes_of tree) ≡ 1) }
        ensures { (tree : Tree K V) (place : ℕ) (w : PlacedIn N self.old way.now index tree place)
            → need N place (sizes_of tree) ≡ 1 → (path indices : List ℕ)
            × Inserted N self.old self.new w.path w.indices path indices w.size w.size tree place (key, value) }
    {
        let (first, right) = self.halve_on(way, index, key, value);
        let _room = put_child(self, way.parent, way.digit(0), first, right);
    }

    // Splits the full leaf of a way, and inserts an entry into one half. Returns the right half, and the first key there in front of it.
    #[inline(always)]
    fn halve_on(&mut self, way: &Way, index: usize, key: K, value: V) -> (K, Node)
        requires full { IsFullAt N self.old.nodes way.now.leaf }
        requires room { 0 < length self.old.chain }
        requires placed { (tree : Tree K V) × (place : ℕ) × PlacedIn N self.old way.now index tree place }
        ensures { (tree : Tree K V) (place : ℕ) (w : PlacedIn N self.old way.now index tree place)
            → HalvedOn N self.old self.new w.path w.indices w.size tree place (key, value) result.0 result.1 }
    {
        let (right, halves) = self.split_node(way.leaf, index);
        if index <= N / 2 {
            let _room = put_entry(self, way.leaf, index, key, value);
            return (halves.crit_key, right);
        }
        let behind = index - halves.lhs_entries;
        let _room = put_entry(self, right, behind, key, value);
        (first_key(behind, key, halves.crit_key), right)
    }

    // Inserts an absent key by a path.
    #[inline(never)]
    fn put_far(
        &mut self,
        way: &Way,
        index: usize,
        root: Node,
        key: K,
        value: V,
    ) -> Result<Node, OutOfMemory>
        requires union { IsUnion N self.old }
        requires most { index ≤ 255 }
        requires placed { (place : ℕ) × PlacedOn self.old root way.now index place }
        requires full { IsFullAt N self.old.nodes way.now.leaf }
        ensures { (place : ℕ) → PlacedOn self.old root way.now index place
            → InsertsAt N self.old self.new root place key value result }
    {
        let mut path = Path::default();
        path.go(way, index, root, self);
        path.insert_full(key, value, self)
    }
}
