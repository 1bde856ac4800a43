//! The place of a leaf in its tree, in one word.
ghost use Rattle.std.specs.Prelude.{◌≡◌, ◌≢◌, ℕ, suc, ◌+◌, ◌-◌, ◌*◌, ◌<◌, ◌≤◌, ◌/◌, ◌%◌, ◌++◌, ◌∷◌, IfSome, IsTrue, List, length, slice_get, Some, None, true, false};
ghost use Rattle.std.specs.List.Sorted.{IsStrictlySortedBy};
ghost use Rattle.std.specs.Ordering.{is_gt};
ghost use Rattle.bforest_core.specs.Leaves.{SearchSpot, EndsOn, SearchEndsAt};
ghost use Rattle.bforest_core.specs.Levels.{LevelNode, heads};
ghost use Rattle.bforest_core.specs.Paths.{list_under};
ghost use Rattle.bforest_core.specs.Trees.{IsUnion, is_root, tree_of};
ghost use Rattle.bforest_nodes.specs.Content.{Content, Inner, IsInner, IsLeafCapacity, entry_count};
ghost use Rattle.bforest_nodes.specs.Entries.{IsIncreasing};
ghost use Rattle.bforest_core.specs.Descent.{child_index};
ghost use Rattle.bforest_core.specs.Spots.{BeginsWith, HasBeside, HasNone, IsBesideOf, IsNearest, IsLower, Leads, HasNext, HasNoParent, HasPrev, HasUnder, IsLeafAt, IsSpotAt, IsTurn, IsWay, NumberAt, OnUnder, SearchAt, SpotOn, Way, backwards, leaf_count, leaf_place, nearest, onwards, toward};

use crate::access::{child, child_count, follow, last_index, separator};
use crate::pool::NodePool;
use bforest_nodes::{Comparator, Node};

/// The place of a leaf in its tree, as the way from the root down to it. The way is a number with one octal digit for each inner node on
/// it: the index of the child at which it goes on. The digit of the leaf's parent is the last.
#[derive(Clone, Copy, Drop)]
pub struct Spot {
    code: u64,
    // The leaf's parent, where it has one.
    parent: Node,
    // The parent of that, where it has one.
    grand: Node,
    // How many digits there are.
    height: u32,
}

impl Spot {
    /// The spot of the only leaf of a tree.
    pub fn root(root: Node) -> Spot
        ensures code { result.code ≡ 0 }
        ensures height { result.height ≡ 0 }
    {
        Spot {
            code: 0,
            parent: root,
            grand: root,
            height: 0,
        }
    }

    /// A number for the leaf: of two leaves of a tree, the one in front has the lower number.
    #[inline(always)]
    pub fn code(&self) -> u64
        ensures code { result ≡ self.now.code }
    {
        self.code
    }

    /// The leaf. One index, where it has a parent.
    #[inline(always)]
    pub fn leaf<K: Copy, V: Copy, const N: usize>(
        &self,
        root: Node,
        pool: &NodePool<K, V, N>,
    ) -> Node
        requires union { IsUnion N pool.now }
        requires spot { (place : ℕ) × IsSpotAt pool.now root self.now place }
        ensures leaf { (place : ℕ) → IsSpotAt pool.now root self.now place
            → IsLeafAt pool.now root place result }
    {
        if self.height == 0 {
            return root;
        }
        child(pool, self.parent, (self.code % 8) as usize)
    }

    /// The first leaf below a root, and its place.
    #[inline(always)]
    pub fn first<K: Copy, V: Copy, const N: usize>(
        root: Node,
        pool: &NodePool<K, V, N>,
    ) -> (Spot, Node)
        requires union { IsUnion N pool.now }
        requires root { IsTrue (is_root pool.now.nodes root) }
        ensures spot { IsSpotAt pool.now root result.0 0 }
        ensures leaf { IsLeafAt pool.now root 0 result.1 }
    {
        if !pool.node(root).is_inner() {
            return (Spot::root(root), root);
        }
        end_below(true, Spot::root(root), root, pool)
    }

    /// The last leaf below a root, and its place.
    #[inline(always)]
    pub fn last<K: Copy, V: Copy, const N: usize>(
        root: Node,
        pool: &NodePool<K, V, N>,
    ) -> (Spot, Node)
        requires union { IsUnion N pool.now }
        requires root { IsTrue (is_root pool.now.nodes root) }
        ensures spot { IsSpotAt pool.now root result.0 (leaf_count pool.now root - 1) }
        ensures leaf { IsLeafAt pool.now root (leaf_count pool.now root - 1) result.1 }
    {
        if pool.node(root).is_inner() {
            end_below(false, Spot::root(root), root, pool)
        } else {
            (Spot::root(root), root)
        }
    }

    /// The next leaf, and its place, if there is one. A spot without a parent has none.
    #[inline(always)]
    pub fn next<K: Copy, V: Copy, const N: usize>(
        &self,
        root: Node,
        pool: &NodePool<K, V, N>,
    ) -> Option<(Spot, Node)>
        requires union { IsUnion N pool.now }
        requires spot { (¬ HasNoParent self.now) → (place : ℕ) × IsSpotAt pool.now root self.now place }
        ensures some { IfSome result (λ found. (place : ℕ) → IsSpotAt pool.now root self.now place
            → IsSpotAt pool.now root found.0 (suc place) × IsLeafAt pool.now root (suc place) found.1) }
        ensures none { result ≡ None → (place : ℕ) → IsSpotAt pool.now root self.now place
            → suc place ≡ leaf_count pool.now root }
        ensures alone { HasNoParent self.now → result ≡ None }
    {
        if self.has_next(pool) {
            return Some(self.next_sibling(pool));
        }
        if self.height < 2 {
            return None;
        }
        self.next_cousin(root, pool)
    }

    // One level down.
    #[inline(always)]
    fn below(&self, node: Node, index: usize) -> Spot
        requires code { self.now.code < 35184372088832 }
        requires height { self.now.height < 16 }
        requires index { index < 8 }
        ensures code { result.code ≡ self.now.code * 8 + index }
        ensures parent { result.parent ≡ node }
        ensures grand { result.grand ≡ self.now.parent }
        ensures height { result.height ≡ suc self.now.height }
    {
        Spot {
            code: self.code * 8 + index as u64,
            parent: node,
            grand: self.parent,
            height: self.height + 1,
        }
    }

    // Whether the next leaf has the same parent.
    #[inline(always)]
    fn has_next<K: Copy, V: Copy, const N: usize>(&self, pool: &NodePool<K, V, N>) -> bool
        requires union { IsUnion N pool.now }
        requires spot { (¬ HasNoParent self.now) → SpotOn pool.now self.now }
        ensures next { result ≡ true → HasNext pool.now self.now }
        ensures none { result ≡ false → ¬ HasNext pool.now self.now }
    {
        if self.height == 0 {
            return false;
        }
        (self.code % 8) as usize + 1 < child_count(pool, self.parent)
    }

    // The next leaf, which has the same parent, and its place.
    #[inline(always)]
    fn next_sibling<K: Copy, V: Copy, const N: usize>(
        &self,
        pool: &NodePool<K, V, N>,
    ) -> (Spot, Node)
        requires union { IsUnion N pool.now }
        requires spot { SpotOn pool.now self.now }
        requires next { HasNext pool.now self.now }
        ensures leaf { (root place : ℕ) → IsSpotAt pool.now root self.now place
            → IsLeafAt pool.now root (suc place) result.1 }
        ensures spot { (root place : ℕ) → IsSpotAt pool.now root self.now place
            → IsSpotAt pool.now root result.0 (suc place) }
    {
        let leaf = child(pool, self.parent, (self.code % 8) as usize + 1);
        let spot = Spot {
            code: self.code + 1,
            parent: self.parent,
            grand: self.grand,
            height: self.height,
        };
        (spot, leaf)
    }

    // The next leaf, and its place, if there is one, where it has another parent.
    #[inline(always)]
    fn next_cousin<K: Copy, V: Copy, const N: usize>(
        &self,
        root: Node,
        pool: &NodePool<K, V, N>,
    ) -> Option<(Spot, Node)>
        requires union { IsUnion N pool.now }
        requires spot { (place : ℕ) × IsSpotAt pool.now root self.now place }
        requires deep { 2 ≤ self.now.height }
        requires last { ¬ HasNext pool.now self.now }
        ensures some { IfSome result (λ found. (place : ℕ) → IsSpotAt pool.now root self.now place
            → IsSpotAt pool.now root found.0 (suc place) × IsLeafAt pool.now root (suc place) found.1) }
        ensures none { result ≡ None → (place : ℕ) → IsSpotAt pool.now root self.now place
            → suc place ≡ leaf_count pool.now root }
    {
        let index = (self.code / 8 % 8) as usize + 1;
        if index < child_count(pool, self.grand) {
            let parent = child(pool, self.grand, index);
            let leaf = child(pool, parent, 0);
            let spot = Spot {
                code: (self.code / 8 + 1) * 8,
                parent,
                grand: self.grand,
                height: self.height,
            };
            return Some((spot, leaf));
        }
        // The height stays as it is, and the compiler sees it.
        let (far, leaf) = next_far(self.code, self.height, root, pool)?;
        let spot = Spot {
            code: far.code,
            parent: far.parent,
            grand: far.grand,
            height: self.height,
        };
        Some((spot, leaf))
    }

    /// The leaf before, and its place, if there is one. A spot without a parent has none.
    #[inline(always)]
    pub fn prev<K: Copy, V: Copy, const N: usize>(
        &self,
        root: Node,
        pool: &NodePool<K, V, N>,
    ) -> Option<(Spot, Node)>
        requires union { IsUnion N pool.now }
        requires spot { (¬ HasNoParent self.now) → (place : ℕ) × IsSpotAt pool.now root self.now place }
        ensures some { IfSome result (λ found. (place : ℕ) → IsSpotAt pool.now root self.now place
            → (0 < place) × IsSpotAt pool.now root found.0 (place - 1)
            × IsLeafAt pool.now root (place - 1) found.1) }
        ensures none { result ≡ None → (place : ℕ) → IsSpotAt pool.now root self.now place → place ≡ 0 }
        ensures alone { HasNoParent self.now → result ≡ None }
    {
        if self.has_prev() {
            return Some(self.prev_sibling(pool));
        }
        self.prev_other(root, pool)
    }

    /// The leaf before, and its place, if there is one, where it has another parent.
    #[inline(always)]
    pub fn prev_other<K: Copy, V: Copy, const N: usize>(
        &self,
        root: Node,
        pool: &NodePool<K, V, N>,
    ) -> Option<(Spot, Node)>
        requires union { IsUnion N pool.now }
        requires spot { (¬ HasNoParent self.now) → (place : ℕ) × IsSpotAt pool.now root self.now place }
        requires first { ¬ HasPrev self.now }
        ensures some { IfSome result (λ found. (place : ℕ) → IsSpotAt pool.now root self.now place
            → (0 < place) × IsSpotAt pool.now root found.0 (place - 1)
            × IsLeafAt pool.now root (place - 1) found.1) }
        ensures none { result ≡ None → (place : ℕ) → IsSpotAt pool.now root self.now place → place ≡ 0 }
        ensures alone { HasNoParent self.now → result ≡ None }
    {
        if self.height < 2 {
            return None;
        }
        self.prev_cousin(root, pool)
    }

    /// Whether the leaf before has the same parent, of a spot whose number is 0 where it has no parent.
    #[inline(always)]
    pub fn follows_sibling(&self) -> bool
        requires plain { HasNoParent self.now → self.now.code ≡ 0 }
        ensures prev { result ≡ true → HasPrev self.now }
        ensures none { result ≡ false → ¬ HasPrev self.now }
    {
        let index = self.code % 8;
        index > 0
    }

    // Whether the leaf before has the same parent.
    #[inline(always)]
    fn has_prev(&self) -> bool
        ensures prev { result ≡ true → HasPrev self.now }
        ensures none { result ≡ false → ¬ HasPrev self.now }
    {
        self.height > 0 && self.code % 8 > 0
    }

    /// The leaf before, which has the same parent, and its place.
    #[inline(always)]
    pub fn prev_sibling<K: Copy, V: Copy, const N: usize>(
        &self,
        pool: &NodePool<K, V, N>,
    ) -> (Spot, Node)
        requires union { IsUnion N pool.now }
        requires spot { SpotOn pool.now self.now }
        requires prev { HasPrev self.now }
        ensures before { (root place : ℕ) → IsSpotAt pool.now root self.now place → (0 < place)
            × IsSpotAt pool.now root result.0 (place - 1) × IsLeafAt pool.now root (place - 1) result.1 }
    {
        let leaf = child(pool, self.parent, (self.code % 8) as usize - 1);
        let spot = Spot {
            code: self.code - 1,
            parent: self.parent,
            grand: self.grand,
            height: self.height,
        };
        (spot, leaf)
    }

    // The leaf before, and its place, if there is one, where it has another parent.
    #[inline(always)]
    fn prev_cousin<K: Copy, V: Copy, const N: usize>(
        &self,
        root: Node,
        pool: &NodePool<K, V, N>,
    ) -> Option<(Spot, Node)>
        requires union { IsUnion N pool.now }
        requires spot { (place : ℕ) × IsSpotAt pool.now root self.now place }
        requires deep { 2 ≤ self.now.height }
        requires first { ¬ HasPrev self.now }
        ensures some { IfSome result (λ found. (place : ℕ) → IsSpotAt pool.now root self.now place
            → (0 < place) × IsSpotAt pool.now root found.0 (place - 1)
            × IsLeafAt pool.now root (place - 1) found.1) }
        ensures none { result ≡ None → (place : ℕ) → IsSpotAt pool.now root self.now place → place ≡ 0 }
    {
        let index = (self.code / 8 % 8) as usize;
        if index > 0 {
            let parent = child(pool, self.grand, index - 1);
            let last = last_index(pool, parent);
            let leaf = child(pool, parent, last);
            let spot = Spot {
                code: (self.code / 8 - 1) * 8 + last as u64,
                parent,
                grand: self.grand,
                height: self.height,
            };
            return Some((spot, leaf));
        }
        // The height stays as it is, and the compiler sees it.
        let (far, leaf) = prev_far(self.code, self.height, root, pool)?;
        let spot = Spot {
            code: far.code,
            parent: far.parent,
            grand: far.grand,
            height: self.height,
        };
        Some((spot, leaf))
    }

    /// The leaf in which a search for `key` ends in the tree under `root`, and its place.
    #[inline(always)]
    pub fn find<K: Copy, V: Copy, const N: usize, C: Comparator<K>>(
        key: K,
        root: Node,
        pool: &NodePool<K, V, N>,
        comp: &C,
    ) -> (Spot, Node)
        requires union { IsUnion N pool.now }
        requires root { IsTrue (is_root pool.now.nodes root) }
        requires increasing { IsIncreasing (C.order comp.now) (list_under pool.now root) }
        ensures spot { IsSpotAt pool.now root result.0 (leaf_place pool.now root result.0) }
        ensures leaf { SearchEndsAt (C.order comp.now) pool.now root key
            (leaf_place pool.now root result.0) result.1 }
    {
        find_below(Spot::root(root), root, key, pool, comp)
    }

    /// The leaf in which a search for `from` ends, and that in which a search for `to` ends, where it is another one: each with its place.
    /// Where `to` is less, there is no other. The searches go down together as far as they go the same way.
    #[inline(always)]
    pub fn find_both<K: Copy, V: Copy, const N: usize, C: Comparator<K>>(
        from: K,
        to: K,
        root: Node,
        pool: &NodePool<K, V, N>,
        comp: &C,
    ) -> ((Spot, Node), Option<(Spot, Node)>)
        requires union { IsUnion N pool.now }
        requires root { IsTrue (is_root pool.now.nodes root) }
        requires increasing { IsIncreasing (C.order comp.now) (list_under pool.now root) }
        ensures first { SearchSpot (C.order comp.now) pool.now root from result.0.0 result.0.1 }
        ensures other { IfSome result.1 (λ last. SearchSpot (C.order comp.now) pool.now root to last.0 last.1
            × (result.0.0.code ≢ last.0.code) × (is_gt (C.order comp.now from to) ≡ false)) }
        ensures same { result.1 ≡ None → is_gt (C.order comp.now from to) ≡ false
            → SearchSpot (C.order comp.now) pool.now root to result.0.0 result.0.1 }
    {
        let (mut here, mut node) = (Spot::root(root), root);
        while pool.node(node).is_inner() {
            let (index, child) = follow(pool, node, from, comp);
            let next = here.below(node, index);
            if !goes_along(pool, node, index, to, comp) {
                let first = find_below(next, child, from, pool, comp);
                let (other, lower) = follow(pool, node, to, comp);
                let last = find_below(here.below(node, other), lower, to, pool, comp);
                return (first, Some(last));
            }
            here = next;
            node = child;
        }
        ((here, node), None)
    }
}

// Whether a search for `key` goes to the child at `index`, where a search for a key that is not greater does.
#[inline(always)]
fn goes_along<K: Copy, V: Copy, const N: usize, C: Comparator<K>>(
    pool: &NodePool<K, V, N>,
    node: Node,
    index: usize,
    key: K,
    comp: &C,
) -> bool
    requires inner { (keys : List K) × (children : List ℕ)
        × (slice_get pool.now.nodes node ≡ Some (Inner keys children)) × IsStrictlySortedBy (C.order comp.now)
        keys × (length children ≡ suc (length keys)) × (index ≤ length keys) }
    ensures along { result ≡ true → (from : K) (keys : List K) (children : List ℕ)
        → slice_get pool.now.nodes node ≡ Some (Inner keys children)
        → index ≡ child_index (C.order comp.now) keys from → is_gt (C.order comp.now from key) ≡ false
        → index ≡ child_index (C.order comp.now) keys key }
    ensures ordered { result ≡ false → (from : K) (keys : List K) (children : List ℕ)
        → slice_get pool.now.nodes node ≡ Some (Inner keys children)
        → index ≡ child_index (C.order comp.now) keys from → is_gt (C.order comp.now from key) ≡ false }
    ensures apart { result ≡ false → (keys : List K) (children : List ℕ)
        → slice_get pool.now.nodes node ≡ Some (Inner keys children)
        → index ≢ child_index (C.order comp.now) keys key }
{
    index == last_index(pool, node) || comp.cmp(key, separator(pool, node, index)).is_lt()
}

// The node behind the one at which the way of a code ends, and its spot, if there is one.
#[inline(never)]
fn next_far<K: Copy, V: Copy, const N: usize>(
    code: u64,
    height: u32,
    root: Node,
    pool: &NodePool<K, V, N>,
) -> Option<(Spot, Node)>
    requires low { height ≤ 16 }
    requires over { Way pool.now.nodes root code height }
    ensures beside { IsBesideOf pool.now.nodes root code height onwards result }
{
    far(true, code, height, root, pool)
}

// The node before the one at which the way of a code ends, and its spot, if there is one.
#[inline(never)]
fn prev_far<K: Copy, V: Copy, const N: usize>(
    code: u64,
    height: u32,
    root: Node,
    pool: &NodePool<K, V, N>,
) -> Option<(Spot, Node)>
    requires low { height ≤ 16 }
    requires over { Way pool.now.nodes root code height }
    ensures beside { IsBesideOf pool.now.nodes root code height backwards result }
{
    far(false, code, height, root, pool)
}

// The node beside the one at which the way of a code ends, and its spot, if there is one: the one behind, or else the one before. The way
// turns to the child beside as low as it can, and goes on to the first children, or else to the last.
#[inline(always)]
fn far<K: Copy, V: Copy, const N: usize>(
    on: bool,
    code: u64,
    height: u32,
    root: Node,
    pool: &NodePool<K, V, N>,
) -> Option<(Spot, Node)>
    requires low { height ≤ 16 }
    requires over { Way pool.now.nodes root code height }
    ensures beside { IsBesideOf pool.now.nodes root code height (toward on) result }
{
    let (mut here, mut node) = turn(on, code, height, root, pool)?;
    while here.height < height {
        let index = entered_at(on, pool, node);
        here = here.below(node, index);
        node = child(pool, node, index);
    }
    Some((here, node))
}

// The lowest child beside the way of a code, and its spot, if there is one.
#[inline(always)]
fn turn<K: Copy, V: Copy, const N: usize>(
    on: bool,
    code: u64,
    height: u32,
    root: Node,
    pool: &NodePool<K, V, N>,
) -> Option<(Spot, Node)>
    requires low { height ≤ 16 }
    requires over { Way pool.now.nodes root code height }
    ensures some { IfSome result (λ turn.
        IsTurn pool.now.nodes root code height (toward on) 0 turn.0 turn.1) }
    ensures none { result ≡ None → IsBesideOf pool.now.nodes root code height (toward on) None }
{
    let (mut here, mut node) = (Spot::root(root), root);
    let mut found = None;
    let mut left = height;
    while left > 0 {
        left -= 1;
        let index = ((code >> (3 * left)) % 8) as usize;
        found = lower(on, found, &here, node, index, pool);
        here = here.below(node, index);
        node = child(pool, node, index);
    }
    found
}

// The child of `node` beside the one at an index, and its spot, where there is one; else what was found further up. `here` is the spot of
// `node`.
#[inline(always)]
fn lower<K: Copy, V: Copy, const N: usize>(
    on: bool,
    above: Option<(Spot, Node)>,
    here: &Spot,
    node: Node,
    index: usize,
    pool: &NodePool<K, V, N>,
) -> Option<(Spot, Node)>
    requires low { here.now.height < 16 }
    requires index { index < 8 }
    requires way { (root : ℕ) × Way pool.now.nodes root (here.now.code * 8 + index) (suc here.now.height)
        × Leads pool.now.nodes root here.now.code here.now.height here.now node }
    ensures lower { (root : ℕ) → Leads pool.now.nodes root here.now.code here.now.height here.now node
        → IsLower pool.now.nodes root here.now node (toward on) index above result }
{
    match beside(on, pool, node, index) {
        Some(at) => Some((here.below(node, at), child(pool, node, at))),
        None => above,
    }
}

// The index of the child beside the one at an index, if there is one: of the one behind, or else of the one before.
#[inline(always)]
fn beside<K: Copy, V: Copy, const N: usize>(
    on: bool,
    pool: &NodePool<K, V, N>,
    node: Node,
    index: usize,
) -> Option<usize>
    requires index { index < 8 }
    requires inner { (content : Content K V) × (slice_get pool.now.nodes node ≡ Some content)
        × IsInner content }
    ensures some { IfSome result (λ at. HasBeside (toward on) pool.now.nodes node index at) }
    ensures none { result ≡ None → HasNone (toward on) pool.now.nodes node index }
{
    if on {
        if index + 1 < child_count(pool, node) {
            return Some(index + 1);
        }
    } else if index > 0 {
        return Some(index - 1);
    }
    None
}

// The index of the entry or child of a node by which a way enters it: of the first, or else of the last.
#[inline(always)]
fn entered_at<K: Copy, V: Copy, const N: usize>(
    on: bool,
    pool: &NodePool<K, V, N>,
    node: Node,
) -> usize
    requires some { (content : Content K V) × (slice_get pool.now.nodes node ≡ Some content)
        × (1 ≤ entry_count content) }
    ensures at { (content : Content K V) → slice_get pool.now.nodes node ≡ Some content → result
        ≡ nearest on (entry_count content) }
{
    if on { 0 } else { last_index(pool, node) }
}

// From a node at this place, the first of its level, down to the first leaf below it; or else from the last to the last.
fn end_below<K: Copy, V: Copy, const N: usize>(
    on: bool,
    spot: Spot,
    node: Node,
    pool: &NodePool<K, V, N>,
) -> (Spot, Node)
    requires capacity { IsLeafCapacity N }
    requires under { HasUnder N pool.now.nodes (IsNearest on) spot node }
    ensures end { OnUnder N pool.now.nodes (IsNearest on) spot node (λ leaves rows. (others : List ℕ)
        × IsWay others result.0 rows (nearest on (length leaves))
        × NumberAt (heads leaves) (nearest on (length leaves)) result.1) }
{
    let (mut here, mut lower) = (spot, node);
    while pool.node(lower).is_inner() {
        let index = entered_at(on, pool, lower);
        here = here.below(lower, index);
        lower = child(pool, lower, index);
    }
    (here, lower)
}

// From a node at this place down to the leaf in which a search for `key` ends, which goes through the node.
fn find_below<K: Copy, V: Copy, const N: usize, C: Comparator<K>>(
    spot: Spot,
    node: Node,
    key: K,
    pool: &NodePool<K, V, N>,
    comp: &C,
) -> (Spot, Node)
    requires capacity { IsLeafCapacity N }
    requires under { (leaves : List (LevelNode K V)) × (rows : List (List (LevelNode K ℕ)))
        × SearchAt (C.order comp.now) N pool.now.nodes leaves rows key spot node }
    ensures found { (leaves : List (LevelNode K V)) (rows : List (List (LevelNode K ℕ)))
        → SearchAt (C.order comp.now) N pool.now.nodes leaves rows key spot node
        → EndsOn (C.order comp.now) pool.now.nodes leaves rows key result.0 result.1 }
    ensures begins { BeginsWith spot result.0 }
{
    let (mut here, mut lower) = (spot, node);
    while pool.node(lower).is_inner() {
        let (index, child) = follow(pool, lower, key, comp);
        here = here.below(lower, index);
        lower = child;
    }
    (here, lower)
}
