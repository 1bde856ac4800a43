//! A place in a tree, to read at.
ghost use Rattle.bforest_core.specs.Leaves.{SearchEndsAt};
ghost use Rattle.bforest_core.specs.Place.{entry_before};
ghost use Rattle.bforest_core.specs.Spots.{HasPrev, IsSpotAt, leaf_place};
ghost use Rattle.bforest_core.specs.Trees.{IsUnion, is_root};
ghost use Rattle.bforest_nodes.specs.Entries.{IsIncreasing, place, value_for};
ghost use Rattle.bforest_trees.specs.Forest.{Forest, IsLive, list_of};
ghost use Rattle.bforest_trees.specs.Looks.{AtLook, Holds, HoldsPlace, IsBehind, IsLook, IsPaired, LeafFrom, LeafUpTo};
ghost use Rattle.std.specs.Prelude.{IfSome, IsTrue, None, Option, Some, false, length, min, slice_get, true, ◌+◌, ◌-◌, ◌<◌, ◌≤◌, ◌↔◌, ◌≡◌, ℕ};

use crate::trees::Trees;
use bforest_core::{Comparator, Node, NodePool, PackedNode, Spot};

/// A place in the list of a handle, to read at: an entry, with the entries of its leaf as two slices, or the end, with none. A step inside
/// a leaf reads the slices alone; the spot is for the steps from leaf to leaf.
#[derive(Drop)]
pub struct Look<'a, K: Copy, V: Copy> {
    keys: &'a [K],
    vals: &'a [V],
    // The index of the entry in its leaf.
    index: usize,
    // The place of the leaf.
    spot: Spot,
}

impl<'a, K: Copy, V: Copy> Look<'a, K, V> {
    /// At the end.
    #[inline(always)]
    pub fn end() -> Look<'a, K, V>
        ensures look { (table : Forest K V) (handle : Option ℕ)
            → IsLook table handle result (length (list_of table handle)) }
    {
        Look {
            keys: &[],
            vals: &[],
            index: 0,
            spot: Spot::root(Node::new(0)),
        }
    }

    // At the first entry of a leaf.
    #[inline(always)]
    fn enter<const N: usize>(spot: Spot, leaf: Node, pool: &'a NodePool<K, V, N>) -> Look<'a, K, V>
        requires leaf { (handle : Option ℕ) × (start : ℕ) × LeafFrom pool.now handle spot leaf start }
        ensures holds { (handle : Option ℕ) (start : ℕ) → LeafFrom pool.now handle spot leaf start
            → Holds pool.now handle result start }
        ensures count { (handle : Option ℕ) (start : ℕ) (from : LeafFrom pool.now handle spot leaf start)
            → length result.keys.now ≡ length from.leaf.entries }
        ensures index { result.index ≡ 0 }
    {
        let (keys, vals) = pool.node(leaf).unwrap_leaf();
        Look {
            keys,
            vals,
            index: 0,
            spot,
        }
    }

    /// The entry, or `None` at the end.
    #[inline(always)]
    pub fn entry(&self) -> Option<(K, V)>
        requires paired { IsPaired self.now }
        ensures value { (table : Forest K V) (handle : Option ℕ) (at : ℕ) → IsLook table handle self.now at
            → result ≡ slice_get (list_of table handle) at }
    {
        if self.index < self.keys.len() {
            Some(self.here())
        } else {
            None
        }
    }

    // The entry, which is in the leaf that the look holds.
    #[inline(always)]
    fn here(&self) -> (K, V)
        requires within { self.now.index < length self.now.keys.now }
        requires paired { IsPaired self.now }
        ensures key { slice_get self.now.keys.now self.now.index ≡ Some result.0 }
        ensures value { slice_get self.now.vals.now self.now.index ≡ Some result.1 }
    {
        (self.keys[self.index], self.vals[self.index])
    }

    /// Goes to the first entry and returns it. In an empty list that is the end.
    #[inline(always)]
    pub fn first<const N: usize>(
        &mut self,
        handle: PackedNode,
        trees: &'a Trees<K, V, N>,
    ) -> Option<(K, V)>
        requires live { IsLive trees.now handle }
        ensures value { result ≡ slice_get (list_of trees.now handle) 0 }
        ensures look { IsLook trees.now handle self.new 0 }
    {
        self.enter_first(handle, &trees.pool)
    }

    // Goes to the first entry and returns it, or to the end where there is none.
    #[inline(always)]
    fn enter_first<const N: usize>(
        &mut self,
        handle: PackedNode,
        pool: &'a NodePool<K, V, N>,
    ) -> Option<(K, V)>
        requires union { IsUnion N pool.now }
        requires live { IsLive pool.now handle }
        ensures value { result ≡ slice_get (list_of pool.now handle) 0 }
        ensures look { IsLook pool.now handle self.new 0 }
    {
        match handle.expand() {
            Some(root) => Some(self.enter_under(root, pool)),
            None => {
                *self = Look::end();
                None
            }
        }
    }

    // Goes to the first entry under a root and returns it. A tree of one leaf has a way of its own, which is shorter.
    #[inline(always)]
    fn enter_under<const N: usize>(&mut self, root: Node, pool: &'a NodePool<K, V, N>) -> (K, V)
        requires union { IsUnion N pool.now }
        requires root { IsTrue (is_root pool.now.nodes root) }
        ensures value { Some result ≡ slice_get (list_of pool.now (Some root)) 0 }
        ensures look { IsLook pool.now (Some root) self.new 0 }
    {
        if !pool.node(root).is_inner() {
            return self.enter_leaf(Spot::root(root), root, pool);
        }
        let (spot, leaf) = Spot::first(root, pool);
        self.enter_leaf(spot, leaf, pool)
    }

    // Goes to the first entry of a leaf and returns it.
    #[inline(always)]
    fn enter_leaf<const N: usize>(
        &mut self,
        spot: Spot,
        leaf: Node,
        pool: &'a NodePool<K, V, N>,
    ) -> (K, V)
        requires leaf { (handle : Option ℕ) × (start : ℕ) × LeafFrom pool.now handle spot leaf start }
        ensures value { (handle : Option ℕ) (start : ℕ) → LeafFrom pool.now handle spot leaf start
            → Some result ≡ slice_get (list_of pool.now handle) start }
        ensures look { (handle : Option ℕ) (start : ℕ) → LeafFrom pool.now handle spot leaf start
            → IsLook pool.now handle self.new start }
    {
        *self = Look::enter(spot, leaf, pool);
        self.here()
    }

    /// Goes to the next entry and returns it. From the last entry it goes to the end, where it returns `None` from then on.
    #[inline(always)]
    pub fn next<const N: usize>(
        &mut self,
        handle: PackedNode,
        trees: &'a Trees<K, V, N>,
    ) -> Option<(K, V)>
        requires stands { AtLook trees.now handle self.old }
        ensures value { (at : AtLook trees.now handle self.old)
            → result ≡ slice_get (list_of trees.now handle) (at.place + 1) }
        ensures look { (at : AtLook trees.now handle self.old)
            → IsLook trees.now handle self.new (min (at.place + 1) (length (list_of trees.now handle))) }
    {
        if self.step_on(handle, &trees.pool) {
            Some(self.here())
        } else {
            None
        }
    }

    // Goes to the next entry, or from the last entry to the end. Returns whether there is a next one.
    #[inline(always)]
    fn step_on<const N: usize>(&mut self, handle: PackedNode, pool: &'a NodePool<K, V, N>) -> bool
        requires union { IsUnion N pool.now }
        requires stands { AtLook pool.now handle self.old }
        ensures look { (at : AtLook pool.now handle self.old)
            → IsLook pool.now handle self.new (min (at.place + 1) (length (list_of pool.now handle))) }
        ensures some { result ≡ true → self.new.index < length self.new.keys.now }
        ensures none { result ≡ false → (at : AtLook pool.now handle self.old)
            → length (list_of pool.now handle) ≤ at.place + 1 }
    {
        if self.index + 1 < self.keys.len() {
            self.index += 1;
            return true;
        }
        self.enter_next(handle, pool)
    }

    // Goes to the first entry of the next leaf, or to the end. Returns whether there is a next leaf.
    #[inline(always)]
    fn enter_next<const N: usize>(
        &mut self,
        handle: PackedNode,
        pool: &'a NodePool<K, V, N>,
    ) -> bool
        requires union { IsUnion N pool.now }
        requires behind { (at : ℕ) × IsBehind pool.now handle self.old at }
        ensures look { (at : ℕ) → IsBehind pool.now handle self.old at → IsLook pool.now handle self.new at }
        ensures some { result ≡ true → self.new.index < length self.new.keys.now }
        ensures none { result ≡ false → (at : ℕ) → IsBehind pool.now handle self.old at
            → at ≡ length (list_of pool.now handle) }
    {
        match self.next_leaf(handle, pool) {
            Some((spot, leaf)) => {
                *self = Look::enter(spot, leaf, pool);
                true
            }
            None => {
                *self = Look::end();
                false
            }
        }
    }

    // The next leaf and its place, if there is one.
    #[inline(always)]
    fn next_leaf<const N: usize>(
        &self,
        handle: PackedNode,
        pool: &NodePool<K, V, N>,
    ) -> Option<(Spot, Node)>
        requires union { IsUnion N pool.now }
        requires behind { (at : ℕ) × IsBehind pool.now handle self.now at }
        ensures some { IfSome result (λ found. (at : ℕ) → IsBehind pool.now handle self.now at
            → LeafFrom pool.now handle found.0 found.1 at) }
        ensures none { result ≡ None → (at : ℕ) → IsBehind pool.now handle self.now at
            → at ≡ length (list_of pool.now handle) }
    {
        let root = handle.expand()?;
        self.spot.next(root, pool)
    }

    /// Goes to the previous entry and returns it; from the end it goes to the last entry. At the first entry it stays and returns `None`.
    #[inline(always)]
    pub fn prev<const N: usize>(
        &mut self,
        handle: PackedNode,
        trees: &'a Trees<K, V, N>,
    ) -> Option<(K, V)>
        requires live { IsLive trees.now handle }
        requires stands { AtLook trees.now handle self.old }
        ensures value { (at : AtLook trees.now handle self.old)
            → result ≡ entry_before (list_of trees.now handle) at.place }
        ensures look { (at : AtLook trees.now handle self.old)
            → IsLook trees.now handle self.new (at.place - 1) }
    {
        if self.step_back(handle, &trees.pool) {
            Some(self.here())
        } else {
            None
        }
    }

    // Goes to the previous entry, and from the end to the last. At the first entry it stays. Returns whether there is a previous one.
    #[inline(always)]
    fn step_back<const N: usize>(&mut self, handle: PackedNode, pool: &'a NodePool<K, V, N>) -> bool
        requires union { IsUnion N pool.now }
        requires live { IsLive pool.now handle }
        requires stands { AtLook pool.now handle self.old }
        ensures look { (at : AtLook pool.now handle self.old)
            → IsLook pool.now handle self.new (at.place - 1) }
        ensures some { result ≡ true → self.new.index < length self.new.keys.now }
        ensures behind { result ≡ true → (at : AtLook pool.now handle self.old) → 0 < at.place }
        ensures none { result ≡ false → (at : AtLook pool.now handle self.old) → at.place ≡ 0 }
    {
        if self.index > 0 {
            self.index -= 1;
            return true;
        }
        self.enter_prev(handle, pool)
    }

    // Goes from the first entry of a leaf to the last of the leaf before, or from the end to the last of all. At the first entry of all it
    // stays. Returns whether there is a leaf before.
    #[inline(always)]
    fn enter_prev<const N: usize>(
        &mut self,
        handle: PackedNode,
        pool: &'a NodePool<K, V, N>,
    ) -> bool
        requires union { IsUnion N pool.now }
        requires live { IsLive pool.now handle }
        requires stands { AtLook pool.now handle self.old }
        requires first { self.old.index ≡ 0 }
        ensures look { (at : AtLook pool.now handle self.old)
            → IsLook pool.now handle self.new (at.place - 1) }
        ensures some { result ≡ true → self.new.index < length self.new.keys.now }
        ensures behind { result ≡ true → (at : AtLook pool.now handle self.old) → 0 < at.place }
        ensures none { result ≡ false → (at : AtLook pool.now handle self.old) → at.place ≡ 0 }
    {
        if self.spot.follows_sibling() {
            let (spot, leaf) = self.spot.prev_sibling(pool);
            self.enter_last(spot, leaf, pool);
            return true;
        }
        let Some((spot, leaf)) = self.leaf_before(handle, pool) else {
            return false;
        };
        self.enter_last(spot, leaf, pool);
        true
    }

    // Goes to the last entry of a leaf.
    #[inline(always)]
    fn enter_last<const N: usize>(&mut self, spot: Spot, leaf: Node, pool: &'a NodePool<K, V, N>)
        requires leaf { (handle : Option ℕ) × (place : ℕ) × LeafUpTo pool.now handle spot leaf place }
        ensures look { (handle : Option ℕ) (place : ℕ) → LeafUpTo pool.now handle spot leaf place
            → IsLook pool.now handle self.new (place - 1) }
        ensures some { self.new.index < length self.new.keys.now }
        ensures behind { (handle : Option ℕ) (place : ℕ) → LeafUpTo pool.now handle spot leaf place
            → 0 < place }
    {
        *self = Look::enter(spot, leaf, pool);
        self.index = self.keys.len() - 1;
    }

    // The leaf before and its place, if there is one, where it has another parent; from the end it is the last leaf.
    #[inline(always)]
    fn leaf_before<const N: usize>(
        &self,
        handle: PackedNode,
        pool: &NodePool<K, V, N>,
    ) -> Option<(Spot, Node)>
        requires union { IsUnion N pool.now }
        requires live { IsLive pool.now handle }
        requires stands { AtLook pool.now handle self.now }
        requires first { self.now.index ≡ 0 }
        requires other { ¬ HasPrev self.now.spot }
        ensures some { IfSome result (λ found. (at : AtLook pool.now handle self.now)
            → LeafUpTo pool.now handle found.0 found.1 at.place) }
        ensures none { result ≡ None → (at : AtLook pool.now handle self.now) → at.place ≡ 0 }
    {
        let root = handle.expand()?;
        if self.keys.is_empty() {
            return Some(Spot::last(root, pool));
        }
        self.spot.prev_other(root, pool)
    }

    /// Goes to the place of a key, and returns its value.
    #[inline(always)]
    pub fn goto<const N: usize, C: Comparator<K>>(
        &mut self,
        handle: PackedNode,
        trees: &'a Trees<K, V, N>,
        key: K,
        comp: &C,
    ) -> Option<V>
        requires live { IsLive trees.now handle }
        requires increasing { IsIncreasing (C.order comp.now) (list_of trees.now handle) }
        ensures value { result ≡ value_for (C.order comp.now) (list_of trees.now handle) key }
        ensures look { IsLook trees.now handle self.new
            (place (C.order comp.now) (list_of trees.now handle) key) }
    {
        match handle.expand() {
            Some(root) => self.goto_under(root, &trees.pool, key, comp),
            None => {
                *self = Look::end();
                None
            }
        }
    }

    // Goes to the place of a key in the list under a root, and returns its value.
    #[inline(always)]
    fn goto_under<const N: usize, C: Comparator<K>>(
        &mut self,
        root: Node,
        pool: &'a NodePool<K, V, N>,
        key: K,
        comp: &C,
    ) -> Option<V>
        requires union { IsUnion N pool.now }
        requires live { IsLive pool.now (Some root) }
        requires increasing { IsIncreasing (C.order comp.now) (list_of pool.now (Some root)) }
        ensures value { result ≡ value_for (C.order comp.now) (list_of pool.now (Some root)) key }
        ensures look { IsLook pool.now (Some root) self.new
            (place (C.order comp.now) (list_of pool.now (Some root)) key) }
    {
        let (spot, leaf) = Spot::find(key, root, pool, comp);
        self.settle(root, spot, leaf, pool, key, comp)
    }

    // Goes to the place of a key in the list under a root, from the leaf in which a search for the key ends, and returns its value.
    #[inline(always)]
    fn settle<const N: usize, C: Comparator<K>>(
        &mut self,
        root: Node,
        spot: Spot,
        leaf: Node,
        pool: &'a NodePool<K, V, N>,
        key: K,
        comp: &C,
    ) -> Option<V>
        requires union { IsUnion N pool.now }
        requires spot { IsSpotAt pool.now root spot (leaf_place pool.now root spot) }
        requires leaf { SearchEndsAt (C.order comp.now) pool.now root key (leaf_place pool.now root spot)
            leaf }
        ensures value { result ≡ value_for (C.order comp.now) (list_of pool.now (Some root)) key }
        ensures look { IsLook pool.now (Some root) self.new
            (place (C.order comp.now) (list_of pool.now (Some root)) key) }
    {
        let (index, value) = self.enter_at(root, spot, leaf, pool, key, comp);
        if index < self.keys.len() {
            self.index = index;
        } else {
            self.enter_next(PackedNode::some(root), pool);
        }
        value
    }

    // Goes to the first entry of the leaf in which a search for a key ends, and returns the key's index there and its value.
    #[inline(always)]
    fn enter_at<const N: usize, C: Comparator<K>>(
        &mut self,
        root: Node,
        spot: Spot,
        leaf: Node,
        pool: &'a NodePool<K, V, N>,
        key: K,
        comp: &C,
    ) -> (usize, Option<V>)
        requires union { IsUnion N pool.now }
        requires spot { IsSpotAt pool.now root spot (leaf_place pool.now root spot) }
        requires leaf { SearchEndsAt (C.order comp.now) pool.now root key (leaf_place pool.now root spot)
            leaf }
        ensures value { result.1 ≡ value_for (C.order comp.now) (list_of pool.now (Some root)) key }
        ensures index { HoldsPlace pool.now (Some root) self.new result.0
            (place (C.order comp.now) (list_of pool.now (Some root)) key) }
    {
        *self = Look::enter(spot, leaf, pool);
        pool.node(leaf).look_up(key, comp)
    }
}
