//! The table of all trees of a forest: each call on one tree, stated once for maps and sets.
ghost use Rattle.bforest_trees.specs.Forest.{Becomes, Gives, IsAccounted, IsLive, Takes, empty, emptied, first_level, free_of, limit_of, list_at, list_of, memory_of, sizes_at, sizes_of, slots_of};
ghost use Rattle.bforest_trees.specs.Bounds.{entry_at_most};
ghost use Rattle.bforest_trees.specs.Calls.{Clears, Filters, Inserts, Lowers, Removes, Reserves, Shifts};
ghost use Rattle.bforest_trees.specs.Place.{AtSpot, IsComputed, IsSpot, OnSpot};
ghost use Rattle.bforest_core.specs.Paths.{IsAtEnd, IsPlaced, StandingUnder, StandsOn, list_under};
ghost use Rattle.bforest_trees.specs.Retain.{MayAskEach};
ghost use Rattle.bforest_trees.specs.Shift.{MayRekey};
ghost use Rattle.bforest_core.specs.Levels.{half_of};
ghost use Rattle.bforest_core.specs.Sizes.{IsFitFor, shrink};
ghost use Rattle.bforest_core.specs.Trees.{IsUnion, is_root};
ghost use Rattle.bforest_nodes.specs.Content.{IsLeafCapacity};
ghost use Rattle.bforest_nodes.specs.Entries.{IsIncreasing, is_present, place, value_for};
ghost use Rattle.std.specs.Cmp.{IsTotalOrder};
ghost use Rattle.std.specs.declared.cmp.Ordering.{Ordering};
ghost use Rattle.std.specs.Prelude.{Err, IsTrue, None, Option, Some, [], false, true, length, remove, ◌*◌, ◌+◌, ◌-◌, ◌/◌, ◌<◌, ◌^◌, ◌≡◌, ◌≢◌, ◌≤◌, ◌↔◌, ℕ};

mod compare;
mod copy;
mod count;
mod get_or_insert;
mod keep;
mod load;
mod pack;
mod part;
mod peek;
mod pop;
mod put;
mod range;
mod remove;
mod take;
mod unite;
mod value;
mod walk;

use crate::predicate::Predicate;
use crate::{retain, shift};
use bforest_core::{Comparator, Node, NodePool, OutOfMemory, PackedNode, Path};
pub use pack::fewest_nodes;
pub use range::Ends;
use std::alloc::Global;
use std::marker::Model;

/// Many trees in one table of nodes, whose leaves have at most `N` entries. Each tree is named by its root's number.
#[derive(Drop)]
pub struct Trees<K: Copy, V: Copy, const N: usize> {
    pub(crate) pool: NodePool<K, V, N>,
}

impl<K: Copy, V: Copy, const N: usize> Model for Trees<K, V, N> {
    ghost use Rattle.bforest_trees.specs.Forest.{Forest};
    ghost use Rattle.bforest_core.specs.Trees.{IsUnion};

    ghost Value = { Forest K V };

    ghost view = { λ t. t.pool };

    ghost invariant = { λ t. IsUnion N t.pool };
}

impl<K: Copy, V: Copy, const N: usize> Trees<K, V, N> {
    /// An empty table that may have at most `limit` slots. It takes no memory.
    pub fn with_limit(alloc: Global, limit: u32) -> Self
        requires { IsLeafCapacity N }
        ensures empty { result ≡ empty limit }
    {
        Trees {
            pool: NodePool::with_limit(alloc, limit),
        }
    }

    /// Removes all trees. The table's limit and its memory stay.
    pub fn clear(&mut self)
        ensures empty { self.new ≡ emptied self.old }
        ensures lists { (n : ℕ) → list_at self.new n ≡ [] }
    {
        self.pool.clear();
    }

    /// The number of slots.
    pub fn slots(&self) -> u32
        ensures count { result ≡ slots_of self.now }
        ensures within { slots_of self.now ≤ limit_of self.now }
        ensures held { slots_of self.now ≤ memory_of self.now }
        ensures account { IsAccounted self.now }
        ensures fit { (n : ℕ) → IsFitFor N (length (list_at self.now n)) (sizes_at self.now n) }
        ensures below { (n : ℕ) → list_at self.now n ≢ [] → n < slots_of self.now }
    {
        self.pool.slots()
    }

    /// The number of free slots.
    pub fn free(&self) -> u32
        ensures count { result ≡ free_of self.now }
    {
        self.pool.free()
    }

    /// The number of slots that there may be at most.
    pub fn limit(&self) -> u32
        ensures limit { result ≡ limit_of self.now }
    {
        self.pool.limit()
    }

    /// Whether a handle is empty or names a tree.
    pub fn holds(&self, handle: PackedNode) -> bool
        ensures live { IsTrue result ↔ IsLive self.now handle }
    {
        match handle.expand() {
            Some(root) => self.pool.is_root(root),
            None => true,
        }
    }

    /// Makes sure that `n` slots are free. All trees stay.
    pub fn reserve(&mut self, n: u32) -> Result<(), OutOfMemory>
        ensures { Reserves self.old n result self.new }
    {
        self.pool.reserve(n)
    }

    /// Removes a tree.
    pub fn free_tree(&mut self, handle: &mut PackedNode)
        requires live { IsLive self.old handle.old }
        ensures { Clears self.old handle.old self.new handle.new }
    {
        if let Some(root) = handle.take() {
            self.pool.free_tree(root);
        }
    }

    /// Calls a predicate on each entry, in order, and keeps the entries for which it returns `true`.
    pub fn retain<P: Predicate<K, V>>(&mut self, handle: &mut PackedNode, predicate: P)
        requires live { IsLive self.old handle.old }
        requires callable { MayAskEach P.step P.may predicate (list_of self.old handle.old) }
        ensures { Filters N P.step self.old handle.old predicate self.new handle.new }
    {
        if let Some(root) = handle.expand() {
            *handle = packed(retain::retain(&mut self.pool, handle, root, predicate));
        }
    }

    /// Gives new keys to the entries from the first on whose key is not less than `from`, in order: those that `change` returns of the old.
    pub fn shift<C: Comparator<K>, F: Fn(K) -> K>(
        &mut self,
        handle: PackedNode,
        from: K,
        change: F,
        comp: &C,
    )
        requires live { IsLive self.old handle }
        requires increasing { IsIncreasing (C.order comp.now) (list_of self.old handle) }
        requires callable { MayRekey (F.pre change) (place (C.order comp.now) (list_of self.old handle) from)
            (list_of self.old handle) }
        ensures { Shifts (F.post change) (place (C.order comp.now) (list_of self.old handle) from)
            self.old handle self.new }
    {
        if let Some(root) = handle.expand() {
            let mut path = Path::default();
            let _value = path.find(from, root, &self.pool, comp);
            path.normalize(&self.pool);
            shift::shift(&mut self.pool, root, &mut path, change);
        }
    }

    /// The value of a key.
    pub fn get<C: Comparator<K>>(&self, handle: PackedNode, key: K, comp: &C) -> Option<V>
        requires live { IsLive self.now handle }
        requires increasing { IsIncreasing (C.order comp.now) (list_of self.now handle) }
        ensures value { result ≡ value_for (C.order comp.now) (list_of self.now handle) key }
    {
        match handle.expand() {
            Some(root) => self.pool.value_of(key, root, comp),
            None => None,
        }
    }

    /// The last entry whose key is not greater than `key`, by one search.
    pub fn get_or_less<C: Comparator<K>>(
        &self,
        handle: PackedNode,
        key: K,
        comp: &C,
    ) -> Option<(K, V)>
        requires live { IsLive self.now handle }
        requires increasing { IsIncreasing (C.order comp.now) (list_of self.now handle) }
        ensures value { result ≡ entry_at_most (C.order comp.now) (list_of self.now handle) key }
    {
        match handle.expand() {
            Some(root) => self.pool.entry_at_most(key, root, comp),
            None => None,
        }
    }

    /// The height of a tree.
    pub fn levels(&self, handle: PackedNode) -> usize
        requires live { IsLive self.now handle }
        ensures count { result ≡ length (sizes_of self.now handle) }
        ensures most { result ≤ 17 }
        ensures depth { 2 ≤ result → half_of N * 4 ^ (result - 2) < length (list_of self.now handle) }
        ensures leaves { length (first_level (sizes_of self.now handle))
            ≤ (length (list_of self.now handle) + (half_of N - 1)) / half_of N }
    {
        match handle.expand() {
            Some(root) => self.pool.levels(root),
            None => 0,
        }
    }

    /// Inserts a value at a key, and returns the value that it replaces. The path goes to the key's place, also where the insertion fails.
    /// The search begins where the path stands: two comparisons find a key that is near.
    pub fn insert<C: Comparator<K>>(
        &mut self,
        handle: &mut PackedNode,
        path: &mut Path<K, V, N>,
        key: K,
        value: V,
        comp: &C,
    ) -> Result<Option<V>, OutOfMemory>
        requires live { IsLive self.old handle.old }
        requires increasing { IsIncreasing (C.order comp.now) (list_of self.old handle.old) }
        requires stands { AtSpot self.old handle.old path.old }
        ensures inserted { Inserts N (C.order comp.now) self.old handle.old key value result
            self.new handle.new }
        ensures spot { IsSpot self.new handle.new path.new
            (place (C.order comp.now) (list_of self.old handle.old) key) }
        ensures computed { IsComputed N self.new handle.new }
    {
        match handle.expand() {
            Some(root) => self.insert_under(root, handle, path, key, value, comp),
            None => self.insert_first(handle, path, key, value),
        }
    }

    // Inserts a value at a key in the tree under a root.
    fn insert_under<C: Comparator<K>>(
        &mut self,
        root: Node,
        handle: &mut PackedNode,
        path: &mut Path<K, V, N>,
        key: K,
        value: V,
        comp: &C,
    ) -> Result<Option<V>, OutOfMemory>
        requires root { handle.old ≡ Some root }
        requires live { list_at self.old root ≢ [] }
        requires increasing { IsIncreasing (C.order comp.now) (list_at self.old root) }
        requires stands { AtSpot self.old (Some root) path.old }
        ensures inserted { Inserts N (C.order comp.now) self.old (Some root) key value result
            self.new handle.new }
        ensures spot { IsSpot self.new handle.new path.new
            (place (C.order comp.now) (list_at self.old root) key) }
        ensures union { IsUnion N self.new }
    {
        if let Some(old) = path.find_here(key, root, &self.pool, comp) {
            path.set_value(value, &mut self.pool);
            return Ok(Some(old));
        }
        let root = match path.insert(key, value, &mut self.pool) {
            Ok(root) => root,
            Err(refused) => {
                path.normalize(&self.pool);
                return Err(refused);
            }
        };
        *handle = PackedNode::some(root);
        Ok(None)
    }

    // Inserts the first entry of an empty tree.
    fn insert_first(
        &mut self,
        handle: &mut PackedNode,
        path: &mut Path<K, V, N>,
        key: K,
        value: V,
    ) -> Result<Option<V>, OutOfMemory>
        requires empty { handle.old ≡ None }
        requires stands { IsAtEnd path.old }
        ensures inserted { (order : K → K → Ordering) → IsTotalOrder order
            → Inserts N order self.old None key value result self.new handle.new }
        ensures spot { IsSpot self.new handle.new path.new 0 }
        ensures union { IsUnion N self.new }
    {
        let root = self.pool.alloc_node(key, value)?;
        *handle = PackedNode::some(root);
        path.first(root, &self.pool);
        Ok(None)
    }

    /// Goes to the place of a key, and returns its value.
    pub fn goto<C: Comparator<K>>(
        &self,
        handle: PackedNode,
        path: &mut Path<K, V, N>,
        key: K,
        comp: &C,
    ) -> Option<V>
        requires live { IsLive self.now handle }
        requires increasing { IsIncreasing (C.order comp.now) (list_of self.now handle) }
        requires stands { AtSpot self.now handle path.old }
        ensures value { result ≡ value_for (C.order comp.now) (list_of self.now handle) key }
        ensures spot { IsSpot self.now handle path.new
            (place (C.order comp.now) (list_of self.now handle) key) }
        ensures computed { IsComputed N self.now handle }
    {
        let root = handle.expand()?;
        let value = path.find(key, root, &self.pool, comp);
        path.normalize(&self.pool);
        value
    }

    /// Removes a key, and returns its value.
    pub fn remove<C: Comparator<K>>(
        &mut self,
        handle: &mut PackedNode,
        key: K,
        comp: &C,
    ) -> Option<V>
        requires live { IsLive self.old handle.old }
        requires increasing { IsIncreasing (C.order comp.now) (list_of self.old handle.old) }
        ensures { Removes N (C.order comp.now) self.old handle.old key result self.new handle.new }
    {
        let root = handle.expand()?;
        self.remove_under(root, handle, key, comp)
    }

    /// Removes the entry where a path stands. The path goes to the next entry, or to the end.
    pub fn remove_at(&mut self, handle: &mut PackedNode, path: &mut Path<K, V, N>)
        requires stands { OnSpot self.old handle.old path.old }
        ensures removed { (at : OnSpot self.old handle.old path.old)
            → Becomes self.old handle.old self.new handle.new (remove (list_of self.old handle.old) at.place) }
        ensures sizes { (at : OnSpot self.old handle.old path.old)
            → sizes_of self.new handle.new ≡ shrink N at.place (sizes_of self.old handle.old) }
        ensures lowers { Lowers self.old handle.old self.new handle.new }
        ensures account { Gives (sizes_of self.old handle.old) (sizes_of self.new handle.new)
            self.old self.new }
        ensures spot { (at : OnSpot self.old handle.old path.old)
            → IsSpot self.new handle.new path.new at.place }
        ensures computed { IsComputed N self.new handle.new }
    {
        *handle = packed(path.remove(&mut self.pool));
    }
}

// The handle of a root, or an empty handle.
pub(crate) fn packed(root: Option<Node>) -> PackedNode
    ensures { result ≡ root }
{
    match root {
        Some(root) => PackedNode::some(root),
        None => PackedNode::none(),
    }
}
