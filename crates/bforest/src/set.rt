//! Handles of sets.
ghost use Rattle.bforest_nodes.specs.Entries.{IsIncreasing, is_present, place, value_for};
ghost use Rattle.bforest.specs.Bounds.{entries_between, entry_at_least, entry_at_most};
ghost use Rattle.bforest.specs.Calls.{Clears, Clones, Compacts, Filters, Inserts, Intersects, Loads, MayRekey, Pops, Removes, RemovesBetween, Shifts, SplitsOff, Subtracts, Unites, fewest};
ghost use Rattle.bforest.specs.Forest.{Forest, IsFitFor, IsLive, IsSearchable, first_level, list_of, sizes_of};
ghost use Rattle.bforest.specs.Memory.{SetsFitInMemory};
ghost use Rattle.bforest.specs.Retain.{MayAskEach};
ghost use Rattle.bforest.specs.Room.{IsEnoughFor, IsMetBy, node_count};
ghost use Rattle.bforest.specs.Set.{AnswersKey, MayAskKey, as_popped, as_put, as_removed, elements, the_value, with_unit};
ghost use Rattle.bforest.specs.Union.{are_among, are_apart, kept_from, united, unshared};
ghost use Rattle.bforest.specs.SetCursor.{IsCursor, comparator, forest_loan, forest_now, set_loan, set_now, spot};
ghost use Rattle.std.specs.List.Sorted.{IsStrictlySortedBy};
ghost use Rattle.std.specs.Map.{keys_of};
ghost use Rattle.std.specs.declared.cmp.Ordering.{Ordering};
ghost use Rattle.std.specs.Prelude.{IsTrue, List, ℕ, None, [], false, is_some, length, reverse, option_map, slice_get, true, ◌*◌, ◌+◌, ◌-◌, ◌/◌, ◌<◌, ◌^◌, ◌≡◌, ◌≤◌, ◌↔◌};

use crate::asked_key::AskedKey;
use crate::entry::key_of;
use crate::map::follows;
use crate::room::most_nodes;
use crate::set_algebra::{SetDifference, SetIntersection, SetSymmetricDifference, SetUnion};
use crate::set_cursor::SetCursor;
use crate::set_forest::{SET_LEAF, SetForest};
use crate::set_iter::SetIter;
use crate::set_iter_back::SetIterBack;
use crate::set_merge::Merge;
use crate::set_range::SetRange;
use bforest_core::{Comparator, OutOfMemory, PackedNode, Path, SetValue};
use bforest_trees::fewest_nodes;
use std::default::Default;
use std::marker::{Model, PhantomData};
use std::ops::Bound;

/// A handle to one ordered set, whose keys lie in a [`SetForest`].
///
/// A handle is 4 bytes: the number of its tree's root, or nothing, which is the empty set. Each call is handed the forest. Calls require
/// that the handle is live there, which [`SetForest::holds`] tests. Calls that compare keys also require that its keys strictly increase
/// under the comparator, which [`Set::increases`] tests. Dropping a handle frees no node: [`Set::clear`] does.
#[derive(Drop)]
pub struct Set<K: Copy> {
    pub(crate) root: PackedNode,
    mark: PhantomData<K>,
}

impl<K: Copy> Model for Set<K> {
    ghost use Rattle.std.specs.Prelude.{Option, ℕ};

    ghost Value = { Option ℕ };

    ghost view = { λ s. s.root };
}

impl<K: Copy> Default for Set<K> {
    ghost use Rattle.std.specs.Prelude.{None, ◌≡◌};

    ghost is_default = { λ s. s ≡ None };

    /// Returns an empty set, as [`Set::new`] does.
    fn default() -> Self {
        Set::new()
    }
}

impl<K: Copy> Set<K> {
    /// Returns an empty set, which is live in every forest and increases under every order. No memory, no node.
    pub fn new() -> Self
        ensures empty { result ≡ None }
        ensures increasing { (forest : Forest K (Unit {0})) (order : K → K → Ordering)
            → IsIncreasing order (list_of forest result) }
    {
        Set {
            root: PackedNode::none(),
            mark: PhantomData,
        }
    }

    /// Returns a second handle to the same tree. No key is copied.
    ///
    /// A change through one handle is not seen by the other: after [`Set::clear`], or where the tree gains or loses a level, the other
    /// one is not live.
    pub fn clone(&self) -> Self
        ensures same { result ≡ self.now }
    {
        Set {
            root: self.root,
            mark: PhantomData,
        }
    }

    /// Returns whether the set is empty, which is whether the handle names no tree. Constant time.
    pub fn is_empty(&self) -> bool
        ensures handle { IsTrue result ↔ (self.now ≡ None) }
        ensures list { (forest : Forest K (Unit {0})) → IsLive forest self.now
            → (IsTrue result ↔ (list_of forest self.now ≡ [])) }
    {
        self.root.is_none()
    }

    /// Returns whether two handles are one: handles to the same tree, or both empty. Constant time. Lists are not compared.
    ///
    /// It tells a copy: one of the handles may not be live after a change through the other.
    pub fn is_same_handle(&self, other: &Self) -> bool
        ensures same { IsTrue result ↔ (self.now ≡ other.now) }
    {
        self.root.expand() == other.root.expand()
    }

    /// Returns whether the set has a key that compares equal to `key`.
    ///
    /// One search. It visits one node of each level, at most `1 + log4(n / 2)` nodes for `n` keys. It compares about 3 times in an inner
    /// node and 4 times in the leaf, or as often as the comparator's own search does among at most 7 and 15 keys.
    pub fn contains<C: Comparator<K>>(&self, key: K, forest: &SetForest<K>, comp: &C) -> bool
        requires { IsSearchable (C.order comp.now) forest.now self.now }
        ensures present { result ≡ is_present (C.order comp.now) (list_of forest.now self.now) key }
        ensures value { result ≡ is_some (value_for (C.order comp.now) (list_of forest.now self.now) key) }
    {
        forest.trees.get(self.root, key, comp).is_some()
    }

    /// Returns the last key that is not greater than `key`, as it is stored, or `None` where each key is greater.
    ///
    /// One search, as in [`Set::contains`].
    pub fn get_or_less<C: Comparator<K>>(
        &self,
        key: K,
        forest: &SetForest<K>,
        comp: &C,
    ) -> Option<K>
        requires { IsSearchable (C.order comp.now) forest.now self.now }
        ensures key { result ≡ option_map (λ e. e.0)
            (entry_at_most (C.order comp.now) (list_of forest.now self.now) key) }
    {
        key_of(forest.trees.get_or_less(self.root, key, comp))
    }

    /// Returns the first key that is not less than `key`, as it is stored, or `None` where each key is less.
    ///
    /// One search, as in [`Set::contains`], and at most one step to the next leaf.
    pub fn get_or_greater<C: Comparator<K>>(
        &self,
        key: K,
        forest: &SetForest<K>,
        comp: &C,
    ) -> Option<K>
        requires { IsSearchable (C.order comp.now) forest.now self.now }
        ensures key { result ≡ option_map (λ e. e.0)
            (entry_at_least (C.order comp.now) (list_of forest.now self.now) key) }
    {
        key_of(forest.trees.get_or_greater(self.root, key, comp))
    }

    /// Returns the first key, or `None` where the set is empty. Visits one node of each level. No comparison.
    pub fn first(&self, forest: &SetForest<K>) -> Option<K>
        requires live { IsLive forest.now self.now }
        ensures key { result ≡ slice_get (elements forest.now self.now) 0 }
        ensures entry { result ≡ option_map (λ e. e.0) (slice_get (list_of forest.now self.now) 0) }
    {
        key_of(forest.trees.first_entry(self.root))
    }

    /// Returns the last key, or `None` where the set is empty. Visits one node of each level. No comparison.
    pub fn last(&self, forest: &SetForest<K>) -> Option<K>
        requires live { IsLive forest.now self.now }
        ensures key { result
            ≡ slice_get (elements forest.now self.now) (length (elements forest.now self.now) - 1) }
        ensures entry { result ≡ option_map (λ e. e.0)
            (slice_get (list_of forest.now self.now) (length (list_of forest.now self.now) - 1)) }
    {
        key_of(forest.trees.last_entry(self.root))
    }

    /// Inserts a key and returns whether it was absent, exactly as [`Set::try_insert`] does.
    ///
    /// # Errors
    ///
    /// [`OutOfMemory`] where the key is absent and too few nodes are available; nothing has changed then.
    pub fn insert<C: Comparator<K>>(
        &mut self,
        key: K,
        forest: &mut SetForest<K>,
        comp: &C,
    ) -> Result<bool, OutOfMemory>
        requires { IsSearchable (C.order comp.now) forest.old self.old }
        ensures { Inserts SET_LEAF (C.order comp.now) forest.old self.old key the_value (as_put result)
            forest.new self.new }
    {
        self.try_insert(key, forest, comp)
    }

    /// Inserts a key and returns whether it was absent. A stored key that compares equal stays.
    ///
    /// One search, as in [`Set::contains`]. An absent key needs one node for each full node from its leaf up to the first that is not
    /// full, and one more for a new root where all of them are: at most one more than [`Set::levels`].
    ///
    /// # Errors
    ///
    /// [`OutOfMemory::Full`] where the forest's limit does not allow the nodes that the key needs. [`OutOfMemory::Memory`] where the
    /// table had to grow and there was no memory for it. The set and the forest are unchanged then.
    pub fn try_insert<C: Comparator<K>>(
        &mut self,
        key: K,
        forest: &mut SetForest<K>,
        comp: &C,
    ) -> Result<bool, OutOfMemory>
        requires { IsSearchable (C.order comp.now) forest.old self.old }
        ensures { Inserts SET_LEAF (C.order comp.now) forest.old self.old key the_value (as_put result)
            forest.new self.new }
    {
        let put = forest.trees.put(&mut self.root, key, (), comp);
        is_new(put)
    }

    /// Removes the key that compares equal to `key` and returns whether there was one.
    ///
    /// One search, as in [`Set::contains`], and then at most two nodes of each level, which are rebalanced or merged as in
    /// [`Map::remove`](crate::Map::remove). No memory is taken, and nodes that become empty join the forest's free list.
    pub fn remove<C: Comparator<K>>(&mut self, key: K, forest: &mut SetForest<K>, comp: &C) -> bool
        requires { IsSearchable (C.order comp.now) forest.old self.old }
        ensures { Removes SET_LEAF (C.order comp.now) forest.old self.old key (as_removed result)
            forest.new self.new }
    {
        forest.trees.remove(&mut self.root, key, comp).is_some()
    }

    /// Removes the first key and returns it, or returns `None` and changes nothing where the set is empty.
    ///
    /// No comparison. Visits at most two nodes of each level on the way to the key, and then rebalances or merges nodes as
    /// [`Set::remove`] does. No memory is taken. The handle is empty after its last key was removed.
    pub fn pop_first(&mut self, forest: &mut SetForest<K>) -> Option<K>
        requires live { IsLive forest.old self.old }
        ensures { Pops SET_LEAF forest.old self.old 0 (as_popped result) forest.new self.new }
    {
        key_of(forest.trees.pop_first(&mut self.root))
    }

    /// Removes the last key and returns it, or returns `None` and changes nothing where the set is empty.
    ///
    /// No comparison. Visits at most two nodes of each level on the way to the key, and then rebalances or merges nodes as
    /// [`Set::remove`] does. No memory is taken. The handle is empty after its last key was removed.
    pub fn pop_last(&mut self, forest: &mut SetForest<K>) -> Option<K>
        requires live { IsLive forest.old self.old }
        ensures { Pops SET_LEAF forest.old self.old (length (list_of forest.old self.old) - 1)
            (as_popped result) forest.new self.new }
    {
        key_of(forest.trees.pop_last(&mut self.root))
    }

    /// Removes all keys. The handle is empty then, and all nodes of the tree are free. Other handles to the tree are not live then.
    ///
    /// Visits each node of the tree once. No comparison, no memory.
    pub fn clear(&mut self, forest: &mut SetForest<K>)
        requires live { IsLive forest.old self.old }
        ensures { Clears forest.old self.old forest.new self.new }
    {
        forest.trees.free_tree(&mut self.root);
    }

    /// Returns a set of the same keys in a tree of its own, whose nodes have the same sizes. A change of either set is not seen in the
    /// other.
    ///
    /// Takes exactly as many nodes as this set has, none for an empty one, and makes sure of them before it copies the first. Reads each
    /// node once to count it and once to copy it, as it lies. No comparison.
    ///
    /// # Errors
    ///
    /// [`OutOfMemory::Full`] where the forest's limit does not allow as many nodes again as this set has. [`OutOfMemory::Memory`] where the
    /// table had to grow and there was no memory for it. The forest is unchanged then.
    pub fn deep_clone(&self, forest: &mut SetForest<K>) -> Result<Self, OutOfMemory>
        requires live { IsLive forest.old self.now }
        ensures { Clones forest.old self.now result forest.new }
    {
        let copy = forest.trees.copy_tree(self.root)?;
        Ok(Set {
            root: copy,
            mark: PhantomData,
        })
    }

    /// Returns a set of these keys, in this order, in a tree with the fewest nodes that so many keys can have: all nodes of a level are
    /// full but the last.
    ///
    /// Takes exactly these nodes, none for no key, and makes sure of them before it writes the first. Writes each key once. No comparison.
    ///
    /// The keys have to increase under the order that later calls are given. This is not tested: [`Set::increases`] tells.
    ///
    /// # Errors
    ///
    /// [`OutOfMemory::Full`] where the forest's limit does not allow so many nodes. [`OutOfMemory::Memory`] where the table had to grow and
    /// there was no memory for it. The forest is unchanged then.
    pub fn load(keys: &[K], forest: &mut SetForest<K>) -> Result<Self, OutOfMemory>
        ensures { Loads SET_LEAF forest.old (with_unit keys.now) result forest.new }
    {
        let tree = forest.trees.load(keys)?;
        Ok(Set {
            root: tree,
            mark: PhantomData,
        })
    }

    /// Returns whether each key of this set has an equal one in `other`. An empty set is a subset of each set.
    ///
    /// Reads both sets side by side, up to the first key that is not in `other`: at most one comparison for each key of this set and of
    /// `other`, and none where one of them is empty. No search.
    pub fn is_subset<C: Comparator<K>>(
        &self,
        other: &Set<K>,
        forest: &SetForest<K>,
        comp: &C,
    ) -> bool
        requires searchable { IsSearchable (C.order comp.now) forest.now self.now }
        requires other { IsSearchable (C.order comp.now) forest.now other.now }
        ensures among { result ≡ are_among (C.order comp.now) (list_of forest.now self.now)
            (list_of forest.now other.now) }
    {
        forest.trees.are_among(self.root, other.root, comp)
    }

    /// Returns whether no key of this set has an equal one in `other`. An empty set is disjoint from each set.
    ///
    /// Reads both sets side by side, up to the first key that both have: at most one comparison for each key of this set and of `other`,
    /// and none where one of them is empty. No search.
    pub fn is_disjoint<C: Comparator<K>>(
        &self,
        other: &Set<K>,
        forest: &SetForest<K>,
        comp: &C,
    ) -> bool
        requires searchable { IsSearchable (C.order comp.now) forest.now self.now }
        requires other { IsSearchable (C.order comp.now) forest.now other.now }
        ensures apart { result ≡ are_apart (C.order comp.now) (list_of forest.now self.now)
            (list_of forest.now other.now) }
    {
        forest.trees.are_apart(self.root, other.root, comp)
    }

    /// Puts each key of `other` that is absent into this set, and returns whether there was one. A stored key that compares equal stays.
    ///
    /// Reads both sets side by side, up to the second new key, with at most one comparison for each key of either. Where nothing is new,
    /// that is all: no node and no memory is taken, and nothing is written. A single new key is inserted, as [`Set::insert`] does it.
    /// Where there are more, the call reads both anew, makes a tree of the union with the fewest nodes beside the old one, and frees
    /// that. Where memory can be had for a list of the union, which is given back then, it saves a third reading.
    ///
    /// Other handles to this set's tree are not live where several keys were new, or where a single one gave the tree a level. Where both
    /// are one set, nothing is new.
    ///
    /// # Errors
    ///
    /// [`OutOfMemory::Full`] where the forest's limit does not allow the nodes that are needed: those of an insertion, or for more than one
    /// new key those of the new tree beside the old ones. [`OutOfMemory::Memory`] where there was no memory for a table that had to grow:
    /// where so many nodes lie free, the call succeeds. The set and the forest are unchanged then.
    pub fn union_with<C: Comparator<K>>(
        &mut self,
        other: &Set<K>,
        forest: &mut SetForest<K>,
        comp: &C,
    ) -> Result<bool, OutOfMemory>
        requires searchable { IsSearchable (C.order comp.now) forest.old self.old }
        requires other { IsSearchable (C.order comp.now) forest.old other.now }
        ensures { Unites SET_LEAF (C.order comp.now) forest.old self.old other.now result forest.new
            self.new }
    {
        forest.trees.unite(&mut self.root, other.root, comp)
    }

    /// Removes each key that has no equal one in `other`, and returns whether there was one. The keys that stay are this set's own.
    ///
    /// Walks along both sets side by side, with at most one comparison for each key of either. Each removed key may rebalance or merge
    /// nodes, as in [`Set::remove`]. No node and no memory is taken, so this can't be refused.
    ///
    /// Where both are one set, nothing changes. Where `other` is empty, this set is cleared. Neither compares a key.
    pub fn intersect_with<C: Comparator<K>>(
        &mut self,
        other: &Set<K>,
        forest: &mut SetForest<K>,
        comp: &C,
    ) -> bool
        requires searchable { IsSearchable (C.order comp.now) forest.old self.old }
        requires other { IsSearchable (C.order comp.now) forest.old other.now }
        ensures { Intersects SET_LEAF (C.order comp.now) forest.old self.old other.now result forest.new
            self.new }
    {
        forest.trees.keep(&mut self.root, other.root, true, comp)
    }

    /// Removes each key that has an equal one in `other`, and returns whether there was one.
    ///
    /// Walks along both sets side by side, with at most one comparison for each key of either. Each removed key may rebalance or merge
    /// nodes, as in [`Set::remove`]. No node and no memory is taken, so this can't be refused.
    ///
    /// Where both are one set, it is cleared. Where `other` is empty, nothing changes. Neither compares a key.
    pub fn difference_with<C: Comparator<K>>(
        &mut self,
        other: &Set<K>,
        forest: &mut SetForest<K>,
        comp: &C,
    ) -> bool
        requires searchable { IsSearchable (C.order comp.now) forest.old self.old }
        requires other { IsSearchable (C.order comp.now) forest.old other.now }
        ensures { Subtracts SET_LEAF (C.order comp.now) forest.old self.old other.now result forest.new
            self.new }
    {
        forest.trees.keep(&mut self.root, other.root, false, comp)
    }

    /// Removes the keys that are within both bounds, and returns whether there was one.
    ///
    /// Where a bound is lacking, whole subtrees go, each node of which is read once, after at most one search, as in [`Set::contains`]. Of
    /// the nodes that stay, those on the path to where the rest begins or ends are written, and without a start bound the first node of
    /// each level is filled from its right neighbour, or merged into it, where it is at most half full. Between two bounds there is one
    /// search. Then each leaf behind the first one is removed whole if all its keys go, and the other keys one after another, in order.
    /// There is one comparison for each such leaf, one for each such key, and two more. Each of them may rebalance or merge nodes, as in
    /// [`Set::remove`]. No node and no memory is taken, so this can't be refused.
    pub fn remove_range<C: Comparator<K>>(
        &mut self,
        bounds: (Bound<K>, Bound<K>),
        forest: &mut SetForest<K>,
        comp: &C,
    ) -> bool
        requires { IsSearchable (C.order comp.now) forest.old self.old }
        ensures { RemovesBetween SET_LEAF (C.order comp.now) bounds.0 bounds.1 forest.old self.old result
            forest.new self.new }
    {
        forest.trees.remove_range(&mut self.root, bounds, comp)
    }

    /// Moves the keys that are not less than `key` to a set of their own, and returns its handle. Those that are less stay.
    ///
    /// One search, as in [`Set::contains`]. The nodes of each level that are in front stay, and those behind go with all below them. A node
    /// that has keys or children on both sides keeps those in front, and the others go to a new node. Then the first node of each level of
    /// the new set is filled from its right neighbour, or merged into it, where it is at most half full. So at most three nodes of a level
    /// are written, however many keys go. Where all go, nothing is written: the new handle has this set's number, and this set is empty.
    ///
    /// Takes a node for each that has keys or children on both sides: at most one a level, and none where no key or each key goes.
    /// Merged nodes are free afterwards.
    ///
    /// # Errors
    ///
    /// [`OutOfMemory::Full`] where the forest's limit does not allow these nodes, and [`OutOfMemory::Memory`] where the table had to grow
    /// for them and could not; neither where so many nodes lie free. The set and the forest are unchanged then.
    pub fn split_off<C: Comparator<K>>(
        &mut self,
        key: K,
        forest: &mut SetForest<K>,
        comp: &C,
    ) -> Result<Self, OutOfMemory>
        requires { IsSearchable (C.order comp.now) forest.old self.old }
        ensures { SplitsOff SET_LEAF (C.order comp.now) forest.old self.old key result forest.new self.new }
    {
        let tail = forest.trees.split_off(&mut self.root, key, comp)?;
        Ok(Set {
            root: tail,
            mark: PhantomData,
        })
    }

    /// Makes the set's tree anew, with the fewest nodes that so many keys can have: all nodes of a level are full but the last. The
    /// keys stay.
    ///
    /// Counts the keys, reads each once, and writes each once. No comparison. The new tree is made beside the old one, which is freed
    /// then. Other handles to this set's tree are not live then.
    ///
    /// # Errors
    ///
    /// [`OutOfMemory::Full`] where the forest's limit does not allow the new tree's nodes beside the old ones. [`OutOfMemory::Memory`]
    /// where there was no memory for a table that had to grow: where so many nodes lie free, the call succeeds. The set and the forest are
    /// unchanged then.
    pub fn compact(&mut self, forest: &mut SetForest<K>) -> Result<(), OutOfMemory>
        requires live { IsLive forest.old self.old }
        ensures { Compacts SET_LEAF forest.old self.old result forest.new self.new }
    {
        forest.trees.compact(&mut self.root)
    }

    /// Keeps the keys for which the predicate returns `true`, and removes all others.
    ///
    /// The predicate is called once for each key, in order. No comparison, no memory. Each removed key may rebalance or merge nodes, as in
    /// [`Set::remove`].
    pub fn retain<F: FnMut(K) -> bool>(&mut self, forest: &mut SetForest<K>, predicate: F)
        requires live { IsLive forest.old self.old }
        requires callable { MayAskEach (AnswersKey F.FnMut) (MayAskKey F.FnMut) predicate
            (list_of forest.old self.old) }
        ensures { Filters SET_LEAF (AnswersKey F.FnMut) forest.old self.old predicate forest.new self.new }
    {
        forest.trees.retain(&mut self.root, AskedKey { predicate });
    }

    /// Gives each key that is not less than `from` the one that `change` returns of it. No node moves.
    ///
    /// One search, as in [`Set::contains`], and then one call of `change` and one write for each of these keys, in order. No other
    /// comparison, no memory.
    ///
    /// The new keys have to increase under the set's order, and the first of them has to be greater than the last key that stays. This is
    /// not tested: [`Set::increases`] tells. Where `change` panics, in the package, the keys in front of that one are new ones.
    pub fn shift<C: Comparator<K>, F: Fn(K) -> K>(
        &mut self,
        from: K,
        change: F,
        forest: &mut SetForest<K>,
        comp: &C,
    )
        requires searchable { IsSearchable (C.order comp.now) forest.old self.old }
        requires callable { MayRekey (F.pre change)
            (place (C.order comp.now) (list_of forest.old self.old) from) (list_of forest.old self.old) }
        ensures shifted { Shifts (F.post change)
            (place (C.order comp.now) (list_of forest.old self.old) from) forest.old self.old forest.new }
        ensures handle { self.new ≡ self.old }
    {
        forest.trees.shift(self.root, from, change, comp);
    }

    /// Returns how many keys the set has. Reads each inner node, and of each leaf how many it has: no key is read and no key compared.
    pub fn len(&self, forest: &SetForest<K>) -> usize
        requires live { IsLive forest.now self.now }
        ensures count { result ≡ length (list_of forest.now self.now) }
    {
        forest.trees.len(self.root)
    }

    /// Returns the height of the set's tree, in levels of nodes: 0 where it is empty, and never more than 17. Visits one node of each
    /// level.
    ///
    /// A set of `n` keys has at most `(n + 7) / 8` leaves, and with `h` levels, 2 or more, `2 * 4 ^ (h - 1)` is less than `n`.
    pub fn levels(&self, forest: &SetForest<K>) -> usize
        requires live { IsLive forest.now self.now }
        ensures count { result ≡ length (sizes_of forest.now self.now) }
        ensures most { result ≤ 17 }
        ensures depth { 2 ≤ result → 2 * 4 ^ (result - 1) < length (list_of forest.now self.now) }
        ensures leaves { length (first_level (sizes_of forest.now self.now))
            ≤ (length (list_of forest.now self.now) + 7) / 8 }
    {
        forest.trees.levels(self.root)
    }

    /// Returns the most nodes that a set of `keys` keys or fewer can have, whatever was done to it.
    ///
    /// At most 32 steps, one for each level of such a tree. No node is visited, and no memory is taken.
    ///
    /// A leaf holds at most 15 keys, and each but the last of its set at least 8; an inner node has at most 8 children, and each but the
    /// last of its level at least 4. The number returned is that of the nodes where all of them hold as few as that allows, and a set may
    /// have so many. So it never decreases as `keys` grows. It is at most twice the number of such leaves, which is `keys / 8` rounded up,
    /// and so within `usize` for each number of keys.
    ///
    /// | Keys | 0 | 10 | 100 | 10,000 | 1,000,000 |
    /// |---|---|---|---|---|---|
    /// | Nodes | 0 | 3 | 18 | 1,670 | 166,671 |
    pub fn nodes_for(keys: usize) -> usize
        ensures enough { IsEnoughFor SET_LEAF keys result }
        ensures met { IsMetBy SET_LEAF keys result }
        ensures few { result ≤ 2 * ((keys + 7) / 8) }
    {
        most_nodes(keys, SET_LEAF)
    }

    /// Returns the fewest nodes that a set of `keys` keys can have, which are those that [`Set::load`] takes: a leaf for each 15,
    /// and on each further level a node for each 8, up to the root.
    ///
    /// At most 22 steps, one for each level of such a tree. No node is visited, and no memory is taken.
    pub fn fewest_nodes_for(keys: usize) -> usize
        ensures count { result ≡ fewest SET_LEAF keys }
        ensures least { (sizes : List (List ℕ)) → IsFitFor SET_LEAF keys sizes
            → result ≤ node_count sizes }
        ensures met { IsMetBy SET_LEAF keys result }
    {
        fewest_nodes(keys, SET_LEAF)
    }

    /// Returns an iterator over the keys in order. Visits one node of each level, and then each leaf once. No comparison.
    #[inline(always)]
    pub fn iter<'a>(&self, forest: &'a SetForest<K>) -> SetIter<'a, K>
        requires live { IsLive forest.now self.now }
        ensures keys { result ≡ elements forest.now self.now }
        ensures fits { SetsFitInMemory K.row }
    {
        SetIter::new(self, forest)
    }

    /// Returns an iterator over the keys from the last to the first. Constant time; the first step visits one node of each level, and then
    /// each leaf is visited once. No comparison.
    #[inline(always)]
    pub fn iter_back<'a>(&self, forest: &'a SetForest<K>) -> SetIterBack<'a, K>
        requires live { IsLive forest.now self.now }
        ensures keys { result ≡ reverse (elements forest.now self.now) }
        ensures fits { SetsFitInMemory K.row }
    {
        SetIterBack::new(self, forest)
    }

    /// Returns an iterator over the keys of this set and of `other`, in order. Of two keys that compare equal it gives this set's.
    ///
    /// Reads both sets side by side: one node of each level of either, and then, as far as it is read, each leaf once. A step compares at
    /// most once. All steps compare at most `n + m - 1` times for sets of `n` and `m` keys, and not at all where one of them is empty. No
    /// search, and no memory is taken. [`Set::union_with`] puts the keys of `other` into this set.
    #[inline(always)]
    pub fn union<'a, C: Comparator<K>>(
        &self,
        other: &Set<K>,
        forest: &'a SetForest<K>,
        comp: &'a C,
    ) -> SetUnion<'a, K, C>
        requires searchable { IsSearchable (C.order comp.now) forest.now self.now }
        requires other { IsSearchable (C.order comp.now) forest.now other.now }
        ensures keys { result ≡ keys_of (united (C.order comp.now) (list_of forest.now self.now)
            (list_of forest.now other.now)) }
        ensures increasing { IsStrictlySortedBy (C.order comp.now) result }
        ensures fits { SetsFitInMemory K.row }
    {
        SetUnion {
            merge: Merge::new(self, other, forest, comp),
        }
    }

    /// Returns an iterator over the keys of this set that have an equal one in `other`, in order.
    ///
    /// Reads both sets side by side, as [`Set::union`] does, up to the end of the one that ends first. All steps compare at most
    /// `n + m - 1` times for sets of `n` and `m` keys, and not at all where one of them is empty. No search, and no memory is taken. Where
    /// this set has few keys and `other` very many, [`Set::contains`] for each key costs less. [`Set::intersect_with`] removes the other
    /// keys.
    #[inline(always)]
    pub fn intersection<'a, C: Comparator<K>>(
        &self,
        other: &Set<K>,
        forest: &'a SetForest<K>,
        comp: &'a C,
    ) -> SetIntersection<'a, K, C>
        requires searchable { IsSearchable (C.order comp.now) forest.now self.now }
        requires other { IsSearchable (C.order comp.now) forest.now other.now }
        ensures keys { result ≡ keys_of (kept_from (C.order comp.now) true (list_of forest.now self.now)
            (list_of forest.now other.now)) }
        ensures increasing { IsStrictlySortedBy (C.order comp.now) result }
        ensures fits { SetsFitInMemory K.row }
    {
        SetIntersection {
            merge: Merge::new(self, other, forest, comp),
        }
    }

    /// Returns an iterator over the keys of this set that have no equal one in `other`, in order.
    ///
    /// Reads both sets side by side, as [`Set::union`] does, up to the end of this set. All steps compare at most `n + m - 1` times for
    /// sets of `n` and `m` keys, and not at all where one of them is empty. No search, and no memory is taken. Where this set has few keys
    /// and `other` very many, [`Set::contains`] for each key costs less. [`Set::difference_with`] removes the other keys.
    #[inline(always)]
    pub fn difference<'a, C: Comparator<K>>(
        &self,
        other: &Set<K>,
        forest: &'a SetForest<K>,
        comp: &'a C,
    ) -> SetDifference<'a, K, C>
        requires searchable { IsSearchable (C.order comp.now) forest.now self.now }
        requires other { IsSearchable (C.order comp.now) forest.now other.now }
        ensures keys { result ≡ keys_of (kept_from (C.order comp.now) false (list_of forest.now self.now)
            (list_of forest.now other.now)) }
        ensures increasing { IsStrictlySortedBy (C.order comp.now) result }
        ensures fits { SetsFitInMemory K.row }
    {
        SetDifference {
            merge: Merge::new(self, other, forest, comp),
        }
    }

    /// Returns an iterator over the keys of this set that have no equal one in `other`, and those of `other` that have none in this set, in
    /// order.
    ///
    /// Reads both sets side by side, as [`Set::union`] does. All steps compare at most `n + m - 1` times for sets of `n` and `m` keys, and
    /// not at all where one of them is empty. No search, and no memory is taken.
    #[inline(always)]
    pub fn symmetric_difference<'a, C: Comparator<K>>(
        &self,
        other: &Set<K>,
        forest: &'a SetForest<K>,
        comp: &'a C,
    ) -> SetSymmetricDifference<'a, K, C>
        requires searchable { IsSearchable (C.order comp.now) forest.now self.now }
        requires other { IsSearchable (C.order comp.now) forest.now other.now }
        ensures keys { result ≡ keys_of (unshared (C.order comp.now) (list_of forest.now self.now)
            (list_of forest.now other.now)) }
        ensures increasing { IsStrictlySortedBy (C.order comp.now) result }
        ensures fits { SetsFitInMemory K.row }
    {
        SetSymmetricDifference {
            merge: Merge::new(self, other, forest, comp),
        }
    }

    /// Returns a double-ended iterator over the keys within both bounds, in order.
    ///
    /// At most two searches, as in [`Set::contains`], and one comparison; the steps compare nothing. For an end without a bound
    /// there is no search, and the searches for two keys go down together as far as they go the same way. A start behind the end, or two
    /// excluded bounds that compare equal, give an empty range.
    #[inline(always)]
    pub fn range<'a, C: Comparator<K>>(
        &self,
        bounds: (Bound<K>, Bound<K>),
        forest: &'a SetForest<K>,
        comp: &C,
    ) -> SetRange<'a, K, C>
        requires { IsSearchable (C.order comp.now) forest.now self.now }
        ensures keys { result
            ≡ keys_of (entries_between (C.order comp.now) bounds.0 bounds.1 (list_of forest.now self.now)) }
        ensures increasing { IsStrictlySortedBy (C.order comp.now) result }
        ensures fits { SetsFitInMemory K.row }
    {
        let (trees, root) = (&forest.trees, self.root);
        SetRange {
            trees,
            root,
            ends: trees.range(root, bounds, comp),
            mark: PhantomData,
        }
    }

    /// Returns a cursor that reads and writes. It stands at the end, behind the last key. Constant time.
    pub fn cursor<'a, C: Comparator<K>>(
        &'a mut self,
        forest: &'a mut SetForest<K>,
        comp: &'a C,
    ) -> SetCursor<'a, K, C>
        requires { IsSearchable (C.order comp.now) forest.old self.old }
        ensures set_loan { set_loan result ≡ self.entry.ghost_name }
        ensures forest_loan { forest_loan result ≡ forest.entry.ghost_name }
        ensures comparator { comparator result ≡ comp.now }
        ensures forest { forest_now result ≡ forest.old }
        ensures set { set_now result ≡ self.old }
        ensures spot { spot result ≡ length (list_of forest.old self.old) }
        ensures valid { IsCursor C.order result }
        ensures fits { SetsFitInMemory K.row }
    {
        SetCursor {
            set: self,
            forest,
            comp,
            path: Path::default(),
        }
    }

    /// Returns whether each key is less than the next under the comparator, which each call that compares requires.
    ///
    /// Visits each key, and compares at most `n - 1` times for `n` keys. A set of at most one key increases under every order.
    pub fn increases<C: Comparator<K>>(&self, forest: &SetForest<K>, comp: &C) -> bool
        requires live { IsLive forest.now self.now }
        ensures increasing { IsTrue result
            ↔ IsIncreasing (C.order comp.now) (list_of forest.now self.now) }
    {
        let mut last = None;
        'keys: for key in self.iter(forest) {
            if !follows(last, key, comp) {
                return false;
            }
            last = Some(key);
        }
        true
    }
}

// Returns whether a key was absent, given the value that was stored at it.
pub(crate) fn is_new(put: Result<Option<SetValue>, OutOfMemory>) -> Result<bool, OutOfMemory>
    ensures { as_put result ≡ put }
{
    match put {
        Ok(old) => Ok(old.is_none()),
        Err(refused) => Err(refused),
    }
}
