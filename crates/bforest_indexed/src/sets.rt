//! Sets by an index.
ghost use Rattle.bforest.specs.Bounds.{entries_between, entry_at_least, entry_at_most};
ghost use Rattle.bforest.specs.Calls.{Reserves};
ghost use Rattle.bforest.specs.Entries.{IsIncreasing, is_present, value_for};
ghost use Rattle.bforest.specs.Forest.{IsFitFor, IsSearchable, empty, first_level, free_of, limit_of, memory_of, slots_of};
ghost use Rattle.bforest.specs.Memory.{SetsFitInMemory};
ghost use Rattle.bforest.specs.Retain.{MayAskEach};
ghost use Rattle.bforest.specs.Set.{AnswersKey, MayAskKey, as_popped, as_put, as_removed, the_value, with_unit};
ghost use Rattle.bforest.specs.Union.{are_among, are_apart, kept_from, united, unshared};
ghost use Rattle.bforest_indexed.specs.Indexed.{CompactsAt, HoldsFor, RemovesBetweenAt, SplitsOffAt, ReservesFor};
ghost use Rattle.bforest_indexed.specs.Loads.{LoadsAt};
ghost use Rattle.bforest_indexed.specs.Indexed.{ClearsAll, ClearsAt, CopiesAt, FiltersAt, InsertsAt, IntersectsAt, KeepsAll, MovesAt, PopsAt, RemovesAt, SubtractsAt, Swaps, Truncates, UnitesAt};
ghost use Rattle.bforest.specs.declared.set_forest.TheConstants.{SET_LEAF};
ghost use Rattle.bforest_indexed.specs.Indexed.{comparator, count, entries, handle, keys, memory, node_sizes, nodes_in_use, table};
ghost use Rattle.std.specs.List.Sorted.{IsStrictlySortedBy};
ghost use Rattle.std.specs.Map.{keys_of};
ghost use Rattle.std.specs.Prelude.{IfOk, IsOk, IsTrue, OnErr, OnOk, false, is_some, length, option_map, reverse, slice_get, true, ◌*◌, ◌+◌, ◌-◌, ◌/◌, ◌<◌, ◌^◌, ◌↔◌, ◌≡◌, ◌≤◌, ℕ};

use crate::handles::{add_empty, empty_all, hold};
use crate::idx::Idx;
use crate::load_error::LoadError;
use crate::room::{reserve_handles, slots_for};
use bforest::{
    Comparator, OutOfMemory, Set, SetDifference, SetForest, SetIntersection, SetIter, SetIterBack,
    SetRange, SetSymmetricDifference, SetUnion,
};
use bforest_trees::first_unordered;
use std::alloc::{AllocError, Global};
use std::marker::{Model, PhantomData};
use std::mem;
use std::ops::Bound;

/// Many ordered sets in one table of nodes, numbered from 0, under one order.
///
/// Each call on a set names it by its index, which has to be less than [`Sets::len`]. In plain Rust an index that is not there panics, and
/// the panic names it. The set of an index is found in constant time, and an empty set takes 4 bytes and no node.
///
/// An index is a `usize`, or of a type of your own that implements [`Idx`]: then [`Sets::typed`] makes them.
#[derive(Drop)]
pub struct Sets<K: Copy, C: Comparator<K>, I = usize> {
    forest: SetForest<K>,
    order: C,
    sets: Vec<Set<K>>,
    index: PhantomData<I>,
}

impl<K: Copy, C: Comparator<K>, I> Model for Sets<K, C, I> {
    ghost use Rattle.bforest.specs.declared.set_forest.TheConstants.{SET_LEAF};
    ghost use Rattle.bforest_indexed.specs.Indexed.{AreKept, Indexed};
    ghost use Rattle.std.specs.Prelude.{vec_capacity};

    ghost Value = { Indexed K (Unit {0}) C };

    ghost view = { λ m. record {
      forest = m.forest;
      order = m.order;
      handles = m.sets.items;
      held = vec_capacity m.sets;
    } };

    ghost invariant = { λ m. AreKept SET_LEAF (C.order m.order)
        (record {
          forest = m.forest;
          order = m.order;
          handles = m.sets.items;
          held = vec_capacity m.sets;
        }) };
}

impl<K: Copy, C: Comparator<K>> Sets<K, C> {
    /// Returns no sets, whose table has at most 4294967295 slots. No memory is taken.
    ///
    /// Each set is named by a `usize`; [`Sets::typed`] is for an index type of your own.
    pub fn new(alloc: Global, order: C) -> Self
        ensures none { count result ≡ 0 }
        ensures table { table result ≡ empty u32.MAX }
        ensures comparator { comparator result ≡ order }
        ensures memory { memory result ≡ 0 }
    {
        Sets::typed(alloc, order)
    }

    /// Returns no sets, whose table has at most `limit` slots. No memory is taken.
    ///
    /// Each set is named by a `usize`; [`Sets::typed_with_node_limit`] is for an index type of your own.
    pub fn with_node_limit(alloc: Global, order: C, limit: u32) -> Self
        ensures none { count result ≡ 0 }
        ensures table { table result ≡ empty limit }
        ensures comparator { comparator result ≡ order }
        ensures memory { memory result ≡ 0 }
    {
        Sets::typed_with_node_limit(alloc, order, limit)
    }
}

impl<K: Copy, C: Comparator<K>, I: Idx> Sets<K, C, I> {
    /// Returns no sets, whose table has at most 4294967295 slots. No memory is taken.
    ///
    /// As [`Sets::new`], for any type of index, which the call does not tell: write it in the type of the value.
    pub fn typed(alloc: Global, order: C) -> Self
        ensures none { count result ≡ 0 }
        ensures table { table result ≡ empty u32.MAX }
        ensures comparator { comparator result ≡ order }
        ensures memory { memory result ≡ 0 }
    {
        Sets::typed_with_node_limit(alloc, order, u32::MAX)
    }

    /// Returns no sets, whose table has at most `limit` slots. No memory is taken.
    ///
    /// As [`Sets::with_node_limit`], for any type of index, which the call does not tell: write it in the type of the value.
    pub fn typed_with_node_limit(alloc: Global, order: C, limit: u32) -> Self
        ensures none { count result ≡ 0 }
        ensures table { table result ≡ empty limit }
        ensures comparator { comparator result ≡ order }
        ensures memory { memory result ≡ 0 }
    {
        Sets {
            forest: SetForest::with_node_limit(alloc, limit),
            order,
            sets: Vec::new(alloc),
            index: PhantomData,
        }
    }

    /// Returns how many sets there are, empty ones included. Constant time.
    pub fn len(&self) -> usize
        ensures count { result ≡ count self.now }
        ensures held { count self.now ≤ memory self.now }
    {
        self.sets.len()
    }

    /// Returns whether there is no set, not even an empty one. Constant time.
    pub fn is_empty(&self) -> bool
        ensures none { IsTrue result ↔ (count self.now ≡ 0) }
    {
        self.sets.is_empty()
    }

    /// Adds an empty set and returns its index, whose number is that of the sets before. It takes no node.
    ///
    /// # Errors
    ///
    /// `AllocError` where there is no memory for the handle; nothing has changed then.
    pub fn push(&mut self) -> Result<I, AllocError>
        requires nameable { I.names (count self.old) }
        ensures index { IfOk result (λ i. I.number i ≡ count self.old) }
        ensures count { OnOk result (count self.new ≡ count self.old + 1) }
        ensures keeps { KeepsAll self.old self.new }
        ensures table { table self.new ≡ table self.old }
        ensures holds { HoldsFor (count self.old + 1) self.old self.new }
        ensures succeeds { count self.old < memory self.old → IsOk result }
        ensures refused { OnErr result (self.new ≡ self.old) }
    {
        let index = I::new(self.sets.len());
        hold(&mut self.sets, 1)?;
        self.sets.push_reserved(Set::new());
        Ok(index)
    }

    /// Adds empty sets until there are `len`; where there are as many or more, nothing changes. They take no node, and the memory for all
    /// their handles is taken once.
    ///
    /// # Errors
    ///
    /// `AllocError` where there is no memory for the handles; nothing has changed then.
    pub fn grow_to(&mut self, len: usize) -> Result<(), AllocError>
        ensures count { OnOk result (count self.new ≡ count self.old + (len - count self.old)) }
        ensures keeps { KeepsAll self.old self.new }
        ensures table { table self.new ≡ table self.old }
        ensures holds { HoldsFor len self.old self.new }
        ensures succeeds { len ≤ memory self.old → IsOk result }
        ensures refused { OnErr result (self.new ≡ self.old) }
    {
        add_empty(&mut self.sets, len)
    }

    /// Removes the last set, whose nodes are free then, and returns whether there was one. Each other set keeps its index. Visits each node
    /// of its tree once. No comparison, no memory.
    pub fn pop(&mut self) -> bool
        ensures removed { IsTrue result ↔ (0 < count self.old) }
        ensures rest { Truncates self.old (count self.old - 1) self.new }
    {
        let Some(mut last) = self.sets.pop() else {
            return false;
        };
        last.clear(&mut self.forest);
        true
    }

    /// Removes the sets from index `len` on, whose nodes are free then; where there are `len` or fewer, nothing changes. Each other set
    /// keeps its index. Visits each node of their trees once. No comparison, no memory.
    pub fn truncate(&mut self, len: usize)
        ensures rest { Truncates self.old len self.new }
    {
        while len < self.len() {
            self.pop();
        }
    }

    /// Removes all keys of all sets, whose number stays. The table has no slot then, and its limit stays; its memory is kept for later
    /// slots. Visits each handle once and no node.
    pub fn clear_all(&mut self)
        ensures { ClearsAll self.old self.new }
    {
        empty_all(&mut self.sets);
        self.forest.clear();
    }

    /// Exchanges two sets, which may be one. Constant time: no key moves.
    pub fn swap(&mut self, i: I, j: I)
        requires first { I.number i < count self.old }
        requires second { I.number j < count self.old }
        ensures { Swaps self.old (I.number i) (I.number j) self.new }
    {
        self.sets.swap(i.index(), j.index());
    }

    // The set of an index.
    fn set(&self, index: I) -> &Set<K>
        requires within { I.number index < count self.now }
        ensures handle { result.now ≡ handle self.now (I.number index) }
        ensures searchable { IsSearchable (C.order (comparator self.now)) (table self.now) result.now }
    {
        &self.sets[index.index()]
    }

    /// Returns whether a set has a key that compares equal to `key`. One search, as [`bforest::Set::contains`] makes.
    pub fn contains(&self, index: I, key: K) -> bool
        requires within { I.number index < count self.now }
        ensures present { result
            ≡ is_present (C.order (comparator self.now)) (entries self.now (I.number index)) key }
        ensures value { result
            ≡ is_some (value_for (C.order (comparator self.now)) (entries self.now (I.number index)) key) }
    {
        self.set(index).contains(key, &self.forest, &self.order)
    }

    /// Returns the last key that is not greater than `key`, as it is stored, or `None` where each key is greater. One search.
    pub fn get_or_less(&self, index: I, key: K) -> Option<K>
        requires within { I.number index < count self.now }
        ensures key { result ≡ option_map (λ e. e.0)
            (entry_at_most (C.order (comparator self.now)) (entries self.now (I.number index)) key) }
    {
        self.set(index).get_or_less(key, &self.forest, &self.order)
    }

    /// Returns the first key that is not less than `key`, as it is stored, or `None` where each key is less. One search.
    pub fn get_or_greater(&self, index: I, key: K) -> Option<K>
        requires within { I.number index < count self.now }
        ensures key { result ≡ option_map (λ e. e.0)
            (entry_at_least (C.order (comparator self.now)) (entries self.now (I.number index)) key) }
    {
        self.set(index)
            .get_or_greater(key, &self.forest, &self.order)
    }

    /// Returns the first key of a set, or `None` where it is empty. Visits one node of each level. No comparison.
    pub fn first(&self, index: I) -> Option<K>
        requires within { I.number index < count self.now }
        ensures key { result ≡ slice_get (keys self.now (I.number index)) 0 }
    {
        self.set(index).first(&self.forest)
    }

    /// Returns the last key of a set, or `None` where it is empty. Visits one node of each level. No comparison.
    pub fn last(&self, index: I) -> Option<K>
        requires within { I.number index < count self.now }
        ensures key { result
            ≡ slice_get (keys self.now (I.number index)) (length (keys self.now (I.number index)) - 1) }
    {
        self.set(index).last(&self.forest)
    }

    /// Inserts a key and returns whether it was absent, as [`bforest::Set::insert`] does: a stored key that compares equal stays. One
    /// search, and at most one node more than [`Sets::levels`].
    ///
    /// # Errors
    ///
    /// [`OutOfMemory`] where the key is absent and too few nodes are available; nothing has changed then. It does not come where there is
    /// room for the sets as they are then, by [`Sets::reserve_for`].
    pub fn insert(&mut self, index: I, key: K) -> Result<bool, OutOfMemory>
        requires within { I.number index < count self.old }
        ensures { InsertsAt SET_LEAF (C.order (comparator self.old)) self.old (I.number index) key the_value
            (as_put result) self.new }
    {
        self.sets[index.index()].insert(key, &mut self.forest, &self.order)
    }

    /// Inserts a key and returns whether it was absent, exactly as [`Sets::insert`] does.
    ///
    /// # Errors
    ///
    /// Those of [`Sets::insert`].
    pub fn try_insert(&mut self, index: I, key: K) -> Result<bool, OutOfMemory>
        requires within { I.number index < count self.old }
        ensures { InsertsAt SET_LEAF (C.order (comparator self.old)) self.old (I.number index) key the_value
            (as_put result) self.new }
    {
        self.insert(index, key)
    }

    /// Removes the key that compares equal to `key` and returns whether there was one; where there was none, nothing changes. One search,
    /// and no memory is taken.
    pub fn remove(&mut self, index: I, key: K) -> bool
        requires within { I.number index < count self.old }
        ensures { RemovesAt SET_LEAF (C.order (comparator self.old)) self.old (I.number index) key
            (as_removed result) self.new }
    {
        self.sets[index.index()].remove(key, &mut self.forest, &self.order)
    }

    /// Removes the first key of a set and returns it, or returns `None` and changes nothing where the set is empty. No comparison, and no
    /// memory is taken.
    pub fn pop_first(&mut self, index: I) -> Option<K>
        requires within { I.number index < count self.old }
        ensures { PopsAt SET_LEAF self.old (I.number index) 0 (as_popped result) self.new }
    {
        self.sets[index.index()].pop_first(&mut self.forest)
    }

    /// Removes the last key of a set and returns it, or returns `None` and changes nothing where the set is empty. No comparison, and no
    /// memory is taken.
    pub fn pop_last(&mut self, index: I) -> Option<K>
        requires within { I.number index < count self.old }
        ensures { PopsAt SET_LEAF self.old (I.number index) (length (entries self.old (I.number index)) - 1)
            (as_popped result) self.new }
    {
        self.sets[index.index()].pop_last(&mut self.forest)
    }

    /// Removes all keys of a set, whose nodes are free then. Visits each node of its tree once. No comparison, no memory.
    pub fn clear(&mut self, index: I)
        requires within { I.number index < count self.old }
        ensures { ClearsAt self.old (I.number index) self.new }
    {
        self.sets[index.index()].clear(&mut self.forest);
    }

    /// Gives the set at `to` the keys of the set at `from`, in nodes of the same sizes; its own keys end. Where both are one, nothing
    /// changes.
    ///
    /// The copy is made first, as [`bforest::Set::deep_clone`] makes it: it takes as many nodes as the set at `from` has, and only then
    /// those of the set at `to` become free. Reads each node of both. No comparison.
    ///
    /// # Errors
    ///
    /// [`OutOfMemory`] where too few nodes are available; nothing has changed then. It does not come where there is room for one more set,
    /// by [`Sets::reserve_for`].
    pub fn copy(&mut self, from: I, to: I) -> Result<(), OutOfMemory>
        requires from { I.number from < count self.old }
        requires to { I.number to < count self.old }
        ensures { CopiesAt SET_LEAF self.old (I.number from) (I.number to) result self.new }
    {
        let (from, to) = (from.index(), to.index());
        if from == to {
            return Ok(());
        }
        let copy = self.sets[from].deep_clone(&mut self.forest)?;
        let mut old = mem::replace(&mut self.sets[to], copy);
        old.clear(&mut self.forest);
        Ok(())
    }

    /// Gives the set at an index these keys, in a tree with the fewest nodes that so many keys can have; its own keys end.
    ///
    /// The order is tested first, with one comparison for each key but the first. Then the tree is made, as [`bforest::Set::load`] makes
    /// it, and only then the nodes that the set had become free. Writes each key once.
    ///
    /// # Errors
    ///
    /// [`LoadError::Unordered`] with the index in the slice of the first key that is not less than the next one. [`LoadError::Refused`]
    /// where too few nodes are available. It does not come where there is room for one more set, by [`Sets::reserve_for`]. Nothing has
    /// changed then.
    pub fn load(&mut self, index: I, keys: &[K]) -> Result<(), LoadError>
        requires within { I.number index < count self.old }
        ensures { LoadsAt SET_LEAF (C.order (comparator self.old)) self.old (I.number index)
            (with_unit keys.now) result self.new }
    {
        if let Some(place) = first_unordered(keys, &self.order) {
            return Err(LoadError::Unordered(place));
        }
        match Set::load(keys, &mut self.forest) {
            Ok(loaded) => {
                let mut before = mem::replace(&mut self.sets[index.index()], loaded);
                before.clear(&mut self.forest);
                Ok(())
            }
            Err(refused) => Err(LoadError::Refused(refused)),
        }
    }

    /// Returns whether each key of the set at `index` has an equal one in the set at `other`, which may be the same. An empty set is a
    /// subset of each set. Reads both side by side, up to the first key that is not there: at most one comparison for each key of either.
    pub fn is_subset(&self, index: I, other: I) -> bool
        requires within { I.number index < count self.now }
        requires other { I.number other < count self.now }
        ensures among { result ≡ are_among (C.order (comparator self.now)) (entries self.now (I.number index))
            (entries self.now (I.number other)) }
    {
        let (set, other) = (self.set(index), self.set(other));
        set.is_subset(other, &self.forest, &self.order)
    }

    /// Returns whether no key of the set at `index` has an equal one in the set at `other`, which may be the same. An empty set is disjoint
    /// from each set. Reads both side by side, up to the first key that both have: at most one comparison for each key of either.
    pub fn is_disjoint(&self, index: I, other: I) -> bool
        requires within { I.number index < count self.now }
        requires other { I.number other < count self.now }
        ensures apart { result ≡ are_apart (C.order (comparator self.now)) (entries self.now (I.number index))
            (entries self.now (I.number other)) }
    {
        let (set, other) = (self.set(index), self.set(other));
        set.is_disjoint(other, &self.forest, &self.order)
    }

    /// Puts each key of the set at `other` that is absent into the set at `index`, and returns whether there was one. A stored key that
    /// compares equal stays. Where both are one, nothing changes.
    ///
    /// As [`bforest::Set::union_with`]: reads both, and where nothing is new, that is all. A single new key is inserted; for more of them
    /// the call makes a tree of the union with the fewest nodes beside the old one, and frees that.
    ///
    /// # Errors
    ///
    /// [`OutOfMemory`] where a key is new and the nodes that are needed cannot be had, those of an insertion or those of the new tree
    /// beside the old ones; nothing has changed then.
    pub fn union_with(&mut self, index: I, other: I) -> Result<bool, OutOfMemory>
        requires within { I.number index < count self.old }
        requires other { I.number other < count self.old }
        ensures { UnitesAt SET_LEAF (C.order (comparator self.old)) self.old (I.number index) (I.number other)
            result self.new }
    {
        let theirs = self.set(other).clone();
        self.sets[index.index()].union_with(&theirs, &mut self.forest, &self.order)
    }

    /// Removes each key of the set at `index` that has no equal one in the set at `other`, and returns whether there was one. The keys that
    /// stay are the set's own. Where both are one, nothing changes.
    ///
    /// As [`bforest::Set::intersect_with`]: walks along both, with at most one comparison for each key of either. It takes no node and no
    /// memory, so it can't be refused. Where a comparison panics, in the package, a part of these keys may be removed already.
    pub fn intersect_with(&mut self, index: I, other: I) -> bool
        requires within { I.number index < count self.old }
        requires other { I.number other < count self.old }
        ensures { IntersectsAt SET_LEAF (C.order (comparator self.old)) self.old (I.number index)
            (I.number other) result self.new }
    {
        let theirs = self.set(other).clone();
        self.sets[index.index()].intersect_with(&theirs, &mut self.forest, &self.order)
    }

    /// Removes each key of the set at `index` that has an equal one in the set at `other`, and returns whether there was one. Where both
    /// are one, all keys are removed.
    ///
    /// As [`bforest::Set::difference_with`]: walks along both, with at most one comparison for each key of either. It takes no node and no
    /// memory, so it can't be refused. Where a comparison panics, in the package, a part of these keys may be removed already.
    pub fn difference_with(&mut self, index: I, other: I) -> bool
        requires within { I.number index < count self.old }
        requires other { I.number other < count self.old }
        ensures { SubtractsAt SET_LEAF (C.order (comparator self.old)) self.old (I.number index)
            (I.number other) result self.new }
    {
        let theirs = self.set(other).clone();
        self.sets[index.index()].difference_with(&theirs, &mut self.forest, &self.order)
    }

    /// Moves the keys of the set at `from` that are not less than `key` to the set at `to`, whose own keys end. Those that are less stay
    /// where they are. Where both are one, it keeps those that went.
    ///
    /// As [`bforest::Set::split_off`], with one search: nodes go as a whole, and at most one a level is new. The nodes of the set at `to`
    /// become free afterwards.
    ///
    /// # Errors
    ///
    /// [`OutOfMemory::Full`] where the limit does not allow the new nodes beside those that are there, and [`OutOfMemory::Memory`] where
    /// the table had to grow for them and could not; neither where so many nodes lie free. Nothing has changed then.
    pub fn split_off(&mut self, from: I, key: K, to: I) -> Result<(), OutOfMemory>
        requires from { I.number from < count self.old }
        requires to { I.number to < count self.old }
        ensures { SplitsOffAt SET_LEAF (C.order (comparator self.old)) self.old (I.number from) key
            (I.number to) result self.new }
    {
        let tail = self.sets[from.index()].split_off(key, &mut self.forest, &self.order)?;
        let mut before = mem::replace(&mut self.sets[to.index()], tail);
        before.clear(&mut self.forest);
        Ok(())
    }

    /// Moves the key that compares equal to `key` from the set at `from` to that at `to`, and returns whether there was one. As
    /// [`Sets::insert`] of `key` there, and [`Sets::remove`] here: an equal key that was there stays. Where both are one, nothing changes.
    ///
    /// A search in the set at `from`, one in that at `to`, and one to remove the key, which comes last: where the insertion is refused, the
    /// key is where it was.
    ///
    /// # Errors
    ///
    /// [`OutOfMemory`] where the key is there, it is absent in the set at `to`, and too few nodes are available for an insertion; nothing
    /// has changed then. It does not come where [`Sets::reserve_for`] made room for the set at `to` with one key more.
    pub fn move_key(&mut self, from: I, key: K, to: I) -> Result<bool, OutOfMemory>
        requires from { I.number from < count self.old }
        requires to { I.number to < count self.old }
        ensures { MovesAt SET_LEAF (C.order (comparator self.old)) self.old (I.number from) key
            (I.number to) result self.new }
    {
        if !self.contains(from, key) {
            return Ok(false);
        }
        if from.index() == to.index() {
            return Ok(true);
        }
        self.insert(to, key)?;
        self.remove(from, key);
        Ok(true)
    }

    /// Removes the keys of a set that are within both bounds, and returns whether there was one.
    ///
    /// As [`bforest::Set::remove_range`]: where a bound is lacking, at most one search, and whole subtrees go. Between two bounds one
    /// search, and then one comparison for each leaf that goes whole, one for each other key that goes, and two more. It takes no node and
    /// no memory, so it can't be refused.
    pub fn remove_range(&mut self, index: I, bounds: (Bound<K>, Bound<K>)) -> bool
        requires within { I.number index < count self.old }
        ensures { RemovesBetweenAt SET_LEAF (C.order (comparator self.old)) bounds.0 bounds.1 self.old
            (I.number index) result self.new }
    {
        self.sets[index.index()].remove_range(bounds, &mut self.forest, &self.order)
    }

    /// Makes the tree of a set anew, with the fewest nodes that so many keys can have. The keys stay.
    ///
    /// As [`bforest::Set::compact`]: the new tree is made beside the old one, which is freed then. No comparison.
    ///
    /// # Errors
    ///
    /// [`OutOfMemory`] where too few nodes are available beside the old ones; nothing has changed then.
    pub fn compact(&mut self, index: I) -> Result<(), OutOfMemory>
        requires within { I.number index < count self.old }
        ensures { CompactsAt SET_LEAF self.old (I.number index) result self.new }
    {
        self.sets[index.index()].compact(&mut self.forest)
    }

    /// Keeps the keys for which the predicate returns `true`, and removes all others. It is called once for each key, in order. No
    /// comparison, no memory.
    ///
    /// Where the predicate panics, in the package, each key before that one is kept or removed as it returned, and all others stay.
    pub fn retain<F: FnMut(K) -> bool>(&mut self, index: I, predicate: F)
        requires within { I.number index < count self.old }
        requires callable { MayAskEach (AnswersKey F.FnMut) (MayAskKey F.FnMut) predicate
            (entries self.old (I.number index)) }
        ensures { FiltersAt SET_LEAF (AnswersKey F.FnMut) predicate self.old (I.number index) self.new }
    {
        self.sets[index.index()].retain(&mut self.forest, predicate);
    }

    /// Returns how many keys a set has, as [`bforest::Set::len`] counts them. The number of sets is [`Sets::len`].
    pub fn len_of(&self, index: I) -> usize
        requires within { I.number index < count self.now }
        ensures count { result ≡ length (entries self.now (I.number index)) }
    {
        self.set(index).len(&self.forest)
    }

    /// Returns the height of a set's tree, in levels of nodes: 0 where it is empty, and never more than 17. Visits one node of each level.
    pub fn levels(&self, index: I) -> usize
        requires within { I.number index < count self.now }
        ensures count { result ≡ length (node_sizes self.now (I.number index)) }
        ensures most { result ≤ 17 }
        ensures depth { 2 ≤ result → 2 * 4 ^ (result - 1) < length (entries self.now (I.number index)) }
        ensures leaves { length (first_level (node_sizes self.now (I.number index)))
            ≤ (length (entries self.now (I.number index)) + 7) / 8 }
    {
        self.set(index).levels(&self.forest)
    }

    /// Returns an iterator over the keys of a set, in order. Visits one node of each level, and then each leaf once. No comparison.
    #[inline(always)]
    pub fn iter(&self, index: I) -> SetIter<'_, K>
        requires within { I.number index < count self.now }
        ensures keys { result ≡ keys self.now (I.number index) }
        ensures fits { SetsFitInMemory K.row }
    {
        self.set(index).iter(&self.forest)
    }

    /// Returns an iterator over the keys of a set, from the last to the first. Constant time; the first step visits one node of each level,
    /// and then each leaf is visited once. No comparison.
    #[inline(always)]
    pub fn iter_back(&self, index: I) -> SetIterBack<'_, K>
        requires within { I.number index < count self.now }
        ensures keys { result ≡ reverse (keys self.now (I.number index)) }
        ensures fits { SetsFitInMemory K.row }
    {
        self.set(index).iter_back(&self.forest)
    }

    /// Returns an iterator over the keys of the sets at `index` and at `other`, in order; both may be one. Of two keys that compare equal
    /// it gives that of the set at `index`. As [`bforest::Set::union`]: reads both side by side, with at most `n + m - 1` comparisons in
    /// all.
    #[inline(always)]
    pub fn union(&self, index: I, other: I) -> SetUnion<'_, K, C>
        requires within { I.number index < count self.now }
        requires other { I.number other < count self.now }
        ensures keys { result ≡ keys_of (united (C.order (comparator self.now))
            (entries self.now (I.number index)) (entries self.now (I.number other))) }
        ensures increasing { IsStrictlySortedBy (C.order (comparator self.now)) result }
        ensures fits { SetsFitInMemory K.row }
    {
        let (set, other) = (self.set(index), self.set(other));
        set.union(other, &self.forest, &self.order)
    }

    /// Returns an iterator over the keys of the set at `index` that have an equal one in the set at `other`, in order; both may be one. As
    /// [`bforest::Set::intersection`]: reads both side by side, with at most `n + m - 1` comparisons in all.
    #[inline(always)]
    pub fn intersection(&self, index: I, other: I) -> SetIntersection<'_, K, C>
        requires within { I.number index < count self.now }
        requires other { I.number other < count self.now }
        ensures keys { result ≡ keys_of (kept_from (C.order (comparator self.now)) true
            (entries self.now (I.number index)) (entries self.now (I.number other))) }
        ensures increasing { IsStrictlySortedBy (C.order (comparator self.now)) result }
        ensures fits { SetsFitInMemory K.row }
    {
        let (set, other) = (self.set(index), self.set(other));
        set.intersection(other, &self.forest, &self.order)
    }

    /// Returns an iterator over the keys of the set at `index` that have no equal one in the set at `other`, in order; both may be one. As
    /// [`bforest::Set::difference`]: reads both side by side, with at most `n + m - 1` comparisons in all.
    #[inline(always)]
    pub fn difference(&self, index: I, other: I) -> SetDifference<'_, K, C>
        requires within { I.number index < count self.now }
        requires other { I.number other < count self.now }
        ensures keys { result ≡ keys_of (kept_from (C.order (comparator self.now)) false
            (entries self.now (I.number index)) (entries self.now (I.number other))) }
        ensures increasing { IsStrictlySortedBy (C.order (comparator self.now)) result }
        ensures fits { SetsFitInMemory K.row }
    {
        let (set, other) = (self.set(index), self.set(other));
        set.difference(other, &self.forest, &self.order)
    }

    /// Returns an iterator over the keys that one of the sets at `index` and at `other` has alone, in order; both may be one. As
    /// [`bforest::Set::symmetric_difference`]: reads both side by side, with at most `n + m - 1` comparisons in all.
    #[inline(always)]
    pub fn symmetric_difference(&self, index: I, other: I) -> SetSymmetricDifference<'_, K, C>
        requires within { I.number index < count self.now }
        requires other { I.number other < count self.now }
        ensures keys { result ≡ keys_of (unshared (C.order (comparator self.now))
            (entries self.now (I.number index)) (entries self.now (I.number other))) }
        ensures increasing { IsStrictlySortedBy (C.order (comparator self.now)) result }
        ensures fits { SetsFitInMemory K.row }
    {
        let (set, other) = (self.set(index), self.set(other));
        set.symmetric_difference(other, &self.forest, &self.order)
    }

    /// Returns a double-ended iterator over the keys of a set within both bounds, in order. At most two searches and one comparison; the
    /// steps compare nothing.
    pub fn range(&self, index: I, bounds: (Bound<K>, Bound<K>)) -> SetRange<'_, K, C>
        requires within { I.number index < count self.now }
        ensures keys { result ≡ keys_of (entries_between (C.order (comparator self.now)) bounds.0 bounds.1
            (entries self.now (I.number index))) }
        ensures fits { SetsFitInMemory K.row }
    {
        self.set(index).range(bounds, &self.forest, &self.order)
    }

    /// Returns how many slots the table has, which is the number of nodes in use and of free ones. Memory is held for all of them, and
    /// stays when all is cleared: so many slots can be had after that with no request for memory. Constant time.
    pub fn slots(&self) -> u32
        ensures count { result ≡ slots_of (table self.now) }
        ensures within { slots_of (table self.now) ≤ limit_of (table self.now) }
        ensures held { slots_of (table self.now) ≤ memory_of (table self.now) }
        ensures account { slots_of (table self.now) ≡ free_of (table self.now) + nodes_in_use self.now }
        ensures fit { (i : ℕ) → IsFitFor SET_LEAF (length (entries self.now i)) (node_sizes self.now i) }
        ensures increasing { (i : ℕ) → IsIncreasing (C.order (comparator self.now)) (entries self.now i) }
    {
        self.forest.slots()
    }

    /// Returns how many nodes the trees of all sets have. Constant time.
    pub fn nodes_in_use(&self) -> u32
        ensures count { result ≡ nodes_in_use self.now }
        ensures within { slots_of (table self.now) ≤ limit_of (table self.now) }
    {
        self.slots() - self.free_slots()
    }

    /// Returns how many slots are free. Constant time.
    pub fn free_slots(&self) -> u32
        ensures count { result ≡ free_of (table self.now) }
    {
        self.forest.free_slots()
    }

    /// Returns how many slots the table may have. Constant time.
    pub fn node_limit(&self) -> u32
        ensures limit { result ≡ limit_of (table self.now) }
    {
        self.forest.node_limit()
    }

    /// Makes sure that `n` slots are free, as [`bforest::SetForest::reserve_nodes`] does: insertions that need no more nodes in all can't
    /// fail then. Where so many are free already, nothing changes and no memory is taken.
    ///
    /// # Errors
    ///
    /// [`OutOfMemory`] where so many slots can't be had; nothing has changed then.
    pub fn reserve_nodes(&mut self, n: u32) -> Result<(), OutOfMemory>
        ensures reserves { Reserves (table self.old) n result (table self.new) }
        ensures keeps { KeepsAll self.old self.new }
        ensures count { count self.new ≡ count self.old }
        ensures memory { memory self.new ≡ memory self.old }
    {
        self.forest.reserve_nodes(n)
    }

    /// Makes room for `sets` sets of at most `keys` keys each, so that no insertion fails as long as there are no more
    /// sets and none has more keys.
    ///
    /// The table gets as many slots as such sets can have nodes, which is [`bforest::Set::nodes_for`] each, those in use included; and
    /// memory for the handles of so many sets is taken, so that [`Sets::grow_to`] of so many succeeds. Where there is room already, no slot
    /// is added. No set is added either: [`Sets::grow_to`] is still to be called. [`Sets::clear_all`] gives the slots back.
    ///
    /// # Errors
    ///
    /// [`OutOfMemory::Full`] where the limit does not allow so many slots, which is tested first, and [`OutOfMemory::Memory`] where there
    /// is no memory. No set and no slot has changed then; after `Memory` more memory for handles may be held.
    pub fn reserve_for(&mut self, sets: usize, keys: usize) -> Result<(), OutOfMemory>
        ensures { ReservesFor SET_LEAF sets keys self.old result self.new }
    {
        let used = self.nodes_in_use();
        let most = Set::<K>::nodes_for(keys);
        let slots = slots_for(sets, most, self.node_limit())?;
        reserve_handles(&mut self.sets, sets)?;
        self.forest.reserve_nodes(slots.saturating_sub(used))
    }
}
