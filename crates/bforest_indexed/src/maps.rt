//! Maps by an index.
ghost use Rattle.bforest.specs.Bounds.{entries_between, entry_at_least, entry_at_most};
ghost use Rattle.bforest.specs.Calls.{Reserves};
ghost use Rattle.bforest.specs.Entries.{IsIncreasing, value_for};
ghost use Rattle.bforest.specs.Forest.{IsFitFor, IsSearchable, empty, first_level, free_of, limit_of, memory_of, slots_of};
ghost use Rattle.bforest.specs.Memory.{MapsFitInMemory};
ghost use Rattle.bforest.specs.Retain.{Answers, MayAsk, MayAskEach};
ghost use Rattle.bforest.specs.Union.{are_among, are_apart};
ghost use Rattle.bforest_indexed.specs.Edits.{EditsAt};
ghost use Rattle.bforest_indexed.specs.Indexed.{CompactsAt, HoldsFor, RemovesBetweenAt, SplitsOffAt, ReservesFor};
ghost use Rattle.bforest_indexed.specs.Lending.{lends_value_at};
ghost use Rattle.bforest_indexed.specs.Loads.{LoadsAt};
ghost use Rattle.bforest_indexed.specs.Written.{WritesAt, with_value_at};
ghost use Rattle.bforest_indexed.specs.Indexed.{ClearsAll, ClearsAt, CopiesAt, FiltersAt, GetsOrInsertsAt, InsertsAt, IntersectsAt, MovesAt, SubtractsAt, UnitesAt, UpdatesAt, UpdatesOrInsertsAt};
ghost use Rattle.bforest_indexed.specs.Indexed.{KeepsAll, PopsAt, RemovesAt, Swaps, Truncates};
ghost use Rattle.bforest.specs.declared.map_forest.TheConstants.{MAP_LEAF};
ghost use Rattle.bforest_indexed.specs.Indexed.{comparator, count, entries, handle, memory, node_sizes, nodes_in_use, table};
ghost use Rattle.std.specs.Borrow.{sem};
ghost use Rattle.std.specs.Option.{option_copied_mut};
ghost use Rattle.std.specs.Prelude.{IfOk, IsOk, IsTrue, OnErr, OnOk, OnSome, Some, length, reverse, slice_get, ◌+◌, ◌-◌, ◌/◌, ◌<◌, ◌^◌, ◌↔◌, ◌≡◌, ◌≤◌, ℕ};

use crate::edit::{Edit, lend};
use crate::handles::{add_empty, empty_all, hold};
use crate::idx::Idx;
use crate::load_error::LoadError;
use crate::room::{reserve_handles, slots_for};
use bforest::{Comparator, Map, MapCursor, MapForest, MapIter, MapIterBack, MapRange, OutOfMemory};
use bforest_trees::first_unordered;
use std::alloc::{AllocError, Global};
use std::marker::{Model, PhantomData};
use std::mem;
use std::ops::Bound;

/// Many ordered maps in one table of nodes, numbered from 0, under one order.
///
/// Each call on a map names it by its index, which has to be less than [`Maps::len`]. In plain Rust an index that is not there panics, and
/// the panic names it. The map of an index is found in constant time, and an empty map takes 4 bytes and no node.
///
/// An index is a `usize`, or of a type of your own that implements [`Idx`]: then [`Maps::typed`] makes them.
#[derive(Drop)]
pub struct Maps<K: Copy, V: Copy, C: Comparator<K>, I = usize> {
    forest: MapForest<K, V>,
    order: C,
    maps: Vec<Map<K, V>>,
    index: PhantomData<I>,
}

impl<K: Copy, V: Copy, C: Comparator<K>, I> Model for Maps<K, V, C, I> {
    ghost use Rattle.bforest.specs.declared.map_forest.TheConstants.{MAP_LEAF};
    ghost use Rattle.bforest_indexed.specs.Indexed.{AreKept, Indexed};
    ghost use Rattle.std.specs.Prelude.{vec_capacity};

    ghost Value = { Indexed K V C };

    ghost view = { λ m. record {
      forest = m.forest;
      order = m.order;
      handles = m.maps.items;
      held = vec_capacity m.maps;
    } };

    ghost invariant = { λ m. AreKept MAP_LEAF (C.order m.order)
        (record {
          forest = m.forest;
          order = m.order;
          handles = m.maps.items;
          held = vec_capacity m.maps;
        }) };
}

impl<K: Copy, V: Copy, C: Comparator<K>> Maps<K, V, C> {
    /// Returns a table of at most 4294967295 slots, with no map yet. No memory is taken.
    ///
    /// Each map is named by a `usize`; [`Maps::typed`] is for an index type of your own.
    pub fn new(alloc: Global, order: C) -> Self
        ensures none { count result ≡ 0 }
        ensures table { table result ≡ empty u32.MAX }
        ensures comparator { comparator result ≡ order }
        ensures memory { memory result ≡ 0 }
    {
        Maps::typed(alloc, order)
    }

    /// Returns a table of at most `limit` slots, with no map yet. No memory is taken.
    ///
    /// Each map is named by a `usize`; [`Maps::typed_with_node_limit`] is for an index type of your own.
    pub fn with_node_limit(alloc: Global, order: C, limit: u32) -> Self
        ensures none { count result ≡ 0 }
        ensures table { table result ≡ empty limit }
        ensures comparator { comparator result ≡ order }
        ensures memory { memory result ≡ 0 }
    {
        Maps::typed_with_node_limit(alloc, order, limit)
    }
}

impl<K: Copy, V: Copy, C: Comparator<K>, I: Idx> Maps<K, V, C, I> {
    /// Returns a table of at most 4294967295 slots, with no map yet. No memory is taken.
    ///
    /// As [`Maps::new`], for any type of index, which the call does not tell: write it in the type of the value.
    pub fn typed(alloc: Global, order: C) -> Self
        ensures none { count result ≡ 0 }
        ensures table { table result ≡ empty u32.MAX }
        ensures comparator { comparator result ≡ order }
        ensures memory { memory result ≡ 0 }
    {
        Maps::typed_with_node_limit(alloc, order, u32::MAX)
    }

    /// Returns a table of at most `limit` slots, with no map yet. No memory is taken.
    ///
    /// As [`Maps::with_node_limit`], for any type of index, which the call does not tell: write it in the type of the value.
    pub fn typed_with_node_limit(alloc: Global, order: C, limit: u32) -> Self
        ensures none { count result ≡ 0 }
        ensures table { table result ≡ empty limit }
        ensures comparator { comparator result ≡ order }
        ensures memory { memory result ≡ 0 }
    {
        Maps {
            forest: MapForest::with_node_limit(alloc, limit),
            order,
            maps: Vec::new(alloc),
            index: PhantomData,
        }
    }

    /// Returns how many maps there are, empty ones included. Constant time.
    pub fn len(&self) -> usize
        ensures count { result ≡ count self.now }
        ensures held { count self.now ≤ memory self.now }
    {
        self.maps.len()
    }

    /// Returns whether there is no map, not even an empty one. Constant time.
    pub fn is_empty(&self) -> bool
        ensures none { IsTrue result ↔ (count self.now ≡ 0) }
    {
        self.maps.is_empty()
    }

    /// Adds an empty map and returns its index, whose number is that of the maps before. It takes no node.
    ///
    /// # Errors
    ///
    /// `AllocError` where there is no memory for the handle; nothing has changed then.
    pub fn push(&mut self) -> Result<I, AllocError>
        requires nameable { I.names (count self.old) }
        ensures index { IfOk result (λ i. I.number i ≡ count self.old) }
        ensures count { OnOk result (count self.new ≡ count self.old + 1) }
        ensures keeps { KeepsAll self.old self.new }
        ensures table { table self.new ≡ table self.old }
        ensures holds { HoldsFor (count self.old + 1) self.old self.new }
        ensures succeeds { count self.old < memory self.old → IsOk result }
        ensures refused { OnErr result (self.new ≡ self.old) }
    {
        let index = I::new(self.maps.len());
        hold(&mut self.maps, 1)?;
        self.maps.push_reserved(Map::new());
        Ok(index)
    }

    /// Adds empty maps until there are `len`; where there are as many or more, nothing changes. They take no node, and the memory for all
    /// their handles is taken once.
    ///
    /// # Errors
    ///
    /// `AllocError` where there is no memory for the handles; nothing has changed then.
    pub fn grow_to(&mut self, len: usize) -> Result<(), AllocError>
        ensures count { OnOk result (count self.new ≡ count self.old + (len - count self.old)) }
        ensures keeps { KeepsAll self.old self.new }
        ensures table { table self.new ≡ table self.old }
        ensures holds { HoldsFor len self.old self.new }
        ensures succeeds { len ≤ memory self.old → IsOk result }
        ensures refused { OnErr result (self.new ≡ self.old) }
    {
        add_empty(&mut self.maps, len)
    }

    /// Removes the last map, whose nodes are free then, and returns whether there was one. Each other map keeps its index. Visits each node
    /// of its tree once. No comparison, no memory.
    pub fn pop(&mut self) -> bool
        ensures removed { IsTrue result ↔ (0 < count self.old) }
        ensures rest { Truncates self.old (count self.old - 1) self.new }
    {
        let Some(mut last) = self.maps.pop() else {
            return false;
        };
        last.clear(&mut self.forest);
        true
    }

    /// Removes the maps from index `len` on, whose nodes are free then; where there are `len` or fewer, nothing changes. Each other map
    /// keeps its index. Visits each node of their trees once. No comparison, no memory.
    pub fn truncate(&mut self, len: usize)
        ensures rest { Truncates self.old len self.new }
    {
        while len < self.len() {
            self.pop();
        }
    }

    /// Removes all entries of all maps, whose number stays. The table has no slot then, and its limit stays; its memory is kept for later
    /// slots. Visits each handle once and no node.
    pub fn clear_all(&mut self)
        ensures { ClearsAll self.old self.new }
    {
        empty_all(&mut self.maps);
        self.forest.clear();
    }

    /// Exchanges two maps, which may be one. Constant time: no entry moves.
    pub fn swap(&mut self, i: I, j: I)
        requires first { I.number i < count self.old }
        requires second { I.number j < count self.old }
        ensures { Swaps self.old (I.number i) (I.number j) self.new }
    {
        self.maps.swap(i.index(), j.index());
    }

    // The map of an index.
    fn map(&self, index: I) -> &Map<K, V>
        requires within { I.number index < count self.now }
        ensures handle { result.now ≡ handle self.now (I.number index) }
        ensures searchable { IsSearchable (C.order (comparator self.now)) (table self.now) result.now }
    {
        &self.maps[index.index()]
    }

    /// Returns the value of the entry whose key compares equal to `key`, or `None`. One search, as [`bforest::Map::get`] makes.
    pub fn get(&self, index: I, key: K) -> Option<V>
        requires within { I.number index < count self.now }
        ensures value { result
            ≡ value_for (C.order (comparator self.now)) (entries self.now (I.number index)) key }
    {
        self.map(index).get(key, &self.forest, &self.order)
    }

    /// Returns the last entry whose key is not greater than `key`, or `None` where each key is greater. One search.
    pub fn get_or_less(&self, index: I, key: K) -> Option<(K, V)>
        requires within { I.number index < count self.now }
        ensures entry { result
            ≡ entry_at_most (C.order (comparator self.now)) (entries self.now (I.number index)) key }
    {
        self.map(index).get_or_less(key, &self.forest, &self.order)
    }

    /// Returns the first entry whose key is not less than `key`, or `None` where each key is less. One search.
    pub fn get_or_greater(&self, index: I, key: K) -> Option<(K, V)>
        requires within { I.number index < count self.now }
        ensures entry { result
            ≡ entry_at_least (C.order (comparator self.now)) (entries self.now (I.number index)) key }
    {
        self.map(index)
            .get_or_greater(key, &self.forest, &self.order)
    }

    /// Returns the first entry of a map, or `None` where it is empty. Visits one node of each level. No comparison.
    pub fn first(&self, index: I) -> Option<(K, V)>
        requires within { I.number index < count self.now }
        ensures entry { result ≡ slice_get (entries self.now (I.number index)) 0 }
    {
        self.map(index).first(&self.forest)
    }

    /// Returns the last entry of a map, or `None` where it is empty. Visits one node of each level. No comparison.
    pub fn last(&self, index: I) -> Option<(K, V)>
        requires within { I.number index < count self.now }
        ensures entry { result
            ≡ slice_get (entries self.now (I.number index)) (length (entries self.now (I.number index)) - 1) }
    {
        self.map(index).last(&self.forest)
    }

    /// Inserts a value at a key and returns the value that was there, as [`bforest::Map::insert`] does: a stored key that compares equal
    /// stays. One search, and at most one node more than [`Maps::levels`].
    ///
    /// # Errors
    ///
    /// [`OutOfMemory`] where the key is absent and too few nodes are available; nothing has changed then. It does not come where there is
    /// room for the maps as they are then, by [`Maps::reserve_for`].
    pub fn insert(&mut self, index: I, key: K, value: V) -> Result<Option<V>, OutOfMemory>
        requires within { I.number index < count self.old }
        ensures { InsertsAt MAP_LEAF (C.order (comparator self.old)) self.old (I.number index) key value
            result self.new }
    {
        self.maps[index.index()].insert(key, value, &mut self.forest, &self.order)
    }

    /// Removes the entry whose key compares equal to `key` and returns its value, or returns `None` and changes nothing. One search, and
    /// no memory is taken.
    pub fn remove(&mut self, index: I, key: K) -> Option<V>
        requires within { I.number index < count self.old }
        ensures { RemovesAt MAP_LEAF (C.order (comparator self.old)) self.old (I.number index) key result
            self.new }
    {
        self.maps[index.index()].remove(key, &mut self.forest, &self.order)
    }

    /// Inserts a value at a key and returns the value that was there, exactly as [`Maps::insert`] does.
    ///
    /// # Errors
    ///
    /// Those of [`Maps::insert`].
    pub fn try_insert(&mut self, index: I, key: K, value: V) -> Result<Option<V>, OutOfMemory>
        requires within { I.number index < count self.old }
        ensures { InsertsAt MAP_LEAF (C.order (comparator self.old)) self.old (I.number index) key value
            result self.new }
    {
        self.insert(index, key, value)
    }

    /// Returns the value of the entry whose key compares equal to `key`. Where there is none, inserts `value` at the key and returns it.
    /// One search, as [`bforest::Map::get_or_insert`] makes.
    ///
    /// # Errors
    ///
    /// Those of [`Maps::insert`], where the key is absent; nothing has changed then.
    pub fn get_or_insert(&mut self, index: I, key: K, value: V) -> Result<V, OutOfMemory>
        requires within { I.number index < count self.old }
        ensures { GetsOrInsertsAt MAP_LEAF (C.order (comparator self.old)) self.old (I.number index) key value
            result self.new }
    {
        self.maps[index.index()].get_or_insert(key, value, &mut self.forest, &self.order)
    }

    /// Returns a mutable reference to the value of the entry whose key compares equal to `key`, or `None`. No other entry changes, and no
    /// key and no node. One search, as [`bforest::MapForest::get_mut`] makes.
    pub fn get_mut(&mut self, index: I, key: K) -> Option<&mut V>
        requires within { I.number index < count self.old }
        ensures* writes_back { sem 𝓛
            (lends_value_at K.row V.row C.row I.row C.Comparator self.entry (I.number index) key result) }
        ensures value { option_copied_mut result
            ≡ value_for (C.order (comparator self.old)) (entries self.old (I.number index)) key }
        ensures written { OnSome result ((w : V) → WritesAt (C.order (comparator self.old)) self.old
            (I.number index) key w (with_value_at (C.order (comparator self.old)) self.old (I.number index) key w)) }
    {
        self.forest
            .get_mut(&self.maps[index.index()], key, &self.order)
    }

    /// Replaces the value of the entry whose key compares equal to `key` by what `change` returns of it, and returns that, or `None` where
    /// there is no such entry. One search, as [`bforest::Map::update`] makes.
    pub fn update<F: FnOnce(V) -> V>(&mut self, index: I, key: K, change: F) -> Option<V>
        requires within { I.number index < count self.old }
        requires callable { (v : V) → value_for (C.order (comparator self.old))
            (entries self.old (I.number index)) key ≡ Some v → F.pre change v }
        ensures { UpdatesAt F.FnOnce (C.order (comparator self.old)) self.old (I.number index) key change
            result self.new }
    {
        self.maps[index.index()].update(key, change, &mut self.forest, &self.order)
    }

    /// Replaces the value of the entry whose key compares equal to `key` by what `change` returns of it. Where there is none, inserts
    /// `value` at the key. Returns the value that the key has then. One search, as [`bforest::Map::update_or_insert`] makes.
    ///
    /// # Errors
    ///
    /// Those of [`Maps::insert`], where the key is absent; nothing has changed then.
    pub fn update_or_insert<F: FnOnce(V) -> V>(
        &mut self,
        index: I,
        key: K,
        value: V,
        change: F,
    ) -> Result<V, OutOfMemory>
        requires within { I.number index < count self.old }
        requires callable { (v : V) → value_for (C.order (comparator self.old))
            (entries self.old (I.number index)) key ≡ Some v → F.pre change v }
        ensures { UpdatesOrInsertsAt MAP_LEAF (C.order (comparator self.old)) F.FnOnce self.old
            (I.number index) key value change result self.new }
    {
        self.maps[index.index()].update_or_insert(key, value, change, &mut self.forest, &self.order)
    }

    /// Removes the first entry of a map and returns it, or returns `None` and changes nothing where the map is empty. No comparison, and no
    /// memory is taken.
    pub fn pop_first(&mut self, index: I) -> Option<(K, V)>
        requires within { I.number index < count self.old }
        ensures { PopsAt MAP_LEAF self.old (I.number index) 0 result self.new }
    {
        self.maps[index.index()].pop_first(&mut self.forest)
    }

    /// Removes the last entry of a map and returns it, or returns `None` and changes nothing where the map is empty. No comparison, and no
    /// memory is taken.
    pub fn pop_last(&mut self, index: I) -> Option<(K, V)>
        requires within { I.number index < count self.old }
        ensures { PopsAt MAP_LEAF self.old (I.number index) (length (entries self.old (I.number index)) - 1)
            result self.new }
    {
        self.maps[index.index()].pop_last(&mut self.forest)
    }

    /// Removes all entries of a map, whose nodes are free then. Visits each node of its tree once. No comparison, no memory.
    pub fn clear(&mut self, index: I)
        requires within { I.number index < count self.old }
        ensures { ClearsAt self.old (I.number index) self.new }
    {
        self.maps[index.index()].clear(&mut self.forest);
    }

    /// Gives the map at `to` the entries of the map at `from`, in nodes of the same sizes; its own entries end. Where both are one, nothing
    /// changes.
    ///
    /// The copy is made first, as [`bforest::Map::deep_clone`] makes it: it takes as many nodes as the map at `from` has, and only then
    /// those of the map at `to` become free. Reads each node of both. No comparison.
    ///
    /// # Errors
    ///
    /// [`OutOfMemory`] where too few nodes are available; nothing has changed then. It does not come where there is room for one more map,
    /// by [`Maps::reserve_for`].
    pub fn copy(&mut self, from: I, to: I) -> Result<(), OutOfMemory>
        requires from { I.number from < count self.old }
        requires to { I.number to < count self.old }
        ensures { CopiesAt MAP_LEAF self.old (I.number from) (I.number to) result self.new }
    {
        let (from, to) = (from.index(), to.index());
        if from == to {
            return Ok(());
        }
        let copy = self.maps[from].deep_clone(&mut self.forest)?;
        let mut old = mem::replace(&mut self.maps[to], copy);
        old.clear(&mut self.forest);
        Ok(())
    }

    /// Gives the map at an index these entries, in a tree with the fewest nodes that so many entries can have; its own entries end.
    ///
    /// The order is tested first, with one comparison for each key but the first. Then the tree is made, as [`bforest::Map::load`] makes
    /// it, and only then the nodes that the map had become free. Writes each entry once.
    ///
    /// # Errors
    ///
    /// [`LoadError::Unordered`] with the index in the slice of the first key that is not less than the next one. [`LoadError::Refused`]
    /// where too few nodes are available. It does not come where there is room for one more map, by [`Maps::reserve_for`]. Nothing has
    /// changed then.
    pub fn load(&mut self, index: I, entries: &[(K, V)]) -> Result<(), LoadError>
        requires within { I.number index < count self.old }
        ensures { LoadsAt MAP_LEAF (C.order (comparator self.old)) self.old (I.number index) entries.now
            result self.new }
    {
        if let Some(place) = first_unordered(entries, &self.order) {
            return Err(LoadError::Unordered(place));
        }
        match Map::load(entries, &mut self.forest) {
            Ok(loaded) => {
                let mut before = mem::replace(&mut self.maps[index.index()], loaded);
                before.clear(&mut self.forest);
                Ok(())
            }
            Err(refused) => Err(LoadError::Refused(refused)),
        }
    }

    /// Returns whether each key of the map at `index` has an equal one in the map at `other`, which may be the same. The values do not
    /// matter. An empty map is a subset of each map. Reads both side by side, up to the first key that is not there: at most one comparison
    /// for each key of either.
    pub fn is_subset(&self, index: I, other: I) -> bool
        requires within { I.number index < count self.now }
        requires other { I.number other < count self.now }
        ensures among { result ≡ are_among (C.order (comparator self.now)) (entries self.now (I.number index))
            (entries self.now (I.number other)) }
    {
        let (map, other) = (self.map(index), self.map(other));
        map.is_subset(other, &self.forest, &self.order)
    }

    /// Returns whether no key of the map at `index` has an equal one in the map at `other`, which may be the same. The values do not
    /// matter. An empty map is disjoint from each map. Reads both side by side, up to the first key that both have: at most one comparison
    /// for each key of either.
    pub fn is_disjoint(&self, index: I, other: I) -> bool
        requires within { I.number index < count self.now }
        requires other { I.number other < count self.now }
        ensures apart { result ≡ are_apart (C.order (comparator self.now)) (entries self.now (I.number index))
            (entries self.now (I.number other)) }
    {
        let (map, other) = (self.map(index), self.map(other));
        map.is_disjoint(other, &self.forest, &self.order)
    }

    /// Puts each entry of the map at `other` whose key is absent into the map at `index`, and returns whether there was one. A present key
    /// keeps its own value. Where both are one, nothing changes.
    ///
    /// As [`bforest::Map::union_with`]: reads both, and where nothing is new, that is all. A single new entry is inserted; for more of them
    /// the call makes a tree of the union with the fewest nodes beside the old one, and frees that.
    ///
    /// # Errors
    ///
    /// [`OutOfMemory`] where a key is new and the nodes that are needed cannot be had, those of an insertion or those of the new tree
    /// beside the old ones; nothing has changed then.
    pub fn union_with(&mut self, index: I, other: I) -> Result<bool, OutOfMemory>
        requires within { I.number index < count self.old }
        requires other { I.number other < count self.old }
        ensures { UnitesAt MAP_LEAF (C.order (comparator self.old)) self.old (I.number index) (I.number other)
            result self.new }
    {
        let theirs = self.map(other).clone();
        self.maps[index.index()].union_with(&theirs, &mut self.forest, &self.order)
    }

    /// Removes each entry of the map at `index` whose key has no equal one in the map at `other`, and returns whether there was one. The
    /// entries that stay keep their values. Where both are one, nothing changes.
    ///
    /// As [`bforest::Map::intersect_with`]: walks along both, with at most one comparison for each entry of either. It takes no node and no
    /// memory, so it can't be refused. Where a comparison panics, in the package, a part of these entries may be removed already.
    pub fn intersect_with(&mut self, index: I, other: I) -> bool
        requires within { I.number index < count self.old }
        requires other { I.number other < count self.old }
        ensures { IntersectsAt MAP_LEAF (C.order (comparator self.old)) self.old (I.number index)
            (I.number other) result self.new }
    {
        let theirs = self.map(other).clone();
        self.maps[index.index()].intersect_with(&theirs, &mut self.forest, &self.order)
    }

    /// Removes each entry of the map at `index` whose key has an equal one in the map at `other`, and returns whether there was one. The
    /// entries that stay keep their values. Where both are one, all entries are removed.
    ///
    /// As [`bforest::Map::difference_with`]: walks along both, with at most one comparison for each entry of either. It takes no node and
    /// no memory, so it can't be refused. Where a comparison panics, in the package, a part of these entries may be removed already.
    pub fn difference_with(&mut self, index: I, other: I) -> bool
        requires within { I.number index < count self.old }
        requires other { I.number other < count self.old }
        ensures { SubtractsAt MAP_LEAF (C.order (comparator self.old)) self.old (I.number index)
            (I.number other) result self.new }
    {
        let theirs = self.map(other).clone();
        self.maps[index.index()].difference_with(&theirs, &mut self.forest, &self.order)
    }

    /// Moves the entries of the map at `from` whose keys are not less than `key` to the map at `to`, whose own entries end. Those that are
    /// less stay where they are. Where both are one, it keeps those that went.
    ///
    /// As [`bforest::Map::split_off`], with one search: nodes go as a whole, and at most one a level is new. The nodes of the map at `to`
    /// become free afterwards.
    ///
    /// # Errors
    ///
    /// [`OutOfMemory::Full`] where the limit does not allow the new nodes beside those that are there, and [`OutOfMemory::Memory`] where
    /// the table had to grow for them and could not; neither where so many nodes lie free. Nothing has changed then.
    pub fn split_off(&mut self, from: I, key: K, to: I) -> Result<(), OutOfMemory>
        requires from { I.number from < count self.old }
        requires to { I.number to < count self.old }
        ensures { SplitsOffAt MAP_LEAF (C.order (comparator self.old)) self.old (I.number from) key
            (I.number to) result self.new }
    {
        let tail = self.maps[from.index()].split_off(key, &mut self.forest, &self.order)?;
        let mut before = mem::replace(&mut self.maps[to.index()], tail);
        before.clear(&mut self.forest);
        Ok(())
    }

    /// Moves the entry whose key compares equal to `key` from the map at `from` to that at `to`, and returns whether there was one. As
    /// [`Maps::insert`] of `key` and its value there, and [`Maps::remove`] here: a value that was there is replaced, and its key stays. Where
    /// both are one, nothing changes.
    ///
    /// A search in the map at `from`, one in that at `to`, and one to remove the entry, which comes last: where the insertion is refused, the
    /// entry is where it was.
    ///
    /// # Errors
    ///
    /// [`OutOfMemory`] where the entry is there, its key is absent in the map at `to`, and too few nodes are available for an insertion;
    /// nothing has changed then. It does not come where [`Maps::reserve_for`] made room for the map at `to` with one entry more.
    pub fn move_entry(&mut self, from: I, key: K, to: I) -> Result<bool, OutOfMemory>
        requires from { I.number from < count self.old }
        requires to { I.number to < count self.old }
        ensures { MovesAt MAP_LEAF (C.order (comparator self.old)) self.old (I.number from) key
            (I.number to) result self.new }
    {
        let Some(value) = self.get(from, key) else {
            return Ok(false);
        };
        if from.index() == to.index() {
            return Ok(true);
        }
        self.insert(to, key, value)?;
        self.remove(from, key);
        Ok(true)
    }

    /// Removes the entries of a map whose keys are within both bounds, and returns whether there was one.
    ///
    /// As [`bforest::Map::remove_range`]: where a bound is lacking, at most one search, and whole subtrees go. Between two bounds one
    /// search, and then one comparison for each leaf that goes whole, one for each other entry that goes, and two more. It takes no node and
    /// no memory, so it can't be refused.
    pub fn remove_range(&mut self, index: I, bounds: (Bound<K>, Bound<K>)) -> bool
        requires within { I.number index < count self.old }
        ensures { RemovesBetweenAt MAP_LEAF (C.order (comparator self.old)) bounds.0 bounds.1 self.old
            (I.number index) result self.new }
    {
        self.maps[index.index()].remove_range(bounds, &mut self.forest, &self.order)
    }

    /// Makes the tree of a map anew, with the fewest nodes that so many entries can have. The entries stay.
    ///
    /// As [`bforest::Map::compact`]: the new tree is made beside the old one, which is freed then. No comparison.
    ///
    /// # Errors
    ///
    /// [`OutOfMemory`] where too few nodes are available beside the old ones; nothing has changed then.
    pub fn compact(&mut self, index: I) -> Result<(), OutOfMemory>
        requires within { I.number index < count self.old }
        ensures { CompactsAt MAP_LEAF self.old (I.number index) result self.new }
    {
        self.maps[index.index()].compact(&mut self.forest)
    }

    /// Keeps the entries for which the predicate returns `true`, with the value as the predicate left it, and removes all others. It is
    /// called once for each entry, in order. No comparison, no memory.
    ///
    /// Where the predicate panics, in the package, each entry before that one is kept or removed as it returned, and all others stay.
    pub fn retain<F: FnMut(K, &mut V) -> bool>(&mut self, index: I, predicate: F)
        requires within { I.number index < count self.old }
        requires callable { MayAskEach (Answers F.FnMut) (MayAsk F.FnMut) predicate
            (entries self.old (I.number index)) }
        ensures { FiltersAt MAP_LEAF (Answers F.FnMut) predicate self.old (I.number index) self.new }
    {
        self.maps[index.index()].retain(&mut self.forest, predicate);
    }

    /// Returns how many entries a map has, as [`bforest::Map::len`] counts them. The number of maps is [`Maps::len`].
    pub fn len_of(&self, index: I) -> usize
        requires within { I.number index < count self.now }
        ensures count { result ≡ length (entries self.now (I.number index)) }
    {
        self.map(index).len(&self.forest)
    }

    /// Returns the height of a map's tree, in levels of nodes: 0 where it is empty, and never more than 17. Visits one node of each level.
    pub fn levels(&self, index: I) -> usize
        requires within { I.number index < count self.now }
        ensures count { result ≡ length (node_sizes self.now (I.number index)) }
        ensures most { result ≤ 17 }
        ensures depth { 2 ≤ result → 4 ^ (result - 1) < length (entries self.now (I.number index)) }
        ensures leaves { length (first_level (node_sizes self.now (I.number index)))
            ≤ (length (entries self.now (I.number index)) + 3) / 4 }
    {
        self.map(index).levels(&self.forest)
    }

    /// Returns an iterator over the entries of a map, in order. Visits one node of each level, and then each leaf once. No comparison.
    #[inline(always)]
    pub fn iter(&self, index: I) -> MapIter<'_, K, V>
        requires within { I.number index < count self.now }
        ensures entries { result ≡ entries self.now (I.number index) }
        ensures fits { MapsFitInMemory K.row V.row }
    {
        self.map(index).iter(&self.forest)
    }

    /// Returns an iterator over the entries of a map, from the last to the first. Constant time; the first step visits one node of each
    /// level, and then each leaf is visited once. No comparison.
    #[inline(always)]
    pub fn iter_back(&self, index: I) -> MapIterBack<'_, K, V>
        requires within { I.number index < count self.now }
        ensures entries { result ≡ reverse (entries self.now (I.number index)) }
        ensures fits { MapsFitInMemory K.row V.row }
    {
        self.map(index).iter_back(&self.forest)
    }

    /// Returns a double-ended iterator over the entries of a map within both bounds, in order. At most two searches and one comparison; the
    /// steps compare nothing.
    pub fn range(&self, index: I, bounds: (Bound<K>, Bound<K>)) -> MapRange<'_, K, V, C>
        requires within { I.number index < count self.now }
        ensures entries { result ≡ entries_between (C.order (comparator self.now)) bounds.0 bounds.1
            (entries self.now (I.number index)) }
        ensures fits { MapsFitInMemory K.row V.row }
    {
        self.map(index).range(bounds, &self.forest, &self.order)
    }

    /// Returns a cursor that reads a map. It stands at the end, behind the last entry. Constant time.
    pub fn cursor(&self, index: I) -> MapCursor<'_, K, V, C>
        requires within { I.number index < count self.now }
        ensures entries { result.entries ≡ entries self.now (I.number index) }
        ensures spot { result.spot ≡ length (entries self.now (I.number index)) }
        ensures comparator { result.comparator ≡ comparator self.now }
        ensures fits { MapsFitInMemory K.row V.row }
    {
        self.map(index).cursor(&self.forest, &self.order)
    }

    /// Hands a writing cursor of a map to `edit`, and returns what that returns. The cursor stands at the end at first. What it does to the
    /// map is what its own calls do, at their cost; each other map stays.
    pub fn edit<E: Edit<K, V, C>>(&mut self, index: I, edit: E) -> E::Answer
        requires within { I.number index < count self.old }
        ensures { EditsAt (E.leaves edit) self.old (I.number index) result self.new }
    {
        lend(
            &mut self.maps[index.index()],
            &mut self.forest,
            &self.order,
            edit,
        )
    }

    /// Returns how many slots the table has, which is the number of nodes in use and of free ones. Memory is held for all of them, and
    /// stays when all is cleared: so many slots can be had after that with no request for memory. Constant time.
    pub fn slots(&self) -> u32
        ensures count { result ≡ slots_of (table self.now) }
        ensures within { slots_of (table self.now) ≤ limit_of (table self.now) }
        ensures held { slots_of (table self.now) ≤ memory_of (table self.now) }
        ensures account { slots_of (table self.now) ≡ free_of (table self.now) + nodes_in_use self.now }
        ensures fit { (i : ℕ) → IsFitFor MAP_LEAF (length (entries self.now i)) (node_sizes self.now i) }
        ensures increasing { (i : ℕ) → IsIncreasing (C.order (comparator self.now)) (entries self.now i) }
    {
        self.forest.slots()
    }

    /// Returns how many nodes the trees of all maps have. Constant time.
    pub fn nodes_in_use(&self) -> u32
        ensures count { result ≡ nodes_in_use self.now }
        ensures within { slots_of (table self.now) ≤ limit_of (table self.now) }
    {
        self.slots() - self.free_slots()
    }

    /// Returns how many slots are free. Constant time.
    pub fn free_slots(&self) -> u32
        ensures count { result ≡ free_of (table self.now) }
    {
        self.forest.free_slots()
    }

    /// Returns how many slots the table may have. Constant time.
    pub fn node_limit(&self) -> u32
        ensures limit { result ≡ limit_of (table self.now) }
    {
        self.forest.node_limit()
    }

    /// Makes sure that `n` slots are free, as [`bforest::MapForest::reserve_nodes`] does: insertions that need no more nodes in all can't
    /// fail then. Where so many are free already, nothing changes and no memory is taken.
    ///
    /// # Errors
    ///
    /// [`OutOfMemory`] where so many slots can't be had; nothing has changed then.
    pub fn reserve_nodes(&mut self, n: u32) -> Result<(), OutOfMemory>
        ensures reserves { Reserves (table self.old) n result (table self.new) }
        ensures keeps { KeepsAll self.old self.new }
        ensures count { count self.new ≡ count self.old }
        ensures memory { memory self.new ≡ memory self.old }
    {
        self.forest.reserve_nodes(n)
    }

    /// Makes room for `maps` maps of at most `entries` entries each, so that no insertion fails as long as there are no more
    /// maps and none has more entries.
    ///
    /// The table gets as many slots as such maps can have nodes, which is [`bforest::Map::nodes_for`] each, those in use included; and
    /// memory for the handles of so many maps is taken, so that [`Maps::grow_to`] of so many succeeds. Where there is room already, no slot
    /// is added. No map is added either: [`Maps::grow_to`] is still to be called. [`Maps::clear_all`] gives the slots back.
    ///
    /// # Errors
    ///
    /// [`OutOfMemory::Full`] where the limit does not allow so many slots, which is tested first, and [`OutOfMemory::Memory`] where there
    /// is no memory. No map and no slot has changed then; after `Memory` more memory for handles may be held.
    pub fn reserve_for(&mut self, maps: usize, entries: usize) -> Result<(), OutOfMemory>
        ensures { ReservesFor MAP_LEAF maps entries self.old result self.new }
    {
        let used = self.nodes_in_use();
        let most = Map::<K, V>::nodes_for(entries);
        let slots = slots_for(maps, most, self.node_limit())?;
        reserve_handles(&mut self.maps, maps)?;
        self.forest.reserve_nodes(slots.saturating_sub(used))
    }
}
