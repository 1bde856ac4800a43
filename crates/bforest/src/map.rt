//! Handles of maps.
ghost use Rattle.bforest_nodes.specs.Entries.{IsIncreasing, place, value_for};
ghost use Rattle.bforest.specs.Bounds.{entries_between, entry_at_least, entry_at_most};
ghost use Rattle.bforest.specs.Calls.{Clears, Clones, Compacts, Filters, GetsOrInserts, Inserts, Intersects, Loads, MayRekey, Pops, Removes, RemovesBetween, Shifts, SplitsOff, Subtracts, Unites, Updates, UpdatesOrInserts, fewest};
ghost use Rattle.bforest.specs.Cursor.{IsCursor, comparator, forest_loan, forest_now, map_loan, map_now, spot};
ghost use Rattle.bforest.specs.Forest.{Forest, IsFitFor, IsLive, IsSearchable, first_level, list_of, sizes_of};
ghost use Rattle.bforest.specs.Memory.{MapsFitInMemory};
ghost use Rattle.bforest.specs.Retain.{Answers, MayAsk, MayAskEach};
ghost use Rattle.bforest.specs.Room.{IsEnoughFor, IsMetBy, node_count};
ghost use Rattle.bforest.specs.Union.{are_among, are_apart};
ghost use Rattle.std.specs.Option.{option_map_or};
ghost use Rattle.std.specs.declared.cmp.Ordering.{Ordering};
ghost use Rattle.std.specs.Ordering.{is_lt};
ghost use Rattle.std.specs.Prelude.{IsTrue, List, ℕ, None, Some, [], true, ◌↔◌, length, reverse, slice_get, ◌*◌, ◌+◌, ◌-◌, ◌/◌, ◌<◌, ◌^◌, ◌≡◌, ◌≤◌};

use crate::map_cursor::MapCursor;
use crate::map_cursor_mut::MapCursorMut;
use crate::map_forest::{MAP_LEAF, MapForest};
use crate::map_into_iter::MapIntoIter;
use crate::map_iter::MapIter;
use crate::map_iter_back::MapIterBack;
use crate::map_range::MapRange;
use crate::room::most_nodes;
use bforest_core::{Comparator, OutOfMemory, PackedNode, Path};
use bforest_trees::{Asked, fewest_nodes};
use std::cmp::Ordering;
use std::default::Default;
use std::marker::{Model, PhantomData};
use std::ops::Bound;

/// A handle to one ordered map, whose entries lie in a [`MapForest`].
///
/// A handle is 4 bytes: the number of its tree's root, or nothing, which is the empty map. Each call is handed the forest. Calls require
/// that the handle is live there, which [`MapForest::holds`] tests. Calls that compare keys also require that its list strictly increases
/// under the comparator, which [`Map::increases`] tests. Dropping a handle frees no node: [`Map::clear`] does.
#[derive(Drop)]
pub struct Map<K: Copy, V: Copy> {
    pub(crate) root: PackedNode,
    mark: PhantomData<(K, V)>,
}

impl<K: Copy, V: Copy> Model for Map<K, V> {
    ghost use Rattle.std.specs.Prelude.{Option, ℕ};

    ghost Value = { Option ℕ };

    ghost view = { λ m. m.root };
}

impl<K: Copy, V: Copy> Default for Map<K, V> {
    ghost use Rattle.std.specs.Prelude.{None, ◌≡◌};

    ghost is_default = { λ m. m ≡ None };

    /// Returns an empty map, as [`Map::new`] does.
    fn default() -> Self {
        Map::new()
    }
}

impl<K: Copy, V: Copy> Map<K, V> {
    /// Returns an empty map, which is live in every forest and increases under every order. No memory, no node.
    pub fn new() -> Self
        ensures empty { result ≡ None }
        ensures increasing { (forest : Forest K V) (order : K → K → Ordering)
            → IsIncreasing order (list_of forest result) }
    {
        Map {
            root: PackedNode::none(),
            mark: PhantomData,
        }
    }

    /// Returns a second handle to the same tree. No entry is copied.
    ///
    /// A change through one handle is not seen by the other: after [`Map::clear`], where the tree gains or loses a level, or where
    /// [`Map::compact`] or [`Map::union_with`] make it anew, the other one is not live.
    pub fn clone(&self) -> Self
        ensures same { result ≡ self.now }
    {
        Map {
            root: self.root,
            mark: PhantomData,
        }
    }

    /// Returns whether the map is empty, which is whether the handle names no tree. Constant time.
    pub fn is_empty(&self) -> bool
        ensures handle { IsTrue result ↔ (self.now ≡ None) }
        ensures list { (forest : Forest K V) → IsLive forest self.now
            → (IsTrue result ↔ (list_of forest self.now ≡ [])) }
    {
        self.root.is_none()
    }

    /// Returns whether two handles are one: handles to the same tree, or both empty. Constant time. Lists are not compared.
    ///
    /// It tells a copy: one of the handles may not be live after a change through the other.
    pub fn is_same_handle(&self, other: &Self) -> bool
        ensures same { IsTrue result ↔ (self.now ≡ other.now) }
    {
        self.root.expand() == other.root.expand()
    }

    /// Returns the value of the entry whose key compares equal to `key`, or `None`.
    ///
    /// One search. It visits one node of each level, at most `1 + log4(n)` nodes for `n` entries, and compares about 3 times in each, or
    /// as often as the comparator's own search does among at most 7 keys.
    pub fn get<C: Comparator<K>>(&self, key: K, forest: &MapForest<K, V>, comp: &C) -> Option<V>
        requires { IsSearchable (C.order comp.now) forest.now self.now }
        ensures value { result ≡ value_for (C.order comp.now) (list_of forest.now self.now) key }
    {
        forest.trees.get(self.root, key, comp)
    }

    /// Replaces the value of the entry whose key compares equal to `key` by what `change` returns of it, and returns that, or `None` where
    /// there is no such entry. No other entry changes, and no node.
    ///
    /// One search, as in [`Map::get`]. `change` is called once where the entry is there, else never, and before anything is written: where
    /// it panics, in the package, the map is as it was.
    pub fn update<C: Comparator<K>, F: FnOnce(V) -> V>(
        &mut self,
        key: K,
        change: F,
        forest: &mut MapForest<K, V>,
        comp: &C,
    ) -> Option<V>
        requires searchable { IsSearchable (C.order comp.now) forest.old self.old }
        requires callable { (v : V) → value_for (C.order comp.now) (list_of forest.old self.old) key ≡ Some v
            → F.pre change v }
        ensures { Updates F.FnOnce (C.order comp.now) forest.old self.old key change result forest.new
            self.new }
    {
        forest.trees.update(self.root, key, change, comp)
    }

    /// Returns the last entry whose key is not greater than `key`, as it is stored, or `None` where each key is greater.
    ///
    /// One search, as in [`Map::get`].
    pub fn get_or_less<C: Comparator<K>>(
        &self,
        key: K,
        forest: &MapForest<K, V>,
        comp: &C,
    ) -> Option<(K, V)>
        requires { IsSearchable (C.order comp.now) forest.now self.now }
        ensures entry { result ≡ entry_at_most (C.order comp.now) (list_of forest.now self.now) key }
    {
        forest.trees.get_or_less(self.root, key, comp)
    }

    /// Returns the first entry whose key is not less than `key`, as it is stored, or `None` where each key is less.
    ///
    /// One search, as in [`Map::get`], and at most one step to the next leaf.
    pub fn get_or_greater<C: Comparator<K>>(
        &self,
        key: K,
        forest: &MapForest<K, V>,
        comp: &C,
    ) -> Option<(K, V)>
        requires { IsSearchable (C.order comp.now) forest.now self.now }
        ensures entry { result ≡ entry_at_least (C.order comp.now) (list_of forest.now self.now) key }
    {
        forest.trees.get_or_greater(self.root, key, comp)
    }

    /// Returns the first entry, or `None` where the map is empty. Visits one node of each level. No comparison.
    pub fn first(&self, forest: &MapForest<K, V>) -> Option<(K, V)>
        requires live { IsLive forest.now self.now }
        ensures entry { result ≡ slice_get (list_of forest.now self.now) 0 }
    {
        forest.trees.first_entry(self.root)
    }

    /// Returns the last entry, or `None` where the map is empty. Visits one node of each level. No comparison.
    pub fn last(&self, forest: &MapForest<K, V>) -> Option<(K, V)>
        requires live { IsLive forest.now self.now }
        ensures entry { result
            ≡ slice_get (list_of forest.now self.now) (length (list_of forest.now self.now) - 1) }
    {
        forest.trees.last_entry(self.root)
    }

    /// Inserts a value at a key and returns the value that was there, exactly as [`Map::try_insert`] does.
    ///
    /// # Errors
    ///
    /// [`OutOfMemory`] where the key is absent and too few nodes are available; nothing has changed then.
    pub fn insert<C: Comparator<K>>(
        &mut self,
        key: K,
        value: V,
        forest: &mut MapForest<K, V>,
        comp: &C,
    ) -> Result<Option<V>, OutOfMemory>
        requires { IsSearchable (C.order comp.now) forest.old self.old }
        ensures { Inserts MAP_LEAF (C.order comp.now) forest.old self.old key value result
            forest.new self.new }
    {
        self.try_insert(key, value, forest, comp)
    }

    /// Inserts a value at a key and returns the value that was there.
    ///
    /// Where a stored key compares equal, only its value is replaced: the stored key stays, and no node is needed. Else the entry is
    /// inserted at its place in the order. One search, as in [`Map::get`]. An absent key needs one node for each full node from its leaf
    /// up to the first that is not full, and one more for a new root where all of them are: at most one more than [`Map::levels`].
    ///
    /// # Errors
    ///
    /// [`OutOfMemory::Full`] where the forest's limit does not allow the nodes that the entry needs. [`OutOfMemory::Memory`] where the
    /// table had to grow and there was no memory for it. The map and the forest are unchanged then.
    pub fn try_insert<C: Comparator<K>>(
        &mut self,
        key: K,
        value: V,
        forest: &mut MapForest<K, V>,
        comp: &C,
    ) -> Result<Option<V>, OutOfMemory>
        requires { IsSearchable (C.order comp.now) forest.old self.old }
        ensures { Inserts MAP_LEAF (C.order comp.now) forest.old self.old key value result
            forest.new self.new }
    {
        forest.trees.put(&mut self.root, key, value, comp)
    }

    /// Returns the value of the entry whose key compares equal to `key`. Where there is none, inserts `value` at the key and returns it.
    ///
    /// One search, as in [`Map::get`]. Where the key is present, nothing changes and no node is needed. An absent key needs the nodes that
    /// it needs in [`Map::try_insert`].
    ///
    /// # Errors
    ///
    /// [`OutOfMemory`] exactly where [`Map::try_insert`] of the entry fails. The map and the forest are unchanged then.
    pub fn get_or_insert<C: Comparator<K>>(
        &mut self,
        key: K,
        value: V,
        forest: &mut MapForest<K, V>,
        comp: &C,
    ) -> Result<V, OutOfMemory>
        requires { IsSearchable (C.order comp.now) forest.old self.old }
        ensures { GetsOrInserts MAP_LEAF (C.order comp.now) forest.old self.old key value result
            forest.new self.new }
    {
        forest.trees.get_or_insert(&mut self.root, key, value, comp)
    }

    /// Replaces the value of the entry whose key compares equal to `key` by what `change` returns of it. Where there is none, inserts
    /// `value` at the key. Returns the value that the key has then.
    ///
    /// One search, as in [`Map::get`]. `change` is called once where the entry is there, else never, and before anything is written. Where
    /// the key is present, no other entry changes, and no node. An absent key needs the nodes that it needs in [`Map::try_insert`].
    ///
    /// # Errors
    ///
    /// [`OutOfMemory`] exactly where [`Map::try_insert`] of the entry fails. The map and the forest are unchanged then.
    pub fn update_or_insert<C: Comparator<K>, F: FnOnce(V) -> V>(
        &mut self,
        key: K,
        value: V,
        change: F,
        forest: &mut MapForest<K, V>,
        comp: &C,
    ) -> Result<V, OutOfMemory>
        requires searchable { IsSearchable (C.order comp.now) forest.old self.old }
        requires callable { (v : V) → value_for (C.order comp.now) (list_of forest.old self.old) key ≡ Some v
            → F.pre change v }
        ensures { UpdatesOrInserts MAP_LEAF (C.order comp.now) F.FnOnce forest.old self.old key value change
            result forest.new self.new }
    {
        forest
            .trees
            .update_or_insert(&mut self.root, key, value, change, comp)
    }

    /// Removes the entry whose key compares equal to `key` and returns its value, or returns `None` and changes nothing.
    ///
    /// One search, as in [`Map::get`], and then at most two nodes of each level: a leaf that falls below half full is rebalanced with its
    /// right neighbour or merged into it, and so on upwards (docs/RULES.md, removal). No memory is taken, and nodes that become empty join
    /// the forest's free list. An insertion of the same key may need a node again, and fail.
    pub fn remove<C: Comparator<K>>(
        &mut self,
        key: K,
        forest: &mut MapForest<K, V>,
        comp: &C,
    ) -> Option<V>
        requires { IsSearchable (C.order comp.now) forest.old self.old }
        ensures { Removes MAP_LEAF (C.order comp.now) forest.old self.old key result forest.new self.new }
    {
        forest.trees.remove(&mut self.root, key, comp)
    }

    /// Removes the first entry and returns it, or returns `None` and changes nothing where the map is empty.
    ///
    /// No comparison. Visits at most two nodes of each level on the way to the entry, and then rebalances or merges nodes as
    /// [`Map::remove`] does. No memory is taken. The handle is empty after its last entry was removed.
    pub fn pop_first(&mut self, forest: &mut MapForest<K, V>) -> Option<(K, V)>
        requires live { IsLive forest.old self.old }
        ensures { Pops MAP_LEAF forest.old self.old 0 result forest.new self.new }
    {
        forest.trees.pop_first(&mut self.root)
    }

    /// Removes the last entry and returns it, or returns `None` and changes nothing where the map is empty.
    ///
    /// No comparison. Visits at most two nodes of each level on the way to the entry, and then rebalances or merges nodes as
    /// [`Map::remove`] does. No memory is taken. The handle is empty after its last entry was removed.
    pub fn pop_last(&mut self, forest: &mut MapForest<K, V>) -> Option<(K, V)>
        requires live { IsLive forest.old self.old }
        ensures { Pops MAP_LEAF forest.old self.old (length (list_of forest.old self.old) - 1) result
            forest.new self.new }
    {
        forest.trees.pop_last(&mut self.root)
    }

    /// Removes all entries. The handle is empty then, and all nodes of the tree are free. Other handles to the tree are not live then.
    ///
    /// Visits each node of the tree once. No comparison, no memory.
    pub fn clear(&mut self, forest: &mut MapForest<K, V>)
        requires live { IsLive forest.old self.old }
        ensures { Clears forest.old self.old forest.new self.new }
    {
        forest.trees.free_tree(&mut self.root);
    }

    /// Returns a map of the same entries in a tree of its own, whose nodes have the same sizes. A change of either map is not seen in the
    /// other.
    ///
    /// Takes exactly as many nodes as this map has, none for an empty one, and makes sure of them before it copies the first. Reads each
    /// node once to count it and once to copy it, as it lies. No comparison.
    ///
    /// # Errors
    ///
    /// [`OutOfMemory::Full`] where the forest's limit does not allow as many nodes again as this map has. [`OutOfMemory::Memory`] where the
    /// table had to grow and there was no memory for it. The forest is unchanged then.
    pub fn deep_clone(&self, forest: &mut MapForest<K, V>) -> Result<Self, OutOfMemory>
        requires live { IsLive forest.old self.now }
        ensures { Clones forest.old self.now result forest.new }
    {
        let copy = forest.trees.copy_tree(self.root)?;
        Ok(Map {
            root: copy,
            mark: PhantomData,
        })
    }

    /// Returns a map of these entries, in this order, in a tree with the fewest nodes that so many entries can have: all nodes of a level
    /// are full but the last.
    ///
    /// Takes exactly these nodes, none for no entry, and makes sure of them before it writes the first. Writes each entry once. No
    /// comparison. Insertions in order take a search for each entry, and about twice the nodes.
    ///
    /// The keys have to increase under the order that later calls are given. This is not tested: [`Map::increases`] tells.
    ///
    /// # Errors
    ///
    /// [`OutOfMemory::Full`] where the forest's limit does not allow so many nodes. [`OutOfMemory::Memory`] where the table had to grow and
    /// there was no memory for it. The forest is unchanged then.
    pub fn load(entries: &[(K, V)], forest: &mut MapForest<K, V>) -> Result<Self, OutOfMemory>
        ensures { Loads MAP_LEAF forest.old entries.now result forest.new }
    {
        let tree = forest.trees.load(entries)?;
        Ok(Map {
            root: tree,
            mark: PhantomData,
        })
    }

    /// Returns whether each key of this map has an equal one in `other`. The values do not matter. An empty map is a subset of each map.
    ///
    /// Reads both maps side by side, up to the first key that is not in `other`: at most one comparison for each key of this map and of
    /// `other`, and none where one of them is empty. No search.
    pub fn is_subset<C: Comparator<K>>(
        &self,
        other: &Map<K, V>,
        forest: &MapForest<K, V>,
        comp: &C,
    ) -> bool
        requires searchable { IsSearchable (C.order comp.now) forest.now self.now }
        requires other { IsSearchable (C.order comp.now) forest.now other.now }
        ensures among { result ≡ are_among (C.order comp.now) (list_of forest.now self.now)
            (list_of forest.now other.now) }
    {
        forest.trees.are_among(self.root, other.root, comp)
    }

    /// Returns whether no key of this map has an equal one in `other`. An empty map is disjoint from each map.
    ///
    /// Reads both maps side by side, up to the first key that both have: at most one comparison for each key of this map and of `other`,
    /// and none where one of them is empty. No search.
    pub fn is_disjoint<C: Comparator<K>>(
        &self,
        other: &Map<K, V>,
        forest: &MapForest<K, V>,
        comp: &C,
    ) -> bool
        requires searchable { IsSearchable (C.order comp.now) forest.now self.now }
        requires other { IsSearchable (C.order comp.now) forest.now other.now }
        ensures apart { result ≡ are_apart (C.order comp.now) (list_of forest.now self.now)
            (list_of forest.now other.now) }
    {
        forest.trees.are_apart(self.root, other.root, comp)
    }

    /// Puts each entry of `other` whose key is absent into this map, and returns whether there was one. A present key keeps its own value.
    ///
    /// Reads both maps side by side, up to the second new entry, with at most one comparison for each entry of either. Where nothing is
    /// new, that is all: no node and no memory is taken, and nothing is written. A single new entry is inserted, as [`Map::insert`] does
    /// it. Where there are more, the call reads both anew, makes a tree of the union with the fewest nodes beside the old one, and frees
    /// that. Where memory can be had for a list of the union, which is given back then, it saves a third reading.
    ///
    /// Other handles to this map's tree are not live where several keys were new, or where a single one gave the tree a level. Where both
    /// are one map, nothing is new.
    ///
    /// # Errors
    ///
    /// [`OutOfMemory::Full`] where the forest's limit does not allow the nodes that are needed: those of an insertion, or for more than one
    /// new entry those of the new tree beside the old ones. [`OutOfMemory::Memory`] where there was no memory for a table that had to grow:
    /// where so many nodes lie free, the call succeeds. The map and the forest are unchanged then.
    pub fn union_with<C: Comparator<K>>(
        &mut self,
        other: &Map<K, V>,
        forest: &mut MapForest<K, V>,
        comp: &C,
    ) -> Result<bool, OutOfMemory>
        requires searchable { IsSearchable (C.order comp.now) forest.old self.old }
        requires other { IsSearchable (C.order comp.now) forest.old other.now }
        ensures { Unites MAP_LEAF (C.order comp.now) forest.old self.old other.now result forest.new
            self.new }
    {
        forest.trees.unite(&mut self.root, other.root, comp)
    }

    /// Removes each entry whose key has no equal one in `other`, and returns whether there was one. The entries that stay keep their
    /// values.
    ///
    /// Walks along both maps side by side, with at most one comparison for each entry of either. Each removed entry may rebalance or merge
    /// nodes, as in [`Map::remove`]. No node and no memory is taken, so this can't be refused.
    ///
    /// Where both are one map, nothing changes. Where `other` is empty, this map is cleared. Neither compares a key.
    pub fn intersect_with<C: Comparator<K>>(
        &mut self,
        other: &Map<K, V>,
        forest: &mut MapForest<K, V>,
        comp: &C,
    ) -> bool
        requires searchable { IsSearchable (C.order comp.now) forest.old self.old }
        requires other { IsSearchable (C.order comp.now) forest.old other.now }
        ensures { Intersects MAP_LEAF (C.order comp.now) forest.old self.old other.now result forest.new
            self.new }
    {
        forest.trees.keep(&mut self.root, other.root, true, comp)
    }

    /// Removes each entry whose key has an equal one in `other`, and returns whether there was one. The entries that stay keep their
    /// values.
    ///
    /// Walks along both maps side by side, with at most one comparison for each entry of either. Each removed entry may rebalance or merge
    /// nodes, as in [`Map::remove`]. No node and no memory is taken, so this can't be refused.
    ///
    /// Where both are one map, it is cleared. Where `other` is empty, nothing changes. Neither compares a key.
    pub fn difference_with<C: Comparator<K>>(
        &mut self,
        other: &Map<K, V>,
        forest: &mut MapForest<K, V>,
        comp: &C,
    ) -> bool
        requires searchable { IsSearchable (C.order comp.now) forest.old self.old }
        requires other { IsSearchable (C.order comp.now) forest.old other.now }
        ensures { Subtracts MAP_LEAF (C.order comp.now) forest.old self.old other.now result forest.new
            self.new }
    {
        forest.trees.keep(&mut self.root, other.root, false, comp)
    }

    /// Removes the entries whose keys are within both bounds, and returns whether there was one.
    ///
    /// Where a bound is lacking, whole subtrees go, each node of which is read once, after at most one search, as in [`Map::get`]. Of the
    /// nodes that stay, those on the path to where the rest begins or ends are written, and without a start bound the first node of each
    /// level is filled from its right neighbour, or merged into it, where it is at most half full. Between two bounds there is one search.
    /// Then each leaf behind the first one is removed whole if all its entries go, and the other entries one after another, in order. There
    /// is one comparison for each such leaf, one for each such entry, and two more. Each of them may rebalance or merge nodes, as in
    /// [`Map::remove`]. No node and no memory is taken, so this can't be refused.
    pub fn remove_range<C: Comparator<K>>(
        &mut self,
        bounds: (Bound<K>, Bound<K>),
        forest: &mut MapForest<K, V>,
        comp: &C,
    ) -> bool
        requires { IsSearchable (C.order comp.now) forest.old self.old }
        ensures { RemovesBetween MAP_LEAF (C.order comp.now) bounds.0 bounds.1 forest.old self.old result
            forest.new self.new }
    {
        forest.trees.remove_range(&mut self.root, bounds, comp)
    }

    /// Moves the entries whose keys are not less than `key` to a map of their own, and returns its handle. Those that are less stay.
    ///
    /// One search, as in [`Map::get`]. The nodes of each level that are in front stay, and those behind go with all below them. A node that
    /// has entries or children on both sides keeps those in front, and the others go to a new node. Then the first node of each level of
    /// the new map is filled from its right neighbour, or merged into it, where it is at most half full. So at most three nodes of a level
    /// are written, however many entries go. Where all go, nothing is written: the new handle has this map's number, and this map is empty.
    ///
    /// Takes a node for each that has entries or children on both sides: at most one a level, and none where no entry or each entry goes.
    /// Merged nodes are free afterwards.
    ///
    /// # Errors
    ///
    /// [`OutOfMemory::Full`] where the forest's limit does not allow these nodes, and [`OutOfMemory::Memory`] where the table had to grow
    /// for them and could not; neither where so many nodes lie free. The map and the forest are unchanged then.
    pub fn split_off<C: Comparator<K>>(
        &mut self,
        key: K,
        forest: &mut MapForest<K, V>,
        comp: &C,
    ) -> Result<Self, OutOfMemory>
        requires { IsSearchable (C.order comp.now) forest.old self.old }
        ensures { SplitsOff MAP_LEAF (C.order comp.now) forest.old self.old key result forest.new self.new }
    {
        let tail = forest.trees.split_off(&mut self.root, key, comp)?;
        Ok(Map {
            root: tail,
            mark: PhantomData,
        })
    }

    /// Makes the map's tree anew, with the fewest nodes that so many entries can have: all nodes of a level are full but the last. The
    /// entries stay.
    ///
    /// Counts the entries, reads each once, and writes each once. No comparison. The new tree is made beside the old one, which is freed
    /// then. Other handles to this map's tree are not live then.
    ///
    /// # Errors
    ///
    /// [`OutOfMemory::Full`] where the forest's limit does not allow the new tree's nodes beside the old ones. [`OutOfMemory::Memory`]
    /// where there was no memory for a table that had to grow: where so many nodes lie free, the call succeeds. The map and the forest are
    /// unchanged then.
    pub fn compact(&mut self, forest: &mut MapForest<K, V>) -> Result<(), OutOfMemory>
        requires live { IsLive forest.old self.old }
        ensures { Compacts MAP_LEAF forest.old self.old result forest.new self.new }
    {
        forest.trees.compact(&mut self.root)
    }

    /// Keeps the entries for which the predicate returns `true`, with the value as the predicate left it, and removes all others.
    ///
    /// The predicate is called once for each entry, in order. No comparison, no memory. Each removed entry may rebalance or merge nodes,
    /// as in [`Map::remove`].
    pub fn retain<F: FnMut(K, &mut V) -> bool>(
        &mut self,
        forest: &mut MapForest<K, V>,
        predicate: F,
    )
        requires live { IsLive forest.old self.old }
        requires callable { MayAskEach (Answers F.FnMut) (MayAsk F.FnMut) predicate
            (list_of forest.old self.old) }
        ensures { Filters MAP_LEAF (Answers F.FnMut) forest.old self.old predicate forest.new self.new }
    {
        forest.trees.retain(&mut self.root, Asked { predicate });
    }

    /// Gives a new key to each entry whose key is not less than `from`: the one that `change` returns of the old. The values stay, and no
    /// node moves.
    ///
    /// One search, as in [`Map::get`], and then one call of `change` and one write for each of these entries, in order. No other
    /// comparison, no memory. What lies behind a text that grew is shifted so by `shift(at, |key| key + length, ..)`.
    ///
    /// The new keys have to increase under the map's order, and the first of them has to be greater than the last key that stays. This is
    /// not tested: [`Map::increases`] tells. Where `change` panics, in the package, the entries in front of that one have their new keys.
    pub fn shift<C: Comparator<K>, F: Fn(K) -> K>(
        &mut self,
        from: K,
        change: F,
        forest: &mut MapForest<K, V>,
        comp: &C,
    )
        requires searchable { IsSearchable (C.order comp.now) forest.old self.old }
        requires callable { MayRekey (F.pre change)
            (place (C.order comp.now) (list_of forest.old self.old) from) (list_of forest.old self.old) }
        ensures shifted { Shifts (F.post change)
            (place (C.order comp.now) (list_of forest.old self.old) from) forest.old self.old forest.new }
        ensures handle { self.new ≡ self.old }
    {
        forest.trees.shift(self.root, from, change, comp);
    }

    /// Returns how many entries the map has. Reads each inner node, and of each leaf how many it has: no entry is read and no key compared.
    pub fn len(&self, forest: &MapForest<K, V>) -> usize
        requires live { IsLive forest.now self.now }
        ensures count { result ≡ length (list_of forest.now self.now) }
    {
        forest.trees.len(self.root)
    }

    /// Returns the height of the map's tree, in levels of nodes: 0 where it is empty, and never more than 17. Visits one node of each
    /// level.
    ///
    /// A map of `n` entries has at most `(n + 3) / 4` leaves, and with `h` levels, 2 or more, `4 ^ (h - 1)` is less than `n`.
    pub fn levels(&self, forest: &MapForest<K, V>) -> usize
        requires live { IsLive forest.now self.now }
        ensures count { result ≡ length (sizes_of forest.now self.now) }
        ensures most { result ≤ 17 }
        ensures depth { 2 ≤ result → 4 ^ (result - 1) < length (list_of forest.now self.now) }
        ensures leaves { length (first_level (sizes_of forest.now self.now))
            ≤ (length (list_of forest.now self.now) + 3) / 4 }
    {
        forest.trees.levels(self.root)
    }

    /// Returns the most nodes that a map of `entries` entries or fewer can have, whatever was done to it.
    ///
    /// At most 32 steps, one for each level of such a tree. No node is visited, and no memory is taken.
    ///
    /// A leaf holds at most 7 entries, and each but the last of its map at least 4; an inner node has at most 8 children, and each but the
    /// last of its level at least 4. The number returned is that of the nodes where all of them hold as few as that allows, and a map may
    /// have so many. So it never decreases as `entries` grows. It is at most twice the number of such leaves, which is `entries / 4`
    /// rounded up, and so within `usize` for each number of entries.
    ///
    /// | Entries | 0 | 10 | 100 | 10,000 | 1,000,000 |
    /// |---|---|---|---|---|---|
    /// | Nodes | 0 | 4 | 35 | 3,336 | 333,337 |
    pub fn nodes_for(entries: usize) -> usize
        ensures enough { IsEnoughFor MAP_LEAF entries result }
        ensures met { IsMetBy MAP_LEAF entries result }
        ensures few { result ≤ 2 * ((entries + 3) / 4) }
    {
        most_nodes(entries, MAP_LEAF)
    }

    /// Returns the fewest nodes that a map of `entries` entries can have, which are those that [`Map::load`] takes: a leaf for each 7,
    /// and on each further level a node for each 8, up to the root.
    ///
    /// At most 22 steps, one for each level of such a tree. No node is visited, and no memory is taken.
    pub fn fewest_nodes_for(entries: usize) -> usize
        ensures count { result ≡ fewest MAP_LEAF entries }
        ensures least { (sizes : List (List ℕ)) → IsFitFor MAP_LEAF entries sizes
            → result ≤ node_count sizes }
        ensures met { IsMetBy MAP_LEAF entries result }
    {
        fewest_nodes(entries, MAP_LEAF)
    }

    /// Returns an iterator over the entries in order. Visits one node of each level, and then each leaf once. No comparison.
    #[inline(always)]
    pub fn iter<'a>(&self, forest: &'a MapForest<K, V>) -> MapIter<'a, K, V>
        requires live { IsLive forest.now self.now }
        ensures entries { result ≡ list_of forest.now self.now }
        ensures fits { MapsFitInMemory K.row V.row }
    {
        MapIter::new(self, forest)
    }

    /// Returns an iterator over the entries from the last to the first. Constant time; the first step visits one node of each level, and
    /// then each leaf is visited once. No comparison.
    #[inline(always)]
    pub fn iter_back<'a>(&self, forest: &'a MapForest<K, V>) -> MapIterBack<'a, K, V>
        requires live { IsLive forest.now self.now }
        ensures entries { result ≡ reverse (list_of forest.now self.now) }
        ensures fits { MapsFitInMemory K.row V.row }
    {
        MapIterBack::new(self, forest)
    }

    /// Returns an iterator over the entries in order that owns the forest. The forest, with all its maps, is consumed. No comparison.
    pub fn into_iter(self, forest: MapForest<K, V>) -> MapIntoIter<K, V>
        requires live { IsLive forest self }
        ensures entries { result ≡ list_of forest self }
    {
        MapIntoIter::new(self, forest)
    }

    /// Returns a double-ended iterator over the entries within both bounds, in order.
    ///
    /// At most two searches, as in [`Map::get`], and one comparison; the steps compare nothing. For an end without a bound
    /// there is no search, and the searches for two keys go down together as far as they go the same way. A start behind the end, or two
    /// excluded bounds that compare equal, give an empty range.
    #[inline(always)]
    pub fn range<'a, C: Comparator<K>>(
        &self,
        bounds: (Bound<K>, Bound<K>),
        forest: &'a MapForest<K, V>,
        comp: &C,
    ) -> MapRange<'a, K, V, C>
        requires { IsSearchable (C.order comp.now) forest.now self.now }
        ensures entries { result
            ≡ entries_between (C.order comp.now) bounds.0 bounds.1 (list_of forest.now self.now) }
        ensures increasing { IsIncreasing (C.order comp.now) result }
        ensures fits { MapsFitInMemory K.row V.row }
    {
        let (trees, root) = (&forest.trees, self.root);
        MapRange {
            trees,
            root,
            ends: trees.range(root, bounds, comp),
            mark: PhantomData,
        }
    }

    /// Returns a cursor that reads. It stands at the end, behind the last entry. Constant time.
    pub fn cursor<'a, C: Comparator<K>>(
        &self,
        forest: &'a MapForest<K, V>,
        comp: &'a C,
    ) -> MapCursor<'a, K, V, C>
        requires { IsSearchable (C.order comp.now) forest.now self.now }
        ensures entries { result.entries ≡ list_of forest.now self.now }
        ensures spot { result.spot ≡ length (list_of forest.now self.now) }
        ensures comparator { result.comparator ≡ comp.now }
        ensures fits { MapsFitInMemory K.row V.row }
    {
        MapCursor::new(self, forest, comp)
    }

    /// Returns a cursor that reads and writes. It stands at the end, behind the last entry. Constant time.
    pub fn cursor_mut<'a, C: Comparator<K>>(
        &'a mut self,
        forest: &'a mut MapForest<K, V>,
        comp: &'a C,
    ) -> MapCursorMut<'a, K, V, C>
        requires { IsSearchable (C.order comp.now) forest.old self.old }
        ensures map_loan { map_loan result ≡ self.entry.ghost_name }
        ensures forest_loan { forest_loan result ≡ forest.entry.ghost_name }
        ensures comparator { comparator result ≡ comp.now }
        ensures forest { forest_now result ≡ forest.old }
        ensures map { map_now result ≡ self.old }
        ensures spot { spot result ≡ length (list_of forest.old self.old) }
        ensures valid { IsCursor C.order result }
        ensures fits { MapsFitInMemory K.row V.row }
    {
        MapCursorMut {
            map: self,
            forest,
            comp,
            path: Path::default(),
        }
    }

    /// Returns whether each key is less than the next under the comparator, which each call that compares requires.
    ///
    /// Visits each entry, and compares at most `n - 1` times for `n` entries. A map of at most one entry increases under every order.
    pub fn increases<C: Comparator<K>>(&self, forest: &MapForest<K, V>, comp: &C) -> bool
        requires live { IsLive forest.now self.now }
        ensures increasing { IsTrue result
            ↔ IsIncreasing (C.order comp.now) (list_of forest.now self.now) }
    {
        let mut last = None;
        'entries: for (key, _) in self.iter(forest) {
            if !follows(last, key, comp) {
                return false;
            }
            last = Some(key);
        }
        true
    }
}

/// Returns whether the key before, if there is one, is less.
pub(crate) fn follows<K: Copy, C: Comparator<K>>(before: Option<K>, key: K, comp: &C) -> bool
    ensures { result ≡ option_map_or (λ k. is_lt (C.order comp.now k key)) before true }
{
    match before {
        Some(before) => comp.cmp(before, key) == Ordering::Less,
        None => true,
    }
}
