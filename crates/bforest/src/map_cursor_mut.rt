//! Cursors that read and write a map.
ghost use Rattle.bforest.specs.Calls.{Inserts, RemovesAt};
ghost use Rattle.bforest.specs.Cursor.{Goes, IsCursor, Moves, Writes, comparator, entries, forest_now, map_now, spot, with_value_here};
ghost use Rattle.bforest.specs.Lending.{lends_here, lends_value};
ghost use Rattle.bforest.specs.Memory.{MapsFitInMemory};
ghost use Rattle.bforest_core.specs.Paths.{IsAtEnd};
ghost use Rattle.bforest_core.specs.Place.{entry_before};
ghost use Rattle.bforest_nodes.specs.Entries.{place, value_at_place, value_for};
ghost use Rattle.std.specs.Borrow.{sem};
ghost use Rattle.std.specs.Option.{option_copied_mut};
ghost use Rattle.std.specs.Ordering.{is_eq};
ghost use Rattle.std.specs.Prelude.{IfSome, IsTrue, None, Some, [], false, length, min, option_map, slice_get, ◌+◌, ◌-◌, ◌≡◌, ◌≤◌, ◌↔◌};

use crate::entry::{key_of, value_of};
use crate::map::Map;
use crate::map_forest::{MAP_LEAF, MapForest};
use bforest_core::{Comparator, OutOfMemory, Path};

/// A cursor that reads and writes a map: it stands at an entry, or at the end behind the last one. [`Map::cursor_mut`] makes it, at the
/// end.
///
/// Each call writes through to the map and the forest at once. When the cursor is dropped nothing is written: the map and the forest are
/// as its last call left them. The map's keys increase under the cursor's comparator throughout.
#[derive(Drop)]
pub struct MapCursorMut<'a, K: Copy, V: Copy, C: Comparator<K>> {
    pub(crate) map: &'a mut Map<K, V>,
    pub(crate) forest: &'a mut MapForest<K, V>,
    pub(crate) comp: &'a C,
    pub(crate) path: Path<K, V, MAP_LEAF>,
}

impl<'a, K: Copy, V: Copy, C: Comparator<K>> MapCursorMut<'a, K, V, C> {
    /// Returns whether the map is empty. Constant time.
    pub fn is_empty(&self) -> bool
        requires valid { IsCursor C.order self.now }
        ensures empty { IsTrue result ↔ (entries self.now ≡ []) }
    {
        self.map.is_empty()
    }

    /// Moves to the next entry and returns it. From the last entry it moves to the end and returns `None`, and at the end it stays. One
    /// step: no comparison.
    pub fn next(&mut self) -> Option<(K, V)>
        requires valid { IsCursor C.order self.old }
        requires fits { MapsFitInMemory K.row V.row }
        ensures value { result ≡ slice_get (entries self.old) (spot self.old + 1) }
        ensures moves { Moves C.order self.old self.new
            (min (spot self.old + 1) (length (entries self.old))) }
    {
        let map = &*self.map;
        let forest = &*self.forest;
        forest.trees.next(map.root, &mut self.path)
    }

    /// Moves to the previous entry and returns it. From the end it moves to the last entry; at the first entry it stays and returns
    /// `None`. One step: no comparison.
    pub fn prev(&mut self) -> Option<(K, V)>
        requires valid { IsCursor C.order self.old }
        requires fits { MapsFitInMemory K.row V.row }
        ensures value { result ≡ entry_before (entries self.old) (spot self.old) }
        ensures moves { Moves C.order self.old self.new (spot self.old - 1) }
    {
        let map = &*self.map;
        let forest = &*self.forest;
        forest.trees.prev(map.root, &mut self.path)
    }

    /// Returns the entry where the cursor stands, or `None` at the end. No comparison.
    pub fn entry(&self) -> Option<(K, V)>
        requires valid { IsCursor C.order self.now }
        requires fits { MapsFitInMemory K.row V.row }
        ensures entry { result ≡ slice_get (entries self.now) (spot self.now) }
        ensures within { spot self.now ≤ length (entries self.now) }
    {
        let map = &*self.map;
        let forest = &*self.forest;
        forest.trees.entry(map.root, &self.path)
    }

    /// Returns the key of the entry where the cursor stands, or `None` at the end. No comparison.
    pub fn key(&self) -> Option<K>
        requires valid { IsCursor C.order self.now }
        requires fits { MapsFitInMemory K.row V.row }
        ensures key { result ≡ option_map (λ e. e.0) (slice_get (entries self.now) (spot self.now)) }
        ensures within { spot self.now ≤ length (entries self.now) }
    {
        key_of(self.entry())
    }

    /// Returns the value of the entry where the cursor stands, or `None` at the end. No comparison.
    pub fn value(&self) -> Option<V>
        requires valid { IsCursor C.order self.now }
        requires fits { MapsFitInMemory K.row V.row }
        ensures value { result ≡ value_at_place (entries self.now) (spot self.now) }
    {
        value_of(self.entry())
    }

    /// Returns a mutable reference to the value of the entry where the cursor stands, or `None` at the end. All other entries, all keys
    /// and the cursor's place stay. No comparison.
    pub fn value_mut(&mut self) -> Option<&mut V>
        requires valid { IsCursor C.order self.old }
        requires fits { MapsFitInMemory K.row V.row }
        ensures* writes_back { sem 𝓛 (lends_value K.row V.row C.row self.entry result) }
        ensures value { option_copied_mut result ≡ value_at_place (entries self.old) (spot self.old) }
        ensures written { (w : V) → Writes C.order self.old (with_value_here self.old w) w }
    {
        if self.path.leaf_pos().is_some() {
            Some(self.value_here())
        } else {
            None
        }
    }

    // Returns a mutable reference to the value of the entry where the cursor stands, which is not at the end.
    fn value_here(&mut self) -> &mut V
        requires on_entry { ¬ IsAtEnd self.old.path }
        requires valid { IsCursor C.order self.old }
        requires fits { MapsFitInMemory K.row V.row }
        ensures* writes_back { sem 𝓛 (lends_here K.row V.row C.row self.entry result) }
        ensures value { value_at_place (entries self.old) (spot self.old) ≡ Some result.now }
        ensures written { (w : V) → Writes C.order self.old (with_value_here self.old w) w }
    {
        let (leaf, index) = self.path.leaf_pos().unwrap();
        self.forest.value_at(leaf, index)
    }

    /// Moves to the entry whose key compares equal to `elem` and returns its value. Where there is none, moves to the first entry with a
    /// greater key, or to the end, and returns `None`. One search, as in [`Map::get`].
    pub fn goto(&mut self, elem: K) -> Option<V>
        requires valid { IsCursor C.order self.old }
        requires fits { MapsFitInMemory K.row V.row }
        ensures value { result ≡ value_for (C.order (comparator self.old)) (entries self.old) elem }
        ensures moves { Moves C.order self.old self.new
            (place (C.order (comparator self.old)) (entries self.old) elem) }
    {
        let map = &*self.map;
        let forest = &*self.forest;
        forest.trees.goto(map.root, &mut self.path, elem, self.comp)
    }

    /// Moves to the first entry and returns its value; in an empty map stays at the end and returns `None`. Visits one node of each
    /// level. No comparison.
    pub fn goto_first(&mut self) -> Option<V>
        requires valid { IsCursor C.order self.old }
        requires fits { MapsFitInMemory K.row V.row }
        ensures value { result ≡ value_at_place (entries self.old) 0 }
        ensures moves { Moves C.order self.old self.new 0 }
    {
        let map = &*self.map;
        let forest = &*self.forest;
        value_of(forest.trees.first(map.root, &mut self.path))
    }

    /// Inserts a value at a key and returns the value that was there, exactly as [`MapCursorMut::try_insert`] does.
    ///
    /// # Errors
    ///
    /// [`OutOfMemory`] where the key is absent and too few nodes are available, as in [`MapCursorMut::try_insert`].
    pub fn insert(&mut self, key: K, value: V) -> Result<Option<V>, OutOfMemory>
        requires valid { IsCursor C.order self.old }
        requires fits { MapsFitInMemory K.row V.row }
        ensures inserted { Inserts MAP_LEAF (C.order (comparator self.old)) (forest_now self.old)
            (map_now self.old) key value result (forest_now self.new) (map_now self.new) }
        ensures goes { Goes C.order self.old self.new
            (place (C.order (comparator self.old)) (entries self.old) key) }
    {
        self.try_insert(key, value)
    }

    /// Inserts a value at a key as [`Map::try_insert`] does, and moves to the key's entry.
    ///
    /// At most two comparisons where the key is that of the entry here or of the previous one, or belongs between these two, or behind the
    /// last entry where the cursor is in its leaf or at the end. Where it belongs behind the entry here and not behind the last of that leaf,
    /// two and then a search in the leaf; where it belongs between that leaf and the next, three. Else three and one search, as in
    /// [`Map::get`].
    ///
    /// # Errors
    ///
    /// Those of [`Map::try_insert`]. The map and the forest are unchanged then, and the cursor stands where [`MapCursorMut::goto`] of the
    /// key moves it.
    pub fn try_insert(&mut self, key: K, value: V) -> Result<Option<V>, OutOfMemory>
        requires valid { IsCursor C.order self.old }
        requires fits { MapsFitInMemory K.row V.row }
        ensures inserted { Inserts MAP_LEAF (C.order (comparator self.old)) (forest_now self.old)
            (map_now self.old) key value result (forest_now self.new) (map_now self.new) }
        ensures goes { Goes C.order self.old self.new
            (place (C.order (comparator self.old)) (entries self.old) key) }
    {
        let map = &mut *self.map;
        let forest = &mut *self.forest;
        forest
            .trees
            .insert(&mut map.root, &mut self.path, key, value, self.comp)
    }

    /// Removes the entry where the cursor stands and returns its value. The cursor stands at the entry that followed then, or at the end.
    /// At the end it returns `None` and changes nothing. No comparison; nodes are rebalanced, merged and freed as in [`Map::remove`].
    ///
    /// After a [`MapCursorMut::goto`] that found no entry the cursor stands at the next greater one, which this call removes.
    pub fn remove(&mut self) -> Option<V>
        requires valid { IsCursor C.order self.old }
        requires fits { MapsFitInMemory K.row V.row }
        ensures value { result ≡ value_at_place (entries self.old) (spot self.old) }
        ensures removed { RemovesAt MAP_LEAF (forest_now self.old) (map_now self.old) (spot self.old)
            (forest_now self.new) (map_now self.new) }
        ensures gone { IfSome (slice_get (entries self.old) (spot self.old)) (λ e.
            value_for (C.order (comparator self.old)) (entries self.new) e.0 ≡ None) }
        ensures others { IfSome (slice_get (entries self.old) (spot self.old)) (λ e.
            (q : K) → is_eq (C.order (comparator self.old) e.0 q) ≡ false
            → value_for (C.order (comparator self.old)) (entries self.new) q
            ≡ value_for (C.order (comparator self.old)) (entries self.old) q) }
        ensures goes { Goes C.order self.old self.new (spot self.old) }
    {
        let map = &mut *self.map;
        let forest = &mut *self.forest;
        value_of(forest.trees.take(&mut map.root, &mut self.path))
    }
}
