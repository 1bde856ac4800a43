//! Cursors that read a map.
ghost use Rattle.bforest.specs.Cursor.{at_place};
ghost use Rattle.bforest.specs.Forest.{IsSearchable, list_of};
ghost use Rattle.bforest.specs.MapCursor.{comparator, entries, spot};
ghost use Rattle.bforest.specs.Memory.{MapsFitInMemory};
ghost use Rattle.bforest_core.specs.Place.{entry_before};
ghost use Rattle.bforest_nodes.specs.Entries.{place, value_at_place, value_for};
ghost use Rattle.std.specs.Prelude.{IsTrue, [], length, min, option_map, slice_get, ◌+◌, ◌-◌, ◌≡◌, ◌≤◌, ◌↔◌};

use crate::entry::{key_of, value_of};
use crate::map::Map;
use crate::map_forest::{MAP_LEAF, MapForest};
use bforest_core::{Comparator, PackedNode};
use bforest_trees::{Look, Trees};
use std::marker::Model;

/// A cursor that reads a map: it stands at an entry, or at the end behind the last one. [`Map::cursor`] makes it, at the end.
#[derive(Drop)]
pub struct MapCursor<'a, K: Copy, V: Copy, C: Comparator<K>> {
    trees: &'a Trees<K, V, MAP_LEAF>,
    root: PackedNode,
    comp: &'a C,
    look: Look<'a, K, V>,
}

impl<'a, K: Copy, V: Copy, C: Comparator<K>> Model for MapCursor<'a, K, V, C> {
    ghost use Rattle.bforest.specs.Cursor.{Cursor, LooksIn};
    ghost use Rattle.bforest_trees.specs.Forest.{list_of};
    ghost use Rattle.bforest_trees.specs.Looks.{look_place};

    ghost Value = { Cursor K V C };

    ghost view = { λ c. record {
      entries = list_of c.trees.now c.root;
      spot = look_place c.trees.now c.root c.look;
      comparator = c.comp.now;
    } };

    ghost invariant = { λ c. LooksIn (C.order c.comp.now) c.trees.now c.root c.look };
}

impl<'a, K: Copy, V: Copy, C: Comparator<K>> MapCursor<'a, K, V, C> {
    /// Returns a cursor at the end of a map.
    #[inline(always)]
    pub(crate) fn new(
        map: &Map<K, V>,
        forest: &'a MapForest<K, V>,
        comp: &'a C,
    ) -> MapCursor<'a, K, V, C>
        requires { IsSearchable (C.order comp.now) forest.now map.now }
        ensures entries { entries result ≡ list_of forest.now map.now }
        ensures spot { spot result ≡ length (list_of forest.now map.now) }
        ensures comparator { comparator result ≡ comp.now }
        ensures fits { MapsFitInMemory K.row V.row }
    {
        MapCursor {
            trees: &forest.trees,
            root: map.root,
            comp,
            look: Look::end(),
        }
    }

    /// Returns whether the map is empty. Constant time.
    pub fn is_empty(&self) -> bool
        ensures empty { IsTrue result ↔ (entries self.now ≡ []) }
    {
        self.root.is_none()
    }

    /// Moves to the next entry and returns it. From the last entry it moves to the end and returns `None`, and at the end it stays. One
    /// step: no comparison.
    #[inline(always)]
    pub fn next(&mut self) -> Option<(K, V)>
        requires fits { MapsFitInMemory K.row V.row }
        ensures value { result ≡ slice_get (entries self.old) (spot self.old + 1) }
        ensures moves { self.new ≡ at_place self.old (min (spot self.old + 1) (length (entries self.old))) }
    {
        self.look.next(self.root, self.trees)
    }

    /// Moves to the previous entry and returns it. From the end it moves to the last entry; at the first entry it stays and returns
    /// `None`. One step: no comparison.
    #[inline(always)]
    pub fn prev(&mut self) -> Option<(K, V)>
        requires fits { MapsFitInMemory K.row V.row }
        ensures value { result ≡ entry_before (entries self.old) (spot self.old) }
        ensures moves { self.new ≡ at_place self.old (spot self.old - 1) }
    {
        self.look.prev(self.root, self.trees)
    }

    /// Returns the entry where the cursor stands, or `None` at the end. No comparison.
    #[inline(always)]
    pub fn entry(&self) -> Option<(K, V)>
        ensures entry { result ≡ slice_get (entries self.now) (spot self.now) }
        ensures within { spot self.now ≤ length (entries self.now) }
    {
        self.look.entry()
    }

    /// Returns the key of the entry where the cursor stands, or `None` at the end. No comparison.
    #[inline(always)]
    pub fn key(&self) -> Option<K>
        ensures key { result ≡ option_map (λ e. e.0) (slice_get (entries self.now) (spot self.now)) }
        ensures within { spot self.now ≤ length (entries self.now) }
    {
        key_of(self.entry())
    }

    /// Returns the value of the entry where the cursor stands, or `None` at the end. No comparison.
    #[inline(always)]
    pub fn value(&self) -> Option<V>
        ensures value { result ≡ value_at_place (entries self.now) (spot self.now) }
    {
        value_of(self.entry())
    }

    /// Moves to the entry whose key compares equal to `elem` and returns its value. Where there is none, moves to the first entry with a
    /// greater key, or to the end, and returns `None`. One search, as in [`Map::get`].
    pub fn goto(&mut self, elem: K) -> Option<V>
        requires fits { MapsFitInMemory K.row V.row }
        ensures value { result ≡ value_for (C.order (comparator self.old)) (entries self.old) elem }
        ensures moves { self.new
            ≡ at_place self.old (place (C.order (comparator self.old)) (entries self.old) elem) }
    {
        self.look.goto(self.root, self.trees, elem, self.comp)
    }

    /// Moves to the first entry and returns its value; in an empty map stays at the end and returns `None`. Visits one node of each
    /// level. No comparison.
    #[inline(always)]
    pub fn goto_first(&mut self) -> Option<V>
        requires fits { MapsFitInMemory K.row V.row }
        ensures value { result ≡ value_at_place (entries self.old) 0 }
        ensures moves { self.new ≡ at_place self.old 0 }
    {
        value_of(self.look.first(self.root, self.trees))
    }

    /// Moves to the end, behind the last entry. Constant time.
    #[inline(always)]
    pub fn goto_end(&mut self)
        ensures moves { self.new ≡ at_place self.old (length (entries self.old)) }
    {
        self.look = Look::end();
    }
}
