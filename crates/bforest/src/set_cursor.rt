//! Cursors that read and write a set.
ghost use Rattle.bforest.specs.Calls.{Inserts, RemovesAt};
ghost use Rattle.bforest.specs.Memory.{SetsFitInMemory};
ghost use Rattle.bforest.specs.Set.{as_put, the_value};
ghost use Rattle.bforest.specs.SetCursor.{Goes, IsCursor, Moves, comparator, entries, forest_now, keys, set_now, spot};
ghost use Rattle.bforest_core.specs.Place.{entry_before};
ghost use Rattle.bforest_nodes.specs.Entries.{is_present, place, value_for};
ghost use Rattle.std.specs.Ordering.{is_eq};
ghost use Rattle.std.specs.Prelude.{IfSome, IsTrue, None, [], false, is_some, length, min, slice_get, ◌+◌, ◌-◌, ◌≡◌, ◌≤◌, ◌↔◌};

use crate::entry::key_of;
use crate::set::{Set, is_new};
use crate::set_forest::{SET_LEAF, SetForest};
use bforest_core::{Comparator, OutOfMemory, Path, SetValue};

/// A cursor that reads and writes a set: it stands at a key, or at the end behind the last one. [`Set::cursor`] makes it, at the end.
///
/// Each call writes through to the set and the forest at once. When the cursor is dropped nothing is written: the set and the forest are
/// as its last call left them. The set's keys increase under the cursor's comparator throughout.
#[derive(Drop)]
pub struct SetCursor<'a, K: Copy, C: Comparator<K>> {
    pub(crate) set: &'a mut Set<K>,
    pub(crate) forest: &'a mut SetForest<K>,
    pub(crate) comp: &'a C,
    pub(crate) path: Path<K, SetValue, SET_LEAF>,
}

impl<'a, K: Copy, C: Comparator<K>> SetCursor<'a, K, C> {
    /// Returns whether the set is empty. Constant time.
    pub fn is_empty(&self) -> bool
        requires valid { IsCursor C.order self.now }
        ensures empty { IsTrue result ↔ (entries self.now ≡ []) }
    {
        self.set.is_empty()
    }

    /// Moves to the next key and returns it. From the last key it moves to the end and returns `None`, and at the end it stays. One step:
    /// no comparison.
    pub fn next(&mut self) -> Option<K>
        requires valid { IsCursor C.order self.old }
        requires fits { SetsFitInMemory K.row }
        ensures key { result ≡ slice_get (keys self.old) (spot self.old + 1) }
        ensures moves { Moves C.order self.old self.new (min (spot self.old + 1) (length (keys self.old))) }
    {
        let set = &*self.set;
        let forest = &*self.forest;
        key_of(forest.trees.next(set.root, &mut self.path))
    }

    /// Moves to the previous key and returns it. From the end it moves to the last key; at the first key it stays and returns `None`. One
    /// step: no comparison.
    pub fn prev(&mut self) -> Option<K>
        requires valid { IsCursor C.order self.old }
        requires fits { SetsFitInMemory K.row }
        ensures key { result ≡ entry_before (keys self.old) (spot self.old) }
        ensures moves { Moves C.order self.old self.new (spot self.old - 1) }
    {
        let set = &*self.set;
        let forest = &*self.forest;
        key_of(forest.trees.prev(set.root, &mut self.path))
    }

    /// Returns the key where the cursor stands, or `None` at the end. No comparison.
    pub fn elem(&self) -> Option<K>
        requires valid { IsCursor C.order self.now }
        requires fits { SetsFitInMemory K.row }
        ensures key { result ≡ slice_get (keys self.now) (spot self.now) }
        ensures within { spot self.now ≤ length (keys self.now) }
    {
        let set = &*self.set;
        let forest = &*self.forest;
        key_of(forest.trees.entry(set.root, &self.path))
    }

    /// Moves to the key that compares equal to `elem` and returns `true`. Where there is none, moves to the first greater key, or to the
    /// end, and returns `false`. One search, as in [`Set::contains`].
    pub fn goto(&mut self, elem: K) -> bool
        requires valid { IsCursor C.order self.old }
        requires fits { SetsFitInMemory K.row }
        ensures present { result ≡ is_present (C.order (comparator self.old)) (entries self.old) elem }
        ensures value { result
            ≡ is_some (value_for (C.order (comparator self.old)) (entries self.old) elem) }
        ensures moves { Moves C.order self.old self.new
            (place (C.order (comparator self.old)) (entries self.old) elem) }
    {
        let set = &*self.set;
        let forest = &*self.forest;
        forest
            .trees
            .goto(set.root, &mut self.path, elem, self.comp)
            .is_some()
    }

    /// Moves to the first key and returns it; in an empty set stays at the end and returns `None`. Visits one node of each level. No
    /// comparison.
    pub fn goto_first(&mut self) -> Option<K>
        requires valid { IsCursor C.order self.old }
        requires fits { SetsFitInMemory K.row }
        ensures key { result ≡ slice_get (keys self.old) 0 }
        ensures moves { Moves C.order self.old self.new 0 }
    {
        let set = &*self.set;
        let forest = &*self.forest;
        key_of(forest.trees.first(set.root, &mut self.path))
    }

    /// Inserts a key and returns whether it was absent, exactly as [`SetCursor::try_insert`] does.
    ///
    /// # Errors
    ///
    /// [`OutOfMemory`] where the key is absent and too few nodes are available, as in [`SetCursor::try_insert`].
    pub fn insert(&mut self, elem: K) -> Result<bool, OutOfMemory>
        requires valid { IsCursor C.order self.old }
        requires fits { SetsFitInMemory K.row }
        ensures inserted { Inserts SET_LEAF (C.order (comparator self.old)) (forest_now self.old)
            (set_now self.old) elem the_value (as_put result) (forest_now self.new) (set_now self.new) }
        ensures goes { Goes C.order self.old self.new
            (place (C.order (comparator self.old)) (entries self.old) elem) }
    {
        self.try_insert(elem)
    }

    /// Inserts a key as [`Set::try_insert`] does, and moves to it.
    ///
    /// At most two comparisons where the key is the one here or the previous one, or belongs between these two, or behind the last key
    /// where the cursor is in its leaf or at the end. Where it belongs behind the key here and not behind the last of that leaf, two and then
    /// a search in the leaf; where it belongs between that leaf and the next, three. Else three and one search, as in [`Set::contains`].
    ///
    /// # Errors
    ///
    /// Those of [`Set::try_insert`]. The set and the forest are unchanged then, and the cursor stands where [`SetCursor::goto`] of the
    /// key moves it.
    pub fn try_insert(&mut self, elem: K) -> Result<bool, OutOfMemory>
        requires valid { IsCursor C.order self.old }
        requires fits { SetsFitInMemory K.row }
        ensures inserted { Inserts SET_LEAF (C.order (comparator self.old)) (forest_now self.old)
            (set_now self.old) elem the_value (as_put result) (forest_now self.new) (set_now self.new) }
        ensures goes { Goes C.order self.old self.new
            (place (C.order (comparator self.old)) (entries self.old) elem) }
    {
        let set = &mut *self.set;
        let forest = &mut *self.forest;
        let put = forest
            .trees
            .insert(&mut set.root, &mut self.path, elem, (), self.comp);
        is_new(put)
    }

    /// Removes the key where the cursor stands and returns it. The cursor stands at the key that followed then, or at the end. At the end
    /// it returns `None` and changes nothing. No comparison; nodes are rebalanced, merged and freed as in [`Set::remove`].
    ///
    /// After a [`SetCursor::goto`] that found no key the cursor stands at the next greater one, which this call removes.
    pub fn remove(&mut self) -> Option<K>
        requires valid { IsCursor C.order self.old }
        requires fits { SetsFitInMemory K.row }
        ensures key { result ≡ slice_get (keys self.old) (spot self.old) }
        ensures removed { RemovesAt SET_LEAF (forest_now self.old) (set_now self.old) (spot self.old)
            (forest_now self.new) (set_now self.new) }
        ensures gone { IfSome result (λ k. value_for (C.order (comparator self.old)) (entries self.new) k
            ≡ None) }
        ensures others { IfSome result (λ k. (q : K) → is_eq (C.order (comparator self.old) k q) ≡ false
            → value_for (C.order (comparator self.old)) (entries self.new) q
            ≡ value_for (C.order (comparator self.old)) (entries self.old) q) }
        ensures goes { Goes C.order self.old self.new (spot self.old) }
    {
        let set = &mut *self.set;
        let forest = &mut *self.forest;
        key_of(forest.trees.take(&mut set.root, &mut self.path))
    }
}
