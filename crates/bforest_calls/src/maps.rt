//! Lists of calls on maps, and maps as the engine takes them.
ghost use Rattle.bforest.specs.Cursor.{Goes, IsCursor, entries, forest_now, map_now, spot};
ghost use Rattle.bforest.specs.Forest.{IsLive, IsSearchable};
ghost use Rattle.bforest.specs.Memory.{MapsFitInMemory};
ghost use Rattle.bforest_calls.specs.Machine.{MayStopAt, Run};
ghost use Rattle.bforest_calls.specs.State.{Retained, Shifted, Updated, UpdatedOrInserted, WritesAt, as_had, is_listed};
ghost use Rattle.bforest_calls.specs.Steps.{ActsBy, LooksBy, TakesFrom, map_view};
ghost use Rattle.std.proofs.Common.{◌∙◌};
ghost use Rattle.std.proofs.lemmas.List.{get_or_default};
ghost use Rattle.std.specs.Prelude.{IfOk, None, OnErr, is_some, map, refl, slice_get, take, true, unwrap_or, ◌≡◌, ℕ};

use crate::call::{Act, Answer, Call, Look, Seen, Side};
use crate::collection::Collection;
use crate::run::run;
use crate::shift::new_key;
use crate::steps::{Steps, each};
use bforest::{Comparator, Map, MapCursor, MapCursorMut, MapForest, MapRange, OutOfMemory};
use std::alloc::{AllocError, Global};
use std::cmp::Ordering;

/// Makes the calls in order, on maps, and returns one answer for each. Handles and orders may be any: each call tests them.
///
/// Room for all answers is taken first, and room for the answer of a call before that call changes anything.
///
/// # Errors
///
/// `AllocError` where memory for the answers was refused: then the first calls, up to some number, were made, each whole. It ends before
/// the first call, or at a call that is answered by a list. A run of no calls requests none.
pub fn run_map<K: Copy, V: Copy, C: Comparator<K>>(
    alloc: Global,
    calls: &[Call<K, V>],
    comps: &[C],
    handles: &mut [Map<K, V>],
    forest: &mut MapForest<K, V>,
) -> Result<Vec<Answer<K, V>>, AllocError>
    // The answers are those of a run of the machine, from the old state to the new one.
    ensures run { IfOk result (λ answers. Run 7 true (map C.order comps.now)
        (record { forest = forest.old; handles = handles.old }) calls.now answers.items
        (record { forest = forest.new; handles = handles.new })) }
    // Where memory was refused, the first n calls were made, each whole.
    ensures err { OnErr result ((n : ℕ) × (answers : _) × Run 7 true (map C.order comps.now)
        (record { forest = forest.old; handles = handles.old }) (take n calls.now) answers
        (record { forest = forest.new; handles = handles.new }) × MayStopAt true (map C.order comps.now)
        (record { forest = forest.new; handles = handles.new }) calls.now n) }
{
    run(alloc, calls, comps, handles, forest)
}

impl<K: Copy, V: Copy> Collection<K, V> for Map<K, V> {
    type Forest = MapForest<K, V>;

    const READS: bool = true;

    ghost READS = { true };

    ghost number = { λ handle. handle };

    ghost numbers = { λ handles. handles };

    ghost trees = { λ forest. forest };

    ghost most = { 7 };

    ghost fits = { MapsFitInMemory K.row V.row };

    fn is_live(&self, forest: &MapForest<K, V>) -> bool {
        forest.holds(self)
    }

    fn increases<C: Comparator<K>>(&self, forest: &MapForest<K, V>, comp: &C) -> bool {
        self.increases(forest, comp)
    }

    fn entries(&self, alloc: Global, forest: &MapForest<K, V>) -> Result<Vec<(K, V)>, AllocError> {
        self.iter(forest).collect(alloc)
    }

    fn entries_back(
        &self,
        alloc: Global,
        forest: &MapForest<K, V>,
    ) -> Result<Vec<(K, V)>, AllocError> {
        self.iter_back(forest).collect(alloc)
    }

    fn answer_alone(&mut self, call: &Call<K, V>, forest: &mut MapForest<K, V>) -> Answer<K, V> {
        match call {
            Call::First { .. } => Answer::Pair(self.first(forest)),
            Call::Last { .. } => Answer::Pair(self.last(forest)),
            Call::PopFirst { .. } => Answer::Pair(self.pop_first(forest)),
            Call::PopLast { .. } => Answer::Pair(self.pop_last(forest)),
            Call::Len { .. } => Answer::Count(self.len(forest)),
            Call::Compact { .. } => Answer::Made(self.compact(forest)),
            _ => unreachable!(),
        }
    }

    fn answer<C: Comparator<K>>(
        &mut self,
        alloc: Global,
        call: &Call<K, V>,
        forest: &mut MapForest<K, V>,
        comp: &C,
    ) -> Result<Answer<K, V>, AllocError> {
        match call {
            Call::Get { k, .. } => Ok(Answer::Value(self.get(*k, forest, comp))),
            Call::GetOrLess { k, .. } => Ok(Answer::Pair(self.get_or_less(*k, forest, comp))),
            Call::GetOrGreater { k, .. } => Ok(Answer::Pair(self.get_or_greater(*k, forest, comp))),
            Call::Insert { k, v, .. } => Ok(Answer::Put(self.insert(*k, *v, forest, comp))),
            Call::GetOrInsert { k, v, .. } => {
                Ok(Answer::Put(some(self.get_or_insert(*k, *v, forest, comp))))
            }
            Call::Update { k, v, .. } => Ok(Answer::Value(update(self, *k, *v, forest, comp))),
            Call::UpdateOrInsert { k, v, put, .. } => Ok(Answer::Put(some(update_or_insert(
                self, *k, *v, *put, forest, comp,
            )))),
            Call::Shift { from, keys, .. } => {
                shift(self, *from, keys, forest, comp);
                Ok(Answer::Done)
            }
            Call::Remove { k, .. } => Ok(Answer::Value(self.remove(*k, forest, comp))),
            Call::Read { steps, .. } => {
                let mut cursor = self.cursor(forest, comp);
                each(alloc, steps, &mut cursor)
            }
            Call::Edit { steps, .. } => {
                let mut cursor = self.cursor_mut(forest, comp);
                each(alloc, steps, &mut cursor)
            }
            Call::Range { lo, hi, ends, .. } => {
                let mut range = self.range((*lo, *hi), forest, comp);
                each(alloc, ends, &mut range)
            }
            Call::RemoveRange { lo, hi, .. } => Ok(Answer::Changed(self.remove_range(
                (*lo, *hi),
                forest,
                comp,
            ))),
            _ => unreachable!(),
        }
    }

    fn answer_beside<C: Comparator<K>>(
        &mut self,
        call: &Call<K, V>,
        other: &Map<K, V>,
        forest: &mut MapForest<K, V>,
        comp: &C,
    ) -> Answer<K, V> {
        match call {
            Call::Unite { .. } => Answer::United(self.union_with(other, forest, comp)),
            Call::Intersect { .. } => Answer::Changed(self.intersect_with(other, forest, comp)),
            Call::Subtract { .. } => Answer::Changed(self.difference_with(other, forest, comp)),
            Call::IsSubset { .. } => Answer::Holds(self.is_subset(other, forest, comp)),
            Call::IsDisjoint { .. } => Answer::Holds(self.is_disjoint(other, forest, comp)),
            _ => unreachable!(),
        }
    }

    fn retain<C: Comparator<K>>(
        &mut self,
        keys: &[K],
        put: Option<V>,
        forest: &mut MapForest<K, V>,
        comp: &C,
    )
        requires fits { MapsFitInMemory K.row V.row }
        requires live { IsLive forest.old self.old }
        ensures retained { Retained 7 (C.order comp.now) keys.now put
            (record { forest = forest.old; number = self.old })
            (record { forest = forest.new; number = self.new }) }
    {
        self.retain(forest, |key, value| keeps(comp, put, keys, key, value));
    }

    fn clear(&mut self, forest: &mut MapForest<K, V>) {
        self.clear(forest);
    }

    fn deep_clone(&self, forest: &mut MapForest<K, V>) -> Result<Map<K, V>, OutOfMemory> {
        self.deep_clone(forest)
    }

    fn split_off<C: Comparator<K>>(
        &mut self,
        key: K,
        forest: &mut MapForest<K, V>,
        comp: &C,
    ) -> Result<Map<K, V>, OutOfMemory> {
        self.split_off(key, forest, comp)
    }

    fn load(
        _alloc: Global,
        entries: &[(K, V)],
        forest: &mut MapForest<K, V>,
    ) -> Result<Result<Map<K, V>, OutOfMemory>, AllocError> {
        Ok(Map::load(entries, forest))
    }

    fn alias(&self) -> Map<K, V> {
        self.clone()
    }

    fn is_same_handle(&self, other: &Map<K, V>) -> bool {
        self.is_same_handle(other)
    }

    fn clear_all(forest: &mut MapForest<K, V>) {
        forest.clear();
    }

    ghost odd = { refl };

    ghost counted = { λ xs. refl };

    ghost at = { λ xs h x within is. is ∙ get_or_default xs h x None within };

    ghost written = { λ xs h x. refl };
}

/// Writes a value where the key is present, and returns it then.
fn update<K: Copy, V: Copy, C: Comparator<K>>(
    map: &mut Map<K, V>,
    k: K,
    v: V,
    forest: &mut MapForest<K, V>,
    comp: &C,
) -> Option<V>
    requires { IsSearchable (C.order comp.now) forest.old map.old }
    ensures { Updated (C.order comp.now) k v result (record { forest = forest.old; number = map.old })
        (record { forest = forest.new; number = map.new }) }
{
    map.update(k, |_| v, forest, comp)
}

/// Writes `put` where the key is present, and inserts `v` where it is absent. Returns the value that the key has then.
fn update_or_insert<K: Copy, V: Copy, C: Comparator<K>>(
    map: &mut Map<K, V>,
    k: K,
    v: V,
    put: V,
    forest: &mut MapForest<K, V>,
    comp: &C,
) -> Result<V, OutOfMemory>
    requires { IsSearchable (C.order comp.now) forest.old map.old }
    ensures { UpdatedOrInserted 7 (C.order comp.now) k v put result
        (record { forest = forest.old; number = map.old }) (record { forest = forest.new; number = map.new }) }
{
    map.update_or_insert(k, v, |_| put, forest, comp)
}

/// The value that a key has, as the one that was there.
fn some<V: Copy>(had: Result<V, OutOfMemory>) -> Result<Option<V>, OutOfMemory>
    ensures { result ≡ as_had had }
{
    Ok(Some(had?))
}

/// Gives the listed new keys to the entries from a key on.
fn shift<K: Copy, V: Copy, C: Comparator<K>>(
    map: &mut Map<K, V>,
    from: K,
    keys: &[(K, K)],
    forest: &mut MapForest<K, V>,
    comp: &C,
)
    requires { IsSearchable (C.order comp.now) forest.old map.old }
    ensures { Shifted (C.order comp.now) from keys.now (record { forest = forest.old; number = map.old })
        (record { forest = forest.new; number = map.new }) }
{
    map.shift(from, |key| new_key(comp, keys, key), forest, comp);
}

/// Writes the value of `put`, if there is one, and returns whether one of the keys compares equal to the entry's.
fn keeps<K: Copy, V: Copy, C: Comparator<K>>(
    comp: &C,
    put: Option<V>,
    keys: &[K],
    key: K,
    value: &mut V,
) -> bool
    ensures listed { result ≡ is_listed (C.order comp.now) keys.now key }
    ensures written { value.new ≡ unwrap_or put value.old }
{
    if let Some(put) = put {
        *value = put;
    }
    keys.iter()
        .any(|listed| comp.cmp(*listed, key) == Ordering::Equal)
}

impl<K: Copy, V: Copy, C: Comparator<K>> Steps<Look<K>, K, V> for MapCursor<'_, K, V, C> {
    ghost ready = { λ _. MapsFitInMemory K.row V.row };

    ghost goes = { LooksBy C.order };

    fn step(&mut self, step: &Look<K>) -> Seen<K, V> {
        match step {
            Look::Empty => Seen::Flag(self.is_empty()),
            Look::Next => Seen::Pair(self.next()),
            Look::Prev => Seen::Pair(self.prev()),
            Look::Key => Seen::Key(self.key()),
            Look::Value => Seen::Value(self.value()),
            Look::Goto(k) => Seen::Value(self.goto(*k)),
            Look::First => {
                let _value = self.goto_first();
                Seen::Pair(self.entry())
            }
            Look::End => {
                self.goto_end();
                Seen::Done
            }
        }
    }
}

impl<K: Copy, V: Copy, C: Comparator<K>> Steps<Act<K, V>, K, V> for MapCursorMut<'_, K, V, C> {
    ghost ready = { λ cursor. IsCursor C.order cursor × MapsFitInMemory K.row V.row };

    ghost goes = { ActsBy 7 (map_view C.order) };

    fn step(&mut self, step: &Act<K, V>) -> Seen<K, V> {
        match step {
            Act::Empty => Seen::Flag(self.is_empty()),
            Act::Next => Seen::Pair(self.next()),
            Act::Prev => Seen::Pair(self.prev()),
            Act::Key => Seen::Key(self.key()),
            Act::Value => Seen::Value(self.value()),
            Act::Goto(k) => Seen::Value(self.goto(*k)),
            Act::First => {
                let _value = self.goto_first();
                Seen::Pair(self.entry())
            }
            Act::Put(k, v) => Seen::Put(self.insert(*k, *v)),
            Act::Write(v) => Seen::Flag(write(self, *v)),
            Act::Remove => {
                let entry = self.entry();
                let _value = self.remove();
                Seen::Pair(entry)
            }
        }
    }
}

/// Writes the value at a cursor's place, and returns whether an entry is there.
fn write<K: Copy, V: Copy, C: Comparator<K>>(cursor: &mut MapCursorMut<'_, K, V, C>, v: V) -> bool
    requires valid { IsCursor C.order cursor.old }
    requires fits { MapsFitInMemory K.row V.row }
    ensures there { result ≡ is_some (slice_get (entries cursor.old) (spot cursor.old)) }
    ensures writes { WritesAt (record { forest = forest_now cursor.old; number = map_now cursor.old })
        (spot cursor.old) v (record { forest = forest_now cursor.new; number = map_now cursor.new }) }
    ensures goes { Goes C.order cursor.old cursor.new (spot cursor.old) }
{
    match cursor.value_mut() {
        Some(value) => {
            *value = v;
            true
        }
        None => false,
    }
}

impl<K: Copy, V: Copy, C: Comparator<K>> Steps<Side, K, V> for MapRange<'_, K, V, C> {
    ghost ready = { λ _. MapsFitInMemory K.row V.row };

    ghost goes = { TakesFrom (λ entries. entries) };

    fn step(&mut self, side: &Side) -> Seen<K, V> {
        match side {
            Side::Front => Seen::Pair(self.next()),
            Side::Back => Seen::Pair(self.next_back()),
        }
    }
}
