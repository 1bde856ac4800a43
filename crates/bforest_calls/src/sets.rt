//! Lists of calls on sets, and sets as the engine takes them: the value of a key is the unit.
ghost use Rattle.bforest.specs.Forest.{IsLive, IsSearchable, list_of};
ghost use Rattle.bforest.specs.Memory.{SetsFitInMemory};
ghost use Rattle.bforest.specs.Set.{as_put, as_removed};
ghost use Rattle.bforest.specs.SetCursor.{IsCursor};
ghost use Rattle.bforest_calls.specs.Looks.{with_each};
ghost use Rattle.bforest_calls.specs.Machine.{MayStopAt, Run};
ghost use Rattle.bforest_calls.specs.State.{Retained, Shifted, is_listed};
ghost use Rattle.bforest_calls.specs.Steps.{ActsBy, TakesFrom, set_view};
ghost use Rattle.std.proofs.Common.{◌∙◌};
ghost use Rattle.std.proofs.lemmas.List.{get_or_default};
ghost use Rattle.std.specs.Prelude.{IfOk, None, OnErr, false, length, map, option_map, refl, take, ◌<◌, ◌≡◌, ℕ};

use crate::call::{Act, Answer, Call, Seen, Side};
use crate::collection::Collection;
use crate::run::run;
use crate::shift::new_key;
use crate::steps::{Steps, each};
use bforest::{Comparator, OutOfMemory, Set, SetCursor, SetForest, SetRange};
use std::alloc::{AllocError, Global};
use std::cmp::Ordering;

/// Makes the calls in order, on sets, and returns one answer for each. The only value is the unit: [`Call::Get`] is
/// `contains`, and an insertion answers the unit where the key was present. [`Call::Read`],
/// [`Call::GetOrInsert`], [`Call::Update`] and [`Call::UpdateOrInsert`] are not offered.
///
/// Room for all answers is taken first, and room for the answer of a call before that call changes anything.
///
/// # Errors
///
/// `AllocError` where memory for the answers was refused: then the first calls, up to some number, were made, each whole. It ends before
/// the first call, or at a call that is answered by a list, or at a load, for which the keys are gathered in one. A run of no calls requests
/// none.
pub fn run_set<K: Copy, C: Comparator<K>>(
    alloc: Global,
    calls: &[Call<K, ()>],
    comps: &[C],
    handles: &mut [Set<K>],
    forest: &mut SetForest<K>,
) -> Result<Vec<Answer<K, ()>>, AllocError>
    // The answers are those of a run of the machine, from the old state to the new one.
    ensures run { IfOk result (λ answers. Run 15 false (map C.order comps.now)
        (record { forest = forest.old; handles = handles.old }) calls.now answers.items
        (record { forest = forest.new; handles = handles.new })) }
    // Where memory was refused, the first n calls were made, each whole.
    ensures err { OnErr result ((n : ℕ) × (answers : _) × Run 15 false (map C.order comps.now)
        (record { forest = forest.old; handles = handles.old }) (take n calls.now) answers
        (record { forest = forest.new; handles = handles.new }) × MayStopAt false (map C.order comps.now)
        (record { forest = forest.new; handles = handles.new }) calls.now n) }
{
    run(alloc, calls, comps, handles, forest)
}

impl<K: Copy> Collection<K, ()> for Set<K> {
    type Forest = SetForest<K>;

    const READS: bool = false;

    ghost READS = { false };

    ghost number = { λ handle. handle };

    ghost numbers = { λ handles. handles };

    ghost trees = { λ forest. forest };

    ghost most = { 15 };

    ghost fits = { SetsFitInMemory K.row };

    fn is_live(&self, forest: &SetForest<K>) -> bool {
        forest.holds(self)
    }

    fn increases<C: Comparator<K>>(&self, forest: &SetForest<K>, comp: &C) -> bool {
        self.increases(forest, comp)
    }

    fn entries(&self, alloc: Global, forest: &SetForest<K>) -> Result<Vec<(K, ())>, AllocError> {
        let mut entries = Vec::new(alloc);
        for key in self.iter(forest) {
            entries.push((key, ()))?;
        }
        Ok(entries)
    }

    fn entries_back(
        &self,
        alloc: Global,
        forest: &SetForest<K>,
    ) -> Result<Vec<(K, ())>, AllocError> {
        let mut entries = Vec::new(alloc);
        for key in self.iter_back(forest) {
            entries.push((key, ()))?;
        }
        Ok(entries)
    }

    fn answer_alone(&mut self, call: &Call<K, ()>, forest: &mut SetForest<K>) -> Answer<K, ()> {
        match call {
            Call::First { .. } => Answer::Pair(with_unit(self.first(forest))),
            Call::Last { .. } => Answer::Pair(with_unit(self.last(forest))),
            Call::PopFirst { .. } => Answer::Pair(with_unit(self.pop_first(forest))),
            Call::PopLast { .. } => Answer::Pair(with_unit(self.pop_last(forest))),
            Call::Len { .. } => Answer::Count(self.len(forest)),
            Call::Compact { .. } => Answer::Made(self.compact(forest)),
            _ => unreachable!(),
        }
    }

    fn answer<C: Comparator<K>>(
        &mut self,
        alloc: Global,
        call: &Call<K, ()>,
        forest: &mut SetForest<K>,
        comp: &C,
    ) -> Result<Answer<K, ()>, AllocError> {
        match call {
            Call::Get { k, .. } => Ok(Answer::Value(unit_if(self.contains(*k, forest, comp)))),
            Call::GetOrLess { k, .. } => Ok(Answer::Pair(with_unit(self.get_or_less(
                *k, forest, comp,
            )))),
            Call::GetOrGreater { k, .. } => Ok(Answer::Pair(with_unit(self.get_or_greater(
                *k, forest, comp,
            )))),
            Call::Insert { k, .. } => Ok(Answer::Put(old_unit(self.insert(*k, forest, comp)))),
            Call::Shift { from, keys, .. } => {
                shift(self, *from, keys, forest, comp);
                Ok(Answer::Done)
            }
            Call::Remove { k, .. } => Ok(Answer::Value(unit_if(self.remove(*k, forest, comp)))),
            Call::Edit { steps, .. } => {
                let mut cursor = self.cursor(forest, comp);
                each(alloc, steps, &mut cursor)
            }
            Call::Range { lo, hi, ends, .. } => {
                let mut range = self.range((*lo, *hi), forest, comp);
                each(alloc, ends, &mut range)
            }
            Call::RemoveRange { lo, hi, .. } => Ok(Answer::Changed(self.remove_range(
                (*lo, *hi),
                forest,
                comp,
            ))),
            _ => unreachable!(),
        }
    }

    fn answer_beside<C: Comparator<K>>(
        &mut self,
        call: &Call<K, ()>,
        other: &Set<K>,
        forest: &mut SetForest<K>,
        comp: &C,
    ) -> Answer<K, ()> {
        match call {
            Call::Unite { .. } => Answer::United(self.union_with(other, forest, comp)),
            Call::Intersect { .. } => Answer::Changed(self.intersect_with(other, forest, comp)),
            Call::Subtract { .. } => Answer::Changed(self.difference_with(other, forest, comp)),
            Call::IsSubset { .. } => Answer::Holds(self.is_subset(other, forest, comp)),
            Call::IsDisjoint { .. } => Answer::Holds(self.is_disjoint(other, forest, comp)),
            _ => unreachable!(),
        }
    }

    fn retain<C: Comparator<K>>(
        &mut self,
        keys: &[K],
        _put: Option<()>,
        forest: &mut SetForest<K>,
        comp: &C,
    )
        requires fits { SetsFitInMemory K.row }
        requires live { IsLive forest.old self.old }
        ensures retained { Retained 15 (C.order comp.now) keys.now _put
            (record { forest = forest.old; number = self.old })
            (record { forest = forest.new; number = self.new }) }
    {
        self.retain(forest, |key| keeps(comp, keys, key));
    }

    fn clear(&mut self, forest: &mut SetForest<K>) {
        self.clear(forest);
    }

    fn deep_clone(&self, forest: &mut SetForest<K>) -> Result<Set<K>, OutOfMemory> {
        self.deep_clone(forest)
    }

    fn split_off<C: Comparator<K>>(
        &mut self,
        key: K,
        forest: &mut SetForest<K>,
        comp: &C,
    ) -> Result<Set<K>, OutOfMemory> {
        self.split_off(key, forest, comp)
    }

    fn load(
        alloc: Global,
        entries: &[(K, ())],
        forest: &mut SetForest<K>,
    ) -> Result<Result<Set<K>, OutOfMemory>, AllocError> {
        let keys = keys_of(alloc, entries)?;
        Ok(Set::load(&keys, forest))
    }

    fn alias(&self) -> Set<K> {
        self.clone()
    }

    fn is_same_handle(&self, other: &Set<K>) -> bool {
        self.is_same_handle(other)
    }

    fn clear_all(forest: &mut SetForest<K>) {
        forest.clear();
    }

    ghost odd = { refl };

    ghost counted = { λ xs. refl };

    ghost at = { λ xs h x within is. is ∙ get_or_default xs h x None within };

    ghost written = { λ xs h x. refl };
}

/// The keys of the entries.
fn keys_of<K: Copy>(alloc: Global, entries: &[(K, ())]) -> Result<Vec<K>, AllocError>
    ensures keys { IfOk result (λ keys. with_each keys.items ≡ entries.now) }
    ensures some { OnErr result (0 < length entries.now) }
{
    let mut keys = Vec::with_capacity(alloc, entries.len())?;
    for entry in entries {
        keys.push(entry.0)?;
    }
    Ok(keys)
}

/// Makes the listed new keys of those from a key on.
fn shift<K: Copy, C: Comparator<K>>(
    set: &mut Set<K>,
    from: K,
    keys: &[(K, K)],
    forest: &mut SetForest<K>,
    comp: &C,
)
    requires { IsSearchable (C.order comp.now) forest.old set.old }
    ensures { Shifted (C.order comp.now) from keys.now (record { forest = forest.old; number = set.old })
        (record { forest = forest.new; number = set.new }) }
{
    set.shift(from, |key| new_key(comp, keys, key), forest, comp);
}

/// Whether one of the keys compares equal to `key`.
fn keeps<K: Copy, C: Comparator<K>>(comp: &C, keys: &[K], key: K) -> bool
    ensures listed { result ≡ is_listed (C.order comp.now) keys.now key }
{
    keys.iter()
        .any(|listed| comp.cmp(*listed, key) == Ordering::Equal)
}

/// The value of a key that is present.
fn unit_if(present: bool) -> Option<()>
    ensures { result ≡ as_removed present }
{
    if present { Some(()) } else { None }
}

/// A key as an entry.
fn with_unit<K: Copy>(key: Option<K>) -> Option<(K, ())>
    ensures { result ≡ option_map (λ k. (k, tt)) key }
{
    match key {
        Some(key) => Some((key, ())),
        None => None,
    }
}

/// The old value of a key, from whether the key is new.
fn old_unit(put: Result<bool, OutOfMemory>) -> Result<Option<()>, OutOfMemory>
    ensures { result ≡ as_put put }
{
    match put? {
        true => Ok(None),
        false => Ok(Some(())),
    }
}

impl<K: Copy, C: Comparator<K>> Steps<Act<K, ()>, K, ()> for SetCursor<'_, K, C> {
    ghost ready = { λ cursor. IsCursor C.order cursor × SetsFitInMemory K.row };

    ghost goes = { ActsBy 15 (set_view C.order) };

    fn step(&mut self, step: &Act<K, ()>) -> Seen<K, ()> {
        match step {
            Act::Empty => Seen::Flag(self.is_empty()),
            Act::Next => Seen::Pair(with_unit(self.next())),
            Act::Prev => Seen::Pair(with_unit(self.prev())),
            Act::Key => Seen::Key(self.elem()),
            Act::Value => Seen::Value(unit_if(self.elem().is_some())),
            Act::Goto(k) => Seen::Value(unit_if(self.goto(*k))),
            Act::First => Seen::Pair(with_unit(self.goto_first())),
            Act::Put(k, ..) => Seen::Put(old_unit(self.insert(*k))),
            Act::Write(..) => Seen::Flag(self.elem().is_some()),
            Act::Remove => Seen::Pair(with_unit(self.remove())),
        }
    }
}

impl<K: Copy, C: Comparator<K>> Steps<Side, K, ()> for SetRange<'_, K, C> {
    ghost ready = { λ _. SetsFitInMemory K.row };

    ghost goes = { TakesFrom with_each };

    fn step(&mut self, side: &Side) -> Seen<K, ()> {
        match side {
            Side::Front => Seen::Pair(with_unit(self.next())),
            Side::Back => Seen::Pair(with_unit(self.next_back())),
        }
    }
}
