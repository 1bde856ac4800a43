//! Two sets, read side by side.
ghost use Rattle.bforest.specs.Forest.{IsLive, IsSearchable};
ghost use Rattle.bforest.specs.Memory.{SetsFitInMemory};
ghost use Rattle.bforest.specs.Set.{elements};
ghost use Rattle.bforest.specs.Sides.{Steps, front, in_both, in_either, in_first, in_one};
ghost use Rattle.std.specs.Iterator.{YieldsFirst};
ghost use Rattle.std.specs.Prelude.{IsTrue, [], ◌≡◌, ◌≢◌, ◌↔◌};

use crate::set::Set;
use crate::set_forest::SetForest;
use crate::set_iter::SetIter;
use bforest_core::Comparator;
use std::cmp::Ordering;
use std::marker::Model;

/// The keys of two sets that are left, read side by side.
#[derive(Drop)]
pub(crate) struct Merge<'a, K: Copy, C: Comparator<K>> {
    first: Ahead<'a, K>,
    second: Ahead<'a, K>,
    comp: &'a C,
}

impl<'a, K: Copy, C: Comparator<K>> Model for Merge<'a, K, C> {
    ghost use Rattle.bforest.specs.Sides.{Increase, Sides};

    ghost Value = { Sides K C };

    ghost view = { λ m. record { first = m.first; second = m.second; comparator = m.comp.now } };

    ghost invariant = { λ m. Increase C.order (record { first = m.first; second = m.second; comparator = m.comp.now }) };
}

impl<'a, K: Copy, C: Comparator<K>> Merge<'a, K, C> {
    /// All keys of two sets.
    #[inline(always)]
    pub(crate) fn new(
        set: &Set<K>,
        other: &Set<K>,
        forest: &'a SetForest<K>,
        comp: &'a C,
    ) -> Merge<'a, K, C>
        requires searchable { IsSearchable (C.order comp.now) forest.now set.now }
        requires other { IsSearchable (C.order comp.now) forest.now other.now }
        ensures keys { result ≡ record {
          first = elements forest.now set.now;
          second = elements forest.now other.now;
          comparator = comp.now;
        } }
        ensures fits { SetsFitInMemory K.row }
    {
        Merge {
            first: Ahead::new(set, forest),
            second: Ahead::new(other, forest),
            comp,
        }
    }

    /// Removes the lesser of the two first keys, and both where they are equal. Returns it: of two equal keys that of the first set.
    #[inline(always)]
    pub(crate) fn next_in_either(&mut self) -> Option<K>
        requires { SetsFitInMemory K.row }
        ensures { YieldsFirst (in_either C.order) self.old result self.new }
    {
        match self.step() {
            Some(step) => Some(step.1),
            None => None,
        }
    }

    /// Removes all keys up to the next one that both sets have, and returns that of the first set.
    #[inline(always)]
    pub(crate) fn next_in_both(&mut self) -> Option<K>
        requires { SetsFitInMemory K.row }
        ensures { YieldsFirst (in_both C.order) self.old result self.new }
    {
        while self.has_both() {
            let step = self.step()?;
            if step.0.is_eq() {
                return Some(step.1);
            }
        }
        None
    }

    /// Removes all keys up to the next one that the first set alone has, and returns it.
    #[inline(always)]
    pub(crate) fn next_in_first(&mut self) -> Option<K>
        requires { SetsFitInMemory K.row }
        ensures { YieldsFirst (in_first C.order) self.old result self.new }
    {
        while self.has_first() {
            let step = self.step()?;
            if step.0.is_lt() {
                return Some(step.1);
            }
        }
        None
    }

    /// Removes all keys up to the next one that one set alone has, and returns it.
    #[inline(always)]
    pub(crate) fn next_in_one(&mut self) -> Option<K>
        requires { SetsFitInMemory K.row }
        ensures { YieldsFirst (in_one C.order) self.old result self.new }
    {
        while let Some(step) = self.step() {
            if !step.0.is_eq() {
                return Some(step.1);
            }
        }
        None
    }

    // Whether both sets have keys left.
    #[inline(always)]
    fn has_both(&self) -> bool
        ensures { IsTrue result ↔ (self.now.first ≢ [] × self.now.second ≢ []) }
    {
        self.first.key.is_some() && self.second.key.is_some()
    }

    // Whether the first set has keys left.
    #[inline(always)]
    fn has_first(&self) -> bool
        ensures { IsTrue result ↔ (self.now.first ≢ []) }
    {
        self.first.key.is_some()
    }

    // Removes the lesser of the two first keys, or both where they are equal. Returns how they compare, and the key that was removed: of
    // two equal keys that of the first set.
    #[inline(always)]
    fn step(&mut self) -> Option<(Ordering, K)>
        requires { SetsFitInMemory K.row }
        ensures { Steps C.order self.old result self.new }
    {
        match self.order()? {
            Ordering::Less => Some((Ordering::Less, self.first.take()?)),
            Ordering::Greater => Some((Ordering::Greater, self.second.take()?)),
            Ordering::Equal => {
                let _equal = self.second.take();
                Some((Ordering::Equal, self.first.take()?))
            }
        }
    }

    // How the two first keys compare. Where one set has no key left, that of the other is the lesser.
    #[inline(always)]
    fn order(&self) -> Option<Ordering>
        ensures { result ≡ front C.order self.now }
    {
        match (self.first.key, self.second.key) {
            (Some(key), Some(other)) => Some(self.comp.cmp(key, other)),
            (Some(_), None) => Some(Ordering::Less),
            (None, Some(_)) => Some(Ordering::Greater),
            (None, None) => None,
        }
    }
}

/// The keys of a set that are left, of which the first was read already.
#[derive(Drop)]
pub(crate) struct Ahead<'a, K: Copy> {
    key: Option<K>,
    behind: SetIter<'a, K>,
}

impl<'a, K: Copy> Model for Ahead<'a, K> {
    ghost use Rattle.bforest.specs.Sides.{ahead};
    ghost use Rattle.std.specs.Prelude.{List};

    ghost Value = { List K };

    ghost view = { λ a. ahead a.key a.behind };
}

impl<'a, K: Copy> Ahead<'a, K> {
    // All keys of a set.
    #[inline(always)]
    fn new(set: &Set<K>, forest: &'a SetForest<K>) -> Ahead<'a, K>
        requires live { IsLive forest.now set.now }
        ensures keys { result ≡ elements forest.now set.now }
        ensures fits { SetsFitInMemory K.row }
    {
        let mut behind = SetIter::new(set, forest);
        Ahead {
            key: behind.next(),
            behind,
        }
    }

    // Removes the first key, and returns it.
    #[inline(always)]
    fn take(&mut self) -> Option<K>
        requires { SetsFitInMemory K.row }
        ensures { YieldsFirst (λ keys. keys) self.old result self.new }
    {
        let key = self.key?;
        self.key = self.behind.next();
        Some(key)
    }
}
