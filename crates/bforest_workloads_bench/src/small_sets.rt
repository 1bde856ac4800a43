//! Many small sets.
ghost use Rattle.std.specs.Prelude.{IfOk, None, replicate, ◌≡◌};

use crate::mixture::Collections;
use crate::random::added;
use bforest::{OutOfMemory, Set, SetForest};
use std::alloc::{AllocError, Global};
use std::marker::Model;

/// Many sets in one forest. The type states that the keys of each increase, and that no two sets are one tree.
#[derive(Drop)]
pub(crate) struct SmallSets {
    forest: SetForest<u32>,
    sets: Vec<Set<u32>>,
}

impl Model for SmallSets {
    ghost use Rattle.bforest.specs.Forest.{Forest};
    ghost use Rattle.bforest_workloads_bench.specs.Kept.{AreOrdered};
    ghost use Rattle.std.specs.Prelude.{List, Option, ℕ};

    ghost Value = { Forest ℕ (Unit {0}) × List (Option ℕ) };

    ghost view = { λ s. (s.forest, s.sets.items) };

    ghost invariant = { λ s. AreOrdered s.forest s.sets.items };
}

impl SmallSets {
    /// A list of `count` empty sets.
    pub(crate) fn new(alloc: Global, count: u32) -> Result<SmallSets, AllocError> {
        Ok(SmallSets {
            forest: SetForest::new(alloc),
            sets: handles(alloc, count)?,
        })
    }

    /// Inserts a key into a set, and returns whether it was absent.
    pub(crate) fn insert(&mut self, index: u32, key: u32) -> Result<bool, OutOfMemory> {
        match self.sets.get_mut(index as usize) {
            Some(set) => set.insert(key, &mut self.forest, &()),
            None => Ok(false),
        }
    }

    /// Whether a key is in a set.
    pub(crate) fn contains(&self, index: u32, key: u32) -> bool {
        match self.sets.get(index as usize) {
            Some(set) => set.contains(key, &self.forest, &()),
            None => false,
        }
    }

    /// Removes a key from a set, and returns whether it was present.
    pub(crate) fn remove(&mut self, index: u32, key: u32) -> bool {
        match self.sets.get_mut(index as usize) {
            Some(set) => set.remove(key, &mut self.forest, &()),
            None => false,
        }
    }
}

impl Collections for SmallSets {
    #[inline(always)]
    fn put(&mut self, index: u32, key: u32, _value: u32) -> Option<Option<u32>> {
        let is_new = self.insert(index, key).ok()?;
        Some(Some(is_new as u32))
    }

    #[inline(always)]
    fn look(&self, index: u32, key: u32) -> Option<u32> {
        Some(self.contains(index, key) as u32)
    }

    #[inline(always)]
    fn take(&mut self, index: u32, key: u32) -> Option<u32> {
        Some(self.remove(index, key) as u32)
    }

    fn walk(&self, index: u32, sum: u64) -> u64 {
        let mut sum = sum;
        if let Some(set) = self.sets.get(index as usize) {
            for key in set.iter(&self.forest) {
                sum = added(sum, key);
            }
        }
        sum
    }

    fn clear(&mut self, index: u32) {
        if let Some(set) = self.sets.get_mut(index as usize) {
            set.clear(&mut self.forest);
        }
    }
}

// A list of `count` empty handles.
fn handles(alloc: Global, count: u32) -> Result<Vec<Set<u32>>, AllocError>
    ensures { IfOk result (λ sets. sets.items ≡ replicate count None) }
{
    let mut sets = Vec::new(alloc);
    for _ in 0..count {
        sets.push(Set::new())?;
    }
    Ok(sets)
}
