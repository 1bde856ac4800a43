//! One set in a forest of its own.

use crate::edits::edit_keys;
use crate::large::Large;
use crate::random::added;
use bforest::{OutOfMemory, Set, SetForest};
use std::alloc::Global;
use std::marker::Model;

/// One set in a forest of its own. Its type states that its keys increase, and no call has to require it.
#[derive(Drop)]
pub(crate) struct OneSet {
    forest: SetForest<u32>,
    set: Set<u32>,
}

impl Model for OneSet {
    ghost use Rattle.bforest.specs.Forest.{Forest};
    ghost use Rattle.bforest_workloads_bench.specs.Kept.{IsOrdered};
    ghost use Rattle.std.specs.Prelude.{Option, ℕ};

    ghost Value = { Forest ℕ (Unit {0}) × Option ℕ };

    ghost view = { λ s. (s.forest, s.set) };

    ghost invariant = { λ s. IsOrdered s.forest s.set };
}

impl OneSet {
    /// Inserts five keys by a cursor, and removes five from the first of them on.
    pub(crate) fn edit(&mut self, key: u32) -> Result<u32, OutOfMemory> {
        edit_keys(&mut self.set, &following(key), key, &mut self.forest, &())
    }

    /// An empty set.
    pub(crate) fn new(alloc: Global) -> Self {
        OneSet {
            forest: SetForest::new(alloc),
            set: Set::new(),
        }
    }
}

impl Large for OneSet {
    #[inline(always)]
    fn put(&mut self, key: u32, _value: u32) -> Option<bool> {
        let is_new = self.set.insert(key, &mut self.forest, &()).ok()?;
        Some(!is_new)
    }

    #[inline(always)]
    fn look(&self, key: u32) -> u32 {
        self.set.contains(key, &self.forest, &()) as u32
    }

    fn walk(&self) -> u64 {
        let mut sum = 0u64;
        for key in self.set.iter(&self.forest) {
            sum = added(sum, key);
        }
        sum
    }
}

// Five keys from one on.
fn following(key: u32) -> [u32; 5] {
    [
        key,
        key.wrapping_add(1),
        key.wrapping_add(2),
        key.wrapping_add(3),
        key.wrapping_add(4),
    ]
}
