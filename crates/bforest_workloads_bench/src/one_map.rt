//! One map in a forest of its own.

use crate::edits::put_entries;
use crate::large::Large;
use crate::random::added;
use crate::walks::{read_back, read_on};
use bforest::{Map, MapForest, OutOfMemory};
use std::alloc::Global;
use std::marker::Model;
use std::ops::Bound;

/// One map in a forest of its own. Its type states that its keys increase, and no call has to require it.
#[derive(Drop)]
pub(crate) struct OneMap {
    forest: MapForest<u32, u32>,
    map: Map<u32, u32>,
}

impl Model for OneMap {
    ghost use Rattle.bforest.specs.Forest.{Forest};
    ghost use Rattle.bforest_workloads_bench.specs.Kept.{IsOrdered};
    ghost use Rattle.std.specs.Prelude.{Option, ℕ};

    ghost Value = { Forest ℕ ℕ × Option ℕ };

    ghost view = { λ m. (m.forest, m.map) };

    ghost invariant = { λ m. IsOrdered m.forest m.map };
}

impl OneMap {
    /// An empty map.
    pub(crate) fn new(alloc: Global) -> Self {
        OneMap {
            forest: MapForest::new(alloc),
            map: Map::new(),
        }
    }

    /// Removes a key, and returns its value, or 7 where the key is absent.
    pub(crate) fn remove(&mut self, key: u32) -> u32 {
        self.map.remove(key, &mut self.forest, &()).unwrap_or(7)
    }

    /// Inserts entries by one cursor, and counts the new keys.
    pub(crate) fn put_all(&mut self, entries: &[(u32, u32)]) -> Result<u32, OutOfMemory> {
        put_entries(&mut self.map, entries, &mut self.forest, &())
    }

    /// The value of the last key up to this one, or 7 where there is none.
    pub(crate) fn value_up_to(&self, key: u32) -> u32 {
        match self.map.get_or_less(key, &self.forest, &()) {
            Some(entry) => entry.1,
            None => 7,
        }
    }

    /// Adds the first and the last entry between two keys to a checksum.
    pub(crate) fn read_ends(&self, from: u32, to: u32, sum: u64) -> u64 {
        let bounds = (Bound::Included(from), Bound::Included(to));
        let mut range = self.map.range(bounds, &self.forest, &());
        let first = range.next().unwrap_or((7, 7));
        let last = range.next_back().unwrap_or((7, 7));
        added(added(sum, first.0 ^ first.1), last.0 ^ last.1)
    }

    /// Reads each entry by a cursor, from the first on. The checksum starts at 1, to count a first entry of zeros too.
    pub(crate) fn read_on(&self) -> u64 {
        read_on(&self.map, &self.forest, 1)
    }

    /// Reads each entry by a cursor, from the last back.
    pub(crate) fn read_back(&self) -> u64 {
        read_back(&self.map, &self.forest, 1)
    }
}

impl Large for OneMap {
    #[inline(always)]
    fn put(&mut self, key: u32, value: u32) -> Option<bool> {
        let old = self.map.insert(key, value, &mut self.forest, &()).ok()?;
        Some(old.is_some())
    }

    #[inline(always)]
    fn look(&self, key: u32) -> u32 {
        self.map.get(key, &self.forest, &()).unwrap_or(7)
    }

    fn walk(&self) -> u64 {
        let mut sum = 0u64;
        for (key, value) in self.map.iter(&self.forest) {
            sum = added(sum, key ^ value);
        }
        sum
    }
}
