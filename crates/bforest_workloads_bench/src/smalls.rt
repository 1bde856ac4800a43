//! Many small maps.
ghost use Rattle.std.specs.Prelude.{IfOk, None, replicate, ◌≡◌};

use crate::mixture::Collections;
use crate::random::added;
use crate::walks::read_on;
use bforest::{Map, MapForest, OutOfMemory};
use std::alloc::{AllocError, Global};
use std::marker::Model;

/// Many maps in one forest. The type states that the keys of each increase, and that no two maps are one tree: a call on one map leaves all
/// others, and no call has to require it.
#[derive(Drop)]
pub(crate) struct Smalls {
    forest: MapForest<u32, u32>,
    maps: Vec<Map<u32, u32>>,
}

impl Model for Smalls {
    ghost use Rattle.bforest.specs.Forest.{Forest};
    ghost use Rattle.bforest_workloads_bench.specs.Kept.{AreOrdered};
    ghost use Rattle.std.specs.Prelude.{List, Option, ℕ};

    ghost Value = { Forest ℕ ℕ × List (Option ℕ) };

    ghost view = { λ s. (s.forest, s.maps.items) };

    ghost invariant = { λ s. AreOrdered s.forest s.maps.items };
}

impl Smalls {
    /// A list of `count` empty maps.
    pub(crate) fn new(alloc: Global, count: u32) -> Result<Smalls, AllocError> {
        Ok(Smalls {
            forest: MapForest::new(alloc),
            maps: handles(alloc, count)?,
        })
    }

    /// Inserts a value into a map, and returns the value that it replaces.
    pub(crate) fn insert(
        &mut self,
        index: u32,
        key: u32,
        value: u32,
    ) -> Result<Option<u32>, OutOfMemory> {
        match self.maps.get_mut(index as usize) {
            Some(map) => map.insert(key, value, &mut self.forest, &()),
            None => Ok(None),
        }
    }

    /// The value of a key of a map.
    pub(crate) fn get(&self, index: u32, key: u32) -> Option<u32> {
        let map = self.maps.get(index as usize)?;
        map.get(key, &self.forest, &())
    }

    /// Removes a key from a map, and returns its value.
    pub(crate) fn remove(&mut self, index: u32, key: u32) -> Option<u32> {
        let map = self.maps.get_mut(index as usize)?;
        map.remove(key, &mut self.forest, &())
    }

    // Adds each entry of a map to a checksum, by a cursor.
    fn read(&self, index: u32, sum: u64) -> u64 {
        match self.maps.get(index as usize) {
            Some(map) => read_on(map, &self.forest, sum),
            None => sum,
        }
    }

    /// A checksum of each entry of the first `count` maps, read by cursors.
    pub(crate) fn read_all(&self, count: u32) -> u64 {
        let mut sum = 1u64;
        for index in 0..count {
            sum = self.read(index, sum);
        }
        sum
    }
}

impl Collections for Smalls {
    #[inline(always)]
    fn put(&mut self, index: u32, key: u32, value: u32) -> Option<Option<u32>> {
        self.insert(index, key, value).ok()
    }

    #[inline(always)]
    fn look(&self, index: u32, key: u32) -> Option<u32> {
        self.get(index, key)
    }

    #[inline(always)]
    fn take(&mut self, index: u32, key: u32) -> Option<u32> {
        self.remove(index, key)
    }

    fn walk(&self, index: u32, sum: u64) -> u64 {
        let mut sum = sum;
        if let Some(map) = self.maps.get(index as usize) {
            for (key, value) in map.iter(&self.forest) {
                sum = added(sum, key ^ value);
            }
        }
        sum
    }

    fn clear(&mut self, index: u32) {
        if let Some(map) = self.maps.get_mut(index as usize) {
            map.clear(&mut self.forest);
        }
    }
}

// A list of `count` empty handles.
fn handles(alloc: Global, count: u32) -> Result<Vec<Map<u32, u32>>, AllocError>
    ensures { IfOk result (λ maps. maps.items ≡ replicate count None) }
{
    let mut maps = Vec::new(alloc);
    for _ in 0..count {
        maps.push(Map::new())?;
    }
    Ok(maps)
}
