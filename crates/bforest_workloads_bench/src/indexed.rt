//! Many small maps that are named by an index.
ghost use Rattle.std.specs.Prelude.{◌<◌, ◌≡◌};

use crate::mixture::Collections;
use crate::random::added;
use bforest_indexed::Maps;
use std::alloc::Global;

/// Maps of a forest, each named by an index. A call behind the last one finds nothing.
#[derive(Drop)]
pub(crate) struct Indexed {
    maps: Maps<u32, u32, ()>,
}

impl Indexed {
    /// A list of `count` empty maps. `None` where memory was refused.
    pub(crate) fn new(alloc: Global, count: u32) -> Option<Indexed> {
        let mut maps = Maps::new(alloc, ());
        maps.grow_to(count as usize).ok()?;
        Some(Indexed { maps })
    }
}

impl Collections for Indexed {
    #[inline(always)]
    fn put(&mut self, index: u32, key: u32, value: u32) -> Option<Option<u32>> {
        if (index as usize) < self.maps.len() {
            self.maps.insert(index as usize, key, value).ok()
        } else {
            Some(None)
        }
    }

    #[inline(always)]
    fn look(&self, index: u32, key: u32) -> Option<u32> {
        if (index as usize) < self.maps.len() {
            self.maps.get(index as usize, key)
        } else {
            None
        }
    }

    #[inline(always)]
    fn take(&mut self, index: u32, key: u32) -> Option<u32> {
        if (index as usize) < self.maps.len() {
            self.maps.remove(index as usize, key)
        } else {
            None
        }
    }

    fn walk(&self, index: u32, sum: u64) -> u64 {
        let mut sum = sum;
        if (index as usize) < self.maps.len() {
            for (key, value) in self.maps.iter(index as usize) {
                sum = added(sum, key ^ value);
            }
        }
        sum
    }

    fn clear(&mut self, index: u32) {
        if (index as usize) < self.maps.len() {
            self.maps.clear(index as usize);
        }
    }
}
