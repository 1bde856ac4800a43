//! Many small maps or sets of the toolchain's standard library, which is proved too.

use crate::mixture::Collections;
use crate::random::added;
use std::alloc::{AllocError, Global};
use std::collections::{BTreeMap, BTreeSet};

/// A map or a set of the standard library. The answers are those of [`Collections`].
pub(crate) trait Standard: Drop {
    /// An empty one.
    fn empty(alloc: Global) -> Self;

    /// Inserts a value into a map, or a key into a set. `None` where memory was refused.
    fn put(&mut self, key: u32, value: u32) -> Option<Option<u32>>;

    /// Looks a key up.
    fn look(&self, key: u32) -> Option<u32>;

    /// Removes a key.
    fn take(&mut self, key: u32) -> Option<u32>;

    /// Adds each entry to a checksum.
    fn walk(&self, sum: u64) -> u64;

    /// Removes each entry.
    fn clear(&mut self);
}

/// Many maps or sets of the standard library.
#[derive(Drop)]
pub(crate) struct Standards<T: Standard> {
    items: Vec<T>,
}

impl<T: Standard> Standards<T> {
    /// A list of `count` empty ones.
    pub(crate) fn new(alloc: Global, count: u32) -> Result<Standards<T>, AllocError> {
        let mut items = Vec::new(alloc);
        for _ in 0..count {
            items.push(T::empty(alloc))?;
        }
        Ok(Standards { items })
    }
}

impl<T: Standard> Collections for Standards<T> {
    #[inline(always)]
    fn put(&mut self, index: u32, key: u32, value: u32) -> Option<Option<u32>> {
        match self.items.get_mut(index as usize) {
            Some(item) => item.put(key, value),
            None => Some(None),
        }
    }

    #[inline(always)]
    fn look(&self, index: u32, key: u32) -> Option<u32> {
        let item = self.items.get(index as usize)?;
        item.look(key)
    }

    #[inline(always)]
    fn take(&mut self, index: u32, key: u32) -> Option<u32> {
        let item = self.items.get_mut(index as usize)?;
        item.take(key)
    }

    fn walk(&self, index: u32, sum: u64) -> u64 {
        match self.items.get(index as usize) {
            Some(item) => item.walk(sum),
            None => sum,
        }
    }

    fn clear(&mut self, index: u32) {
        if let Some(item) = self.items.get_mut(index as usize) {
            item.clear();
        }
    }
}

impl Standard for BTreeMap<u32, u32> {
    fn empty(alloc: Global) -> Self {
        BTreeMap::new(alloc)
    }

    #[inline(always)]
    fn put(&mut self, key: u32, value: u32) -> Option<Option<u32>> {
        self.insert(key, value).ok()
    }

    #[inline(always)]
    fn look(&self, key: u32) -> Option<u32> {
        self.get(&key).copied()
    }

    #[inline(always)]
    fn take(&mut self, key: u32) -> Option<u32> {
        self.remove(&key)
    }

    #[inline(always)]
    fn walk(&self, sum: u64) -> u64 {
        let mut sum = sum;
        for (key, value) in self.iter() {
            sum = added(sum, *key ^ *value);
        }
        sum
    }

    fn clear(&mut self) {
        self.clear();
    }
}

impl Standard for BTreeSet<u32> {
    fn empty(alloc: Global) -> Self {
        BTreeSet::new(alloc)
    }

    #[inline(always)]
    fn put(&mut self, key: u32, _value: u32) -> Option<Option<u32>> {
        let is_new = self.insert(key).ok()?;
        Some(Some(is_new as u32))
    }

    #[inline(always)]
    fn look(&self, key: u32) -> Option<u32> {
        Some(self.contains(&key) as u32)
    }

    #[inline(always)]
    fn take(&mut self, key: u32) -> Option<u32> {
        Some(self.remove(&key) as u32)
    }

    #[inline(always)]
    fn walk(&self, sum: u64) -> u64 {
        let mut sum = sum;
        for key in self.iter() {
            sum = added(sum, *key);
        }
        sum
    }

    fn clear(&mut self) {
        self.clear();
    }
}
