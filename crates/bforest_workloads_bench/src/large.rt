//! One map or one set of many keys.

use crate::Rounds;
use crate::one_map::OneMap;
use crate::one_set::OneSet;
use crate::random::{Random, added, mixed};
use std::alloc::Global;

/// One map or one set. An answer is a number.
pub(crate) trait Large {
    /// Inserts a value into a map, or a key into a set, and returns whether the key was present. `None` where memory was refused.
    fn put(&mut self, key: u32, value: u32) -> Option<bool>;

    /// Looks a key up.
    fn look(&self, key: u32) -> u32;

    /// A checksum of each entry.
    fn walk(&self) -> u64;
}

// The keys of a run, which are inserted in ascending order, or without one.
#[derive(Clone, Copy)]
struct Keys {
    size: u32,
    is_mixed: bool,
}

impl Keys {
    // The key at an index.
    fn at(self, index: u32) -> u32 {
        if self.is_mixed { mixed(index) } else { index }
    }
}

/// Makes a whole run, as described at `run_large`.
pub(crate) fn run(alloc: Global, size: u32, is_mixed: bool, rounds: Rounds) -> Option<u64> {
    let mut map = OneMap::new(alloc);
    let keys = Keys { size, is_mixed };
    let mut sum = fill_and_read(&mut map, keys, rounds)?;
    if rounds.turns > 0 {
        sum = sum.wrapping_add(remove_all(&mut map, keys));
    }
    Some(sum)
}

/// Makes a whole run, as described at `run_large_cursor`.
pub(crate) fn run_by_cursor(
    alloc: Global,
    size: u32,
    is_mixed: bool,
    rounds: Rounds,
) -> Option<u64> {
    let mut map = OneMap::new(alloc);
    let mut sum = fill(&mut map, Keys { size, is_mixed })?;
    for _ in 0..rounds.walks {
        sum = sum.wrapping_add(map.read_on());
    }
    for _ in 0..rounds.turns {
        sum = sum.wrapping_add(map.read_back());
    }
    Some(sum)
}

/// Makes a whole run, as described at `run_large_set`.
pub(crate) fn run_set(alloc: Global, size: u32, is_mixed: bool, rounds: Rounds) -> Option<u64> {
    let mut set = OneSet::new(alloc);
    let keys = Keys { size, is_mixed };
    let mut sum = fill_and_read(&mut set, keys, rounds)?;
    for _ in 0..rounds.turns {
        sum = sum.wrapping_add(edit_all(&mut set, keys)?);
    }
    Some(sum)
}

// Inserts each key. Then rounds of lookups, and rounds that read each entry.
fn fill_and_read<T: Large>(one: &mut T, keys: Keys, rounds: Rounds) -> Option<u64> {
    let mut sum = fill(one, keys)?;
    for _ in 0..rounds.looks {
        sum = sum.wrapping_add(look_all(one, keys));
    }
    for _ in 0..rounds.walks {
        sum = sum.wrapping_add(one.walk());
    }
    Some(sum)
}

// Inserts each key, and counts those that were present.
fn fill<T: Large>(one: &mut T, keys: Keys) -> Option<u64> {
    let mut sum = 0u64;
    for index in 0..keys.size {
        if one.put(keys.at(index), index)? {
            sum = sum.wrapping_add(1);
        }
    }
    Some(sum)
}

// Looks as many keys up, in the order of their insertion where that is ascending, else in another order.
fn look_all<T: Large>(one: &T, keys: Keys) -> u64 {
    let mut random = Random::new(99);
    let mut sum = 0u64;
    for count in 0..keys.size {
        let index = if keys.is_mixed {
            random.below(keys.size)
        } else {
            count
        };
        sum = added(sum, one.look(keys.at(index)));
    }
    sum
}

// Removes each key, in the order of their insertion.
fn remove_all(map: &mut OneMap, keys: Keys) -> u64 {
    let mut sum = 0u64;
    for index in 0..keys.size {
        sum = added(sum, map.remove(keys.at(index)));
    }
    sum
}

// Makes an edit for every tenth key.
fn edit_all(set: &mut OneSet, keys: Keys) -> Option<u64> {
    let mut random = Random::new(3141);
    let mut sum = 0u64;
    for _ in 0..keys.size / 10 {
        let key = keys.at(random.below(keys.size));
        sum = added(sum, set.edit(key).ok()?);
    }
    Some(sum)
}
