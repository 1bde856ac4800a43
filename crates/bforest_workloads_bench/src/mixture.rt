//! Calls of all kinds on many small maps or sets.

use crate::Rounds;
use crate::random::{Random, added};

/// Many small maps or sets, each named by an index. An answer is a number, or `None` for an absent value; of a set it says whether the key
/// was there, or is new.
pub(crate) trait Collections {
    /// Inserts a value into a map, or a key into a set. `None` where memory was refused.
    fn put(&mut self, index: u32, key: u32, value: u32) -> Option<Option<u32>>;

    /// Looks a key up.
    fn look(&self, index: u32, key: u32) -> Option<u32>;

    /// Removes a key.
    fn take(&mut self, index: u32, key: u32) -> Option<u32>;

    /// Adds each entry of a map to a checksum.
    fn walk(&self, index: u32, sum: u64) -> u64;

    /// Clears a map.
    fn clear(&mut self, index: u32);
}

/// Makes a whole run on `count` maps, as described at `run_mixture`. `None` where there are no maps, since memory was refused.
pub(crate) fn run<S: Collections + Drop>(
    smalls: Option<S>,
    count: u32,
    calls: u32,
    rounds: Rounds,
) -> Option<u64> {
    let mut smalls = smalls?;
    let mut sum = mix(&mut smalls, count, calls)?;
    for _ in 0..rounds.looks {
        sum = sum.wrapping_add(look(&smalls, count, calls));
    }
    for _ in 0..rounds.walks {
        sum = sum.wrapping_add(walk_all(&smalls, count));
    }
    if rounds.turns > 0 {
        for index in 0..count {
            smalls.clear(index);
        }
    }
    Some(sum)
}

// Makes `calls` calls that change maps, or look up.
fn mix<S: Collections>(smalls: &mut S, count: u32, calls: u32) -> Option<u64> {
    let mut random = Random::new(88172645463325252);
    let mut sum = 0u64;
    for _ in 0..calls {
        let index = random.below(count);
        let key = random.below(20);
        let choice = random.below(4);
        let found = if choice < 2 {
            smalls.put(index, key, choice)?
        } else if choice == 2 {
            smalls.look(index, key)
        } else {
            smalls.take(index, key)
        };
        sum = added(sum, found.unwrap_or(7));
    }
    Some(sum)
}

// Makes `calls` lookups.
fn look<S: Collections>(smalls: &S, count: u32, calls: u32) -> u64 {
    let mut random = Random::new(12345);
    let mut sum = 0u64;
    for _ in 0..calls {
        let index = random.below(count);
        let key = random.below(20);
        sum = added(sum, smalls.look(index, key).unwrap_or(7));
    }
    sum
}

/// A checksum of each entry of the first `count` maps.
pub(crate) fn walk_all<S: Collections>(smalls: &S, count: u32) -> u64 {
    let mut sum = 0u64;
    for index in 0..count {
        sum = smalls.walk(index, sum);
    }
    sum
}
