//! Live ranges: a map from the program point where a range begins to the point where it ends.
use crate::Rounds;
use crate::one_map::OneMap;
use crate::random::{Random, added};
use std::alloc::Global;

/// The number of ranges that one cursor inserts.
const BATCH: u32 = 8;

/// The number of points from the beginning of one range to that of the next.
const STEP: u32 = 4;

/// Makes a whole run, as described at `run_ranges`.
pub(crate) fn run(alloc: Global, size: u32, rounds: Rounds) -> Option<u64> {
    let mut ranges = OneMap::new(alloc);
    let mut sum = add_all(&mut ranges, size, 0)?;
    for _ in 0..rounds.looks {
        sum = sum.wrapping_add(look_all(&ranges, size));
    }
    for _ in 0..rounds.walks {
        sum = sum.wrapping_add(read_all(&ranges, size));
    }
    if rounds.turns > 0 {
        sum = sum.wrapping_add(add_all(&mut ranges, size, STEP / 2)?);
    }
    Some(sum)
}

// Inserts `size` ranges, batch by batch, each `offset` points behind the beginning of a step.
fn add_all(ranges: &mut OneMap, size: u32, offset: u32) -> Option<u64> {
    let mut sum = 0u64;
    for index in 0..size / BATCH {
        sum = added(sum, ranges.put_all(&batch(index, offset)).ok()?);
    }
    Some(sum)
}

// Looks for the last range that begins at a point or before, at `size` points.
fn look_all(ranges: &OneMap, size: u32) -> u64 {
    let mut random = Random::new(99);
    let mut sum = 0u64;
    for _ in 0..size {
        let point = random.below(size.wrapping_mul(STEP));
        sum = added(sum, ranges.value_up_to(point));
    }
    sum
}

// Reads the first and the last range that begin in a span, as long as a batch, of `size` spans.
fn read_all(ranges: &OneMap, size: u32) -> u64 {
    let mut random = Random::new(4711);
    let mut sum = 0u64;
    for _ in 0..size {
        let from = random.below(size.wrapping_mul(STEP));
        sum = ranges.read_ends(from, from.saturating_add(BATCH * STEP), sum);
    }
    sum
}

// The ranges of a batch.
fn batch(index: u32, offset: u32) -> [(u32, u32); 8] {
    let mut entries = [(0, 0); 8];
    let mut point = index.wrapping_mul(BATCH * STEP).wrapping_add(offset);
    for at in 0..8 {
        entries[at] = (point, point.wrapping_add(STEP - 1));
        point = point.wrapping_add(STEP);
    }
    entries
}
