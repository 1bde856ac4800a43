//! Insertions into a map that grows to three levels, beside another map of the forest. One may fail for want of memory: then nothing
//! changes, and the same insertion succeeds when it is repeated. Then removals, a retain and clears, which take no memory.
//! `tools/refuse_each` runs this with each request for memory refused in turn, and with all refused once the maps are built.
#![tactic(auto)]

use bforest::{Map, MapForest, OutOfMemory};
use std::io;

/// A map of numbers to numbers.
type Numbers = Map<u32, u32>;

/// The results of the run so far.
#[derive(Clone, Copy)]
struct Seen {
    refused: u32,
    is_right: bool,
}

/// A hash of the entries of a map.
fn digest(map: &Numbers, forest: &MapForest<u32, u32>) -> u32 {
    if !forest.holds(map) {
        return 0;
    }
    let mut digest = 1u32;
    for (key, value) in map.iter(forest) {
        digest = digest
            .wrapping_mul(31)
            .wrapping_add(key)
            .wrapping_mul(31)
            .wrapping_add(value);
    }
    digest
}

/// Inserts an absent key, and repeats once a call that failed. Checks that another map stays.
fn insert(
    map: &mut Numbers,
    key: u32,
    forest: &mut MapForest<u32, u32>,
    other: &Numbers,
    seen: &mut Seen,
) {
    let before = (
        digest(map, forest),
        digest(other, forest),
        forest.slots(),
        forest.free_slots(),
    );
    match attempt(map, key, forest) {
        Some(Ok(None)) => {}
        Some(Err(error)) => {
            seen.refused = seen.refused.saturating_add(1);
            let after = (
                digest(map, forest),
                digest(other, forest),
                forest.slots(),
                forest.free_slots(),
            );
            if error != OutOfMemory::Memory || after != before {
                seen.is_right = false;
            }
            if attempt(map, key, forest) != Some(Ok(None)) {
                seen.is_right = false;
            }
        }
        _ => seen.is_right = false,
    }
    if digest(other, forest) != before.1 {
        seen.is_right = false;
    }
}

/// Inserts a key if the conditions hold.
fn attempt(
    map: &mut Numbers,
    key: u32,
    forest: &mut MapForest<u32, u32>,
) -> Option<Result<Option<u32>, OutOfMemory>> {
    if forest.holds(map) && map.increases(forest, &()) {
        Some(map.insert(key, key, forest, &()))
    } else {
        None
    }
}

/// The number of entries, and the sum of their values.
fn count_and_sum(map: &Numbers, forest: &MapForest<u32, u32>) -> (u32, u32) {
    if !forest.holds(map) {
        return (0, 0);
    }
    let mut counted = (0u32, 0u32);
    for (_, value) in map.iter(forest) {
        counted = (counted.0.wrapping_add(1), counted.1.wrapping_add(value));
    }
    counted
}

/// Clears a map if its handle is live.
fn clear(map: &mut Numbers, forest: &mut MapForest<u32, u32>) {
    if forest.holds(map) {
        map.clear(forest);
    }
}

/// Removes a present key if the conditions hold, and returns whether its value was returned.
fn removes(map: &mut Numbers, key: u32, forest: &mut MapForest<u32, u32>) -> bool {
    forest.holds(map) && map.increases(forest, &()) && map.remove(key, forest, &()) == Some(key)
}

/// Removes most entries of a map of 1 to 36, and checks that another map stays. Returns whether all is right.
fn loses_most(map: &mut Numbers, forest: &mut MapForest<u32, u32>, other: &Numbers) -> bool {
    let before = (digest(other, forest), forest.slots());
    let mut is_right = true;
    for key in [16, 1, 36, 2, 3, 20] {
        is_right = removes(map, key, forest) && is_right;
    }
    if forest.holds(map) {
        map.retain(forest, |key, value| {
            *value = value.wrapping_add(1);
            key % 9 == 0
        });
    }
    // The keys 9, 18 and 27 stay, each with its value plus 1.
    is_right = count_and_sum(map, forest) == (3, 57) && is_right;
    is_right && (digest(other, forest), forest.slots()) == before
}

fn main(rt: HostRuntime) -> io::Result<()> {
    let mut forest = MapForest::new(rt.alloc());
    let mut seen = Seen {
        refused: 0,
        is_right: true,
    };
    let nothing = Map::new();
    let mut watch = Map::new();
    insert(&mut watch, 7, &mut forest, &nothing, &mut seen);
    let mut map = Map::new();
    for key in 1..37 {
        insert(&mut map, key, &mut forest, &watch, &mut seen);
    }
    let built = (forest.slots(), forest.free_slots());

    let mut is_right = loses_most(&mut map, &mut forest, &watch);
    clear(&mut map, &mut forest);
    is_right = removes(&mut watch, 7, &mut forest) && map.is_empty() && is_right;
    println!(rt;
        "refused {} right {} slots {} free {} then {} slots {} free {}",
        seen.refused,
        seen.is_right,
        built.0,
        built.1,
        is_right,
        forest.slots(),
        forest.free_slots()
    )
}
