//! Insertions and removals in maps.
use crate::Seen;
use crate::random::Random;
use bforest_indexed::Maps;

/// How many maps there are.
const MAPS: usize = 40;
/// How many entries each may have: a tree of 5 nodes.
const ENTRIES: usize = 16;

/// How many calls mostly insert, and then mostly remove.
const STRETCH: u32 = 10_000;

/// Takes the room for all maps, and repeats what failed.
pub(crate) fn reserve(maps: &mut Maps<u32, u32, ()>, seen: &mut Seen) {
    if maps.reserve_for(MAPS, ENTRIES).is_err() {
        seen.refuse(maps.slots() == 0 && maps.is_empty());
        seen.note(maps.reserve_for(MAPS, ENTRIES).is_ok());
    }
    if maps.grow_to(MAPS).is_err() {
        seen.note(false);
    }
}

/// Makes calls in random maps, in stretches that mostly insert and stretches that mostly remove.
pub(crate) fn change(maps: &mut Maps<u32, u32, ()>, calls: u32, seen: &mut Seen) {
    let mut random = Random::new(1);
    for call in 0..calls {
        let index = random.below(MAPS as u32) as usize;
        let key = random.below(ENTRIES as u32);
        let inserts = (random.below(4) > 0) == (call / STRETCH % 2 == 0);
        if index < maps.len() {
            if inserts {
                seen.note(maps.insert(index, key, call).is_ok());
            } else {
                maps.remove(index, key);
            }
        }
    }
}
