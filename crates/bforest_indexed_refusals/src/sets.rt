//! Insertions and removals in sets.
use crate::Seen;
use crate::random::Random;
use bforest_indexed::Sets;

/// How many sets there are.
const SETS: usize = 20;
/// How many keys each may have: a tree of 8 nodes.
const KEYS: usize = 33;

/// How many calls mostly insert, and then mostly remove.
const STRETCH: u32 = 10_000;

/// Takes the room for all sets, and repeats what failed.
pub(crate) fn reserve(sets: &mut Sets<u32, ()>, seen: &mut Seen) {
    if sets.reserve_for(SETS, KEYS).is_err() {
        seen.refuse(sets.slots() == 0 && sets.is_empty());
        seen.note(sets.reserve_for(SETS, KEYS).is_ok());
    }
    if sets.grow_to(SETS).is_err() {
        seen.note(false);
    }
}

/// Makes calls in random sets, in stretches that mostly insert and stretches that mostly remove.
pub(crate) fn change(sets: &mut Sets<u32, ()>, calls: u32, seen: &mut Seen) {
    let mut random = Random::new(2);
    for call in 0..calls {
        let index = random.below(SETS as u32) as usize;
        let key = random.below(KEYS as u32);
        let inserts = (random.below(4) > 0) == (call / STRETCH % 2 == 0);
        if index < sets.len() {
            if inserts {
                seen.note(sets.insert(index, key).is_ok());
            } else {
                sets.remove(index, key);
            }
        }
    }
}
