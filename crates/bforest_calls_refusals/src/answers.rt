//! What the answers of a run say of the keys that it inserted.

use crate::{BY_CALLS, LAST, LISTED, Seen};
use bforest::OutOfMemory;
use bforest_calls::{Answer, Seen as Sight};
use std::alloc::AllocError;

/// Keys in order: how many, and a hash of them.
#[derive(Clone, Copy, PartialEq, Eq)]
pub(crate) struct Inserted {
    count: u32,
    digest: u32,
}

impl Inserted {
    pub(crate) fn none() -> Inserted {
        Inserted {
            count: 0,
            digest: 1,
        }
    }

    /// One key more.
    pub(crate) fn add(&mut self, key: u32) {
        self.count = self.count.saturating_add(1);
        self.digest = self.digest.wrapping_mul(31).wrapping_add(key);
    }

    // The keys from 1 on, as many as these.
    fn first(self) -> Inserted {
        let mut first = Inserted::none();
        for at in 0..self.count {
            first.add(at.saturating_add(1));
        }
        first
    }
}

/// Checks a run's answers against the keys that are left.
///
/// # Errors
///
/// The run's own: then the first keys are left, up to a call that lists all.
pub(crate) fn check<V: Copy>(
    run: Result<Vec<Answer<u32, V>>, AllocError>,
    left: Inserted,
    seen: &mut Seen,
) -> Result<(), AllocError> {
    match run {
        Ok(answers) => {
            let told = told(&answers, seen);
            seen.is_right = seen.is_right && told == left;
            Ok(())
        }
        Err(error) => {
            let is_at_list = left.count == LAST
                || left.count <= BY_CALLS && left.count % LISTED == 0;
            seen.is_right = seen.is_right && is_at_list && left == left.first();
            Err(error)
        }
    }
}

// The keys that were inserted, as the answers say. Each list among them is checked against what was inserted before it.
fn told<V: Copy>(answers: &[Answer<u32, V>], seen: &mut Seen) -> Inserted {
    let mut told = Inserted::none();
    let mut key = 0;
    for answer in answers {
        match answer {
            Answer::Put(put) => tell(put, &mut key, &mut told, seen),
            Answer::Script(sights) => {
                for sight in sights {
                    match sight {
                        Sight::Put(put) => tell(put, &mut key, &mut told, seen),
                        _ => seen.is_right = false,
                    }
                }
            }
            Answer::Pairs(pairs) => {
                let mut listed = Inserted::none();
                for pair in pairs {
                    listed.add(pair.0);
                }
                seen.is_right = seen.is_right && listed == told;
            }
            _ => seen.is_right = false,
        }
    }
    seen.is_right = seen.is_right && key == LAST;
    told
}

// What an insertion of the key behind `key` answered.
fn tell<V: Copy>(
    put: &Result<Option<V>, OutOfMemory>,
    key: &mut u32,
    told: &mut Inserted,
    seen: &mut Seen,
) {
    *key = key.saturating_add(1);
    match put {
        Ok(None) => told.add(*key),
        Err(OutOfMemory::Memory) => seen.refused = seen.refused.saturating_add(1),
        _ => seen.is_right = false,
    }
}
