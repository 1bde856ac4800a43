//! The words of a line.

use std::alloc::{AllocError, Global};

/// Why a line has no answer.
#[derive(Clone, Copy, Debug)]
pub(crate) enum Stop {
    /// The line spells no operation, or one whose conditions do not hold.
    Bad,
    /// Memory ran out.
    Memory,
    /// The tree and the plain program differ, as written.
    Differs,
}

impl From<AllocError> for Stop {
    fn from(_error: AllocError) -> Stop {
        Stop::Memory
    }
}

/// A number.
pub(crate) fn number(word: &str) -> Result<u32, Stop> {
    word.parse().map_err(|_| Stop::Bad)
}

/// The keys that words name, in order: `5`; `1..36` and `36..1`; or `0..400x37`, which goes in steps of 37, wraps around at the other end,
/// and has as many steps as there are keys.
pub(crate) fn keys(alloc: Global, words: &[&str]) -> Result<Vec<u32>, Stop> {
    let mut keys = Vec::new(alloc);
    for word in words {
        push_keys(&mut keys, word)?;
    }
    Ok(keys)
}

// Adds the keys that a word names.
fn push_keys(keys: &mut Vec<u32>, word: &str) -> Result<(), Stop> {
    let (first, rest) = word.split_once("..").unwrap_or((word, word));
    let (last, step) = rest.split_once("x").unwrap_or((rest, "1"));
    let (first, last, step) = (number(first)?, number(last)?, number(step)?);
    let count = first.abs_diff(last).saturating_add(1);
    for index in 0..count {
        let away = index.wrapping_mul(step).checked_rem(count).unwrap_or(0);
        let key = if first <= last {
            first.wrapping_add(away)
        } else {
            first.wrapping_sub(away)
        };
        keys.push(key).map_err(AllocError::from)?;
    }
    Ok(())
}
