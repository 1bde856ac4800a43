//! Calls that request no memory: readings, removals, and insertions while nodes lie free. `tools/refuse_each` refuses each request that is made
//! while these run, and counts them. The trees hold the keys 1 to `LAST`, and a map's values are its keys.

pub(crate) mod maps;
pub(crate) mod sets;
mod whole_maps;
mod whole_sets;

/// The last key that is inserted.
const LAST: u32 = 30;

/// A key in the middle.
const MIDDLE: u32 = 15;
