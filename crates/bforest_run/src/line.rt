//! What lines ask for.
use bforest_calls::Call;

/// What a line asks for.
#[derive(Drop)]
pub(crate) enum Line<V: Copy> {
    /// To make this call.
    Made(Call<u32, V>),
    /// Whether a handle is empty or names a tree.
    Holds(usize),
    /// The height of a tree, and the counts of the table.
    Stat(usize),
}

/// The first word of a line.
#[derive(Clone, Copy, Debug, PartialEq, Eq)]
pub(crate) enum Verb {
    Get,
    Less,
    Insert,
    Remove,
    Clear,
    Iter,
    Range,
    Read,
    Edit,
    Retain,
    Alias,
    Wipe,
    Holds,
    Stat,
}
