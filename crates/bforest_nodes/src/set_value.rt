//! The value of a set's entry.

/// The value of a set's entry: nothing.
pub type SetValue = ();
