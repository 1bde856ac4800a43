//! Why a load failed.
use bforest::OutOfMemory;

/// Why a map or a set was not loaded. The call that returns it has changed nothing.
#[derive(Clone, Copy, Debug, PartialEq, Eq)]
pub enum LoadError {
    /// The key at this index is the first that is not less than the next one.
    Unordered(usize),
    /// Too few nodes are available.
    Refused(OutOfMemory),
}
