//! Many maps or sets in one forest under one order, each named by an index.
//!
//! [`Maps`] and [`Sets`] hold the forest, the order and all handles, so no handle is copied, and each tree is only ever used under the one
//! order. A call requires an index that is there, and `retain` a closure that may be called.
#![tactic(auto)]

mod edit;
mod handles;
mod idx;
mod load_error;
mod maps;
mod room;
mod sets;

pub use bforest::{Comparator, OutOfMemory};
pub use edit::Edit;
pub use idx::Idx;
pub use load_error::LoadError;
pub use maps::Maps;
pub use sets::Sets;
