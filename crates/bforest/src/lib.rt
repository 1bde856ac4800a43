//! Forests of ordered maps and sets: many small ones in one table of nodes, each named by a handle, in an order that is handed to each
//! call.
//!
//! A [`MapForest`] owns all entries of its maps. A [`Map`] is a handle: nothing, or the number of its tree's root. A [`Comparator`]
//! orders the keys, which need no order of their own. A contract sees a forest as the list of entries under each number
//! (`specs/Forest.antt`); docs/MODEL.md reads these definitions aloud.
#![tactic(auto)]

mod asked_key;
mod entry;
mod forest;
mod map;
mod map_cursor;
mod map_cursor_mut;
mod map_forest;
mod map_into_iter;
mod map_iter;
mod map_iter_back;
mod map_range;
mod room;
mod set;
mod set_algebra;
mod set_cursor;
mod set_forest;
mod set_iter;
mod set_iter_back;
mod set_merge;
mod set_range;

pub use bforest_core::{Comparator, OutOfMemory};
pub use forest::Forest;
pub use map::Map;
pub use map_cursor::MapCursor;
pub use map_cursor_mut::MapCursorMut;
pub use map_forest::{MAP_LEAF, MapForest};
pub use map_into_iter::MapIntoIter;
pub use map_iter::MapIter;
pub use map_iter_back::MapIterBack;
pub use map_range::MapRange;
pub use set::Set;
pub use set_algebra::{SetDifference, SetIntersection, SetSymmetricDifference, SetUnion};
pub use set_cursor::SetCursor;
pub use set_forest::{SET_LEAF, SetForest};
pub use set_iter::SetIter;
pub use set_iter_back::SetIterBack;
pub use set_range::SetRange;
