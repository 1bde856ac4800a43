//! Orders of keys, and single nodes of B+-trees.
//!
//! A [`Comparator`] orders keys, which need no order of their own. A [`NodeData`] is an inner node, a leaf or a free slot, with its
//! entries inline; contracts see it as two lists (`specs/Content.antt`). A [`Source`] is a list of entries, of which a leaf can be made.
//! A [`Node`] is the number of a node in a table, which this crate does not know. Users name `bforest_core`, which has all of it.
#![tactic(auto)]

mod comparator;
mod entries;
mod half;
mod lent;
mod node;
mod number;
mod row;
mod set_value;
mod source;

pub use comparator::Comparator;
pub use node::{NodeData, Removed, SplitOff};
pub use number::{Node, PackedNode};
pub use set_value::SetValue;
pub use source::Source;
