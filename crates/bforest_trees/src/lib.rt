//! The trees of a forest: one table of nodes, in which a handle names a tree by its root's number.
//!
//! [`Trees`] states each call on one tree once, for maps and sets, at a handle and a path. What a contract sees is the list of entries under
//! each number (`specs/Forest.antt`); docs/MODEL.md reads these definitions aloud.
#![tactic(auto)]

mod keep;
mod look;
mod merge;
mod order;
mod predicate;
mod reader;
mod retain;
mod shift;
mod source;
mod trees;

pub use bforest_core::{Comparator, Node, NodePool, OutOfMemory, PackedNode, Path, Source};
pub use look::Look;
pub use order::first_unordered;
pub use predicate::{Asked, Predicate};
pub use reader::Reader;
pub use trees::{Ends, Trees, fewest_nodes};
