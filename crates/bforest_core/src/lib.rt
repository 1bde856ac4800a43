//! The layer under a forest of ordered maps and sets: orders of keys, and a table of numbered nodes.
//!
//! A [`Comparator`] orders keys, which need no order of their own. A [`NodeData`] is a node of a B+-tree or a free slot, a [`NodePool`] a table
//! of them whose free slots form a chain. Contracts see a node as two lists and a pool as the contents of its slots, its chain and its
//! limit (`specs/Content.antt`, `specs/Table.antt`). A [`Path`] goes from a leaf of a tree to its root; a tree is seen as its levels, each a
//! row of nodes (`specs/Levels.antt`). docs/MODEL.md reads these definitions aloud.
#![tactic(auto)]

mod access;
mod build;
mod copy;
mod count;
mod leaf;
mod leaf_source;
mod path;
mod pool;
mod spot;
mod trees;
mod value;

pub use bforest_nodes::{
    Comparator, Node, NodeData, PackedNode, Removed, SetValue, Source, SplitOff,
};
pub use leaf_source::{InOrder, LeafSource};
pub use path::{Path, Way};
pub use pool::{NodePool, OutOfMemory};
pub use spot::Spot;
