//! A tree of one of the capacities that lines can name. Callers need no capacity as a parameter.

use crate::plain::Plain;
use crate::tree::{Detail, Tree};
use bforest_core::OutOfMemory;
use std::alloc::{AllocError, Global};

/// A tree whose leaves hold at most 3, 7, 15 or 255 entries.
#[derive(Drop)]
pub(crate) enum AnyTree {
    Least(Tree<3>),
    Map(Tree<7>),
    Set(Tree<15>),
    Greatest(Tree<255>),
}

// The result of a call on the tree, whichever its capacity.
macro_rules! each {
    ($any:expr, $tree:ident => $call:expr) => {
        match $any {
            AnyTree::Least($tree) => $call,
            AnyTree::Map($tree) => $call,
            AnyTree::Set($tree) => $call,
            AnyTree::Greatest($tree) => $call,
        }
    };
}

impl AnyTree {
    /// An empty tree, in a pool of at most `limit` slots, or `None` where there is no such capacity.
    pub(crate) fn new(alloc: Global, capacity: u32, limit: u32) -> Option<Self> {
        Some(match capacity {
            3 => AnyTree::Least(Tree::new(alloc, limit)),
            7 => AnyTree::Map(Tree::new(alloc, limit)),
            15 => AnyTree::Set(Tree::new(alloc, limit)),
            255 => AnyTree::Greatest(Tree::new(alloc, limit)),
            _ => return None,
        })
    }

    /// Inserts an entry, or replaces the value where the key is present.
    pub(crate) fn insert(&mut self, key: u32, value: u32) -> Result<(), OutOfMemory> {
        each!(self, tree => tree.insert(key, value))
    }

    /// Removes a key. Returns its value, and the entry where the path stands then.
    pub(crate) fn remove(&mut self, key: u32) -> (Option<u32>, Option<(u32, u32)>) {
        each!(self, tree => tree.remove(key))
    }

    /// Removes the tree.
    pub(crate) fn end(&mut self) {
        each!(self, tree => tree.end())
    }

    /// Adds one to the value of a key, and returns whether the key is present.
    pub(crate) fn count(&mut self, key: u32) -> bool {
        each!(self, tree => tree.count(key))
    }

    /// The value of a key.
    pub(crate) fn get(&self, key: u32) -> Option<u32> {
        each!(self, tree => tree.get(key))
    }

    /// The number of the leaf where a search for a key ends, and its place there.
    pub(crate) fn position(&self, key: u32) -> Option<(u32, usize)> {
        each!(self, tree => tree.position(key))
    }

    /// Whether a search for `key`, started at the first entry not less than `from`, ends where a search from the root does.
    pub(crate) fn finds_from(&self, from: u32, key: u32) -> bool {
        each!(self, tree => tree.finds_from(from, key))
    }

    /// Whether a root has this number.
    pub(crate) fn is_root(&self, number: u32) -> bool {
        each!(self, tree => tree.is_root(number))
    }

    /// The first entry whose key is not less than `key`.
    pub(crate) fn entry_from(&self, key: u32) -> Option<(u32, u32)> {
        each!(self, tree => tree.entry_from(key))
    }

    /// The entry behind that of a key, if the key is present.
    pub(crate) fn entry_after(&self, key: u32) -> Option<(u32, u32)> {
        each!(self, tree => tree.entry_after(key))
    }

    /// The entry in front of that of a key, if the key is present.
    pub(crate) fn entry_before(&self, key: u32) -> Option<(u32, u32)> {
        each!(self, tree => tree.entry_before(key))
    }

    /// The root's number.
    pub(crate) fn root(&self) -> Option<u32> {
        each!(self, tree => tree.root())
    }

    /// The height of the tree, and the numbers of slots of the pool and of its free slots.
    pub(crate) fn sizes(&self) -> (usize, u32, u32) {
        each!(self, tree => (tree.levels(), tree.slots(), tree.free()))
    }

    /// The number of nodes that an insertion takes, if the key is absent.
    pub(crate) fn need(&self, key: u32) -> Option<u32> {
        each!(self, tree => tree.need(key))
    }

    /// Writes the keys of the nodes, level by level, the root first: `40 / 10 20 30 | 40 50 60 70`.
    pub(crate) fn show(&self, alloc: Global, out: &mut String) -> Result<(), AllocError> {
        each!(self, tree => tree.show(alloc, Detail::Keys, out))
    }

    /// Writes the number and the keys of each node, and then the free nodes: `#2 40 / #0 10 20 30 | #1 40 50 60 70 / free #3`.
    pub(crate) fn draw(&self, alloc: Global, out: &mut String) -> Result<(), AllocError> {
        each!(self, tree => tree.show(alloc, Detail::Nodes, out)?);
        each!(self, tree => tree.show_free(out))
    }

    /// Whether the tree has these entries: from both ends, and by key.
    pub(crate) fn has_entries(&self, list: &[(u32, u32)]) -> bool {
        each!(self, tree => tree.gives(list) && tree.gives_back(list) && tree.finds(list))
    }

    /// Whether the nodes have the sizes of the plain program's nodes, level by level.
    pub(crate) fn has_sizes(&self, alloc: Global, plain: &Plain) -> Result<bool, AllocError> {
        each!(self, tree => tree.has_sizes(alloc, plain))
    }
}
