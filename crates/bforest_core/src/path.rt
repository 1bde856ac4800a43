//! Paths from a leaf to the root of its tree.
ghost use Rattle.std.specs.Prelude.{◌≡◌, IsTrue, Some, None};
ghost use Rattle.bforest_nodes.specs.Content.{IsLeaf};
ghost use Rattle.bforest_core.specs.Table.{Table};
ghost use Rattle.bforest_core.specs.Trees.{IsUnion, is_root, slot};

mod cut;
mod detach;
mod find;
mod here;
mod insert;
mod rebalance;
mod remove;
mod step;
mod value;
mod way;

use bforest_nodes::Node;
use std::marker::PhantomData;
pub use way::Way;

/// The greatest height of a tree, and so of a path.
const MAX_LEVELS: usize = 17;

/// The fewest children of an inner node with a right neighbour: half of its capacity.
const MIN_CHILDREN: usize = 4;

/// The nodes from a leaf to the root, the leaf first, each with an index: of an entry in the leaf, and in an inner node of the child that
/// is the node below it. At the end of a list a path has no nodes.
#[derive(Drop)]
pub struct Path<K, V, const N: usize> {
    size: usize,
    node: [Node; MAX_LEVELS],
    entry: [u8; MAX_LEVELS],
    mark: PhantomData<(K, V)>,
}

impl<K: Copy, V: Copy, const N: usize> Path<K, V, N> {
    ghost use Rattle.bforest_core.specs.Paths.{IsAtEnd, StandsOn, index_of, leaf_of};

    /// Goes to the first entry of a tree of one leaf, its root.
    pub fn set_root_node(&mut self, root: Node)
        ensures leaf { leaf_of self.new ≡ root }
        ensures size { self.new.size ≡ 1 }
        ensures stands { (table : Table K V) → IsUnion N table → IsTrue (is_root table.nodes root)
            → IsLeaf (slot table.nodes root) → StandsOn table root self.new 0 }
    {
        self.size = 1;
        self.node[0] = root;
        self.entry[0] = 0;
    }

    /// The leaf of the path and its index there, or `None` at the end.
    pub fn leaf_pos(&self) -> Option<(Node, usize)>
        ensures end { IsAtEnd self.now → result ≡ None }
        ensures place { (¬ IsAtEnd self.now) → result ≡ Some (leaf_of self.now, index_of self.now) }
    {
        if self.size == 0 {
            None
        } else {
            Some((self.node[0], self.entry[0] as usize))
        }
    }
}

impl<K: Copy, V: Copy, const N: usize> Default for Path<K, V, N> {
    ghost use Rattle.bforest_core.specs.Paths.{IsAtEnd};

    fn default() -> Self
        ensures { IsAtEnd result }
    {
        Path {
            size: 0,
            node: [Node::new(0); MAX_LEVELS],
            entry: [0; MAX_LEVELS],
            mark: PhantomData,
        }
    }
}
