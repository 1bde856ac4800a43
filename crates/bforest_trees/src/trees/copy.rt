//! Copying a tree.
ghost use Rattle.bforest_trees.specs.Calls.{Clones};
ghost use Rattle.bforest_trees.specs.Forest.{IsLive};

use crate::trees::Trees;
use bforest_core::{OutOfMemory, PackedNode};

impl<K: Copy, V: Copy, const N: usize> Trees<K, V, N> {
    /// Makes a second tree of the same list, in nodes of the same sizes, and returns its handle. An empty handle gives an empty one.
    pub fn copy_tree(&mut self, handle: PackedNode) -> Result<PackedNode, OutOfMemory>
        requires live { IsLive self.old handle }
        ensures { Clones self.old handle result self.new }
    {
        match handle.expand() {
            Some(root) => {
                let copy = self.pool.copy_tree(root)?;
                Ok(PackedNode::some(copy))
            }
            None => Ok(PackedNode::none()),
        }
    }
}
