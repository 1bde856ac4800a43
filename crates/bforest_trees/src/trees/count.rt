//! Counting the entries of a list.
ghost use Rattle.bforest_trees.specs.Forest.{IsLive, list_of};
ghost use Rattle.std.specs.Prelude.{length, ◌≡◌};

use crate::trees::Trees;
use bforest_core::PackedNode;

impl<K: Copy, V: Copy, const N: usize> Trees<K, V, N> {
    /// The number of entries. Each leaf tells how many it has; no entry is read.
    pub fn len(&self, handle: PackedNode) -> usize
        requires live { IsLive self.now handle }
        ensures count { result ≡ length (list_of self.now handle) }
    {
        match handle.expand() {
            Some(root) => self.pool.tree_entries(root),
            None => 0,
        }
    }
}
