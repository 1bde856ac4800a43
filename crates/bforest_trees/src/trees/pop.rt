//! Taking the first entry or the last out of a list.
ghost use Rattle.bforest_trees.specs.Calls.{Pops};
ghost use Rattle.bforest_trees.specs.Forest.{IsLive, list_of};
ghost use Rattle.std.specs.Prelude.{length, ◌-◌};

use crate::trees::{Trees, packed};
use bforest_core::PackedNode;

impl<K: Copy, V: Copy, const N: usize> Trees<K, V, N> {
    /// Removes the first entry, and returns it. In an empty list there is none, and nothing changes.
    pub fn pop_first(&mut self, handle: &mut PackedNode) -> Option<(K, V)>
        requires live { IsLive self.old handle.old }
        ensures { Pops N self.old handle.old 0 result self.new handle.new }
    {
        let root = handle.expand()?;
        let (entry, left) = self.pool.take_first(root);
        *handle = packed(left);
        Some(entry)
    }

    /// Removes the last entry, and returns it. In an empty list there is none, and nothing changes.
    pub fn pop_last(&mut self, handle: &mut PackedNode) -> Option<(K, V)>
        requires live { IsLive self.old handle.old }
        ensures { Pops N self.old handle.old (length (list_of self.old handle.old) - 1) result
            self.new handle.new }
    {
        let root = handle.expand()?;
        let (last, left) = self.pool.take_last(root);
        *handle = packed(left);
        Some(last)
    }
}
