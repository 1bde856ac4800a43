//! Keeping the entries of a tree by whether their keys are in another one.
ghost use Rattle.bforest_trees.specs.Calls.{Clears, KeepsFrom};
ghost use Rattle.bforest_trees.specs.Forest.{IsLive};
ghost use Rattle.bforest_trees.specs.Union.{AreSearchable};
ghost use Rattle.std.specs.Prelude.{false, not, true, ◌≡◌};

use crate::keep::keep;
use crate::trees::{Trees, packed};
use bforest_core::{Comparator, PackedNode};

impl<K: Copy, V: Copy, const N: usize> Trees<K, V, N> {
    /// Keeps the entries of a tree whose keys are in another one, or those whose keys are not, as `present` says. Returns whether an entry
    /// was removed. The two may be one tree.
    pub fn keep<C: Comparator<K>>(
        &mut self,
        handle: &mut PackedNode,
        other: PackedNode,
        present: bool,
        comp: &C,
    ) -> bool
        requires { AreSearchable (C.order comp.now) self.old handle.old other }
        ensures { KeepsFrom N (C.order comp.now) present self.old handle.old other result
            self.new handle.new }
    {
        let Some(root) = handle.expand() else {
            return false;
        };
        let Some(theirs) = other.expand() else {
            return self.free_unless(handle, !present);
        };
        if root == theirs {
            return self.free_unless(handle, present);
        }
        let (left, changed) = keep(&mut self.pool, handle, root, theirs, present, comp);
        *handle = packed(left);
        changed
    }

    // Removes a tree unless it stays, and returns whether it did.
    fn free_unless(&mut self, handle: &mut PackedNode, stays: bool) -> bool
        requires live { IsLive self.old handle.old }
        ensures told { result ≡ not stays }
        ensures stays { stays ≡ true → self.new ≡ self.old }
        ensures same { stays ≡ true → handle.new ≡ handle.old }
        ensures cleared { stays ≡ false → Clears self.old handle.old self.new handle.new }
    {
        if stays {
            return false;
        }
        self.free_tree(handle);
        true
    }
}
