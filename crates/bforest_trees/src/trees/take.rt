//! Removing the entry where a path stands, which may be the end.
ghost use Rattle.bforest_trees.specs.Calls.{RemovesAt};
ghost use Rattle.bforest_trees.specs.Forest.{IsLive, list_of};
ghost use Rattle.bforest_trees.specs.Place.{AtSpot, IsComputed, IsSpot};
ghost use Rattle.std.specs.Prelude.{slice_get, ◌≡◌};

use crate::trees::Trees;
use bforest_core::{PackedNode, Path};

impl<K: Copy, V: Copy, const N: usize> Trees<K, V, N> {
    /// Removes the entry where a path stands, and returns it. The path goes to the next entry, or to the end. At the end the call returns
    /// `None`, and nothing changes.
    pub fn take(&mut self, handle: &mut PackedNode, path: &mut Path<K, V, N>) -> Option<(K, V)>
        requires live { IsLive self.old handle.old }
        requires stands { AtSpot self.old handle.old path.old }
        ensures value { (at : AtSpot self.old handle.old path.old)
            → result ≡ slice_get (list_of self.old handle.old) at.place }
        ensures removed { (at : AtSpot self.old handle.old path.old)
            → RemovesAt N self.old handle.old at.place self.new handle.new }
        ensures spot { (at : AtSpot self.old handle.old path.old)
            → IsSpot self.new handle.new path.new at.place }
        ensures computed { IsComputed N self.new handle.new }
    {
        let entry = self.entry(*handle, path)?;
        self.remove_at(handle, path);
        Some(entry)
    }
}
