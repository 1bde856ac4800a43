//! Steps of a path in the list of a handle.
ghost use Rattle.bforest_trees.specs.Forest.{IsLive, list_of};
ghost use Rattle.bforest_trees.specs.Layout.{IsOnOrEnds, entries_from};
ghost use Rattle.bforest_trees.specs.Place.{AtSpot, IsComputed, IsSpot};
ghost use Rattle.bforest_core.specs.Place.{entry_before};
ghost use Rattle.std.specs.Iterator.{YieldsFirst};
ghost use Rattle.std.specs.Prelude.{length, min, slice_get, ◌+◌, ◌-◌, ◌≡◌};

use crate::trees::Trees;
use bforest_core::{PackedNode, Path};

impl<K: Copy, V: Copy, const N: usize> Trees<K, V, N> {
    /// Goes to the first entry and returns it. In an empty list that is the end.
    pub fn first(&self, handle: PackedNode, path: &mut Path<K, V, N>) -> Option<(K, V)>
        requires live { IsLive self.now handle }
        requires stands { AtSpot self.now handle path.old }
        ensures value { result ≡ slice_get (list_of self.now handle) 0 }
        ensures spot { IsSpot self.now handle path.new 0 }
        ensures computed { IsComputed N self.now handle }
    {
        let root = handle.expand()?;
        Some(path.first(root, &self.pool))
    }

    /// Goes to the next entry and returns it. From the last entry the path goes to the end, where the call returns `None` from then on.
    pub fn next(&self, handle: PackedNode, path: &mut Path<K, V, N>) -> Option<(K, V)>
        requires live { IsLive self.now handle }
        requires stands { AtSpot self.now handle path.old }
        ensures value { (at : AtSpot self.now handle path.old)
            → result ≡ slice_get (list_of self.now handle) (at.place + 1) }
        ensures spot { (at : AtSpot self.now handle path.old)
            → IsSpot self.now handle path.new (min (at.place + 1) (length (list_of self.now handle))) }
        ensures computed { IsComputed N self.now handle }
    {
        path.next(&self.pool)
    }

    /// Goes to the previous entry and returns it; from the end the path goes to the last entry. At the first entry it stays, and the call
    /// returns `None`.
    pub fn prev(&self, handle: PackedNode, path: &mut Path<K, V, N>) -> Option<(K, V)>
        requires live { IsLive self.now handle }
        requires stands { AtSpot self.now handle path.old }
        ensures value { (at : AtSpot self.now handle path.old)
            → result ≡ entry_before (list_of self.now handle) at.place }
        ensures spot { (at : AtSpot self.now handle path.old)
            → IsSpot self.now handle path.new (at.place - 1) }
        ensures computed { IsComputed N self.now handle }
    {
        let root = handle.expand()?;
        path.prev(root, &self.pool)
    }

    /// The entry where a path stands, or `None` at the end.
    pub fn entry(&self, handle: PackedNode, path: &Path<K, V, N>) -> Option<(K, V)>
        requires live { IsLive self.now handle }
        requires stands { AtSpot self.now handle path.now }
        ensures value { (at : AtSpot self.now handle path.now)
            → result ≡ slice_get (list_of self.now handle) at.place }
        ensures computed { IsComputed N self.now handle }
    {
        path.entry(&self.pool)
    }

    /// A path to the first entry, or to the end where there is none.
    pub fn path_to_first(&self, handle: PackedNode) -> Path<K, V, N>
        requires live { IsLive self.now handle }
        ensures on { IsOnOrEnds self.now result }
        ensures entries { entries_from self.now result ≡ list_of self.now handle }
    {
        let mut path = Path::default();
        if let Some(root) = handle.expand() {
            path.first(root, &self.pool);
        }
        path
    }

    /// Removes the first of the entries from a path on, and returns it.
    pub fn take_next(&self, path: &mut Path<K, V, N>) -> Option<(K, V)>
        requires on { IsOnOrEnds self.now path.old }
        ensures steps { YieldsFirst (entries_from self.now) path.old result path.new }
        ensures on { IsOnOrEnds self.now path.new }
    {
        let entry = path.entry(&self.pool);
        path.next(&self.pool);
        entry
    }
}
