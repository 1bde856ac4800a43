//! Reading one entry of a list without a path: the first, the last, and the first from a key on.
ghost use Rattle.bforest_trees.specs.Bounds.{entry_at_least};
ghost use Rattle.bforest_trees.specs.Forest.{IsLive, list_of};
ghost use Rattle.bforest_nodes.specs.Entries.{IsIncreasing};
ghost use Rattle.std.specs.Prelude.{length, slice_get, ◌-◌, ◌≡◌};

use crate::look::Look;
use crate::trees::Trees;
use bforest_core::{Comparator, PackedNode};

impl<K: Copy, V: Copy, const N: usize> Trees<K, V, N> {
    /// The first entry. Reads one node of each level.
    pub fn first_entry(&self, handle: PackedNode) -> Option<(K, V)>
        requires live { IsLive self.now handle }
        ensures entry { result ≡ slice_get (list_of self.now handle) 0 }
    {
        match handle.expand() {
            Some(root) => Some(self.pool.first_entry(root)),
            None => None,
        }
    }

    /// The last entry. Reads one node of each level.
    pub fn last_entry(&self, handle: PackedNode) -> Option<(K, V)>
        requires live { IsLive self.now handle }
        ensures entry { result ≡ slice_get (list_of self.now handle) (length (list_of self.now handle) - 1) }
    {
        match handle.expand() {
            Some(root) => Some(self.pool.last_entry(root)),
            None => None,
        }
    }

    /// The first entry whose key is not less than `key`, by one search and at most one step to the next leaf.
    pub fn get_or_greater<C: Comparator<K>>(
        &self,
        handle: PackedNode,
        key: K,
        comp: &C,
    ) -> Option<(K, V)>
        requires live { IsLive self.now handle }
        requires increasing { IsIncreasing (C.order comp.now) (list_of self.now handle) }
        ensures entry { result ≡ entry_at_least (C.order comp.now) (list_of self.now handle) key }
    {
        let mut look = Look::end();
        look.goto(handle, self, key, comp);
        look.entry()
    }
}
