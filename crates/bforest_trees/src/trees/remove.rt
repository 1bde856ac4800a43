//! Removing a key, for a caller that uses no path.
ghost use Rattle.bforest_trees.specs.Calls.{Removes};
ghost use Rattle.bforest_trees.specs.Forest.{list_at};
ghost use Rattle.bforest_core.specs.Trees.{slot};
ghost use Rattle.bforest_nodes.specs.Content.{IsLeaf};
ghost use Rattle.bforest_nodes.specs.Entries.{IsIncreasing};
ghost use Rattle.std.specs.Prelude.{Some, [], ◌≡◌, ◌≢◌};

use crate::trees::{Trees, packed};
use bforest_core::{Comparator, Node, PackedNode, Way};

impl<K: Copy, V: Copy, const N: usize> Trees<K, V, N> {
    // Removes a key from the tree under a root, and returns its value.
    pub(super) fn remove_under<C: Comparator<K>>(
        &mut self,
        root: Node,
        handle: &mut PackedNode,
        key: K,
        comp: &C,
    ) -> Option<V>
        requires root { handle.old ≡ Some root }
        requires live { list_at self.old root ≢ [] }
        requires increasing { IsIncreasing (C.order comp.now) (list_at self.old root) }
        ensures { Removes N (C.order comp.now) self.old (Some root) key result self.new handle.new }
    {
        if self.pool.node(root).is_inner() {
            self.remove_below(root, handle, key, comp)
        } else {
            self.remove_alone(root, handle, key, comp)
        }
    }

    // Removes a key from a tree of a height above 1, and returns its value.
    fn remove_below<C: Comparator<K>>(
        &mut self,
        root: Node,
        handle: &mut PackedNode,
        key: K,
        comp: &C,
    ) -> Option<V>
        requires root { handle.old ≡ Some root }
        requires live { list_at self.old root ≢ [] }
        requires increasing { IsIncreasing (C.order comp.now) (list_at self.old root) }
        ensures { Removes N (C.order comp.now) self.old (Some root) key result self.new handle.new }
    {
        let way = Way::find(key, root, &self.pool, comp);
        let taken = self.pool.take_from_leaf(way.leaf(), key, comp)?;
        *handle = packed(self.pool.heal_on(&way, taken.0, root));
        Some(taken.1)
    }

    // Removes a key from a tree of one leaf, and returns its value.
    fn remove_alone<C: Comparator<K>>(
        &mut self,
        root: Node,
        handle: &mut PackedNode,
        key: K,
        comp: &C,
    ) -> Option<V>
        requires root { handle.old ≡ Some root }
        requires live { list_at self.old root ≢ [] }
        requires leaf { IsLeaf (slot self.old.nodes root) }
        requires increasing { IsIncreasing (C.order comp.now) (list_at self.old root) }
        ensures { Removes N (C.order comp.now) self.old (Some root) key result self.new handle.new }
    {
        let taken = self.pool.take_from_leaf(root, key, comp)?;
        *handle = packed(self.pool.heal_alone(root));
        Some(taken.1)
    }
}
