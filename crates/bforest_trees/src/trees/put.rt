//! Inserting a value at a key, for a caller that uses no path.
ghost use Rattle.bforest_trees.specs.Calls.{Inserts};
ghost use Rattle.bforest_trees.specs.Forest.{IsLive, list_at, list_of};
ghost use Rattle.bforest_core.specs.Paths.{IsPlaced, leaf_of, list_under};
ghost use Rattle.bforest_core.specs.Table.{IsFullAt};
ghost use Rattle.bforest_core.specs.Trees.{IsUnion, slot};
ghost use Rattle.bforest_nodes.specs.Content.{IsInner, IsLeaf};
ghost use Rattle.bforest_nodes.specs.Entries.{IsIncreasing, place, value_for};
ghost use Rattle.std.specs.Cmp.{IsTotalOrder};
ghost use Rattle.std.specs.declared.cmp.Ordering.{Ordering};
ghost use Rattle.std.specs.Prelude.{None, Some, [], ◌≡◌, ◌≢◌, ℕ};

use crate::trees::Trees;
use bforest_core::{Comparator, Node, OutOfMemory, PackedNode, Path, Way};

impl<K: Copy, V: Copy, const N: usize> Trees<K, V, N> {
    /// Inserts a value at a key as `insert` does, for a caller that uses no path. A leaf is searched and written in one call, and a tree of
    /// one leaf with room takes no path at all.
    pub fn put<C: Comparator<K>>(
        &mut self,
        handle: &mut PackedNode,
        key: K,
        value: V,
        comp: &C,
    ) -> Result<Option<V>, OutOfMemory>
        requires live { IsLive self.old handle.old }
        requires increasing { IsIncreasing (C.order comp.now) (list_of self.old handle.old) }
        ensures { Inserts N (C.order comp.now) self.old handle.old key value result self.new handle.new }
    {
        match handle.expand() {
            Some(root) => self.put_under(root, handle, key, value, comp),
            None => self.put_first(handle, key, value),
        }
    }

    // Inserts the first entry of an empty tree.
    pub(super) fn put_first(
        &mut self,
        handle: &mut PackedNode,
        key: K,
        value: V,
    ) -> Result<Option<V>, OutOfMemory>
        requires empty { handle.old ≡ None }
        ensures { (order : K → K → Ordering) → IsTotalOrder order
            → Inserts N order self.old None key value result self.new handle.new }
    {
        let root = self.pool.alloc_node(key, value)?;
        *handle = PackedNode::some(root);
        Ok(None)
    }

    // Inserts a value at a key in the tree under a root.
    fn put_under<C: Comparator<K>>(
        &mut self,
        root: Node,
        handle: &mut PackedNode,
        key: K,
        value: V,
        comp: &C,
    ) -> Result<Option<V>, OutOfMemory>
        requires root { handle.old ≡ Some root }
        requires live { list_at self.old root ≢ [] }
        requires increasing { IsIncreasing (C.order comp.now) (list_at self.old root) }
        ensures { Inserts N (C.order comp.now) self.old (Some root) key value result
            self.new handle.new }
    {
        if self.pool.node(root).is_inner() {
            self.put_below(root, handle, key, value, comp)
        } else {
            self.put_alone(root, handle, key, value, comp)
        }
    }

    // Inserts a value at a key in a tree of a height above 1.
    fn put_below<C: Comparator<K>>(
        &mut self,
        root: Node,
        handle: &mut PackedNode,
        key: K,
        value: V,
        comp: &C,
    ) -> Result<Option<V>, OutOfMemory>
        requires root { handle.old ≡ Some root }
        requires live { list_at self.old root ≢ [] }
        requires increasing { IsIncreasing (C.order comp.now) (list_at self.old root) }
        ensures { Inserts N (C.order comp.now) self.old (Some root) key value result
            self.new handle.new }
    {
        let way = Way::find(key, root, &self.pool, comp);
        match self.pool.put_in_leaf(way.leaf(), key, value, comp) {
            Ok(old) => Ok(old),
            Err(index) => {
                let root = self.pool.put_on(&way, index, root, key, value)?;
                *handle = PackedNode::some(root);
                Ok(None)
            }
        }
    }

    // Inserts a value at a key in a tree of one leaf.
    fn put_alone<C: Comparator<K>>(
        &mut self,
        root: Node,
        handle: &mut PackedNode,
        key: K,
        value: V,
        comp: &C,
    ) -> Result<Option<V>, OutOfMemory>
        requires root { handle.old ≡ Some root }
        requires live { list_at self.old root ≢ [] }
        requires leaf { IsLeaf (slot self.old.nodes root) }
        requires increasing { IsIncreasing (C.order comp.now) (list_at self.old root) }
        ensures { Inserts N (C.order comp.now) self.old (Some root) key value result
            self.new handle.new }
    {
        match self.pool.put_in_leaf(root, key, value, comp) {
            Ok(old) => Ok(old),
            Err(index) => {
                let mut path = Path::default();
                path.set_root_node(root);
                path.set_index(index);
                self.put_at(handle, &mut path, key, value)
            }
        }
    }

    // Inserts an absent key where the path is placed for it, in a full leaf.
    fn put_at(
        &mut self,
        handle: &mut PackedNode,
        path: &mut Path<K, V, N>,
        key: K,
        value: V,
    ) -> Result<Option<V>, OutOfMemory>
        requires placed { (root at : ℕ) × (handle.old ≡ Some root) × IsPlaced self.old root path.old at }
        requires full { IsFullAt N self.old.nodes (leaf_of path.old) }
        ensures { (root : ℕ) (order : K → K → Ordering) → handle.old ≡ Some root
            → list_at self.old root ≢ [] → IsTotalOrder order → IsIncreasing order (list_at self.old root)
            → value_for order (list_under self.old root) key ≡ None
            → IsPlaced self.old root path.old (place order (list_under self.old root) key)
            → Inserts N order self.old (Some root) key value result self.new handle.new }
    {
        let root = path.insert_full(key, value, &mut self.pool)?;
        *handle = PackedNode::some(root);
        Ok(None)
    }
}
