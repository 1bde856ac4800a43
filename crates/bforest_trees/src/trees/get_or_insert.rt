//! The value of a key, as it is or changed, which is inserted where there is none.
ghost use Rattle.bforest_trees.specs.Calls.{GetsOrInserts, Inserts, UpdatesOrInserts, as_inserted};
ghost use Rattle.bforest_trees.specs.Forest.{IsLive, list_at, list_of};
ghost use Rattle.bforest_trees.specs.Place.{IsAbsentOn};
ghost use Rattle.bforest_nodes.specs.Entries.{IsIncreasing, value_for};
ghost use Rattle.std.specs.Cmp.{IsTotalOrder};
ghost use Rattle.std.specs.declared.cmp.Ordering.{Ordering};
ghost use Rattle.std.specs.Prelude.{IfOk, None, Some, [], ◌≡◌, ◌≢◌, ◌≤◌};

use crate::trees::Trees;
use bforest_core::{Comparator, Node, OutOfMemory, PackedNode, Way};

impl<K: Copy, V: Copy, const N: usize> Trees<K, V, N> {
    /// The value of a key. Where the key is absent, `value` is inserted there and returned. One search.
    pub fn get_or_insert<C: Comparator<K>>(
        &mut self,
        handle: &mut PackedNode,
        key: K,
        value: V,
        comp: &C,
    ) -> Result<V, OutOfMemory>
        requires live { IsLive self.old handle.old }
        requires increasing { IsIncreasing (C.order comp.now) (list_of self.old handle.old) }
        ensures { GetsOrInserts N (C.order comp.now) self.old handle.old key value result
            self.new handle.new }
    {
        match handle.expand() {
            Some(root) => self.get_or_insert_under(root, handle, key, value, comp),
            None => self.plant(handle, key, value),
        }
    }

    // The value of a key in the tree under a root. Where the key is absent, `value` is inserted there and returned.
    fn get_or_insert_under<C: Comparator<K>>(
        &mut self,
        root: Node,
        handle: &mut PackedNode,
        key: K,
        value: V,
        comp: &C,
    ) -> Result<V, OutOfMemory>
        requires root { handle.old ≡ Some root }
        requires live { list_at self.old root ≢ [] }
        requires increasing { IsIncreasing (C.order comp.now) (list_at self.old root) }
        ensures { GetsOrInserts N (C.order comp.now) self.old (Some root) key value result
            self.new handle.new }
    {
        let way = Way::find(key, root, &self.pool, comp);
        let (index, stored) = self.pool.look_up_in_leaf(way.leaf(), key, comp);
        match stored {
            Some(stored) => Ok(stored),
            None => self.insert_absent(root, handle, &way, index, key, value),
        }
    }

    /// Replaces the value of a key by what `change` returns of it. Where the key is absent, `value` is inserted there. Returns the value
    /// that the key has then. `change` is called before anything is written. One search.
    pub fn update_or_insert<C: Comparator<K>, F: FnOnce(V) -> V>(
        &mut self,
        handle: &mut PackedNode,
        key: K,
        value: V,
        change: F,
        comp: &C,
    ) -> Result<V, OutOfMemory>
        requires live { IsLive self.old handle.old }
        requires increasing { IsIncreasing (C.order comp.now) (list_of self.old handle.old) }
        requires callable { (v : V) → value_for (C.order comp.now) (list_of self.old handle.old) key ≡ Some v
            → F.pre change v }
        ensures { UpdatesOrInserts N (C.order comp.now) F.FnOnce self.old handle.old key value change result
            self.new handle.new }
    {
        match handle.expand() {
            Some(root) => self.update_or_insert_under(root, handle, key, value, change, comp),
            None => self.plant(handle, key, value),
        }
    }

    // Replaces the value of a key in the tree under a root, or inserts `value` where the key is absent.
    fn update_or_insert_under<C: Comparator<K>, F: FnOnce(V) -> V>(
        &mut self,
        root: Node,
        handle: &mut PackedNode,
        key: K,
        value: V,
        change: F,
        comp: &C,
    ) -> Result<V, OutOfMemory>
        requires root { handle.old ≡ Some root }
        requires live { list_at self.old root ≢ [] }
        requires increasing { IsIncreasing (C.order comp.now) (list_at self.old root) }
        requires callable { (v : V) → value_for (C.order comp.now) (list_at self.old root) key ≡ Some v
            → F.pre change v }
        ensures { UpdatesOrInserts N (C.order comp.now) F.FnOnce self.old (Some root) key value change result
            self.new handle.new }
    {
        let way = Way::find(key, root, &self.pool, comp);
        let leaf = way.leaf();
        let (place, stored) = self.pool.look_up_in_leaf(leaf, key, comp);
        match stored {
            Some(stored) => {
                let changed = change(stored);
                *self.pool.value_mut(leaf, place) = changed;
                Ok(changed)
            }
            None => self.insert_absent(root, handle, &way, place, key, value),
        }
    }

    // Inserts the first entry of an empty tree, and returns the value.
    fn plant(&mut self, handle: &mut PackedNode, key: K, value: V) -> Result<V, OutOfMemory>
        requires empty { handle.old ≡ None }
        ensures inserted { (order : K → K → Ordering) → IsTotalOrder order
            → Inserts N order self.old None key value (as_inserted result) self.new handle.new }
        ensures value { IfOk result (λ v. v ≡ value) }
    {
        self.put_first(handle, key, value)?;
        Ok(value)
    }

    // Inserts an absent key at its place in the leaf of a way, in the tree under a root, and returns the value.
    #[inline(always)]
    fn insert_absent(
        &mut self,
        root: Node,
        handle: &mut PackedNode,
        way: &Way,
        index: usize,
        key: K,
        value: V,
    ) -> Result<V, OutOfMemory>
        requires root { handle.old ≡ Some root }
        requires most { index ≤ 255 }
        requires absent { (order : K → K → Ordering) × IsAbsentOn order self.old root way.now index key }
        ensures inserted { (order : K → K → Ordering) → IsAbsentOn order self.old root way.now index key
            → Inserts N order self.old (Some root) key value (as_inserted result) self.new handle.new }
        ensures value { IfOk result (λ v. v ≡ value) }
    {
        let root = self.pool.insert_on(way, index, root, key, value)?;
        *handle = PackedNode::some(root);
        Ok(value)
    }
}
