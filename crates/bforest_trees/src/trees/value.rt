//! Changing a value: that of the entry where a path stands, and that of a key.
ghost use Rattle.bforest_trees.specs.Calls.{Updates};
ghost use Rattle.bforest_trees.specs.Forest.{IsLive, list_of};
ghost use Rattle.bforest_trees.specs.Lending.{lends_entry, lends_value_for};
ghost use Rattle.bforest_trees.specs.Place.{IsWritten, OnSpot};
ghost use Rattle.bforest_trees.specs.Written.{WritesFor, with_value_for};
ghost use Rattle.bforest_core.specs.Paths.{index_of, leaf_of};
ghost use Rattle.bforest_core.specs.Table.{with_value_at};
ghost use Rattle.bforest_core.specs.declared.path.Path.{Path};
ghost use Rattle.bforest_nodes.specs.Entries.{IsIncreasing, value_at_place, value_for};
ghost use Rattle.std.specs.Borrow.{sem};
ghost use Rattle.std.specs.Option.{option_copied_mut};
ghost use Rattle.std.specs.Prelude.{OnSome, Option, Some, ◌≡◌, ℕ};

use crate::trees::Trees;
use bforest_core::{Comparator, Node, PackedNode, Way};

impl<K: Copy, V: Copy, const N: usize> Trees<K, V, N> {
    /// A reference to the value of the entry where a path stands, given the path's leaf and its index there.
    pub fn value_at(&mut self, leaf: Node, index: usize) -> &mut V
        requires stands { (h : Option ℕ) × (path : Path K V N) × OnSpot self.old h path
            × (leaf ≡ leaf_of path) × (index ≡ index_of path) }
        ensures* writes_back { sem 𝓛 (lends_entry K.row V.row N.row self.entry leaf index result) }
        ensures value { (h : Option ℕ) (path : Path K V N) (at : OnSpot self.old h path) → leaf ≡ leaf_of path
            → index ≡ index_of path → value_at_place (list_of self.old h) at.place ≡ Some result.now }
        ensures written { (h : Option ℕ) (path : Path K V N) (at : OnSpot self.old h path)
            → leaf ≡ leaf_of path → index ≡ index_of path
            → (w : V) → IsWritten self.old (with_value_at self.old leaf index w) h path at.place w }
    {
        self.pool.value_mut(leaf, index)
    }

    /// A reference to the value of a key, or `None` if the key is absent. One search, which keeps no path.
    pub fn get_mut<C: Comparator<K>>(
        &mut self,
        handle: PackedNode,
        key: K,
        comp: &C,
    ) -> Option<&mut V>
        requires live { IsLive self.old handle }
        requires increasing { IsIncreasing (C.order comp.now) (list_of self.old handle) }
        ensures* writes_back { sem 𝓛
            (lends_value_for K.row V.row N.row (C.order comp.now) self.entry handle key result) }
        ensures value { option_copied_mut result
            ≡ value_for (C.order comp.now) (list_of self.old handle) key }
        ensures written { OnSome result ((w : V) → WritesFor (C.order comp.now) self.old handle key w
            (with_value_for (C.order comp.now) self.old handle key w)) }
    {
        let root = handle.expand()?;
        let way = Way::find(key, root, &self.pool, comp);
        let leaf = way.leaf();
        let (place, value) = self.pool.look_up_in_leaf(leaf, key, comp);
        match value {
            Some(_value) => Some(self.pool.value_mut(leaf, place)),
            None => None,
        }
    }

    /// Replaces the value of a key by what `change` returns of it, and returns that, or `None` if the key is absent. `change` is called
    /// before anything is written.
    pub fn update<C: Comparator<K>, F: FnOnce(V) -> V>(
        &mut self,
        handle: PackedNode,
        key: K,
        change: F,
        comp: &C,
    ) -> Option<V>
        requires live { IsLive self.old handle }
        requires increasing { IsIncreasing (C.order comp.now) (list_of self.old handle) }
        requires callable { (v : V) → value_for (C.order comp.now) (list_of self.old handle) key ≡ Some v
            → F.pre change v }
        ensures { Updates F.FnOnce (C.order comp.now) self.old handle key change result self.new handle }
    {
        match handle.expand() {
            Some(root) => self.pool.update(key, root, change, comp),
            None => None,
        }
    }
}
