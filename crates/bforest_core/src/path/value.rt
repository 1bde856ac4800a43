//! Writing the value or the key of the entry where a path stands.
ghost use Rattle.std.specs.Prelude.{◌≡◌, Some};
ghost use Rattle.bforest_core.specs.Table.{slot_count, with_value_at};
ghost use Rattle.bforest_nodes.specs.Entries.{rekeyed, value_at_place, with_value};
ghost use Rattle.bforest_core.specs.Trees.{IsUnion};
ghost use Rattle.bforest_core.specs.Change.{Changes};
ghost use Rattle.std.specs.Borrow.{sem};

use crate::access::set_leaf_key;
use crate::path::Path;
use crate::pool::NodePool;

impl<K: Copy, V: Copy, const N: usize> Path<K, V, N> {
    ghost use Rattle.bforest_core.specs.Paths.{OnEntry, StandsOn, list_under, sizes_under};

    /// Writes the value of the entry where the path stands. No other entry changes, and no node.
    pub fn set_value(&self, value: V, pool: &mut NodePool<K, V, N>)
        requires union { IsUnion N pool.old }
        requires stands { OnEntry pool.old self.now }
        ensures written { (at : OnEntry pool.old self.now) → Changes N pool.old pool.new at.root at.root
            (with_value (list_under pool.old at.root) at.place value) (sizes_under pool.old at.root) }
        ensures stands { (at : OnEntry pool.old self.now) → StandsOn pool.new at.root self.now at.place }
        ensures slots { slot_count pool.new ≡ slot_count pool.old }
        ensures chain { pool.new.chain ≡ pool.old.chain }
        ensures memory { pool.new.memory ≡ pool.old.memory }
    {
        *pool.path_value_mut(self) = value;
    }

    /// Writes the key of the entry where the path stands. No other entry changes, and no node moves. Where the entry is the first of its
    /// leaf, and the leaf is not the first of the tree, the separator that names the leaf gets the key.
    pub fn set_key(&self, key: K, pool: &mut NodePool<K, V, N>)
        requires union { IsUnion N pool.old }
        requires stands { OnEntry pool.old self.now }
        ensures written { (at : OnEntry pool.old self.now) → Changes N pool.old pool.new at.root at.root
            (rekeyed (list_under pool.old at.root) at.place key) (sizes_under pool.old at.root) }
        ensures stands { (at : OnEntry pool.old self.now) → StandsOn pool.new at.root self.now at.place }
        ensures slots { slot_count pool.new ≡ slot_count pool.old }
        ensures chain { pool.new.chain ≡ pool.old.chain }
        ensures memory { pool.new.memory ≡ pool.old.memory }
    {
        set_leaf_key(pool, self.node[0], self.entry[0] as usize, key);
        if self.entry[0] > 0 {
            return;
        }
        self.update_separator(1, key, pool);
    }
}

impl<K: Copy, V: Copy, const N: usize> NodePool<K, V, N> {
    ghost use Rattle.bforest_core.specs.Paths.{OnEntry, StandsOn, index_of, leaf_of, list_under, sizes_under};
    ghost use Rattle.bforest_core.specs.Lending.{lends_value_at};

    /// The value of the entry where a path stands, for writing.
    pub fn path_value_mut(&mut self, path: &Path<K, V, N>) -> &mut V
        requires union { IsUnion N self.old }
        requires stands { OnEntry self.old path.now }
        ensures* writes_back { sem 𝓛
            (lends_value_at K.row V.row N.row self.entry (leaf_of path.now) (index_of path.now) result) }
        ensures value { (at : OnEntry self.old path.now)
            → Some result.now ≡ value_at_place (list_under self.old at.root) at.place }
        ensures written { (at : OnEntry self.old path.now) (value : V)
            → Changes N self.old (with_value_at self.old (leaf_of path.now) (index_of path.now) value) at.root
            at.root
            (with_value (list_under self.old at.root) at.place value) (sizes_under self.old at.root) }
        ensures stands { (at : OnEntry self.old path.now) (value : V)
            → StandsOn (with_value_at self.old (leaf_of path.now) (index_of path.now) value) at.root path.now
            at.place }
    {
        self.value_mut(path.node[0], path.entry[0] as usize)
    }
}
