//! Forests, of maps or of sets.
ghost use Rattle.bforest.specs.Forest.{IsAccounted, IsFitFor, emptied, free_of, limit_of, list_at, memory_of, sizes_at, slots_of};
ghost use Rattle.bforest.specs.Calls.{Reserves};
ghost use Rattle.std.specs.Prelude.{[], length, ◌+◌, ◌<◌, ◌≡◌, ◌≢◌, ◌≤◌, ℕ};

use bforest_core::OutOfMemory;
use bforest_trees::Trees;
use std::marker::Model;

/// Many ordered maps, or sets, in one table of nodes, whose leaves have at most `N` entries: a [`MapForest`](crate::MapForest) or
/// a [`SetForest`](crate::SetForest).
#[derive(Drop)]
pub struct Forest<K: Copy, V: Copy, const N: usize> {
    pub(crate) trees: Trees<K, V, N>,
}

impl<K: Copy, V: Copy, const N: usize> Model for Forest<K, V, N> {
    ghost use Rattle.bforest.specs.Forest.{Forest};

    ghost Value = { Forest K V };

    ghost view = { λ f. f.trees };
}

impl<K: Copy, V: Copy, const N: usize> Forest<K, V, N> {
    /// Removes all maps or sets: the table has no slot then, and the limit stays. Only empty handles are live until new trees are made.
    ///
    /// Constant time. The memory of the table is kept for later slots.
    pub fn clear(&mut self)
        ensures empty { self.new ≡ emptied self.old }
        ensures lists { (n : ℕ) → list_at self.new n ≡ [] }
    {
        self.trees.clear();
    }

    /// Returns how many slots the table has, which is the number of nodes in use and of free ones. Memory is held for all of them, and
    /// stays when the forest is cleared: so many slots can be had after `clear` with no request for memory. Constant time.
    pub fn slots(&self) -> u32
        ensures count { result ≡ slots_of self.now }
        ensures within { slots_of self.now ≤ limit_of self.now }
        ensures held { slots_of self.now ≤ memory_of self.now }
    {
        self.trees.slots()
    }

    /// Returns how many nodes the trees of all maps or sets have, which is how many slots are not free. Constant time.
    pub fn nodes_in_use(&self) -> u32
        ensures count { free_of self.now + result ≡ slots_of self.now }
        ensures account { IsAccounted self.now }
        ensures fit { (n : ℕ) → IsFitFor N (length (list_at self.now n)) (sizes_at self.now n) }
        ensures below { (n : ℕ) → list_at self.now n ≢ [] → n < slots_of self.now }
    {
        let trees = &self.trees;
        trees.slots() - trees.free()
    }

    /// Returns how many slots are free. Insertions take these before the table grows. Constant time.
    pub fn free_slots(&self) -> u32
        ensures count { result ≡ free_of self.now }
    {
        self.trees.free()
    }

    /// Returns how many slots the table may have. Constant time.
    pub fn node_limit(&self) -> u32
        ensures limit { result ≡ limit_of self.now }
    {
        self.trees.limit()
    }

    /// Makes sure that `n` slots are free: where fewer are, the table grows once until exactly `n` are.
    ///
    /// Insertions that need at most `n` nodes in all cannot fail then. Where `n` slots are free already, nothing changes and no
    /// memory is taken.
    ///
    /// # Errors
    ///
    /// [`OutOfMemory::Full`] where the limit does not allow that many slots, which is tested first, and [`OutOfMemory::Memory`] where the
    /// allocator gave no memory for the growth. The forest is unchanged then.
    pub fn reserve_nodes(&mut self, n: u32) -> Result<(), OutOfMemory>
        ensures { Reserves self.old n result self.new }
    {
        self.trees.reserve(n)
    }
}
