//! Making a tree anew, packed.
ghost use Rattle.bforest_trees.specs.Calls.{Compacts};
ghost use Rattle.bforest_trees.specs.Forest.{IsLive};
ghost use Rattle.bforest_core.specs.Packed.{fewest, nodes_over};
ghost use Rattle.std.specs.Prelude.{◌≡◌, ◌≤◌, ℕ};

use crate::reader::Reader;
use crate::source::OneTree;
use crate::trees::Trees;
use bforest_core::{OutOfMemory, PackedNode};

/// The most children of an inner node.
const MAX_CHILDREN: usize = 8;

impl<K: Copy, V: Copy, const N: usize> Trees<K, V, N> {
    /// Makes a tree anew with the fewest nodes, beside the old one, which is freed then.
    pub fn compact(&mut self, handle: &mut PackedNode) -> Result<(), OutOfMemory>
        requires live { IsLive self.old handle.old }
        ensures { Compacts N self.old handle.old result self.new handle.new }
    {
        let entries = self.len(*handle);
        let mut all = OneTree::new(Reader::new(*handle, self).mark(&self.pool));
        let packed = self.load_from(&mut all, entries)?;
        self.free_tree(handle);
        *handle = packed;
        Ok(())
    }
}

/// Returns the fewest nodes that a tree of `entries` entries can have, whose leaves have at most `capacity` each.
pub fn fewest_nodes(entries: usize, capacity: usize) -> usize
    requires { 3 ≤ capacity }
    ensures count { result ≡ fewest capacity entries }
{
    let leaves = entries.div_ceil(capacity);
    leaves + nodes_above(leaves)
}

// Returns how many nodes are above a level of `count` nodes, where each has as many children as it can: up to a level of one.
fn nodes_above(count: usize) -> usize
    requires { count ≤ 9223372036854775808 }
    ensures over { (levels : ℕ) → count ≤ levels → result ≡ nodes_over levels count }
    ensures few { result ≤ count }
{
    if count <= 1 {
        return 0;
    }
    let parents = count.div_ceil(MAX_CHILDREN);
    parents + nodes_above(parents)
}
