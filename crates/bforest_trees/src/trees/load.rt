//! Making a tree of entries that are given in order.
ghost use Rattle.bforest_trees.specs.Calls.{Loads};
ghost use Rattle.std.specs.Prelude.{length, ◌≡◌};

use crate::trees::Trees;
use bforest_core::{InOrder, LeafSource, OutOfMemory, PackedNode, Source};

impl<K: Copy, V: Copy, const N: usize> Trees<K, V, N> {
    /// Makes a tree of these entries, in this order, with the fewest nodes, and returns its handle. Of no entries it is an empty one.
    pub fn load<S: Source<K, V>>(&mut self, entries: S) -> Result<PackedNode, OutOfMemory>
        ensures { Loads N self.old (S.list entries) result self.new }
    {
        self.load_from(&mut InOrder { entries, done: 0 }, entries.len())
    }

    // Makes a tree of the entries of a source, of which there are so many.
    pub(super) fn load_from<S: LeafSource<K, V, N>>(
        &mut self,
        source: &mut S,
        entries: usize,
    ) -> Result<PackedNode, OutOfMemory>
        requires reads { S.reads source.old self.old }
        requires all { entries ≡ length (S.left source.old self.old) }
        ensures { Loads N self.old (S.left source.old self.old) result self.new }
    {
        if entries == 0 {
            return Ok(PackedNode::none());
        }
        let root = self.pool.build_tree(source, entries)?;
        Ok(PackedNode::some(root))
    }
}
