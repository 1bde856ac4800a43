//! One leaf of a tree: a key is looked up, a value is put in at a key, or a key is removed, with one search and without a path.
ghost use Rattle.std.specs.Prelude.{◌≡◌, ℕ, ◌≤◌, IfSome, List, Err};
ghost use Rattle.bforest_core.specs.Change.{EntryTaken, Shrinks};
ghost use Rattle.bforest_core.specs.Leaves.{EndsIn, LooksInLeaf, PutsInLeaf, TakesFromLeaf};
ghost use Rattle.bforest_core.specs.Table.{IsFullAt, Table};
ghost use Rattle.bforest_core.specs.Trees.{IsUnion};

use crate::access::{entries, look_up, put, take};
use crate::pool::NodePool;
use bforest_nodes::{Comparator, Node};

impl<K: Copy, V: Copy, const N: usize> NodePool<K, V, N> {
    /// The place of a key in the leaf in which a search for the key ends, and its value, or `None` if the key is absent.
    #[inline(always)]
    pub fn look_up_in_leaf<C: Comparator<K>>(
        &self,
        leaf: Node,
        key: K,
        comp: &C,
    ) -> (usize, Option<V>)
        requires union { IsUnion N self.now }
        requires leaf { (root : ℕ) × (path indices : List ℕ) × (size : ℕ)
            × EndsIn (C.order comp.now) self.now root key leaf path indices size }
        ensures found { (root : ℕ) (path indices : List ℕ) (size : ℕ)
            → EndsIn (C.order comp.now) self.now root key leaf path indices size
            → LooksInLeaf (C.order comp.now) self.now root key leaf path indices size result }
        ensures most { result.0 ≤ 255 }
    {
        look_up(self, leaf, key, comp)
    }

    /// Puts a value in at a key, in the leaf in which a search for the key ends, and returns the value that it replaces.
    ///
    /// # Errors
    ///
    /// The key's place in the leaf if the key is absent and the leaf is full. The pool is then as before.
    #[inline(always)]
    pub fn put_in_leaf<C: Comparator<K>>(
        &mut self,
        leaf: Node,
        key: K,
        value: V,
        comp: &C,
    ) -> Result<Option<V>, usize>
        requires union { IsUnion N self.old }
        requires leaf { (root : ℕ) × (path indices : List ℕ) × (size : ℕ)
            × EndsIn (C.order comp.now) self.old root key leaf path indices size }
        ensures put { (root : ℕ) (path indices : List ℕ) (size : ℕ)
            → EndsIn (C.order comp.now) self.old root key leaf path indices size
            → PutsInLeaf (C.order comp.now) self.old root key N value path indices size result self.new }
        ensures full { (index : ℕ) → result ≡ Err index → IsFullAt N self.old.nodes leaf }
        ensures most { (index : ℕ) → result ≡ Err index → index ≤ 255 }
    {
        put(self, leaf, key, value, comp)
    }

    /// Removes a key from the leaf in which a search for it ends, and returns its place there and its value, or `None` if it is absent.
    /// Nothing else changes: the leaf may be left with too few entries, or with none, and the rows above may keep its old first key. A call
    /// of `Path::heal` restores the tree, or of `heal_alone` where the leaf is the whole tree.
    #[inline(always)]
    pub fn take_from_leaf<C: Comparator<K>>(
        &mut self,
        leaf: Node,
        key: K,
        comp: &C,
    ) -> Option<(usize, V)>
        requires union { IsUnion N self.old }
        requires leaf { (root : ℕ) × (path indices : List ℕ) × (size : ℕ)
            × EndsIn (C.order comp.now) self.old root key leaf path indices size }
        ensures taken { (root : ℕ) (path indices : List ℕ) (size : ℕ)
            → EndsIn (C.order comp.now) self.old root key leaf path indices size
            → TakesFromLeaf (C.order comp.now) self.old root key N path indices size result self.new }
        ensures most { IfSome result (λ e. e.0 ≤ 255) }
    {
        take(self, leaf, key, comp)
    }

    /// Restores a tree of one leaf after the leaf lost an entry: if it has no other, its node is freed. Returns the root, or `None` if the
    /// tree is empty.
    pub fn heal_alone(&mut self, root: Node) -> Option<Node>
        requires taken { (old : Table K V) × (place : ℕ) × (path indices : List ℕ)
            × EntryTaken N old self.old root place path indices 1 }
        ensures healed { (old : Table K V) (place : ℕ) (path indices : List ℕ)
            → EntryTaken N old self.old root place path indices 1
            → Shrinks N old self.new path root place result }
    {
        if entries(self, root) > 0 {
            return Some(root);
        }
        self.free_node(root);
        None
    }
}
