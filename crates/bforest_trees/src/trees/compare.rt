//! Whether the keys of one tree are in another one.
ghost use Rattle.bforest_trees.specs.Forest.{list_of};
ghost use Rattle.bforest_trees.specs.Union.{AreSearchable, are_among, are_apart};
ghost use Rattle.std.specs.Prelude.{◌≡◌};

use crate::merge::{finds, order_of, take_new};
use crate::reader::Reader;
use crate::trees::Trees;
use bforest_core::{Comparator, PackedNode};

impl<K: Copy, V: Copy, const N: usize> Trees<K, V, N> {
    /// Whether each key of a tree is in another one. Reads both side by side, up to the first key that is not.
    pub fn are_among<C: Comparator<K>>(
        &self,
        handle: PackedNode,
        other: PackedNode,
        comp: &C,
    ) -> bool
        requires { AreSearchable (C.order comp.now) self.now handle other }
        ensures among { result ≡ are_among (C.order comp.now) (list_of self.now handle)
            (list_of self.now other) }
    {
        let mut first = Reader::new(handle, self);
        let mut second = Reader::new(other, self);
        while first.has_next(self) {
            let order = order_of(&first, &mut second, self, comp);
            if order.is_lt() {
                return false;
            }
            take_new(order, &mut first, &mut second);
        }
        true
    }

    /// Whether no key of a tree is in another one. Reads both side by side, up to the first key that is.
    pub fn are_apart<C: Comparator<K>>(
        &self,
        handle: PackedNode,
        other: PackedNode,
        comp: &C,
    ) -> bool
        requires { AreSearchable (C.order comp.now) self.now handle other }
        ensures apart { result ≡ are_apart (C.order comp.now) (list_of self.now handle)
            (list_of self.now other) }
    {
        let mut keys = Reader::new(handle, self);
        let mut others = Reader::new(other, self);
        while let Some(entry) = keys.next(self) {
            if finds(entry.0, &mut others, self, comp) {
                return false;
            }
        }
        true
    }
}
