//! Putting the entries of one tree into another one.
ghost use Rattle.bforest_trees.specs.Calls.{Loads, Unites};
ghost use Rattle.bforest_trees.specs.Forest.{list_at, list_of, room_of};
ghost use Rattle.bforest_trees.specs.Merge.{new_entries};
ghost use Rattle.bforest_trees.specs.Union.{AreSearchable, kept_from, united};
ghost use Rattle.bforest_nodes.specs.Content.{IsLeafCapacity};
ghost use Rattle.std.specs.Prelude.{List, [], false, length, vec_len, ◌+◌, ◌++◌, ◌^◌, ◌∷◌, ◌<◌, ◌≡◌, ◌≤◌, ℕ};

use crate::merge::{next_order, take_least, take_new};
use crate::reader::Reader;
use crate::source::UnionOf;
use crate::trees::{Trees, fewest_nodes};
use bforest_core::{Comparator, OutOfMemory, PackedNode};

/// For how many entries a full list takes memory, at least.
const MORE_ENTRIES: usize = 64;

/// The entries of one tree whose key is absent in another.
#[derive(Clone, Copy, Drop)]
enum NewEntries<K, V> {
    Zero,
    One(K, V),
    More,
}

impl<K: Copy, V: Copy> NewEntries<K, V> {
    // These, and one more.
    fn with(self, entry: (K, V)) -> NewEntries<K, V>
        ensures { (es : List (K × V)) → self ≡ new_entries es → result ≡ new_entries (es ++ entry ∷ []) }
    {
        match self {
            NewEntries::Zero => NewEntries::One(entry.0, entry.1),
            NewEntries::One(..) | NewEntries::More => NewEntries::More,
        }
    }
}

impl<K: Copy, V: Copy, const N: usize> Trees<K, V, N> {
    /// Puts each entry of another tree whose key is absent into a tree, and returns whether there was one. A single one is inserted; for
    /// more of them the tree is made anew, packed.
    pub fn unite<C: Comparator<K>>(
        &mut self,
        handle: &mut PackedNode,
        other: PackedNode,
        comp: &C,
    ) -> Result<bool, OutOfMemory>
        requires { AreSearchable (C.order comp.now) self.old handle.old other }
        ensures { Unites N (C.order comp.now) self.old handle.old other result self.new handle.new }
    {
        match self.new_entries(*handle, other, comp) {
            NewEntries::Zero => return Ok(false),
            NewEntries::One(key, value) => {
                self.put(handle, key, value, comp)?;
            }
            NewEntries::More => {
                let union = self.load_union(*handle, other, comp)?;
                self.free_tree(handle);
                *handle = union;
            }
        }
        Ok(true)
    }

    // The number of slots that can be taken.
    pub(super) fn room(&self) -> usize
        ensures room { result ≡ room_of self.now }
        ensures capacity { IsLeafCapacity N }
        ensures few { (n : ℕ) → length (list_at self.now n) ≤ 2 ^ 40 }
    {
        (self.pool.free() + (self.pool.limit() - self.pool.slots())) as usize
    }

    // The entries of the second tree whose key is absent in the first. Reads both until a second one is found.
    fn new_entries<C: Comparator<K>>(
        &self,
        handle: PackedNode,
        other: PackedNode,
        comp: &C,
    ) -> NewEntries<K, V>
        requires searchable { AreSearchable (C.order comp.now) self.now handle other }
        ensures new { result ≡ new_entries (kept_from (C.order comp.now) false
            (list_of self.now other) (list_of self.now handle)) }
    {
        let mut first = Reader::new(handle, self);
        let mut second = Reader::new(other, self);
        let mut new = NewEntries::Zero;
        while let Some(order) = next_order(&mut first, &mut second, self, comp) {
            if let Some(entry) = take_new(order, &mut first, &mut second) {
                new = new.with(entry);
                if let NewEntries::More = new {
                    return new;
                }
            }
        }
        new
    }

    // Makes a packed tree of the union of two trees. Where no memory can be had for a list of its entries, they are read once more, from the
    // trees.
    fn load_union<C: Comparator<K>>(
        &mut self,
        handle: PackedNode,
        other: PackedNode,
        comp: &C,
    ) -> Result<PackedNode, OutOfMemory>
        requires searchable { AreSearchable (C.order comp.now) self.old handle other }
        ensures { Loads N self.old (united (C.order comp.now) (list_of self.old handle)
            (list_of self.old other)) result self.new }
    {
        let room = self.room();
        let mut union = Vec::new(self.pool.allocator());
        let entries = self.gather_union(handle, other, &mut union, comp);
        if room < fewest_nodes(entries, N) {
            return Err(OutOfMemory::Full);
        }
        if union.len() == entries {
            return self.load(union.as_slice());
        }
        let first = Reader::new(handle, self).mark(&self.pool);
        let second = Reader::new(other, self).mark(&self.pool);
        self.load_from(&mut UnionOf::new(first, second, comp), entries)
    }

    // Puts the entries of the union of two trees into an empty vector, and returns how many there are. Where memory is refused, the vector
    // has fewer.
    fn gather_union<C: Comparator<K>>(
        &self,
        handle: PackedNode,
        other: PackedNode,
        union: &mut Vec<(K, V)>,
        comp: &C,
    ) -> usize
        requires searchable { AreSearchable (C.order comp.now) self.now handle other }
        requires few { length (united (C.order comp.now) (list_of self.now handle)
            (list_of self.now other)) < 2 ^ 63 }
        requires empty { union.old.items ≡ [] }
        ensures entries { result ≡ length (united (C.order comp.now) (list_of self.now handle)
            (list_of self.now other)) }
        ensures most { vec_len union.new ≤ result }
        ensures gathered { vec_len union.new ≡ result → union.new.items
            ≡ united (C.order comp.now) (list_of self.now handle) (list_of self.now other) }
    {
        let mut first = Reader::new(handle, self);
        let mut second = Reader::new(other, self);
        let mut entries = 0;
        while let Some(entry) = take_least(&mut first, &mut second, &self.pool, comp) {
            if union.len() < union.capacity() || union.reserve(MORE_ENTRIES).is_ok() {
                union.push_reserved(entry);
            }
            entries += 1;
        }
        entries
    }
}
