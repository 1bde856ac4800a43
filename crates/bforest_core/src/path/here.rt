//! Moving a path to a key near its entry.
ghost use Rattle.std.specs.Prelude.{◌≡◌, ◌≤◌, IsTrue, length};
ghost use Rattle.bforest_nodes.specs.Entries.{IsIncreasing, place};
ghost use Rattle.bforest_core.specs.Climb.{KeyIs, OneAbove};
ghost use Rattle.bforest_core.specs.Levels.{most_levels};
ghost use Rattle.bforest_core.specs.Trees.{IsUnion, is_root};

use crate::access::{entries, last_key, look_up, separator};
use crate::path::Path;
use crate::pool::NodePool;
use bforest_nodes::{Comparator, Node};
use std::cmp::Ordering;

impl<K: Copy, V: Copy, const N: usize> Path<K, V, N> {
    ghost use Rattle.bforest_core.specs.Paths.{GoesTo, StandingUnder, StandsBefore, list_under};

    /// Goes where `find` goes and returns the same, but looks first where the path stands: it compares `key` with the entry here, and then
    /// with the previous one where `key` is less, and with the leaf's last where it is greater. Behind the leaf's last it compares with the
    /// first key of the next leaf. At the end it compares with the last entry alone. Where `key` belongs between these it searches at most
    /// the leaf, and else the whole tree.
    pub fn find_here<C: Comparator<K>>(
        &mut self,
        key: K,
        root: Node,
        pool: &NodePool<K, V, N>,
        comp: &C,
    ) -> Option<V>
        requires union { IsUnion N pool.now }
        requires root { IsTrue (is_root pool.now.nodes root) }
        requires stands { StandingUnder pool.now root self.old }
        requires increasing { IsIncreasing (C.order comp.now) (list_under pool.now root) }
        ensures { GoesTo (C.order comp.now) pool.now root key result self.new }
    {
        if self.size > 0 {
            let here = self.entry_here(pool);
            match comp.cmp(key, here.0) {
                Ordering::Less => {}
                Ordering::Equal => return Some(here.1),
                Ordering::Greater => return self.find_behind(key, root, pool, comp),
            }
        }
        let Some(before) = self.prev(root, pool) else {
            return None;
        };
        match comp.cmp(key, before.0) {
            Ordering::Less => self.find(key, root, pool, comp),
            Ordering::Equal => Some(before.1),
            Ordering::Greater => {
                self.set_entry(self.entry[0] as usize + 1);
                None
            }
        }
    }

    // Goes where `find` goes and returns the same, for a key that is greater than that of the entry here. Where the key is not greater than
    // the leaf's last, the leaf alone is searched, and where it is less than the first key behind the leaf, nothing is.
    fn find_behind<C: Comparator<K>>(
        &mut self,
        key: K,
        root: Node,
        pool: &NodePool<K, V, N>,
        comp: &C,
    ) -> Option<V>
        requires union { IsUnion N pool.now }
        requires root { IsTrue (is_root pool.now.nodes root) }
        requires behind { StandsBefore (C.order comp.now) pool.now root self.old key }
        requires increasing { IsIncreasing (C.order comp.now) (list_under pool.now root) }
        ensures { GoesTo (C.order comp.now) pool.now root key result self.new }
    {
        let leaf = self.node[0];
        let (last, last_key) = last_key(pool, leaf);
        if self.entry[0] as usize == last || comp.cmp(key, last_key).is_gt() {
            return self.find_behind_leaf(key, last + 1, root, pool, comp);
        }
        let (index, value) = look_up(pool, leaf, key, comp);
        self.set_index(index);
        value
    }

    // Goes where `find` goes and returns the same, for a key that is greater than all of the path's leaf, which has so many entries. Where
    // the key is less than the first one behind the leaf, nothing is searched.
    fn find_behind_leaf<C: Comparator<K>>(
        &mut self,
        key: K,
        count: usize,
        root: Node,
        pool: &NodePool<K, V, N>,
        comp: &C,
    ) -> Option<V>
        requires union { IsUnion N pool.now }
        requires root { IsTrue (is_root pool.now.nodes root) }
        requires behind { (b : StandsBefore (C.order comp.now) pool.now root self.old key)
            × (count ≡ length b.on.stands.leaf.entries)
            × (place (C.order comp.now) b.on.stands.leaf.entries key ≡ count) }
        requires increasing { IsIncreasing (C.order comp.now) (list_under pool.now root) }
        ensures { GoesTo (C.order comp.now) pool.now root key result self.new }
    {
        if let Some(next) = self.key_behind(pool) {
            if !comp.cmp(key, next).is_lt() {
                return self.find(key, root, pool, comp);
            }
        }
        self.set_index(count);
        None
    }

    // The first key behind the path's leaf, or `None` where the leaf is the last. No leaf is read: the key is a separator.
    fn key_behind(&self, pool: &NodePool<K, V, N>) -> Option<K>
        requires height { self.now.size ≤ most_levels }
        requires pending { OneAbove pool.now self.now.node self.now.entry 1 self.now.size }
        ensures { (w : OneAbove pool.now self.now.node self.now.entry 1 self.now.size)
            → KeyIs result w.after }
    {
        let mut up = 1;
        while up < self.size {
            let parent = self.node[up];
            let index = self.entry[up] as usize;
            if index + 1 < entries(pool, parent) {
                return Some(separator(pool, parent, index));
            }
            up += 1;
        }
        None
    }
}
