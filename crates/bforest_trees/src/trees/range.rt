//! The entries within bounds, from both ends.
ghost use Rattle.bforest_trees.specs.Bounds.{entries_between};
ghost use Rattle.bforest_trees.specs.Forest.{IsLive, list_of};
ghost use Rattle.bforest_trees.specs.Range.{IsFresh, IsOpen, IsRange, back_held, back_leaf, front_held, left_in, leaf_behind, limit_of_end, limit_of_start, limit_place};
ghost use Rattle.bforest_core.specs.Paths.{list_under};
ghost use Rattle.bforest_core.specs.Place.{entry_items, entry_keys, leaf_content};
ghost use Rattle.bforest_core.specs.Spots.{IsLeafAt, IsSpotAt, leaf_count};
ghost use Rattle.bforest_core.specs.Trees.{IsUnion, is_root};
ghost use Rattle.bforest_nodes.specs.Entries.{IsIncreasing};
ghost use Rattle.std.specs.Iterator.{YieldsFirst, YieldsLast};
ghost use Rattle.std.specs.Prelude.{IfSome, IsTrue, List, None, Option, Some, [], false, length, slice_get, slice_range, take, true, ◌-◌, ◌<◌, ◌≡◌, ◌≢◌, ◌≤◌, ℕ};

use crate::trees::Trees;
use bforest_core::{Comparator, Node, NodePool, PackedNode, Spot};
use std::ops::Bound;

/// The entries of a range that are left. Those in the leaf of each end are held as slices, so that a step inside a leaf reads these alone.
///
/// An end that has no bound has no leaf until a step needs it, and its slices are empty until then.
#[derive(Drop)]
pub struct Ends<'a, K: Copy, V: Copy> {
    // The front's leaf, without the entries from the back on where the back is in this leaf.
    keys: &'a [K],
    vals: &'a [V],
    // The index of the first entry that is left there.
    index: usize,
    spot: Spot,
    // The back's leaf, without the entries from the back on. Empty where the back is in the front's leaf.
    back_keys: &'a [K],
    back_vals: &'a [V],
    back_spot: Spot,
    // Whether each end has a leaf.
    has_front: bool,
    has_back: bool,
    // Whether the front's slices hold all entries that are left.
    is_one: bool,
}

impl<'a, K: Copy, V: Copy> Ends<'a, K, V> {
    // All entries, of which no leaf is found yet.
    #[inline(always)]
    fn all() -> Ends<'a, K, V>
        ensures fresh { IsFresh result }
    {
        Ends {
            keys: &[],
            vals: &[],
            index: 0,
            spot: Spot::root(Node::new(0)),
            back_keys: &[],
            back_vals: &[],
            back_spot: Spot::root(Node::new(0)),
            has_front: false,
            has_back: false,
            is_one: false,
        }
    }

    // Goes from all entries to those within bounds.
    #[inline(always)]
    fn narrow<const N: usize, C: Comparator<K>>(
        &mut self,
        root: Node,
        bounds: (Bound<K>, Bound<K>),
        pool: &'a NodePool<K, V, N>,
        comp: &C,
    )
        requires union { IsUnion N pool.now }
        requires root { IsTrue (is_root pool.now.nodes root) }
        requires increasing { IsIncreasing (C.order comp.now) (list_under pool.now root) }
        requires fresh { IsFresh self.old }
        ensures left { left_in pool.now (Some root) self.new
            ≡ entries_between (C.order comp.now) bounds.0 bounds.1 (list_under pool.now root) }
        ensures range { IsRange pool.now (Some root) self.new }
    {
        match (Limit::of_start(bounds.0), Limit::of_end(bounds.1)) {
            (None, None) => {}
            (Some(start), None) => self.start(root, start, pool, comp),
            (None, Some(stop)) => self.stop(root, stop, pool, comp),
            (Some(start), Some(stop)) => self.start_and_stop(root, start, stop, pool, comp),
        }
    }

    // Goes from all entries to those from a place on.
    #[inline(always)]
    fn start<const N: usize, C: Comparator<K>>(
        &mut self,
        root: Node,
        start: Limit<K>,
        pool: &'a NodePool<K, V, N>,
        comp: &C,
    )
        requires union { IsUnion N pool.now }
        requires root { IsTrue (is_root pool.now.nodes root) }
        requires increasing { IsIncreasing (C.order comp.now) (list_under pool.now root) }
        requires fresh { IsFresh self.old }
        ensures left { left_in pool.now (Some root) self.new ≡ slice_range (list_under pool.now root)
            (limit_place (C.order comp.now) start (list_under pool.now root))
            (length (list_under pool.now root)) }
        ensures range { IsRange pool.now (Some root) self.new }
    {
        let (spot, leaf) = Spot::find(start.key, root, pool, comp);
        let index = start.place(leaf, pool, comp);
        self.start_at(spot, leaf, index, pool);
    }

    // Goes from all entries to those up to a place.
    #[inline(always)]
    fn stop<const N: usize, C: Comparator<K>>(
        &mut self,
        root: Node,
        stop: Limit<K>,
        pool: &'a NodePool<K, V, N>,
        comp: &C,
    )
        requires union { IsUnion N pool.now }
        requires root { IsTrue (is_root pool.now.nodes root) }
        requires increasing { IsIncreasing (C.order comp.now) (list_under pool.now root) }
        requires fresh { IsFresh self.old }
        ensures left { left_in pool.now (Some root) self.new ≡ slice_range (list_under pool.now root)
            0
            (limit_place (C.order comp.now) stop (list_under pool.now root)) }
        ensures range { IsRange pool.now (Some root) self.new }
    {
        let (spot, leaf) = Spot::find(stop.key, root, pool, comp);
        let index = stop.place(leaf, pool, comp);
        self.stop_at(spot, leaf, index, pool);
    }

    // Goes from all entries to those between two places. There are none where the first one is behind the second.
    #[inline(always)]
    fn start_and_stop<const N: usize, C: Comparator<K>>(
        &mut self,
        root: Node,
        start: Limit<K>,
        stop: Limit<K>,
        pool: &'a NodePool<K, V, N>,
        comp: &C,
    )
        requires union { IsUnion N pool.now }
        requires root { IsTrue (is_root pool.now.nodes root) }
        requires increasing { IsIncreasing (C.order comp.now) (list_under pool.now root) }
        requires fresh { IsFresh self.old }
        ensures left { left_in pool.now (Some root) self.new ≡ slice_range (list_under pool.now root)
            (limit_place (C.order comp.now) start (list_under pool.now root))
            (limit_place (C.order comp.now) stop (list_under pool.now root)) }
        ensures range { IsRange pool.now (Some root) self.new }
    {
        let ((spot, leaf), other) = Spot::find_both(start.key, stop.key, root, pool, comp);
        let from = start.place(leaf, pool, comp);
        match other {
            None => {
                let to = stop.place(leaf, pool, comp);
                self.hold(spot, leaf, from, to, pool);
            }
            Some((back, last)) => {
                let to = stop.place(last, pool, comp);
                self.start_at(spot, leaf, from, pool);
                self.stop_at(back, last, to, pool);
            }
        }
    }

    // Puts the front at an index of a leaf.
    #[inline(always)]
    fn start_at<const N: usize>(
        &mut self,
        spot: Spot,
        leaf: Node,
        index: usize,
        pool: &'a NodePool<K, V, N>,
    )
        requires leaf { (entries : List (K × V))
            × (slice_get pool.now.nodes leaf ≡ Some (leaf_content entries)) }
        ensures keys { (entries : List (K × V)) → slice_get pool.now.nodes leaf ≡ Some (leaf_content entries)
            → self.new.keys.now ≡ entry_keys entries }
        ensures vals { (entries : List (K × V)) → slice_get pool.now.nodes leaf ≡ Some (leaf_content entries)
            → self.new.vals.now ≡ entry_items entries }
        ensures rest { self.new ≡ record self.old {
          keys = self.new.keys;
          vals = self.new.vals;
          index = index;
          spot = spot;
          has_front = true;
        } }
    {
        let (keys, vals) = pool.node(leaf).unwrap_leaf();
        self.keys = keys;
        self.vals = vals;
        self.index = index;
        self.spot = spot;
        self.has_front = true;
    }

    // Puts the front at an index of a leaf, and the back at another one there.
    #[inline(always)]
    fn hold<const N: usize>(
        &mut self,
        spot: Spot,
        leaf: Node,
        from: usize,
        to: usize,
        pool: &'a NodePool<K, V, N>,
    )
        requires leaf { (entries : List (K × V))
            × (slice_get pool.now.nodes leaf ≡ Some (leaf_content entries)) × (to ≤ length entries) }
        ensures keys { (entries : List (K × V)) → slice_get pool.now.nodes leaf ≡ Some (leaf_content entries)
            → self.new.keys.now ≡ take to (entry_keys entries) }
        ensures vals { (entries : List (K × V)) → slice_get pool.now.nodes leaf ≡ Some (leaf_content entries)
            → self.new.vals.now ≡ entry_items entries }
        ensures rest { self.new ≡ record self.old {
          keys = self.new.keys;
          vals = self.new.vals;
          index = from;
          spot = spot;
          has_front = true;
          is_one = true;
        } }
    {
        self.start_at(spot, leaf, from, pool);
        self.keys = &self.keys[..to];
        self.is_one = true;
    }

    // Puts the back at an index of a leaf.
    #[inline(always)]
    fn stop_at<const N: usize>(
        &mut self,
        spot: Spot,
        leaf: Node,
        index: usize,
        pool: &'a NodePool<K, V, N>,
    )
        requires leaf { (entries : List (K × V))
            × (slice_get pool.now.nodes leaf ≡ Some (leaf_content entries)) × (index ≤ length entries) }
        ensures keys { (entries : List (K × V)) → slice_get pool.now.nodes leaf ≡ Some (leaf_content entries)
            → self.new.back_keys.now ≡ take index (entry_keys entries) }
        ensures vals { (entries : List (K × V)) → slice_get pool.now.nodes leaf ≡ Some (leaf_content entries)
            → self.new.back_vals.now ≡ entry_items entries }
        ensures rest { self.new ≡ record self.old {
          back_keys = self.new.back_keys;
          back_vals = self.new.back_vals;
          back_spot = spot;
          has_back = true;
        } }
    {
        self.stop_in(spot, leaf, pool);
        self.back_keys = &self.back_keys[..index];
    }

    // Puts the back behind the last entry of a leaf.
    #[inline(always)]
    fn stop_in<const N: usize>(&mut self, spot: Spot, leaf: Node, pool: &'a NodePool<K, V, N>)
        requires leaf { (entries : List (K × V))
            × (slice_get pool.now.nodes leaf ≡ Some (leaf_content entries)) }
        ensures keys { (entries : List (K × V)) → slice_get pool.now.nodes leaf ≡ Some (leaf_content entries)
            → self.new.back_keys.now ≡ entry_keys entries }
        ensures vals { (entries : List (K × V)) → slice_get pool.now.nodes leaf ≡ Some (leaf_content entries)
            → self.new.back_vals.now ≡ entry_items entries }
        ensures rest { self.new ≡ record self.old {
          back_keys = self.new.back_keys;
          back_vals = self.new.back_vals;
          back_spot = spot;
          has_back = true;
        } }
    {
        let (keys, vals) = pool.node(leaf).unwrap_leaf();
        self.back_keys = keys;
        self.back_vals = vals;
        self.back_spot = spot;
        self.has_back = true;
    }

    // Removes the first of the entries that are left in the front's leaf, and returns it.
    #[inline(always)]
    fn take_first(&mut self) -> Option<(K, V)>
        requires paired { length self.old.keys.now ≤ length self.old.vals.now }
        ensures steps { YieldsFirst front_held self.old result self.new }
        ensures rest { self.new ≡ record self.old { index = self.new.index } }
    {
        let index = self.index;
        if index < self.keys.len() {
            self.index = index + 1;
            Some((self.keys[index], self.vals[index]))
        } else {
            None
        }
    }

    // Removes the last of the entries that are left in the front's leaf, and returns it.
    #[inline(always)]
    fn take_last(&mut self) -> Option<(K, V)>
        requires paired { length self.old.keys.now ≤ length self.old.vals.now }
        ensures steps { YieldsLast front_held self.old result self.new }
        ensures rest { self.new ≡ record self.old { keys = self.new.keys } }
        ensures fewer { length self.new.keys.now ≤ length self.old.keys.now }
    {
        let len = self.keys.len();
        if self.index < len {
            let entry = (self.keys[len - 1], self.vals[len - 1]);
            self.keys = &self.keys[..len - 1];
            Some(entry)
        } else {
            None
        }
    }

    // Removes the last of the entries that are left in the back's leaf, and returns it.
    #[inline(always)]
    fn take_back(&mut self) -> Option<(K, V)>
        requires paired { length self.old.back_keys.now ≤ length self.old.back_vals.now }
        ensures steps { YieldsLast back_held self.old result self.new }
        ensures rest { self.new ≡ record self.old { back_keys = self.new.back_keys } }
        ensures fewer { length self.new.back_keys.now ≤ length self.old.back_keys.now }
    {
        let len = self.back_keys.len();
        if len > 0 {
            let entry = (self.back_keys[len - 1], self.back_vals[len - 1]);
            self.back_keys = &self.back_keys[..len - 1];
            Some(entry)
        } else {
            None
        }
    }

    // Takes the front to the next leaf, which may be the back's.
    #[inline(always)]
    fn enter_next<const N: usize>(&mut self, root: Node, pool: &'a NodePool<K, V, N>)
        requires union { IsUnion N pool.now }
        requires range { IsRange pool.now (Some root) self.old }
        requires more { self.old.is_one ≡ false }
        requires taken { front_held self.old ≡ [] }
        ensures left { left_in pool.now (Some root) self.new ≡ left_in pool.now (Some root) self.old }
        ensures range { IsRange pool.now (Some root) self.new }
        ensures some { self.new.is_one ≡ false → front_held self.new ≢ [] }
    {
        if let Some((spot, leaf)) = self.next_leaf(root, pool) {
            if !self.is_back(&spot) {
                self.start_at(spot, leaf, 0, pool);
                return;
            }
        }
        self.meet();
    }

    // Takes the back to the leaf before, which may be the front's.
    #[inline(always)]
    fn enter_prev<const N: usize>(&mut self, root: Node, pool: &'a NodePool<K, V, N>)
        requires union { IsUnion N pool.now }
        requires range { IsRange pool.now (Some root) self.old }
        requires more { self.old.is_one ≡ false }
        requires taken { back_held self.old ≡ [] }
        ensures left { left_in pool.now (Some root) self.new ≡ left_in pool.now (Some root) self.old }
        ensures range { IsRange pool.now (Some root) self.new }
        ensures some { self.new.is_one ≡ false → back_held self.new ≢ [] }
    {
        if let Some((spot, leaf)) = self.prev_leaf(root, pool) {
            if !self.is_front(&spot) {
                self.stop_in(spot, leaf, pool);
                return;
            }
        }
        self.is_one = true;
    }

    // The leaf behind the front's, and its place. Where the front has no leaf, it is the first.
    #[inline(always)]
    fn next_leaf<const N: usize>(
        &self,
        root: Node,
        pool: &NodePool<K, V, N>,
    ) -> Option<(Spot, Node)>
        requires union { IsUnion N pool.now }
        requires gap { IsOpen pool.now root self.now }
        ensures some { IfSome result (λ found.
            IsSpotAt pool.now root found.0 (leaf_behind pool.now root self.now)
            × IsLeafAt pool.now root (leaf_behind pool.now root self.now) found.1) }
        ensures none { result ≡ None → leaf_behind pool.now root self.now ≡ leaf_count pool.now root }
    {
        if self.has_front {
            self.spot.next(root, pool)
        } else {
            Some(Spot::first(root, pool))
        }
    }

    // The leaf before the back's, and its place. Where the back has no leaf, it is the last.
    #[inline(always)]
    fn prev_leaf<const N: usize>(
        &self,
        root: Node,
        pool: &NodePool<K, V, N>,
    ) -> Option<(Spot, Node)>
        requires union { IsUnion N pool.now }
        requires gap { IsOpen pool.now root self.now }
        ensures some { IfSome result (λ found. (0 < back_leaf pool.now root self.now)
            × IsSpotAt pool.now root found.0 (back_leaf pool.now root self.now - 1)
            × IsLeafAt pool.now root (back_leaf pool.now root self.now - 1) found.1) }
        ensures none { result ≡ None → back_leaf pool.now root self.now ≡ 0 }
    {
        if self.has_back {
            self.back_spot.prev(root, pool)
        } else {
            Some(Spot::last(root, pool))
        }
    }

    // Whether the back is in the leaf of this place.
    #[inline(always)]
    fn is_back(&self, spot: &Spot) -> bool
        ensures yes { result ≡ true → (self.now.has_back ≡ true) × (self.now.back_spot.code ≡ spot.now.code) }
        ensures no { result ≡ false → self.now.has_back ≡ true → self.now.back_spot.code ≢ spot.now.code }
    {
        self.has_back && self.back_spot.code() == spot.code()
    }

    // Whether the front is in the leaf of this place.
    #[inline(always)]
    fn is_front(&self, spot: &Spot) -> bool
        ensures yes { result ≡ true → (self.now.has_front ≡ true) × (self.now.spot.code ≡ spot.now.code) }
        ensures no { result ≡ false → self.now.has_front ≡ true → self.now.spot.code ≢ spot.now.code }
    {
        self.has_front && self.spot.code() == spot.code()
    }

    // Takes the front to the back's leaf, which has all entries that are left.
    #[inline(always)]
    fn meet(&mut self)
        ensures keys { self.new.keys.now ≡ self.old.back_keys.now }
        ensures vals { self.new.vals.now ≡ self.old.back_vals.now }
        ensures none { self.new.back_keys.now ≡ [] }
        ensures index { self.new.index ≡ 0 }
        ensures one { self.new.is_one ≡ true }
    {
        self.keys = self.back_keys;
        self.vals = self.back_vals;
        self.index = 0;
        self.back_keys = &[];
        self.is_one = true;
    }
}

// A bound of a range: the place of a key, or the place behind the key where it is present and `is_behind`.
#[derive(Clone, Copy, Drop)]
struct Limit<K> {
    key: K,
    is_behind: bool,
}

impl<K: Copy> Limit<K> {
    // The place where a range starts, if it has a bound there.
    #[inline(always)]
    fn of_start(bound: Bound<K>) -> Option<Limit<K>>
        ensures limit { result ≡ limit_of_start bound }
    {
        match bound {
            Bound::Included(key) => Some(Limit {
                key,
                is_behind: false,
            }),
            Bound::Excluded(key) => Some(Limit {
                key,
                is_behind: true,
            }),
            Bound::Unbounded => None,
        }
    }

    // The place where a range ends, if it has a bound there.
    #[inline(always)]
    fn of_end(bound: Bound<K>) -> Option<Limit<K>>
        ensures limit { result ≡ limit_of_end bound }
    {
        match bound {
            Bound::Included(key) => Some(Limit {
                key,
                is_behind: true,
            }),
            Bound::Excluded(key) => Some(Limit {
                key,
                is_behind: false,
            }),
            Bound::Unbounded => None,
        }
    }

    // The place in a leaf.
    #[inline(always)]
    fn place<V: Copy, const N: usize, C: Comparator<K>>(
        &self,
        leaf: Node,
        pool: &NodePool<K, V, N>,
        comp: &C,
    ) -> usize
        requires leaf { (entries : List (K × V))
            × (slice_get pool.now.nodes leaf ≡ Some (leaf_content entries))
            × IsIncreasing (C.order comp.now) entries }
        ensures place { (entries : List (K × V)) → slice_get pool.now.nodes leaf ≡ Some (leaf_content entries)
            → result ≡ limit_place (C.order comp.now) self.now entries }
    {
        let (index, value) = pool.node(leaf).look_up(self.key, comp);
        if self.is_behind && value.is_some() {
            index + 1
        } else {
            index
        }
    }
}

impl<K: Copy, V: Copy, const N: usize> Trees<K, V, N> {
    /// The entries within bounds: at most two searches, and one comparison. There are none where the start is behind the end.
    #[inline(always)]
    pub fn range<'a, C: Comparator<K>>(
        &'a self,
        handle: PackedNode,
        bounds: (Bound<K>, Bound<K>),
        comp: &C,
    ) -> Ends<'a, K, V>
        requires live { IsLive self.now handle }
        requires increasing { IsIncreasing (C.order comp.now) (list_of self.now handle) }
        ensures left { left_in self.now handle result
            ≡ entries_between (C.order comp.now) bounds.0 bounds.1 (list_of self.now handle) }
        ensures range { IsRange self.now handle result }
    {
        let mut ends = Ends::all();
        match handle.expand() {
            None => ends.is_one = true,
            Some(root) => ends.narrow(root, bounds, &self.pool, comp),
        }
        ends
    }

    /// Removes the first of the entries that are left, and returns it.
    #[inline(always)]
    pub fn range_next<'a>(&'a self, handle: PackedNode, ends: &mut Ends<'a, K, V>) -> Option<(K, V)>
        requires range { IsRange self.now handle ends.old }
        ensures steps { YieldsFirst (left_in self.now handle) ends.old result ends.new }
        ensures range { IsRange self.now handle ends.new }
    {
        let first = ends.take_first();
        if first.is_some() || ends.is_one {
            return first;
        }
        let root = handle.expand()?;
        ends.enter_next(root, &self.pool);
        ends.take_first()
    }

    /// Removes the last of the entries that are left, and returns it.
    #[inline(always)]
    pub fn range_next_back<'a>(
        &'a self,
        handle: PackedNode,
        ends: &mut Ends<'a, K, V>,
    ) -> Option<(K, V)>
        requires range { IsRange self.now handle ends.old }
        ensures steps { YieldsLast (left_in self.now handle) ends.old result ends.new }
        ensures range { IsRange self.now handle ends.new }
    {
        let last = ends.take_back();
        if last.is_some() {
            return last;
        }
        if ends.is_one {
            return ends.take_last();
        }
        let root = handle.expand()?;
        ends.enter_prev(root, &self.pool);
        match ends.take_back() {
            Some(last) => Some(last),
            None => ends.take_last(),
        }
    }
}
