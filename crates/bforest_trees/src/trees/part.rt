//! Removing the entries within bounds, and moving those behind a key to a tree of their own.
ghost use Rattle.bforest_trees.specs.Bounds.{is_past_end, start_behind, start_place};
ghost use Rattle.bforest_trees.specs.Calls.{CutsFrom, CutsTo, RemovesBetween, SplitsAt, SplitsOff};
ghost use Rattle.bforest_trees.specs.Forest.{IsLive, list_of};
ghost use Rattle.bforest_trees.specs.Place.{AtSpot, IsSpot};
ghost use Rattle.bforest_trees.specs.Thinned.{NextWithin, Stops, Thinned};
ghost use Rattle.bforest_core.specs.Paths.{IsAtEnd, OnEntry};
ghost use Rattle.bforest_core.specs.Trees.{IsUnion};
ghost use Rattle.bforest_nodes.specs.Entries.{IsIncreasing};
ghost use Rattle.std.specs.Prelude.{Err, IfOk, Ok, Some, false, slice_get, true, ◌≡◌};

use crate::trees::{Trees, packed};
use bforest_core::{Comparator, Node, NodePool, OutOfMemory, PackedNode, Path};
use std::ops::Bound;

impl<K: Copy, V: Copy, const N: usize> Trees<K, V, N> {
    /// Removes the entries whose keys are within bounds, and returns whether there was one. Where a bound is lacking, at most one search,
    /// and whole subtrees go. Else one search, and then one comparison for each leaf that goes whole, one for each other entry that goes, and
    /// two more.
    pub fn remove_range<C: Comparator<K>>(
        &mut self,
        handle: &mut PackedNode,
        bounds: (Bound<K>, Bound<K>),
        comp: &C,
    ) -> bool
        requires live { IsLive self.old handle.old }
        requires increasing { IsIncreasing (C.order comp.now) (list_of self.old handle.old) }
        ensures { RemovesBetween N (C.order comp.now) bounds.0 bounds.1 self.old handle.old result
            self.new handle.new }
    {
        let mut path = Path::default();
        if let Bound::Unbounded = bounds.1 {
            self.goto_start(*handle, &mut path, bounds.0, comp);
            return self.cut_at(handle, &mut path);
        }
        if let Bound::Unbounded = bounds.0 {
            self.goto_start(*handle, &mut path, behind(bounds.1), comp);
            return cut_front_at(&mut self.pool, handle, &mut path);
        }
        self.goto_start(*handle, &mut path, bounds.0, comp);
        remove_leaves(&mut self.pool, handle, &mut path, bounds.1, comp);
        let mut changed = false;
        while self.is_within(*handle, &path, bounds.1, comp) {
            self.remove_at(handle, &mut path);
            changed = true;
        }
        changed
    }

    // Removes the entry where a path stands and all behind it, and returns whether there was one. The path goes to the end.
    fn cut_at(&mut self, handle: &mut PackedNode, path: &mut Path<K, V, N>) -> bool
        requires live { IsLive self.old handle.old }
        requires stands { AtSpot self.old handle.old path.old }
        ensures { (at : AtSpot self.old handle.old path.old) → CutsFrom self.old handle.old at.place result
            self.new handle.new }
    {
        if path.leaf_pos().is_none() {
            return false;
        }
        *handle = packed(path.cut(&mut self.pool));
        true
    }

    /// Moves the entries whose keys are not less than `key` to a tree of their own, and returns its handle. One search.
    pub fn split_off<C: Comparator<K>>(
        &mut self,
        handle: &mut PackedNode,
        key: K,
        comp: &C,
    ) -> Result<PackedNode, OutOfMemory>
        requires live { IsLive self.old handle.old }
        requires increasing { IsIncreasing (C.order comp.now) (list_of self.old handle.old) }
        ensures { SplitsOff N (C.order comp.now) self.old handle.old key result self.new handle.new }
    {
        let mut path = Path::default();
        let _value = self.goto(*handle, &mut path, key, comp);
        let (front, behind) = part_at(&mut self.pool, *handle, &mut path)?;
        *handle = front;
        Ok(behind)
    }

    // Whether a path stands on an entry whose key is in front of an end bound.
    #[inline(always)]
    fn is_within<C: Comparator<K>>(
        &self,
        handle: PackedNode,
        path: &Path<K, V, N>,
        end: Bound<K>,
        comp: &C,
    ) -> bool
        requires live { IsLive self.now handle }
        requires stands { AtSpot self.now handle path.now }
        ensures yes { result ≡ true → (at : AtSpot self.now handle path.now) → (e : K × V)
            × (slice_get (list_of self.now handle) at.place ≡ Some e)
            × (is_past_end (C.order comp.now) end e.0 ≡ false) }
        ensures no { result ≡ false → (at : AtSpot self.now handle path.now) (e : K × V)
            → slice_get (list_of self.now handle) at.place ≡ Some e
            → is_past_end (C.order comp.now) end e.0 ≡ true }
    {
        match self.entry(handle, path) {
            Some(entry) => !is_past(end, entry.0, comp),
            None => false,
        }
    }

    // Goes to the first entry inside a start bound, or to the end.
    fn goto_start<C: Comparator<K>>(
        &self,
        handle: PackedNode,
        path: &mut Path<K, V, N>,
        start: Bound<K>,
        comp: &C,
    )
        requires live { IsLive self.now handle }
        requires increasing { IsIncreasing (C.order comp.now) (list_of self.now handle) }
        requires stands { AtSpot self.now handle path.old }
        ensures spot { IsSpot self.now handle path.new
            (start_place (C.order comp.now) start (list_of self.now handle)) }
    {
        match start {
            Bound::Included(key) => {
                let _value = self.goto(handle, path, key, comp);
            }
            Bound::Excluded(key) => {
                if self.goto(handle, path, key, comp).is_some() {
                    self.next(handle, path);
                }
            }
            Bound::Unbounded => {
                let _entry = self.first(handle, path);
            }
        }
    }
}

// Removes each leaf behind a path's whose entries are all in front of an end bound. The path stays on its entry.
fn remove_leaves<K: Copy, V: Copy, const N: usize, C: Comparator<K>>(
    pool: &mut NodePool<K, V, N>,
    handle: &mut PackedNode,
    path: &mut Path<K, V, N>,
    end: Bound<K>,
    comp: &C,
)
    requires union { IsUnion N pool.old }
    requires live { IsLive pool.old handle.old }
    requires increasing { IsIncreasing (C.order comp.now) (list_of pool.old handle.old) }
    requires stands { AtSpot pool.old handle.old path.old }
    ensures union { IsUnion N pool.new }
    ensures pool_at_end { IsAtEnd path.old → pool.new ≡ pool.old }
    ensures handle_at_end { IsAtEnd path.old → handle.new ≡ handle.old }
    ensures path_at_end { IsAtEnd path.old → path.new ≡ path.old }
    ensures thinned { (¬ IsAtEnd path.old) → (at : AtSpot pool.old handle.old path.old)
        → (t : Thinned N (C.order comp.now) end pool.old handle.old at.place pool.new handle.new path.new)
        × Stops (C.order comp.now) end t.behind t.after }
{
    if path.leaf_pos().is_none() {
        return;
    }
    while let Some(next) = leaf_within(pool, path, end, comp) {
        *handle = PackedNode::some(path.remove_next_leaf(next, pool));
    }
}

// The leaf behind a path's, if there is one whose entries are all in front of an end bound.
fn leaf_within<K: Copy, V: Copy, const N: usize, C: Comparator<K>>(
    pool: &NodePool<K, V, N>,
    path: &Path<K, V, N>,
    end: Bound<K>,
    comp: &C,
) -> Option<Node>
    requires union { IsUnion N pool.now }
    requires stands { OnEntry pool.now path.now }
    ensures next { (at : OnEntry pool.now path.now) → NextWithin (C.order comp.now) end at result }
{
    match path.next_leaf(pool) {
        None => None,
        Some(next) => {
            if is_past(end, next.1, comp) {
                None
            } else {
                Some(next.0)
            }
        }
    }
}

// Parts a tree where a path stands. Returns the handles of what is in front of the path, and of the entry there and all behind it.
fn part_at<K: Copy, V: Copy, const N: usize>(
    pool: &mut NodePool<K, V, N>,
    handle: PackedNode,
    path: &mut Path<K, V, N>,
) -> Result<(PackedNode, PackedNode), OutOfMemory>
    requires union { IsUnion N pool.old }
    requires live { IsLive pool.old handle }
    requires stands { AtSpot pool.old handle path.old }
    ensures union { IsUnion N pool.new }
    ensures ok { (at : AtSpot pool.old handle path.old) → IfOk result
        (λ t. SplitsAt N pool.old handle at.place (Ok t.1) pool.new t.0) }
    ensures err { (at : AtSpot pool.old handle path.old) (refused : OutOfMemory) → result ≡ Err refused
        → SplitsAt N pool.old handle at.place (Err refused) pool.new handle }
{
    if path.leaf_pos().is_none() {
        return Ok((handle, PackedNode::none()));
    }
    let need = path.nodes_to_detach();
    if need == 0 {
        return Ok((PackedNode::none(), handle));
    }
    pool.reserve(need)?;
    let (front, behind) = path.detach(pool);
    Ok((PackedNode::some(front), PackedNode::some(behind)))
}

// Removes the entries in front of a path, and returns whether there was one.
fn cut_front_at<K: Copy, V: Copy, const N: usize>(
    pool: &mut NodePool<K, V, N>,
    handle: &mut PackedNode,
    path: &mut Path<K, V, N>,
) -> bool
    requires union { IsUnion N pool.old }
    requires live { IsLive pool.old handle.old }
    requires stands { AtSpot pool.old handle.old path.old }
    ensures union { IsUnion N pool.new }
    ensures cuts { (at : AtSpot pool.old handle.old path.old) → CutsTo N pool.old handle.old at.place result
        pool.new handle.new }
{
    if path.leaf_pos().is_none() {
        let Some(root) = handle.take() else {
            return false
        };
        pool.free_tree(root);
        return true;
    }
    if path.nodes_to_detach() == 0 {
        return false;
    }
    *handle = PackedNode::some(path.cut_front(pool));
    true
}

// The start bound of what an end bound leaves out.
fn behind<K>(end: Bound<K>) -> Bound<K>
    ensures { result ≡ start_behind end }
{
    match end {
        Bound::Included(last) => Bound::Excluded(last),
        Bound::Excluded(first) => Bound::Included(first),
        Bound::Unbounded => Bound::Unbounded,
    }
}

// Whether a key is outside an end bound.
#[inline(always)]
fn is_past<K: Copy, C: Comparator<K>>(end: Bound<K>, key: K, comp: &C) -> bool
    ensures { result ≡ is_past_end (C.order comp.now) end key }
{
    match end {
        Bound::Included(last) => comp.cmp(last, key).is_lt(),
        Bound::Excluded(behind) => comp.cmp(behind, key).is_le(),
        Bound::Unbounded => false,
    }
}
