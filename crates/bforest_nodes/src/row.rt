//! Elements stored inline in a node, which keeps how many of them count.
ghost use Rattle.std.specs.Prelude.{◌≡◌, ◌+◌, ◌-◌, ◌<◌, ◌≤◌, ◌∷◌, ◌++◌, [], ℕ, if◌then◌else◌, nat_le, nat_lt, take, drop, insert, remove, length, get_or, slice_get, slice_set, Some};
ghost use Rattle.std.specs.Borrow.{sem};

use crate::lent;
use std::mem::size_of_val;

/// The most elements of a row that moves them by a choice for each place. The places are the same at each call, so that the compiler needs
/// neither a loop nor a branch.
const SHORT: usize = 8;

/// The most bytes of such a row. Wider elements are moved by a function of memory, and only those that have to move.
const NARROW: usize = 96;

/// Room for `N` elements. Those after the ones that count have no meaning.
///
/// A move whose length is fixed takes a few instructions, and one of another length calls a function of memory. Therefore the numbers of
/// elements that halving and sharing move most often have a branch of their own, which moves elements without meaning too.
#[derive(Clone, Copy)]
pub(crate) struct Row<T, const N: usize> {
    pub(crate) items: [T; N],
}

impl<T: Copy, const N: usize> Row<T, N> {
    ghost use Rattle.bforest_nodes.specs.LendingRow.{lends_at, lends_front};

    /// The first `len` elements.
    pub(crate) fn front(&self, len: usize) -> &[T]
        requires { len ≤ N }
        ensures value { result.now ≡ take len self.now.items }
        ensures len { length result.now ≡ len }
    {
        &self.items[..len]
    }

    /// The element at an index of the first `len`.
    #[tactic(auto, using(crate::proofs::Rows::at_front))]
    pub(crate) fn at(&self, len: usize, index: usize) -> T
        requires room { len ≤ N }
        requires within { index < len }
        ensures { slice_get (take len self.now.items) index ≡ Some result }
    {
        self.items[index]
    }

    /// The element at an index, for writing.
    pub(crate) fn at_mut(&mut self, index: usize) -> &mut T
        requires { index < N }
        ensures* writes_back { sem 𝓛 (lends_at T.row N.row self.entry index result) }
        ensures value { slice_get self.old.items index ≡ Some result.now }
    {
        lent::element_mut(&mut self.items, index)
    }

    /// The first `len` elements, for writing.
    pub(crate) fn front_mut(&mut self, len: usize) -> &mut [T]
        requires { len ≤ N }
        ensures* writes_back { sem 𝓛 (lends_front T.row N.row self.entry result) }
        ensures value { result.now ≡ take len self.old.items }
    {
        lent::front_mut(&mut self.items, len)
    }

    /// Writes the element at an index of the first `len`.
    #[tactic(auto, using(crate::proofs::Rows::set_front))]
    pub(crate) fn set(&mut self, len: usize, index: usize, x: T)
        requires room { len ≤ N }
        requires within { index < len }
        ensures { take len self.new.items ≡ slice_set (take len self.old.items) index x }
    {
        self.items[index] = x;
    }

    /// Appends an element after the first `len`.
    pub(crate) fn push(&mut self, len: usize, x: T)
        requires { len < N }
        ensures { take (len + 1) self.new.items ≡ take len self.old.items ++ x ∷ [] }
    {
        self.items[len] = x;
    }

    // Whether the elements are many or wide, so that they are moved by a function of memory.
    #[inline(always)]
    fn is_large(&self) -> bool {
        N > SHORT || size_of_val(&self.items) > NARROW
    }

    /// Inserts an element at an index of the first `len`.
    pub(crate) fn insert(&mut self, len: usize, index: usize, x: T)
        requires room { len < N }
        requires within { index ≤ len }
        ensures { take (len + 1) self.new.items ≡ insert (take len self.old.items) index x }
    {
        if index < len {
            if self.is_large() {
                self.items.copy_within(index..len, index + 1);
            } else {
                shift_up(&mut self.items, index);
            }
        }
        self.items[index] = x;
    }

    /// Removes the element at an index of the first `len`.
    #[tactic(auto, using(crate::proofs::Rows::removed))]
    pub(crate) fn remove(&mut self, len: usize, index: usize)
        requires room { len ≤ N }
        requires within { index < len }
        ensures { take (len - 1) self.new.items ≡ remove (take len self.old.items) index }
    {
        if self.is_large() {
            self.items.copy_within(index + 1..len, index);
        } else if index == 0 {
            self.items.copy_within(1..N, 0);
        } else {
            shift_down(&mut self.items, index);
        }
    }

    /// The elements of the first `len` after the first `at`.
    #[tactic(auto, using(crate::proofs::Rows::removed_front))]
    pub(crate) fn tail(&self, len: usize, at: usize) -> Self
        requires room { len ≤ N }
        requires within { at ≤ len }
        ensures { take (len - at) result.items ≡ drop at (take len self.now.items) }
    {
        let mut row = *self;
        if at == N / 2 {
            row.items.copy_within(N / 2..N, 0);
        } else if at == N / 2 + 1 {
            row.items.copy_within(N / 2 + 1..N, 0);
        } else {
            row.items.copy_within(at..len, 0);
        }
        row
    }

    /// Inserts the first `count` elements of `front` before the first `len` of this row.
    pub(crate) fn put_before(&mut self, len: usize, front: &Self, count: usize)
        requires { count + len ≤ N }
        ensures { take (count + len) self.new.items ≡ take count front.now.items ++ take len self.old.items }
    {
        let half = N.saturating_sub(1) / 2;
        if count == half {
            self.items.copy_within(..N - half, half);
            self.items[..half].copy_from_slice(front.front(half));
        } else {
            self.items.copy_within(..len, count);
            self.items[..count].copy_from_slice(front.front(count));
        }
    }

    /// Appends the first `count` of the first `from_len` elements of `from` after the first `len` of this row.
    pub(crate) fn append(&mut self, len: usize, from: &Self, from_len: usize, count: usize)
        requires room { len + count ≤ N }
        requires from_room { from_len ≤ N }
        requires within { count ≤ from_len }
        ensures { take (len + count) self.new.items ≡ take len self.old.items ++ take count
            (take from_len from.now.items) }
    {
        if count == 1 {
            self.items[len] = from.items[0];
        } else if count == 2 {
            self.items[len] = from.items[0];
            self.items[len + 1] = from.items[1];
        } else {
            let items = &mut self.items[..];
            items[len..len + count].copy_from_slice(from.front(count));
        }
    }

    /// Removes the first `count` of the first `len` elements.
    #[tactic(auto, using(crate::proofs::Rows::removed_front))]
    pub(crate) fn remove_front(&mut self, len: usize, count: usize)
        requires room { len ≤ N }
        requires within { count ≤ len }
        ensures { take (len - count) self.new.items ≡ drop count (take len self.old.items) }
    {
        if count == 1 {
            self.items.copy_within(1..N, 0);
        } else if count == 2 {
            self.items.copy_within(2..N, 0);
        } else {
            self.items.copy_within(count..len, 0);
        }
    }
}

// Moves the elements from an index on up by one place, which drops the last. The one at the index stays there too.
fn shift_up<T: Copy, const N: usize>(items: &mut [T; N], index: usize)
    ensures len { length items.new ≡ length items.old }
    ensures moved { (j : ℕ) (d : T) → j < N
        → get_or items.new j d ≡ get_or items.old (if nat_le j index then j else j - 1) d }
{
    let old = *items;
    for at in 1..N {
        items[at] = if at <= index { old[at] } else { old[at - 1] };
    }
}

// Moves the elements after an index down by one place. The last stays in its place too.
fn shift_down<T: Copy, const N: usize>(items: &mut [T; N], index: usize)
    requires { index < N }
    ensures len { length items.new ≡ length items.old }
    ensures moved { (j : ℕ) (d : T) → j + 1 < N
        → get_or items.new j d ≡ get_or items.old (if nat_lt j index then j else j + 1) d }
{
    let old = *items;
    for at in 0..N - 1 {
        items[at] = if at < index { old[at] } else { old[at + 1] };
    }
}
