//! The entries of a leaf, as they are stored in it.
ghost use Rattle.bforest_nodes.specs.Layout.{HasFront};
ghost use Rattle.std.specs.Borrow.{sem};
ghost use Rattle.std.specs.Prelude.{◌<◌, ◌≡◌, ◌≤◌, length, take};

use crate::row::Row;
use crate::source::Source;

/// Room for `N` entries. The node knows how many of them count.
#[derive(Drop)]
pub(crate) struct Entries<K, V, const N: usize> {
    pub(crate) keys: Row<K, N>,
    pub(crate) vals: Row<V, N>,
}

impl<K: Copy, V: Copy, const N: usize> Entries<K, V, N> {
    ghost use Rattle.bforest_nodes.specs.LendingEntries.{lends_front_vals};

    /// The keys, and the values for writing.
    pub(crate) fn parts_mut(&mut self, len: usize) -> (&[K], &mut [V])
        requires { len ≤ N }
        ensures* writes_back { sem 𝓛 (lends_front_vals K.row V.row N.row self.entry result.1) }
        ensures keys { result.0.now ≡ take len self.old.keys.items }
        ensures vals { result.1.now ≡ take len self.old.vals.items }
    {
        (self.keys.front(len), self.vals.front_mut(len))
    }

    /// Makes the first entries these, 1 to `N`, of which the first is there already.
    pub(crate) fn fill<S: Source<K, V>>(&mut self, entries: S)
        requires some { 0 < length (S.list entries) }
        requires few { length (S.list entries) ≤ N }
        requires first { HasFront 1 (S.list entries) self.old }
        ensures filled { HasFront (length (S.list entries)) (S.list entries) self.new }
    {
        for index in 1..entries.len().min(N) {
            let (key, value) = entries.entry(index);
            self.keys.push(index, key);
            self.vals.push(index, value);
        }
    }
}
