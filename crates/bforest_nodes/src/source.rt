//! Entries that are given in order.
ghost use Rattle.bforest_nodes.specs.Entries.{with_unit};
ghost use Rattle.std.specs.Prelude.{List, Some, drop, length, slice_get, take, ◌<◌, ◌≡◌, ◌≤◌};

use crate::set_value::SetValue;

/// A list of entries that is asked for its length, for the entry at an index, and for a part.
pub trait Source<K, V>: Copy {
    /// The list, which contracts cite.
    ghost list: { Self → List (K × V) };

    /// The number of entries.
    fn len(self) -> usize
        ensures { result ≡ length (list self) };

    /// The entry at an index.
    fn entry(self, index: usize) -> (K, V)
        requires { index < length (list self) }
        ensures { slice_get (list self) index ≡ Some result };

    /// The entries from an index on, or the first `most` of them.
    fn part(self, from: usize, most: usize) -> Self
        requires { from ≤ length (list self) }
        ensures { list result ≡ take most (drop from (list self)) };
}

/// Entries in a slice.
impl<K: Copy, V: Copy> Source<K, V> for &[(K, V)] {
    ghost list = { λ s. s.now };

    #[inline(always)]
    fn len(self) -> usize {
        (*self).len()
    }

    #[inline(always)]
    fn entry(self, index: usize) -> (K, V) {
        self[index]
    }

    #[inline(always)]
    fn part(self, from: usize, most: usize) -> Self {
        front(&self[from..], most)
    }
}

/// The keys of a set in a slice.
impl<K: Copy> Source<K, SetValue> for &[K] {
    ghost list = { λ s. with_unit s.now };

    #[inline(always)]
    fn len(self) -> usize {
        (*self).len()
    }

    #[inline(always)]
    fn entry(self, index: usize) -> (K, SetValue) {
        (self[index], ())
    }

    #[inline(always)]
    fn part(self, from: usize, most: usize) -> Self {
        front(&self[from..], most)
    }
}

// The first `most` elements, or all.
#[inline(always)]
fn front<T>(items: &[T], most: usize) -> &[T]
    ensures { result.now ≡ take most items.now }
{
    if most < items.len() {
        &items[..most]
    } else {
        items
    }
}
