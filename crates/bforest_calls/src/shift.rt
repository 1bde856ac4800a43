//! The new keys of a shift.
ghost use Rattle.bforest_calls.specs.State.{new_key};
ghost use Rattle.std.specs.Prelude.{◌≡◌};

use bforest::Comparator;
use std::cmp::Ordering;

/// The new key of the first pair whose old key compares equal to `key`, or `key` where there is none.
pub(crate) fn new_key<K: Copy, C: Comparator<K>>(comp: &C, keys: &[(K, K)], key: K) -> K
    ensures { result ≡ new_key (C.order comp.now) keys.now key }
{
    for pair in keys {
        if comp.cmp(pair.0, key) == Ordering::Equal {
            return pair.1;
        }
    }
    key
}
