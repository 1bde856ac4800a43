//! The order of entries that are given.
ghost use Rattle.bforest_nodes.specs.Entries.{IsIncreasing};
ghost use Rattle.bforest_trees.specs.Order.{IsUnorderedAt};
ghost use Rattle.std.specs.Prelude.{IfSome, None, ◌≡◌};

use bforest_core::{Comparator, Source};

/// Returns the first place whose key is not less than the next one's, if there is one, by at most one comparison for each key but the
/// first.
pub fn first_unordered<K: Copy, V: Copy, S: Source<K, V>, C: Comparator<K>>(
    entries: S,
    order: &C,
) -> Option<usize>
    ensures some { IfSome result (λ place. IsUnorderedAt (C.order order.now) (S.list entries) place) }
    ensures none { result ≡ None → IsIncreasing (C.order order.now) (S.list entries) }
{
    for next in 1..entries.len() {
        if !order
            .cmp(entries.entry(next - 1).0, entries.entry(next).0)
            .is_lt()
        {
            return Some(next - 1);
        }
    }
    None
}
