//! New keys for the entries from one on.
ghost use Rattle.bforest_core.specs.Paths.{StandsAt, StandsOn, list_under};
ghost use Rattle.bforest_core.specs.Trees.{IsUnion};
ghost use Rattle.bforest_trees.specs.Shift.{MayRekey, ShiftedUnder, StepShifted};
ghost use Rattle.std.specs.Prelude.{Some, slice_get, ◌≡◌, ℕ};

use bforest_core::{Node, NodePool, Path};

/// Gives each entry, from the one where a path stands to the last, the key that `change` returns of its own. The path goes to the end.
pub(crate) fn shift<K: Copy, V: Copy, const N: usize, F: Fn(K) -> K>(
    pool: &mut NodePool<K, V, N>,
    root: Node,
    path: &mut Path<K, V, N>,
    change: F,
)
    requires union { IsUnion N pool.old }
    requires stands { (place : ℕ) × StandsAt pool.old root path.old place
        × MayRekey (F.pre change) place (list_under pool.old root) }
    ensures { (place : ℕ) → StandsAt pool.old root path.old place
        → ShiftedUnder (F.post change) N pool.old pool.new root place }
{
    while let Some(entry) = path.entry(pool) {
        let key = change(entry.0);
        shift_step(key, root, path, pool);
    }
}

// Writes the key of the entry where a path stands, and goes to the next entry, or to the end.
#[inline(always)]
fn shift_step<K: Copy, V: Copy, const N: usize>(
    key: K,
    root: Node,
    path: &mut Path<K, V, N>,
    pool: &mut NodePool<K, V, N>,
)
    requires union { IsUnion N pool.old }
    requires stands { (place : ℕ) × StandsOn pool.old root path.old place }
    ensures { (place : ℕ) → StandsOn pool.old root path.old place
        → StepShifted N pool.old pool.new root path.new place key }
{
    path.set_key(key, pool);
    path.next(pool);
}
