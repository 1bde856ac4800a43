//! Asking a predicate of each entry of a tree.
ghost use Rattle.bforest_core.specs.Paths.{StandsOn, list_under, sizes_under};
ghost use Rattle.bforest_core.specs.Trees.{IsUnion, is_root};
ghost use Rattle.bforest_trees.specs.Retain.{MayAskEach, Retained, RetainedNone, Stepped, SteppedLast};
ghost use Rattle.std.specs.Prelude.{IfSome, IsTrue, None, slice_get, suc, ◌≡◌, ℕ};

use crate::predicate::Predicate;
use bforest_core::{Node, NodePool, PackedNode, Path};

/// Calls a predicate on each entry of the tree under a root, in order, and keeps the entries for which it returns `true`, with the value
/// that the call left. Returns the new root, or `None` where no entry stays.
///
/// The tree's handle gets each new root at once, so it is live where a predicate panics in plain Rust.
pub(crate) fn retain<K: Copy, V: Copy, const N: usize, P: Predicate<K, V>>(
    pool: &mut NodePool<K, V, N>,
    handle: &mut PackedNode,
    root: Node,
    predicate: P,
) -> Option<Node>
    requires union { IsUnion N pool.old }
    requires root { IsTrue (is_root pool.old.nodes root) }
    requires callable { MayAskEach P.step P.may predicate (list_under pool.old root) }
    ensures retained { IfSome result (λ root'. Retained N P.step pool.old pool.new root root' predicate) }
    ensures ended { result ≡ None → RetainedNone N P.step pool.old pool.new root predicate }
{
    let mut predicate = predicate;
    let mut root = root;
    let mut path = Path::default();
    let mut here = Some(path.first(root, pool));
    while let Some(entry) = here {
        let step = retain_step(entry, &mut path, handle, root, pool, &mut predicate)?;
        root = step.0;
        here = step.1;
    }
    Some(root)
}

// Calls a predicate on the entry where a path stands, and goes to the next entry, or to the end. An entry for which it returns `false` is
// removed.
// Returns the new root and the path's new entry.
fn retain_step<K: Copy, V: Copy, const N: usize, P: Predicate<K, V>>(
    entry: (K, V),
    path: &mut Path<K, V, N>,
    handle: &mut PackedNode,
    root: Node,
    pool: &mut NodePool<K, V, N>,
    predicate: &mut P,
) -> Option<(Node, Option<(K, V)>)>
    requires union { IsUnion N pool.old }
    requires stands { (place : ℕ) × StandsOn pool.old root path.old place }
    requires callable { P.may predicate.old entry.0 entry.1 }
    ensures stepped { (place : ℕ) → StandsOn pool.old root path.old place
        → IfSome result (λ left. Stepped N P.step pool.old pool.new root left.0 path.new predicate.old predicate.new
        (list_under pool.old root) (sizes_under pool.old root) place entry.0 entry.1) }
    ensures here { (place : ℕ) → StandsOn pool.old root path.old place
        → IfSome result (λ left. left.1 ≡ slice_get (list_under pool.old root) (suc place)) }
    ensures ended { result ≡ None → (place : ℕ) → StandsOn pool.old root path.old place
        → SteppedLast N P.step pool.old pool.new root predicate.old predicate.new
        (list_under pool.old root) (sizes_under pool.old root) place entry.0 entry.1 }
{
    let (key, mut value) = entry;
    if predicate.ask(key, &mut value) {
        path.set_value(value, pool);
        return Some((root, path.next(pool)));
    }
    let left = path.remove(pool)?;
    *handle = PackedNode::some(left);
    Some((left, path.entry(pool)))
}
