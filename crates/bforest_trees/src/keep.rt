//! Keeping the entries of a tree by whether their keys are in another tree.
ghost use Rattle.bforest_core.specs.Paths.{StandsOn, list_under};
ghost use Rattle.bforest_core.specs.Trees.{IsUnion, is_root};
ghost use Rattle.bforest_nodes.specs.Entries.{IsIncreasing};
ghost use Rattle.bforest_trees.specs.Keep.{Kept, Nears, Reaches, Steps};
ghost use Rattle.std.specs.Prelude.{IsTrue, ◌≢◌, ℕ};

use bforest_core::{Comparator, Node, NodePool, PackedNode, Path};

/// Keeps the entries of the tree under a root whose keys are in the tree under `other`, or those whose keys are not, as `present` says.
/// Returns the new root, or `None` where no entry stays, and whether an entry was removed. The two roots differ.
///
/// Two paths walk side by side, so this takes at most one comparison for each entry of both trees. The tree's handle gets each new root at
/// once, so it is live where a comparison panics in plain Rust.
pub(crate) fn keep<K: Copy, V: Copy, const N: usize, C: Comparator<K>>(
    pool: &mut NodePool<K, V, N>,
    handle: &mut PackedNode,
    root: Node,
    other: Node,
    present: bool,
    comp: &C,
) -> (Option<Node>, bool)
    requires union { IsUnion N pool.old }
    requires root { IsTrue (is_root pool.old.nodes root) }
    requires other { IsTrue (is_root pool.old.nodes other) }
    requires apart { root ≢ other }
    requires increasing { IsIncreasing (C.order comp.now) (list_under pool.old root) }
    requires other_increasing { IsIncreasing (C.order comp.now) (list_under pool.old other) }
    ensures { Kept N pool.old pool.new root (C.order comp.now) present other result.0 result.1 }
{
    let mut root = root;
    let mut changed = false;
    let mut path = Path::default();
    let mut beside = Path::default();
    let mut mine = Some(path.first(root, pool));
    let mut theirs = Some(beside.first(other, pool));
    while let Some(entry) = mine {
        let stays = find_onwards(entry.0, &mut theirs, &mut beside, pool, comp) == present;
        changed |= !stays;
        let Some(step) = keep_step(stays, &mut path, handle, root, pool) else {
            return (None, changed);
        };
        root = step.0;
        mine = step.1;
    }
    (Some(root), changed)
}

// Whether a key is in the tree of a path, which stands at the key's place or in front of it, and goes there. `here` is the path's entry.
#[inline(always)]
fn find_onwards<K: Copy, V: Copy, const N: usize, C: Comparator<K>>(
    key: K,
    here: &mut Option<(K, V)>,
    path: &mut Path<K, V, N>,
    pool: &NodePool<K, V, N>,
    comp: &C,
) -> bool
    requires union { IsUnion N pool.now }
    requires nears { (root : ℕ) × Nears (C.order comp.now) pool.now root path.old here.old key }
    ensures reached { (root : ℕ) → Nears (C.order comp.now) pool.now root path.old here.old key
        → Reaches (C.order comp.now) pool.now root path.new here.new key result }
{
    while let Some(entry) = *here {
        let order = comp.cmp(entry.0, key);
        if !order.is_lt() {
            return order.is_eq();
        }
        *here = path.next(pool);
    }
    false
}

// Goes to the next entry from the one where a path stands, or to the end, and removes the entry unless it stays.
// Returns the new root and the path's new entry.
#[inline(always)]
fn keep_step<K: Copy, V: Copy, const N: usize>(
    stays: bool,
    path: &mut Path<K, V, N>,
    handle: &mut PackedNode,
    root: Node,
    pool: &mut NodePool<K, V, N>,
) -> Option<(Node, Option<(K, V)>)>
    requires union { IsUnion N pool.old }
    requires stands { (place : ℕ) × StandsOn pool.old root path.old place }
    ensures { Steps N pool.old pool.new root path.old path.new stays result }
{
    if stays {
        return Some((root, path.next(pool)));
    }
    let left = path.remove(pool)?;
    *handle = PackedNode::some(left);
    Some((left, path.entry(pool)))
}
