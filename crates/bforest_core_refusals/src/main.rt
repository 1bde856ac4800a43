//! Taking and reserving nodes in a pool, where one call may fail for lack of memory: it changes nothing then, and succeeds when it is
//! made again. `tools/refuse_each` runs it with each request for memory refused in turn.
#![tactic(auto)]

use bforest_core::{Node, NodePool, OutOfMemory};
use std::io;

/// A pool of numbers keyed by numbers.
type Pool = NodePool<u32, u32, 7>;

/// The results of the run so far.
#[derive(Clone, Copy)]
struct Seen {
    refused: u32,
    is_right: bool,
}

/// The number of slots, the number of free ones, and a digest of what the slots hold.
fn state(pool: &Pool) -> (u32, u32, u32) {
    let mut digest = 1u32;
    for number in 0..pool.slots() {
        let node = pool.node(Node::new(number));
        let held = if node.is_free() {
            0
        } else {
            node.entries() as u32
        };
        digest = digest.wrapping_mul(31).wrapping_add(held);
    }
    (pool.slots(), pool.free(), digest)
}

/// Takes a node, once more if it failed.
fn take(pool: &mut Pool, key: u32, seen: &mut Seen) {
    let before = state(pool);
    if let Err(error) = pool.alloc_node(key, key) {
        is_unchanged(pool, error, before, seen);
        if pool.alloc_node(key, key).is_err() {
            seen.is_right = false;
        }
    }
}

/// Reserves `n` free nodes, once more if it failed.
fn reserve(pool: &mut Pool, n: u32, seen: &mut Seen) {
    let before = state(pool);
    if let Err(error) = pool.reserve(n) {
        is_unchanged(pool, error, before, seen);
        if pool.reserve(n).is_err() {
            seen.is_right = false;
        }
    }
    if pool.free() < n {
        seen.is_right = false;
    }
}

/// Checks that a refusal was for lack of memory, and changed nothing.
fn is_unchanged(pool: &Pool, error: OutOfMemory, before: (u32, u32, u32), seen: &mut Seen) {
    seen.refused = seen.refused.saturating_add(1);
    if error != OutOfMemory::Memory || state(pool) != before {
        seen.is_right = false;
    }
}

fn main(rt: HostRuntime) -> io::Result<()> {
    let mut pool = NodePool::new(rt.alloc());
    let mut seen = Seen {
        refused: 0,
        is_right: true,
    };
    for key in 0..40 {
        take(&mut pool, key, &mut seen);
    }
    reserve(&mut pool, 100, &mut seen);
    for key in 0..100 {
        take(&mut pool, key, &mut seen);
    }
    pool.clear();
    reserve(&mut pool, 300, &mut seen);
    println!(rt;
        "refused {} right {} slots {} free {}",
        seen.refused,
        seen.is_right,
        pool.slots(),
        pool.free()
    )
}
