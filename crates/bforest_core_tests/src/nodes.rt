//! Leaves of known contents.
ghost use Rattle.bforest_nodes.specs.Content.{IsLeafCapacity, Leaf};
ghost use Rattle.std.specs.Prelude.{length, ◌<◌, ◌≡◌, ◌≤◌};

use bforest_core::NodeData;
use std::alloc::Global;

/// A leaf of these keys and values.
pub(crate) fn leaf_with<K: Copy, V: Copy, const N: usize>(
    alloc: Global,
    keys: &[K],
    vals: &[V],
) -> NodeData<K, V, N>
    requires capacity { IsLeafCapacity N }
    requires some { 0 < length keys.now }
    requires room { length keys.now ≤ N }
    requires even { length keys.now ≡ length vals.now }
    ensures { result ≡ Leaf keys.now vals.now }
{
    let mut node = NodeData::new(alloc).unwrap();
    node.leaf(keys[0], vals[0]);
    for index in 1..keys.len() {
        node.try_leaf_insert(index, keys[index], vals[index]);
    }
    node
}

/// The keys 0 to 254, and their values: the key in the upper half of each.
pub(crate) fn numbered() -> ([u8; 255], [u64; 255]) {
    let mut keys = [0u8; 255];
    let mut vals = [0u64; 255];
    for index in 0..255u8 {
        keys[index as usize] = index;
        vals[index as usize] = u64::from(index) << 32;
    }
    (keys, vals)
}
