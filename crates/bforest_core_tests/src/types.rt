//! Nodes of other types than those of small maps, values that are lent, and packed numbers.
use crate::nodes::{leaf_with, numbered};
use bforest_core::{Node, NodeData, PackedNode, SetValue};
use std::mem::size_of;

// A node of a map or of a set of small numbers is one cache line.
const _: () = prove!(size_of::<NodeData<u32, u32, 7>>() == 64);

const _: () = prove!(size_of::<NodeData<u32, SetValue, 15>>() == 64);

#[test]
fn values_of_a_leaf_are_written(rt: HostRuntime) {
    let keys = [10u32, 20, 40];
    let mut leaf: NodeData<u32, u32, 7> = leaf_with(rt.alloc(), &keys, &keys);
    *leaf.value_mut(1) = 21;
    assert_eq!(rt; leaf.entry(1), (20, 21));
    let (keys, vals) = leaf.unwrap_leaf_mut();
    assert_eq!(rt; keys, [10u32, 20, 40].as_slice());
    assert_eq!(rt; vals.len(), 3);
    vals[2] = 41;
    assert_eq!(rt; leaf.entry(2), (40, 41));
}

#[test]
fn the_greatest_leaf_is_halved(rt: HostRuntime) {
    let alloc = rt.alloc();
    let (keys, vals) = numbered();
    let mut left: NodeData<u8, u64, 255> = leaf_with(alloc, &keys, &vals);
    let mut right = NodeData::new(alloc).unwrap();
    let halves = left.split(128, &mut right);
    assert_eq!(rt; halves.lhs_entries, 128);
    assert_eq!(rt; halves.rhs_entries, 127);
    assert_eq!(rt; halves.crit_key, 128);
    let (left_keys, left_vals) = left.unwrap_leaf();
    assert_eq!(rt; left_keys, &keys[..128]);
    assert_eq!(rt; left_vals, &vals[..128]);
    let (right_keys, right_vals) = right.unwrap_leaf();
    assert_eq!(rt; right_keys, &keys[128..]);
    assert_eq!(rt; right_vals, &vals[128..]);
}

#[test]
fn a_leaf_of_a_set_is_halved(rt: HostRuntime) {
    let alloc = rt.alloc();
    let keys = [1u16, 2, 3, 4, 5, 6, 7, 8, 9, 10, 11, 12, 13, 14, 15];
    let mut left: NodeData<u16, SetValue, 15> = leaf_with(alloc, &keys, &[(); 15]);
    let mut right = NodeData::new(alloc).unwrap();
    assert!(rt; !left.try_leaf_insert(15, 16, ()));
    let halves = left.split(15, &mut right);
    assert_eq!(rt; halves.lhs_entries, 8);
    assert_eq!(rt; halves.crit_key, 9);
    assert!(rt; right.try_leaf_insert(7, 16, ()));
    assert_eq!(rt;
        left.unwrap_leaf().0,
        [1u16, 2, 3, 4, 5, 6, 7, 8].as_slice()
    );
    assert_eq!(rt;
        right.unwrap_leaf().0,
        [9u16, 10, 11, 12, 13, 14, 15, 16].as_slice()
    );
}

#[test]
fn packed_numbers(rt: HostRuntime) {
    let greatest = Node::new(4294967294);
    let mut packed = PackedNode::some(greatest);
    assert!(rt; !packed.is_none());
    assert!(rt; packed.expand() == Some(greatest));
    assert!(rt; packed.take() == Some(greatest));
    assert!(rt; packed.is_none());
    assert!(rt; packed.take().is_none());
    assert!(rt; packed == PackedNode::none());
    assert!(rt; PackedNode::some(Node::new(0)) != PackedNode::none());
}
