//! Room that is reserved at a tight limit.

use bforest_indexed::{Maps, OutOfMemory, Sets};

// Ten maps of at most 20 entries have at most 80 nodes, so no insertion fails: in each turn the least keys go, and greater ones come.
#[test]
fn maps_in_their_room_refuse_nothing(rt: HostRuntime) {
    let mut maps: Maps<u32, u32, ()> = Maps::with_node_limit(rt.alloc(), (), 80);
    assert_eq!(rt; maps.reserve_for(11, 20), Err(OutOfMemory::Full));
    assert_eq!(rt; maps.reserve_for(usize::MAX, 20), Err(OutOfMemory::Full));
    assert_eq!(rt; maps.slots(), 0);
    assert_eq!(rt; maps.reserve_for(10, 20), Ok(()));
    assert_eq!(rt; (maps.slots(), maps.free_slots()), (80, 80));
    assert!(rt; maps.grow_to(10).is_ok());
    for key in 0..60u32 {
        for index in 0..10usize {
            assert!(rt; index < maps.len());
            if 20 <= key {
                assert_eq!(rt; maps.pop_first(index), Some((key - 20, key - 20)));
            }
            assert!(rt; index < maps.len());
            assert_eq!(rt; maps.insert(index, key, key), Ok(None));
        }
    }
    assert_eq!(rt; maps.reserve_for(10, 20), Ok(()));
    assert_eq!(rt; maps.slots(), 80);
}

// A set of at most 20 keys has at most 4 nodes. What is in use counts.
#[test]
fn used_nodes_are_part_of_the_room(rt: HostRuntime) {
    let mut sets: Sets<u32, ()> = Sets::with_node_limit(rt.alloc(), (), 8);
    assert!(rt; sets.grow_to(2).is_ok());
    for key in 0..20u32 {
        assert!(rt; 0 < sets.len());
        assert_eq!(rt; sets.insert(0, key), Ok(true));
    }
    assert_eq!(rt; (sets.slots(), sets.free_slots()), (3, 0));
    assert_eq!(rt; sets.reserve_for(2, 20), Ok(()));
    assert_eq!(rt; (sets.slots(), sets.free_slots()), (8, 5));
    assert_eq!(rt; sets.reserve_for(1, 20), Ok(()));
    assert_eq!(rt; sets.slots(), 8);
    assert_eq!(rt; sets.reserve_for(3, 20), Err(OutOfMemory::Full));
}
