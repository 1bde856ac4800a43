//! Values that are replaced, or inserted where the key is absent.

use bforest_indexed::{Maps, OutOfMemory};

#[test]
fn an_update_changes_one_map(rt: HostRuntime) {
    let mut maps: Maps<u32, u32, ()> = Maps::with_node_limit(rt.alloc(), (), 1);
    assert!(rt; maps.grow_to(2).is_ok());
    assert!(rt; 1 < maps.len());
    assert_eq!(rt; maps.update(1, 5, |value| value / 2), None);
    assert!(rt; 1 < maps.len());
    assert_eq!(rt; maps.update_or_insert(1, 5, 50, |value| value / 2), Ok(50));
    assert!(rt; 1 < maps.len());
    assert_eq!(rt; maps.update_or_insert(1, 5, 60, |value| value / 2), Ok(25));
    assert!(rt; 1 < maps.len());
    assert_eq!(rt; maps.update(1, 5, |value| value / 2), Some(12));
    assert!(rt; 1 < maps.len());
    assert_eq!(rt;
        maps.update_or_insert(0, 5, 60, |value| value / 2),
        Err(OutOfMemory::Full)
    );
    assert!(rt; 1 < maps.len());
    assert_eq!(rt; (maps.get(0, 5), maps.get(1, 5)), (None, Some(12)));
}

#[test]
fn a_loan_writes_the_value_of_one_map(rt: HostRuntime) {
    let mut maps: Maps<u32, u32, ()> = Maps::with_node_limit(rt.alloc(), (), 1);
    assert!(rt; maps.grow_to(2).is_ok());
    assert!(rt; 1 < maps.len());
    assert!(rt; maps.get_mut(1, 5).is_none());
    assert!(rt; 1 < maps.len());
    assert_eq!(rt; maps.insert(1, 5, 50), Ok(None));
    assert!(rt; 1 < maps.len());
    if let Some(value) = maps.get_mut(1, 5) {
        *value /= 2;
    }
    assert!(rt; 1 < maps.len());
    assert_eq!(rt; (maps.get(0, 5), maps.get(1, 5)), (None, Some(25)));
}
