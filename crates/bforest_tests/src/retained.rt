//! Maps of which a predicate keeps some entries.

use crate::checked::{NumberForest, ascending, entries};
use bforest::MapForest;
use std::test::Fail;

// The value of each key becomes the number of its call: it is called on each entry once, in order.
#[test]
fn each_entry_is_asked_once_and_in_order(rt: HostRuntime) -> Result<(), Fail> {
    let mut forest: NumberForest = MapForest::new(rt.alloc());
    let mut map = ascending(&rt, 36, &mut forest);
    let mut asked = 0u32;
    assert!(rt; forest.holds(&map));
    map.retain(&mut forest, |key, value| {
        asked = asked.wrapping_add(1);
        *value = asked;
        key % 2 == 0
    });
    assert_eq!(rt; asked, 36);
    let all = entries(&rt, rt.alloc(), &map, &forest)?;
    assert_eq!(rt; all.len(), 18);
    for (key, value) in &all {
        assert_eq!(rt; *key % 2, 0);
        assert_eq!(rt; *value, *key);
    }
    Ok(())
}
