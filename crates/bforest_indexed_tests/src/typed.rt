//! Maps and sets by a type of index.
ghost use Rattle.std.specs.Prelude.{◌<◌, ◌^◌};

use crate::callers::push_and_get;
use bforest_indexed::{Idx, Maps, Sets};

/// A block of a function.
#[derive(Clone, Copy, Debug, PartialEq, Eq)]
struct Block(u32);

impl Idx for Block {
    ghost number = { λ block. block.0 };

    ghost names = { λ n. n < 2 ^ 32 };

    fn new(index: usize) -> Block {
        Block(index as u32)
    }

    fn index(self) -> usize {
        self.0 as usize
    }
}

#[test]
fn blocks_name_maps(rt: HostRuntime) {
    let mut maps: Maps<u32, char, (), Block> = Maps::typed(rt.alloc(), ());
    assert_eq!(rt; maps.len(), 0);
    assert_eq!(rt; push_and_get(&mut maps, 7, 'a'), Ok(Some('a')));
    assert!(rt; maps.len() < 2);
    assert_eq!(rt; maps.push().ok(), Some(Block(1)));
    assert!(rt; 1 < maps.len());
    maps.swap(Block(0), Block(1));
    assert!(rt; 1 < maps.len());
    assert_eq!(rt;
        (maps.get(Block(0), 7), maps.get(Block(1), 7)),
        (None, Some('a'))
    );
}

#[test]
fn blocks_name_sets(rt: HostRuntime) {
    let mut sets: Sets<u32, (), Block> = Sets::typed_with_node_limit(rt.alloc(), (), 1);
    assert!(rt; sets.grow_to(2).is_ok());
    assert!(rt; 1 < sets.len());
    assert_eq!(rt; sets.insert(Block(1), 7), Ok(true));
    assert!(rt; 1 < sets.len());
    assert_eq!(rt;
        (sets.contains(Block(0), 7), sets.contains(Block(1), 7)),
        (false, true)
    );
}
