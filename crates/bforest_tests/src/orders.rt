//! Maps in custom orders, and one tree under several orders.
ghost use Rattle.std.proofs.Common.{rules};
ghost use Rattle.std.specs.Cmp.Rules.{comparing};
ghost use Rattle.std.specs.Ordering.{flip_args, nat_cmp, on};
ghost use Rattle.std.specs.Prelude.{◌/◌};

use crate::checked::NumberForest;
use bforest::{Comparator, Map, MapForest};
use std::cmp::Ordering;

/// The order of numbers with the largest first.
struct Reversed;

impl Comparator<u32> for Reversed {
    ghost order = { λ _. flip_args nat_cmp };

    ghost total = { λ _. Prim.search (comparing, rules) };

    fn cmp(&self, a: u32, b: u32) -> Ordering {
        b.cmp(&a)
    }
}

/// The order of numbers without their last digit, with a custom search.
struct Tens;

impl Comparator<u32> for Tens {
    ghost order = { λ _. on (λ k. k / 10) nat_cmp };

    ghost total = { λ _. Prim.search (comparing, rules) };

    fn cmp(&self, a: u32, b: u32) -> Ordering {
        (a / 10).cmp(&(b / 10))
    }

    fn search(&self, k: u32, s: &[u32]) -> Result<usize, usize> {
        let tens = k / 10;
        s.binary_search_by(|x| (*x / 10).cmp(&tens))
    }
}

#[test]
fn searches(rt: HostRuntime) {
    assert_eq!(rt; Comparator::cmp(&(), 2, 9), Ordering::Less);
    assert_eq!(rt; ().search(9, &[2, 9]), Ok(1));
    assert_eq!(rt; ().search(5, &[2, 9]), Err(1));
    assert_eq!(rt; ().search(5, &[]), Err(0));
}

#[test]
fn searches_in_custom_orders(rt: HostRuntime) {
    assert_eq!(rt; Reversed.search(5, &[9, 2]), Err(1));
    assert_eq!(rt; Tens.search(17, &[3, 12]), Ok(1));
    assert_eq!(rt; Tens.search(27, &[3, 12]), Err(2));
}

#[test]
fn upper_bounds(rt: HostRuntime) {
    assert_eq!(rt; ().upper_bound(9, &[2, 9]), 2);
    assert_eq!(rt; ().upper_bound(5, &[2, 9]), 1);
    assert_eq!(rt; Reversed.upper_bound(5, &[9, 2]), 1);
    assert_eq!(rt; Tens.upper_bound(17, &[3, 12]), 2);
}

#[test]
fn equal_keys_are_one_entry(rt: HostRuntime) {
    let mut forest: NumberForest = MapForest::new(rt.alloc());
    let mut map = Map::new();
    assert_eq!(rt; map.insert(12, 1, &mut forest, &Tens), Ok(None));
    assert_eq!(rt; map.insert(15, 2, &mut forest, &Tens), Ok(Some(1)));
    assert_eq!(rt; map.get(19, &forest, &Tens), Some(2));
    assert_eq!(rt; map.remove(17, &mut forest, &Tens), Some(2));
    assert!(rt; map.is_empty());
}
