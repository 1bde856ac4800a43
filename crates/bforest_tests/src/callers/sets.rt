//! What a caller can prove of sets from their contracts alone.
ghost use Rattle.bforest.specs.Entries.{IsIncreasing, is_present, value_for};
ghost use Rattle.bforest.specs.Forest.{IsLive, IsSearchable, limit_of, list_of, need_of};
ghost use Rattle.bforest.specs.Union.{united};
ghost use Rattle.bforest.specs.declared.set_forest.TheConstants.{SET_LEAF};
ghost use Rattle.std.specs.List.{list_any};
ghost use Rattle.std.specs.Map.{keys_of};
ghost use Rattle.std.specs.Ordering.{is_eq};
ghost use Rattle.std.specs.Prelude.{IfOk, IsOk, None, false, is_some, true, ◌≡◌, ◌≤◌};

use bforest::{Comparator, OutOfMemory, Set, SetForest};
use std::default::Default;

/// Inserts a key and looks for it: it is there.
pub fn insert_and_test<K: Copy, C: Comparator<K>>(
    set: &mut Set<K>,
    key: K,
    forest: &mut SetForest<K>,
    comp: &C,
) -> Result<bool, OutOfMemory>
    requires live { IsLive forest.old set.old }
    requires increasing { IsIncreasing (C.order comp.now) (list_of forest.old set.old) }
    ensures { IfOk result (λ found. found ≡ true) }
{
    set.insert(key, forest, comp)?;
    Ok(set.contains(key, forest, comp))
}

/// Removes a key, and returns whether it was there. Then it is absent.
pub fn remove_and_test<K: Copy, C: Comparator<K>>(
    set: &mut Set<K>,
    key: K,
    forest: &mut SetForest<K>,
    comp: &C,
) -> (bool, bool)
    requires live { IsLive forest.old set.old }
    requires increasing { IsIncreasing (C.order comp.now) (list_of forest.old set.old) }
    ensures was { result.0 ≡ is_present (C.order comp.now) (list_of forest.old set.old) key }
    ensures absent { result.1 ≡ false }
{
    let was = set.remove(key, forest, comp);
    (was, set.contains(key, forest, comp))
}

/// Inserts a key and looks for another: whether it is there stays.
pub fn insert_and_test_other<K: Copy, C: Comparator<K>>(
    set: &mut Set<K>,
    key: K,
    other: K,
    forest: &mut SetForest<K>,
    comp: &C,
) -> Result<bool, OutOfMemory>
    requires live { IsLive forest.old set.old }
    requires increasing { IsIncreasing (C.order comp.now) (list_of forest.old set.old) }
    requires apart { is_eq (C.order comp.now key other) ≡ false }
    ensures { IfOk result
        (λ found. found ≡ is_some (value_for (C.order comp.now) (list_of forest.old set.old) other)) }
{
    set.insert(key, forest, comp)?;
    Ok(set.contains(other, forest, comp))
}

/// Removes a key and looks for another: whether it is there stays.
pub fn remove_and_test_other<K: Copy, C: Comparator<K>>(
    set: &mut Set<K>,
    key: K,
    other: K,
    forest: &mut SetForest<K>,
    comp: &C,
) -> bool
    requires live { IsLive forest.old set.old }
    requires increasing { IsIncreasing (C.order comp.now) (list_of forest.old set.old) }
    requires apart { is_eq (C.order comp.now key other) ≡ false }
    ensures { result ≡ is_some (value_for (C.order comp.now) (list_of forest.old set.old) other) }
{
    set.remove(key, forest, comp);
    set.contains(other, forest, comp)
}

/// Reserves nodes and inserts a key that needs no more: where the nodes could be had, the insertion cannot fail.
pub fn insert_reserved<K: Copy, C: Comparator<K>>(
    set: &mut Set<K>,
    key: K,
    nodes: u32,
    forest: &mut SetForest<K>,
    comp: &C,
) -> Result<Result<bool, OutOfMemory>, OutOfMemory>
    requires live { IsLive forest.old set.old }
    requires increasing { IsIncreasing (C.order comp.now) (list_of forest.old set.old) }
    requires enough { need_of SET_LEAF (C.order comp.now) forest.old set.old key ≤ nodes }
    ensures { IfOk result (λ put. IsOk put) }
{
    forest.reserve_nodes(nodes)?;
    Ok(set.insert(key, forest, comp))
}

/// Whether a key compares equal to one of two sets' keys, by a loop over their union.
pub fn is_in_either<K: Copy, C: Comparator<K>>(
    set: &Set<K>,
    other: &Set<K>,
    key: K,
    forest: &SetForest<K>,
    comp: &C,
) -> bool
    requires searchable { IsSearchable (C.order comp.now) forest.now set.now }
    requires other { IsSearchable (C.order comp.now) forest.now other.now }
    ensures { result ≡ list_any (λ k. is_eq (C.order comp.now k key))
        (keys_of (united (C.order comp.now) (list_of forest.now set.now) (list_of forest.now other.now))) }
{
    'keys: for each in set.union(other, forest, comp) {
        if comp.cmp(each, key).is_eq() {
            return true;
        }
    }
    false
}

/// Makes an empty set, and tests whether it is empty.
pub fn make_empty<K: Copy>() -> (Set<K>, bool)
    ensures set { result.0 ≡ None }
    ensures empty { result.1 ≡ true }
{
    let set = Set::default();
    let is_empty = set.is_empty();
    (set, is_empty)
}

/// Whether as many nodes may be had as a limit says.
pub fn has_limit<K: Copy>(forest: &SetForest<K>, limit: u32) -> bool
    ensures { result ≡ true → limit_of forest.now ≡ limit }
{
    forest.node_limit() == limit
}
