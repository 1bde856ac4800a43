//! What a caller can prove of maps from their contracts alone.
ghost use Rattle.bforest.specs.Entries.{IsIncreasing, is_present, put, value_for};
ghost use Rattle.bforest.specs.Forest.{Becomes, IsLive, list_of};
ghost use Rattle.std.specs.List.{AllByRecursion, filter};
ghost use Rattle.std.specs.Ordering.{is_eq, is_lt};
ghost use Rattle.std.specs.Prelude.{IfOk, IfSome, IsOk, None, OnOk, Some, false, nat_le, true, ◌≡◌, ◌≢◌};

use bforest::{Comparator, Map, MapForest, OutOfMemory};

pub mod cursors;
pub mod loops;
pub mod room;
pub mod sets;

/// Inserts a value and looks its key up again: the lookup finds it.
pub fn insert_and_get<K: Copy, V: Copy, C: Comparator<K>>(
    map: &mut Map<K, V>,
    key: K,
    value: V,
    forest: &mut MapForest<K, V>,
    comp: &C,
) -> Result<Option<V>, OutOfMemory>
    requires live { IsLive forest.old map.old }
    requires increasing { IsIncreasing (C.order comp.now) (list_of forest.old map.old) }
    ensures { IfOk result (λ found. found ≡ Some value) }
{
    map.insert(key, value, forest, comp)?;
    Ok(map.get(key, forest, comp))
}

/// Inserts a value and looks another key up: its value stays.
pub fn insert_and_get_other<K: Copy, V: Copy, C: Comparator<K>>(
    map: &mut Map<K, V>,
    entry: (K, V),
    other: K,
    forest: &mut MapForest<K, V>,
    comp: &C,
) -> Result<Option<V>, OutOfMemory>
    requires live { IsLive forest.old map.old }
    requires increasing { IsIncreasing (C.order comp.now) (list_of forest.old map.old) }
    requires apart { is_eq (C.order comp.now entry.0 other) ≡ false }
    ensures { IfOk result
        (λ found. found ≡ value_for (C.order comp.now) (list_of forest.old map.old) other) }
{
    map.insert(entry.0, entry.1, forest, comp)?;
    Ok(map.get(other, forest, comp))
}

/// Removes a key, and returns the value that it had. Then it is absent.
pub fn remove_and_get<K: Copy, V: Copy, C: Comparator<K>>(
    map: &mut Map<K, V>,
    key: K,
    forest: &mut MapForest<K, V>,
    comp: &C,
) -> (Option<V>, Option<V>)
    requires live { IsLive forest.old map.old }
    requires increasing { IsIncreasing (C.order comp.now) (list_of forest.old map.old) }
    ensures value { result.0 ≡ value_for (C.order comp.now) (list_of forest.old map.old) key }
    ensures absent { result.1 ≡ None }
{
    let value = map.remove(key, forest, comp);
    (value, map.get(key, forest, comp))
}

/// Removes a key and looks another key up: its value stays.
pub fn remove_and_get_other<K: Copy, V: Copy, C: Comparator<K>>(
    map: &mut Map<K, V>,
    key: K,
    other: K,
    forest: &mut MapForest<K, V>,
    comp: &C,
) -> Option<V>
    requires live { IsLive forest.old map.old }
    requires increasing { IsIncreasing (C.order comp.now) (list_of forest.old map.old) }
    requires apart { is_eq (C.order comp.now key other) ≡ false }
    ensures { result ≡ value_for (C.order comp.now) (list_of forest.old map.old) other }
{
    map.remove(key, forest, comp);
    map.get(other, forest, comp)
}

/// Inserts a key behind all others: its entry is the last one then.
pub fn insert_behind_and_last<K: Copy, V: Copy, C: Comparator<K>>(
    map: &mut Map<K, V>,
    key: K,
    value: V,
    forest: &mut MapForest<K, V>,
    comp: &C,
) -> Result<Option<(K, V)>, OutOfMemory>
    requires live { IsLive forest.old map.old }
    requires increasing { IsIncreasing (C.order comp.now) (list_of forest.old map.old) }
    requires behind { AllByRecursion (λ e. is_lt (C.order comp.now e.0 key) ≡ true)
        (list_of forest.old map.old) }
    ensures { IfOk result (λ last. last ≡ Some (key, value)) }
{
    map.insert(key, value, forest, comp)?;
    Ok(map.last(forest))
}

/// The first entry that is not in front of a key: none where each is.
pub fn at_or_behind<K: Copy, V: Copy, C: Comparator<K>>(
    map: &Map<K, V>,
    key: K,
    forest: &MapForest<K, V>,
    comp: &C,
) -> Option<(K, V)>
    requires live { IsLive forest.now map.now }
    requires increasing { IsIncreasing (C.order comp.now) (list_of forest.now map.now) }
    ensures none { AllByRecursion (λ e. is_lt (C.order comp.now e.0 key) ≡ true)
        (list_of forest.now map.now) → result ≡ None }
    ensures not_in_front { IfSome result (λ e. is_lt (C.order comp.now e.0 key) ≡ false) }
{
    map.get_or_greater(key, forest, comp)
}

/// Keeps the entries whose values are at most `most`, in their order.
pub fn keep_up_to(map: &mut Map<u32, u32>, forest: &mut MapForest<u32, u32>, most: u32)
    requires live { IsLive forest.old map.old }
    ensures kept { list_of forest.new map.new ≡ filter (λ e. nat_le e.1 most) (list_of forest.old map.old) }
{
    map.retain(forest, |_key, value| *value <= most);
}

/// Replaces the value of a key that is present: that never fails.
pub fn overwrite<K: Copy, V: Copy, C: Comparator<K>>(
    map: &mut Map<K, V>,
    key: K,
    value: V,
    forest: &mut MapForest<K, V>,
    comp: &C,
) -> Result<Option<V>, OutOfMemory>
    requires live { IsLive forest.old map.old }
    requires increasing { IsIncreasing (C.order comp.now) (list_of forest.old map.old) }
    requires present { is_present (C.order comp.now) (list_of forest.old map.old) key ≡ true }
    ensures taken { IsOk result }
    ensures same_handle { map.new ≡ map.old }
{
    map.insert(key, value, forest, comp)
}

/// Inserts a value into one map: another map stays live and keeps its list, whether or not the insertion fails.
pub fn insert_beside<K: Copy, V: Copy, C: Comparator<K>>(
    map: &mut Map<K, V>,
    other: &Map<K, V>,
    entry: (K, V),
    forest: &mut MapForest<K, V>,
    comp: &C,
) -> Result<Option<V>, OutOfMemory>
    requires live { IsLive forest.old map.old }
    requires increasing { IsIncreasing (C.order comp.now) (list_of forest.old map.old) }
    requires other_live { IsLive forest.old other.now }
    requires apart { other.now ≢ map.old }
    ensures live { IsLive forest.new other.now }
    ensures list { list_of forest.new other.now ≡ list_of forest.old other.now }
{
    map.insert(entry.0, entry.1, forest, comp)
}

/// Inserts two entries, one after the other: both are one change of the map.
pub fn insert_both<K: Copy, V: Copy, C: Comparator<K>>(
    map: &mut Map<K, V>,
    first: (K, V),
    second: (K, V),
    forest: &mut MapForest<K, V>,
    comp: &C,
) -> Result<(), OutOfMemory>
    requires live { IsLive forest.old map.old }
    requires increasing { IsIncreasing (C.order comp.now) (list_of forest.old map.old) }
    ensures { OnOk result (Becomes forest.old map.old forest.new map.new
        (put (C.order comp.now)
        (put (C.order comp.now) (list_of forest.old map.old) first.0 first.1)
        second.0 second.1)) }
{
    map.insert(first.0, first.1, forest, comp)?;
    map.insert(second.0, second.1, forest, comp)?;
    Ok(())
}

/// Writes the value of a key that is present through a loan, and looks the key up again: the lookup finds it.
pub fn write_and_get<K: Copy, V: Copy, C: Comparator<K>>(
    map: &Map<K, V>,
    key: K,
    value: V,
    forest: &mut MapForest<K, V>,
    comp: &C,
) -> Option<V>
    requires live { IsLive forest.old map.now }
    requires increasing { IsIncreasing (C.order comp.now) (list_of forest.old map.now) }
    requires present { is_present (C.order comp.now) (list_of forest.old map.now) key ≡ true }
    ensures { result ≡ Some value }
{
    if let Some(place) = forest.get_mut(map, key, comp) {
        *place = value;
    }
    map.get(key, forest, comp)
}

/// Writes the value of a key through a loan, where it is present, and looks another key up: its value stays.
pub fn write_and_get_other<K: Copy, V: Copy, C: Comparator<K>>(
    map: &Map<K, V>,
    entry: (K, V),
    other: K,
    forest: &mut MapForest<K, V>,
    comp: &C,
) -> Option<V>
    requires live { IsLive forest.old map.now }
    requires increasing { IsIncreasing (C.order comp.now) (list_of forest.old map.now) }
    requires apart { is_eq (C.order comp.now entry.0 other) ≡ false }
    ensures { result ≡ value_for (C.order comp.now) (list_of forest.old map.now) other }
{
    if let Some(place) = forest.get_mut(map, entry.0, comp) {
        *place = entry.1;
    }
    map.get(other, forest, comp)
}
