//! Loops over cursors and ranges: their results follow from the contracts alone.
ghost use Rattle.bforest.specs.Cursor.{Goes, IsCursor, at_place, comparator, entries, forest_now, map_now, spot};
ghost use Rattle.bforest.specs.Forest.{Becomes, IsLive, list_of};
ghost use Rattle.bforest.specs.Memory.{MapsFitInMemory};
ghost use Rattle.bforest.specs.Entries.{IsIncreasing, put_all, value_at_place, with_value};
ghost use Rattle.bforest_tests.specs.Walks.{every_other, joined};
ghost use Rattle.std.specs.Prelude.{IfOk, OnOk, Some, length, remove, reverse, ◌++◌, ◌-◌, ◌<◌, ◌≡◌};

use bforest::{Comparator, Map, MapCursor, MapCursorMut, MapForest, MapRange, OutOfMemory};
use std::alloc::{AllocError, Global};

/// Removes every second entry of a map by one cursor: the first, the third and so on stay, and each other map.
pub fn remove_every_second<K: Copy, V: Copy, C: Comparator<K>>(
    map: &mut Map<K, V>,
    forest: &mut MapForest<K, V>,
    comp: &C,
)
    requires live { IsLive forest.old map.old }
    requires increasing { IsIncreasing (C.order comp.now) (list_of forest.old map.old) }
    ensures becomes { Becomes forest.old map.old forest.new map.new
        (every_other (list_of forest.old map.old)) }
{
    let mut cursor = map.cursor_mut(forest, comp);
    cursor.goto_first();
    thin_out(&mut cursor);
}

// Removes every second entry, from the second on. The cursor stands on the first.
fn thin_out<K: Copy, V: Copy, C: Comparator<K>>(cursor: &mut MapCursorMut<K, V, C>)
    requires valid { IsCursor C.order cursor.old }
    requires fits { MapsFitInMemory K.row V.row }
    requires first { spot cursor.old ≡ 0 }
    ensures becomes { Becomes (forest_now cursor.old) (map_now cursor.old) (forest_now cursor.new)
        (map_now cursor.new) (every_other (entries cursor.old)) }
    ensures goes { Goes C.order cursor.old cursor.new (spot cursor.new) }
{
    while cursor.next().is_some() {
        cursor.remove();
    }
}

/// Puts entries in by one cursor, one after the other. If one is refused, those before it are in.
pub fn put_all_by_cursor<K: Copy, V: Copy, C: Comparator<K>>(
    cursor: &mut MapCursorMut<K, V, C>,
    added: &[(K, V)],
) -> Result<(), OutOfMemory>
    requires valid { IsCursor C.order cursor.old }
    requires fits { MapsFitInMemory K.row V.row }
    ensures put { OnOk result (Becomes (forest_now cursor.old) (map_now cursor.old) (forest_now cursor.new)
        (map_now cursor.new) (put_all (C.order (comparator cursor.old)) (entries cursor.old) added.now)) }
    ensures goes { Goes C.order cursor.old cursor.new (spot cursor.new) }
{
    for entry in added {
        cursor.insert(entry.0, entry.1)?;
    }
    Ok(())
}

/// Joins the ranges of a map, each from its start to its end, where one begins at the end of the one before. Each other map stays.
pub fn join_ranges<K: Copy, C: Comparator<K>>(
    map: &mut Map<K, K>,
    forest: &mut MapForest<K, K>,
    comp: &C,
)
    requires live { IsLive forest.old map.old }
    requires increasing { IsIncreasing (C.order comp.now) (list_of forest.old map.old) }
    ensures becomes { Becomes forest.old map.old forest.new map.new
        (joined (C.order comp.now) (list_of forest.old map.old)) }
{
    let mut cursor = map.cursor_mut(forest, comp);
    cursor.goto_first();
    join_all(&mut cursor, comp);
}

// Joins all ranges. The cursor stands on the first range, or at the end where there is none.
fn join_all<K: Copy, C: Comparator<K>>(cursor: &mut MapCursorMut<K, K, C>, comp: &C)
    requires valid { IsCursor C.order cursor.old }
    requires fits { MapsFitInMemory K.row K.row }
    requires first { spot cursor.old ≡ 0 }
    ensures becomes { Becomes (forest_now cursor.old) (map_now cursor.old) (forest_now cursor.new)
        (map_now cursor.new) (joined (C.order comp.now) (entries cursor.old)) }
    ensures goes { Goes C.order cursor.old cursor.new (spot cursor.new) }
{
    if let Some(end) = cursor.value() {
        join_from(cursor, end, comp);
    }
}

// Joins the ranges from the first on, which ends at `end`. The cursor stands on it.
fn join_from<K: Copy, C: Comparator<K>>(cursor: &mut MapCursorMut<K, K, C>, end: K, comp: &C)
    requires valid { IsCursor C.order cursor.old }
    requires fits { MapsFitInMemory K.row K.row }
    requires first { spot cursor.old ≡ 0 }
    requires ends { value_at_place (entries cursor.old) 0 ≡ Some end }
    ensures becomes { Becomes (forest_now cursor.old) (map_now cursor.old) (forest_now cursor.new)
        (map_now cursor.new) (joined (C.order comp.now) (entries cursor.old)) }
    ensures goes { Goes C.order cursor.old cursor.new (spot cursor.new) }
{
    let mut end = end;
    while let Some(range) = cursor.next() {
        let last = range.1;
        if comp.cmp(end, range.0).is_eq() {
            extend(cursor, last);
        }
        end = last;
    }
}

// Removes the range where the cursor stands, and makes the range before it end at `end`. Then the cursor stands on the range before.
fn extend<K: Copy, C: Comparator<K>>(cursor: &mut MapCursorMut<K, K, C>, end: K)
    requires valid { IsCursor C.order cursor.old }
    requires fits { MapsFitInMemory K.row K.row }
    requires second { 0 < spot cursor.old }
    requires within { spot cursor.old < length (entries cursor.old) }
    ensures becomes { Becomes (forest_now cursor.old) (map_now cursor.old) (forest_now cursor.new)
        (map_now cursor.new) (with_value (remove (entries cursor.old) (spot cursor.old)) (spot cursor.old - 1) end) }
    ensures goes { Goes C.order cursor.old cursor.new (spot cursor.old - 1) }
{
    cursor.remove();
    cursor.prev();
    if let Some(value) = cursor.value_mut() {
        *value = end;
    }
}

/// Goes on until a cursor has no key: then it is at the end.
pub fn goto_end_by_steps<K: Copy, V: Copy, C: Comparator<K>>(cursor: &mut MapCursor<K, V, C>)
    requires fits { MapsFitInMemory K.row V.row }
    ensures { cursor.new ≡ at_place cursor.old (length cursor.old.entries) }
{
    while cursor.key().is_some() {
        cursor.next();
    }
}

/// Takes entries from a range, from its front or from its back as each step says. The entries from the front, those left and those from the
/// back, the last first, make up the range: each entry is taken once, whichever ends they are taken from.
pub fn take_from_ends<K: Copy, V: Copy, C: Comparator<K>>(
    alloc: Global,
    range: &mut MapRange<'_, K, V, C>,
    from_front: &[bool],
) -> Result<(Vec<(K, V)>, Vec<(K, V)>), AllocError>
    requires fits { MapsFitInMemory K.row V.row }
    ensures parted { IfOk result
        (λ parts. range.old ≡ parts.0.items ++ range.new ++ reverse parts.1.items) }
{
    let mut front = Vec::new(alloc);
    let mut back = Vec::new(alloc);
    for is_front in from_front {
        if *is_front {
            if let Some(entry) = range.next() {
                front.push(entry)?;
            }
        } else if let Some(entry) = range.next_back() {
            back.push(entry)?;
        }
    }
    Ok((front, back))
}
