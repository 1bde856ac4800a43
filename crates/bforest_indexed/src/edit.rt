//! Work on one map by a writing cursor.
ghost use Rattle.bforest.specs.Cursor.{IsCursor, entries, forest_now, map_now, spot};
ghost use Rattle.bforest.specs.Entries.{IsIncreasing};
ghost use Rattle.bforest.specs.Forest.{Forest, IsSearchable, list_of};
ghost use Rattle.bforest.specs.Memory.{MapsFitInMemory};
ghost use Rattle.bforest.specs.declared.map_forest.TheConstants.{MAP_LEAF};
ghost use Rattle.bforest_indexed.specs.Edits.{Edits, Leaves};
ghost use Rattle.std.specs.Prelude.{Option, length, ◌≡◌, ℕ};

use bforest::{Comparator, Map, MapCursorMut, MapForest};

/// Work on one map by a writing cursor, which [`crate::Maps::edit`] lends for as long as the work takes.
///
/// The cursor may be moved, and may insert, write and remove. A closure would not do: it could put another cursor in the place of the one
/// that it was lent. So the work is a type, whose implementation shows that the cursor which it leaves continues the one that it got.
pub trait Edit<K: Copy, V: Copy, C: Comparator<K>>: Drop {
    /// What the work returns.
    type Answer;

    // Whether the work on a map, which a forest and a handle are, may return this and leave that forest and that handle: its list,
    // its nodes, and what it takes of the table.
    ghost leaves: { Self → Forest K V → Option ℕ → Self.Answer → Forest K V → Option ℕ → Type 0 };

    /// Does the work. The cursor stands at the end, behind the last entry.
    fn edit(self, cursor: &mut MapCursorMut<K, V, C>) -> Self::Answer
        requires valid { IsCursor C.order cursor.old }
        requires end { spot cursor.old ≡ length (entries cursor.old) }
        requires fits { MapsFitInMemory K.row V.row }
        ensures edits { Edits MAP_LEAF C.order cursor.old cursor.new }
        ensures leaves { leaves self (forest_now cursor.old) (map_now cursor.old) result
            (forest_now cursor.new) (map_now cursor.new) };
}

/// Lends a writing cursor of a map to some work, and returns what that returns.
pub(crate) fn lend<K: Copy, V: Copy, C: Comparator<K>, E: Edit<K, V, C>>(
    map: &mut Map<K, V>,
    forest: &mut MapForest<K, V>,
    order: &C,
    edit: E,
) -> E::Answer
    requires { IsSearchable (C.order order.now) forest.old map.old }
    ensures answer { E.leaves edit forest.old map.old result forest.new map.new }
    ensures leaves { Leaves MAP_LEAF forest.old map.old forest.new map.new }
    ensures increasing { IsIncreasing (C.order order.now) (list_of forest.new map.new) }
{
    let mut cursor = map.cursor_mut(forest, order);
    edit.edit(&mut cursor)
}
