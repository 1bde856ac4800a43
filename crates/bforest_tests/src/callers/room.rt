//! What a caller can prove of the most nodes that maps and sets can have.
ghost use Rattle.bforest.specs.Forest.{list_of, sizes_of};
ghost use Rattle.bforest.specs.Room.{node_count};
ghost use Rattle.std.specs.Prelude.{length, ◌≤◌};

use bforest::{Map, MapForest, Set};

/// The most nodes of maps with fewer entries and with more: they never decrease.
pub fn nodes_for_two_maps<K: Copy, V: Copy>(fewer: usize, entries: usize) -> (usize, usize)
    requires ordered { fewer ≤ entries }
    ensures ordered { result.0 ≤ result.1 }
{
    (
        Map::<K, V>::nodes_for(fewer),
        Map::<K, V>::nodes_for(entries),
    )
}

/// The most nodes of sets with fewer keys and with more: they never decrease.
pub fn nodes_for_two_sets<K: Copy>(fewer: usize, keys: usize) -> (usize, usize)
    requires ordered { fewer ≤ keys }
    ensures ordered { result.0 ≤ result.1 }
{
    (Set::<K>::nodes_for(fewer), Set::<K>::nodes_for(keys))
}

/// Returns a number of nodes that a map of at most `entries` entries does not pass.
pub fn nodes_within<K: Copy, V: Copy>(
    map: &Map<K, V>,
    entries: usize,
    forest: &MapForest<K, V>,
) -> usize
    requires few { length (list_of forest.now map.now) ≤ entries }
    ensures within { node_count (sizes_of forest.now map.now) ≤ result }
{
    let _nodes = forest.nodes_in_use();
    Map::<K, V>::nodes_for(entries)
}
