//! The entries of a map, with the forest that owns them.
ghost use Rattle.bforest.specs.Forest.{IsLive, list_of};
ghost use Rattle.std.specs.Iterator.{YieldsFirst, item_count};
ghost use Rattle.std.specs.Prelude.{◌≡◌};

use crate::map::Map;
use crate::map_forest::{MAP_LEAF, MapForest};
use bforest_core::Path;
use std::marker::Model;

/// An iterator over the entries of a map, in order, which owns the forest. It is fused. [`Map::into_iter`] makes it. A step
/// compares nothing.
#[derive(Drop)]
pub struct MapIntoIter<K: Copy, V: Copy> {
    forest: MapForest<K, V>,
    // The path stands on the next entry to be returned, or at the end.
    path: Path<K, V, MAP_LEAF>,
}

impl<K: Copy, V: Copy> Model for MapIntoIter<K, V> {
    ghost use Rattle.bforest_trees.specs.Layout.{IsOnOrEnds, entries_from};
    ghost use Rattle.std.specs.Prelude.{List};

    ghost Value = { List (K × V) };

    ghost view = { λ i. entries_from i.forest i.path };

    ghost invariant = { λ i. IsOnOrEnds i.forest i.path };
}

impl<K: Copy, V: Copy> MapIntoIter<K, V> {
    /// Returns an iterator over the entries of a map.
    pub(crate) fn new(map: Map<K, V>, forest: MapForest<K, V>) -> MapIntoIter<K, V>
        requires live { IsLive forest map }
        ensures entries { result ≡ list_of forest map }
    {
        let path = forest.trees.path_to_first(map.root);
        MapIntoIter { forest, path }
    }
}

impl<K: Copy, V: Copy> Iterator for MapIntoIter<K, V> {
    type Item = (K, V);

    ghost next_gives = { YieldsFirst (λ entries. entries) };

    ghost remaining = { item_count (λ entries. entries) };

    fn next(&mut self) -> Option<(K, V)> {
        self.forest.trees.take_next(&mut self.path)
    }
}
