//! Maps, as lines name them.
ghost use Rattle.bforest_run.specs.Answers.{at_start};
ghost use Rattle.std.specs.Prelude.{◌≡◌};

use crate::handles::{Handle, Handles};
use crate::shown::Counts;
use bforest::{Map, MapForest};
use bforest_calls::Known;
use std::alloc::Global;
use std::array;

/// The maps that lines name: an empty forest of at most `limit` slots, and empty handles.
pub(crate) fn maps(alloc: Global, limit: u32) -> Handles<u32, Map<u32, u32>>
    ensures { result ≡ at_start limit }
{
    Handles {
        forest: MapForest::with_node_limit(alloc, limit),
        handles: array::from_fn(|_| Map::new()),
        known: Known::new(),
    }
}

impl Handle<u32> for Map<u32, u32> {
    fn none() -> Map<u32, u32> {
        Map::new()
    }

    fn counts(&self, forest: &MapForest<u32, u32>) -> Counts {
        Counts {
            levels: self.levels(forest),
            slots: forest.slots(),
            free: forest.free_slots(),
        }
    }
}
