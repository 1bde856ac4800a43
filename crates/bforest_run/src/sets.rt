//! Sets, as lines name them.
ghost use Rattle.bforest_run.specs.Answers.{at_start};
ghost use Rattle.std.specs.Prelude.{◌≡◌};

use crate::handles::{Handle, Handles};
use crate::shown::Counts;
use bforest::{Set, SetForest};
use bforest_calls::Known;
use std::alloc::Global;
use std::array;

/// The sets that lines name: an empty forest of at most `limit` slots, and empty handles.
pub(crate) fn sets(alloc: Global, limit: u32) -> Handles<(), Set<u32>>
    ensures { result ≡ at_start limit }
{
    Handles {
        forest: SetForest::with_node_limit(alloc, limit),
        handles: array::from_fn(|_| Set::new()),
        known: Known::new(),
    }
}

impl Handle<()> for Set<u32> {
    fn none() -> Set<u32> {
        Set::new()
    }

    fn counts(&self, forest: &SetForest<u32>) -> Counts {
        Counts {
            levels: self.levels(forest),
            slots: forest.slots(),
            free: forest.free_slots(),
        }
    }
}
