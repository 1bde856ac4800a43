//! A tree that no call changes stays as it is.
ghost use Rattle.bforest.specs.Forest.{list_at};
ghost use Rattle.bforest_calls_tests.specs.Sparing.{IsSpared, Spares};
ghost use Rattle.std.specs.Prelude.{All, [], ◌≢◌, ℕ};

use bforest::{Comparator, Map, MapForest, Set, SetForest};
use bforest_calls::{Answer, Call, run_map, run_set};
use std::alloc::{AllocError, Global};

/// Makes the calls on maps. Each tree that they spare keeps its list, whether or not memory was refused.
pub fn run_beside<K: Copy, V: Copy, C: Comparator<K>>(
    alloc: Global,
    calls: &[Call<K, V>],
    comps: &[C],
    handles: &mut [Map<K, V>],
    forest: &mut MapForest<K, V>,
) -> Result<Vec<Answer<K, V>>, AllocError>
    ensures spared { (m : ℕ) → list_at forest.old m ≢ []
        → All (Spares m (record { forest = forest.old; handles = handles.old })) calls.now
        → IsSpared m (record { forest = forest.old; handles = handles.old })
        (record { forest = forest.new; handles = handles.new }) }
{
    run_map(alloc, calls, comps, handles, forest)
}

/// Makes the calls on sets. Each tree that they spare keeps its list, whether or not memory was refused.
pub fn run_beside_sets<K: Copy, C: Comparator<K>>(
    alloc: Global,
    calls: &[Call<K, ()>],
    comps: &[C],
    handles: &mut [Set<K>],
    forest: &mut SetForest<K>,
) -> Result<Vec<Answer<K, ()>>, AllocError>
    ensures spared { (m : ℕ) → list_at forest.old m ≢ []
        → All (Spares m (record { forest = forest.old; handles = handles.old })) calls.now
        → IsSpared m (record { forest = forest.old; handles = handles.old })
        (record { forest = forest.new; handles = handles.new }) }
{
    run_set(alloc, calls, comps, handles, forest)
}
