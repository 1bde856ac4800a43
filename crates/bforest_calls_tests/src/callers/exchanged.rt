//! Aliases of one tree answer alike.
ghost use Rattle.bforest_calls.specs.Machine.{Run};
ghost use Rattle.bforest_calls_tests.specs.Exchange.{AreAliases, exchanged};
ghost use Rattle.std.specs.Prelude.{IfOk, false, map, swap, true, ℕ};

use bforest::{Comparator, Map, MapForest, Set, SetForest};
use bforest_calls::{Answer, Call, run_map, run_set};
use std::alloc::{AllocError, Global};

/// Makes the calls on maps. Where two handles are aliases, the calls with both exchanged may give the same answers, and leave the same
/// forest and the handles with both exchanged.
pub fn run_either<K: Copy, V: Copy, C: Comparator<K>>(
    alloc: Global,
    calls: &[Call<K, V>],
    comps: &[C],
    handles: &mut [Map<K, V>],
    forest: &mut MapForest<K, V>,
) -> Result<Vec<Answer<K, V>>, AllocError>
    ensures exchanged { IfOk result (λ answers. (i j : ℕ) → AreAliases handles.old i j
        → Run 7 true (map C.order comps.now)
        (record { forest = forest.old; handles = handles.old }) (map (exchanged i j) calls.now) answers.items
        (record { forest = forest.new; handles = swap handles.new i j })) }
{
    run_map(alloc, calls, comps, handles, forest)
}

/// Makes the calls on sets. Where two handles are aliases, the calls with both exchanged may give the same answers, and leave the same
/// forest and the handles with both exchanged.
pub fn run_either_sets<K: Copy, C: Comparator<K>>(
    alloc: Global,
    calls: &[Call<K, ()>],
    comps: &[C],
    handles: &mut [Set<K>],
    forest: &mut SetForest<K>,
) -> Result<Vec<Answer<K, ()>>, AllocError>
    ensures exchanged { IfOk result (λ answers. (i j : ℕ) → AreAliases handles.old i j
        → Run 15 false (map C.order comps.now)
        (record { forest = forest.old; handles = handles.old }) (map (exchanged i j) calls.now) answers.items
        (record { forest = forest.new; handles = swap handles.new i j })) }
{
    run_set(alloc, calls, comps, handles, forest)
}
