//! Every node is accounted for after each call of a run: the counts of a forest tell that it adds up before, and each call keeps that.
ghost use Rattle.bforest.specs.Forest.{free_of, slots_of};
ghost use Rattle.bforest_calls_tests.specs.Counted.{AddsUpThroughout};
ghost use Rattle.std.specs.Prelude.{IfOk, false, map, true, ◌+◌, ◌≡◌};

use bforest::{Comparator, Map, MapForest, Set, SetForest};
use bforest_calls::{Answer, Call, run_map, run_set};
use std::alloc::{AllocError, Global};

/// Makes the calls on maps. Returns how many slots there were and how many nodes were in use, and the answers.
pub fn run_counted<K: Copy, V: Copy, C: Comparator<K>>(
    alloc: Global,
    calls: &[Call<K, V>],
    comps: &[C],
    handles: &mut [Map<K, V>],
    forest: &mut MapForest<K, V>,
) -> Result<(u32, u32, Vec<Answer<K, V>>), AllocError>
    ensures counted { IfOk result (λ told. (told.0 ≡ slots_of forest.old)
        × (free_of forest.old + told.1 ≡ told.0)) }
    ensures adds_up { IfOk result (λ told. AddsUpThroughout 7 true (map C.order comps.now)
        (record { forest = forest.old; handles = handles.old }) calls.now told.2.items
        (record { forest = forest.new; handles = handles.new })) }
{
    let slots = forest.slots();
    let nodes = forest.nodes_in_use();
    let answers = run_map(alloc, calls, comps, handles, forest)?;
    Ok((slots, nodes, answers))
}

/// Makes the calls on sets. Returns how many slots there were and how many nodes were in use, and the answers.
pub fn run_counted_sets<K: Copy, C: Comparator<K>>(
    alloc: Global,
    calls: &[Call<K, ()>],
    comps: &[C],
    handles: &mut [Set<K>],
    forest: &mut SetForest<K>,
) -> Result<(u32, u32, Vec<Answer<K, ()>>), AllocError>
    ensures counted { IfOk result (λ told. (told.0 ≡ slots_of forest.old)
        × (free_of forest.old + told.1 ≡ told.0)) }
    ensures adds_up { IfOk result (λ told. AddsUpThroughout 15 false (map C.order comps.now)
        (record { forest = forest.old; handles = handles.old }) calls.now told.2.items
        (record { forest = forest.new; handles = handles.new })) }
{
    let slots = forest.slots();
    let nodes = forest.nodes_in_use();
    let answers = run_set(alloc, calls, comps, handles, forest)?;
    Ok((slots, nodes, answers))
}
