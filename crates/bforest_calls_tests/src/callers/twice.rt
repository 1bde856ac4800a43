//! Where no memory is refused, the first state, the calls, the orders and the numbers of new roots determine the answers.
ghost use Rattle.bforest_calls_tests.specs.Determined.{AreDetermined};
ghost use Rattle.std.specs.Prelude.{IfOk, false, map, true};

use bforest::{Comparator, Map, MapForest, Set, SetForest};
use bforest_calls::{Answer, Call, run_map, run_set};
use std::alloc::{AllocError, Global};

/// Makes the calls on maps of one forest, and then on maps of another one.
pub fn run_twice<K: Copy, V: Copy, C: Comparator<K>>(
    alloc: Global,
    calls: &[Call<K, V>],
    comps: &[C],
    handles: &mut [Map<K, V>],
    forest: &mut MapForest<K, V>,
    others: &mut [Map<K, V>],
    other: &mut MapForest<K, V>,
) -> Result<(Vec<Answer<K, V>>, Vec<Answer<K, V>>), AllocError>
    // Where both runs begin alike, had memory and went in step, they answer the same and end alike.
    ensures determined { IfOk result (λ answers. AreDetermined 7 true (map C.order comps.now) calls.now
        (record { forest = forest.old; handles = handles.old }) answers.0.items
        (record { forest = forest.new; handles = handles.new })
        (record { forest = other.old; handles = others.old }) answers.1.items
        (record { forest = other.new; handles = others.new })) }
{
    let first = run_map(alloc, calls, comps, handles, forest)?;
    let second = run_map(alloc, calls, comps, others, other)?;
    Ok((first, second))
}

/// Makes the calls on sets of one forest, and then on sets of another one.
pub fn run_twice_sets<K: Copy, C: Comparator<K>>(
    alloc: Global,
    calls: &[Call<K, ()>],
    comps: &[C],
    handles: &mut [Set<K>],
    forest: &mut SetForest<K>,
    others: &mut [Set<K>],
    other: &mut SetForest<K>,
) -> Result<(Vec<Answer<K, ()>>, Vec<Answer<K, ()>>), AllocError>
    // Where both runs begin alike, had memory and went in step, they answer the same and end alike.
    ensures determined { IfOk result (λ answers. AreDetermined 15 false (map C.order comps.now) calls.now
        (record { forest = forest.old; handles = handles.old }) answers.0.items
        (record { forest = forest.new; handles = handles.new })
        (record { forest = other.old; handles = others.old }) answers.1.items
        (record { forest = other.new; handles = others.new })) }
{
    let first = run_set(alloc, calls, comps, handles, forest)?;
    let second = run_set(alloc, calls, comps, others, other)?;
    Ok((first, second))
}
