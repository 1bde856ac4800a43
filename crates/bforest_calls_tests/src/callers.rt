//! Two runs, one after the other, are one run of the joined list.
ghost use Rattle.bforest_calls.specs.Machine.{Run};
ghost use Rattle.std.specs.Prelude.{IfOk, false, map, true, ◌++◌};

use bforest::{Comparator, Map, MapForest, Set, SetForest};
use bforest_calls::{Answer, Call, run_map, run_set};
use std::alloc::{AllocError, Global};

pub mod beside;
pub mod counted;
pub mod exchanged;
pub mod twice;

/// Makes the first calls, then the second ones, on maps.
pub fn run_both<K: Copy, V: Copy, C: Comparator<K>>(
    alloc: Global,
    first: &[Call<K, V>],
    second: &[Call<K, V>],
    comps: &[C],
    handles: &mut [Map<K, V>],
    forest: &mut MapForest<K, V>,
) -> Result<(Vec<Answer<K, V>>, Vec<Answer<K, V>>), AllocError>
    ensures joined { IfOk result (λ answers. Run 7 true (map C.order comps.now)
        (record { forest = forest.old; handles = handles.old }) (first.now ++ second.now)
        (answers.0.items ++ answers.1.items) (record { forest = forest.new; handles = handles.new })) }
{
    let before = run_map(alloc, first, comps, handles, forest)?;
    let after = run_map(alloc, second, comps, handles, forest)?;
    Ok((before, after))
}

/// Makes the first calls, then the second ones, on sets.
pub fn run_both_sets<K: Copy, C: Comparator<K>>(
    alloc: Global,
    first: &[Call<K, ()>],
    second: &[Call<K, ()>],
    comps: &[C],
    handles: &mut [Set<K>],
    forest: &mut SetForest<K>,
) -> Result<(Vec<Answer<K, ()>>, Vec<Answer<K, ()>>), AllocError>
    ensures joined { IfOk result (λ answers. Run 15 false (map C.order comps.now)
        (record { forest = forest.old; handles = handles.old }) (first.now ++ second.now)
        (answers.0.items ++ answers.1.items) (record { forest = forest.new; handles = handles.new })) }
{
    let before = run_set(alloc, first, comps, handles, forest)?;
    let after = run_set(alloc, second, comps, handles, forest)?;
    Ok((before, after))
}
