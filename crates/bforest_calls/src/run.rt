//! Whole lists of calls, on maps or on sets.
ghost use Rattle.bforest_calls.specs.Machine.{MayStopAt, Run};
ghost use Rattle.std.specs.Prelude.{IfOk, OnErr, map, take, ℕ};

use crate::call::{Answer, Call};
use crate::collection::Collection;
use crate::engine::make;
use crate::known::Known;
use bforest::Comparator;
use std::alloc::{AllocError, Global};

/// Makes the calls in order. Room for all answers is taken first.
pub(crate) fn run<K: Copy, V: Copy, C: Comparator<K>, T: Collection<K, V>>(
    alloc: Global,
    calls: &[Call<K, V>],
    comps: &[C],
    handles: &mut [T],
    forest: &mut T::Forest,
) -> Result<Vec<Answer<K, V>>, AllocError>
    requires fits { T.fits }
    ensures run { IfOk result (λ answers. Run T.most T.READS (map C.order comps.now)
        (record { forest = T.trees forest.old; handles = T.numbers handles.old }) calls.now answers.items
        (record { forest = T.trees forest.new; handles = T.numbers handles.new })) }
    ensures err { OnErr result ((n : ℕ) × (answers : _) × Run T.most T.READS (map C.order comps.now)
        (record { forest = T.trees forest.old; handles = T.numbers handles.old }) (take n calls.now) answers
        (record { forest = T.trees forest.new; handles = T.numbers handles.new })
        × MayStopAt T.READS (map C.order comps.now)
        (record { forest = T.trees forest.new; handles = T.numbers handles.new }) calls.now n) }
{
    let mut answers = Vec::with_capacity(alloc, calls.len())?;
    let mut known = Known::new();
    for call in calls {
        let given = make(alloc, call, comps, handles, forest, &mut known)?;
        answers.push(given).unwrap();
    }
    Ok(answers)
}
