//! The steps of a cursor, or those from the ends of a range, in turn.
ghost use Rattle.bforest_calls.specs.Steps.{Chained};
ghost use Rattle.bforest_calls.specs.declared.call.Seen.{Seen};
ghost use Rattle.std.specs.Prelude.{IfOk, OnErr, length, ◌<◌, ◌≡◌};

use crate::call::{Answer, Seen};
use std::alloc::{AllocError, Global};

/// A cursor or a range, which makes steps of type `A`.
pub(crate) trait Steps<A, K: Copy, V: Copy> {
    // What a step requires.
    ghost ready: { Self → Type 0 };

    // Whether a step from here may return this and lead there.
    ghost goes: { Self → A → Seen K V → Self → Type 0 };

    /// Makes one step.
    fn step(&mut self, step: &A) -> Seen<K, V>
        requires ready { ready self.old }
        ensures ready { ready self.new }
        ensures goes { goes self.old step.now result self.new };
}

/// Makes each step in turn, and returns the list of what they returned. Room for it is taken first.
pub(crate) fn each<A, K: Copy, V: Copy, S: Steps<A, K, V>>(
    alloc: Global,
    steps: &[A],
    stepper: &mut S,
) -> Result<Answer<K, V>, AllocError>
    requires ready { S.ready stepper.old }
    ensures chain { IfOk result (Chained S.goes stepper.old steps.now stepper.new) }
    ensures err { OnErr result (stepper.new ≡ stepper.old) }
    ensures some { OnErr result (0 < length steps.now) }
{
    let mut sights = Vec::with_capacity(alloc, steps.len())?;
    for step in steps {
        let sight = stepper.step(step);
        sights.push(sight).unwrap();
    }
    Ok(Answer::Script(sights))
}
