//! Lists of many calls: a call that is refused, in any position, keeps none of the others from being made.
ghost use Rattle.std.proofs.Common.{rules};
ghost use Rattle.std.specs.Cmp.Rules.{comparing};
ghost use Rattle.std.specs.Ordering.{flip_args, nat_cmp};

use bforest::{Comparator, Map, MapForest, Set, SetForest};
use bforest_calls::{Answer, Call, run_map, run_set};
use std::alloc::{AllocError, Global};
use std::cmp::Ordering;

/// The number of calls in a list.
const CALLS: usize = 6;

/// The handles of a test: one that is filled, one that names no tree, and one whose list increases under the reversed order alone.
const FILLED: usize = 0;

const NONE: usize = 1;

const REVERSED: usize = 2;

/// A key behind those of a list, which is there before: so the filled tree keeps its node, and the one of the handle without a tree stays
/// free.
const LAST: u32 = 100;

/// The order of numbers with the largest first.
struct Reversed;

impl Comparator<u32> for Reversed {
    ghost order = { λ _. flip_args nat_cmp };

    ghost total = { λ _. Prim.search (comparing, rules) };

    fn cmp(&self, a: u32, b: u32) -> Ordering {
        b.cmp(&a)
    }
}

/// Why a call fails.
#[derive(Clone, Copy)]
enum Refusal {
    NoHandle,
    NoComparator,
    Dead,
    Unordered,
    NotOffered,
}

impl Refusal {
    /// A call on a set that is refused for this reason. Sets refuse what maps do, and calls that are not offered.
    fn call(self, alloc: Global) -> Call<u32, ()> {
        match self {
            Refusal::NoHandle => Call::Get { h: 9, c: 0, k: 1 },
            Refusal::NoComparator => Call::GetOrLess {
                h: FILLED,
                c: 1,
                k: 1,
            },
            Refusal::Dead => Call::Iter { h: NONE },
            Refusal::Unordered => Call::Remove {
                h: REVERSED,
                c: 0,
                k: 1,
            },
            Refusal::NotOffered => Call::Read {
                h: FILLED,
                c: 0,
                steps: Vec::new(alloc),
            },
        }
    }

    /// What it answers.
    fn answer(self) -> Answer<u32, ()> {
        match self {
            Refusal::NoHandle | Refusal::NoComparator => Answer::NoIndex,
            Refusal::Dead => Answer::Dead,
            Refusal::Unordered => Answer::Unordered,
            Refusal::NotOffered => Answer::NotOffered,
        }
    }
}

/// Insertions into the filled tree, with the refused call in one position.
fn list(
    alloc: Global,
    refusal: Refusal,
    position: usize,
) -> Result<Vec<Call<u32, ()>>, AllocError> {
    let mut calls = Vec::new(alloc);
    for at in 0..CALLS {
        calls.push(if at == position {
            refusal.call(alloc)
        } else {
            insert(FILLED, at as u32, ())
        })?;
    }
    Ok(calls)
}

fn insert<V: Copy>(h: usize, k: u32, v: V) -> Call<u32, V> {
    Call::Insert { h, c: 0, k, v }
}

/// Whether the answers are those of the list: new keys, but for the refused call.
fn are_right(answers: &[Answer<u32, ()>], refusal: Refusal, position: usize) -> bool {
    let mut at = 0usize;
    for answer in answers {
        let is_right = if at == position {
            *answer == refusal.answer()
        } else {
            *answer == Answer::Put(Ok(None))
        };
        if !is_right {
            return false;
        }
        at = at.saturating_add(1);
    }
    at == CALLS
}

/// Makes the list, and returns whether all answers are right and the filled tree has the other keys.
fn passes(alloc: Global, refusal: Refusal, position: usize) -> Result<bool, AllocError> {
    let mut forest = SetForest::new(alloc);
    let mut handles = [Set::new(), Set::new(), Set::new()];
    let filling = [
        insert(FILLED, LAST, ()),
        insert(NONE, 7, ()),
        insert(REVERSED, 1, ()),
        insert(REVERSED, 2, ()),
    ];
    run_set(alloc, &filling, &[Reversed], &mut handles, &mut forest)?;
    if forest.holds(&handles[NONE]) {
        handles[NONE].clone().clear(&mut forest);
    }
    let calls = list(alloc, refusal, position)?;
    let answers = run_set(alloc, &calls, &[()], &mut handles, &mut forest)?;
    let mut count = 0usize;
    if forest.holds(&handles[FILLED]) {
        for _ in handles[FILLED].iter(&forest) {
            count = count.saturating_add(1);
        }
    }
    Ok(are_right(&answers, refusal, position) && count == CALLS)
}

#[test]
fn a_refused_call_stops_no_other(rt: HostRuntime) {
    for position in 0..CALLS {
        for refusal in [
            Refusal::NoHandle,
            Refusal::NoComparator,
            Refusal::Dead,
            Refusal::Unordered,
            Refusal::NotOffered,
        ] {
            assert_eq!(rt; passes(rt.alloc(), refusal, position), Ok(true));
        }
    }
}

/// Makes as many insertions in one list, and returns whether each was answered as that of a new key.
fn are_made(alloc: Global, count: u32) -> Result<bool, AllocError> {
    let mut forest = MapForest::new(alloc);
    let mut handles = [Map::new()];
    let mut calls = Vec::new(alloc);
    for key in 0..count {
        calls.push(insert(0, key, key))?;
    }
    let answers = run_map(alloc, &calls, &[()], &mut handles, &mut forest)?;
    let mut made = 0u32;
    for answer in &answers {
        if *answer == Answer::Put(Ok(None)) {
            made = made.saturating_add(1);
        }
    }
    Ok(made == count && answers.len() == count as usize)
}

#[test]
fn a_list_of_any_length_is_made(rt: HostRuntime) {
    for count in 0..10u32 {
        assert_eq!(rt; are_made(rt.alloc(), count), Ok(true));
    }
}
