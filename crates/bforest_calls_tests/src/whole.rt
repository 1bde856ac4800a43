//! Calls on whole sets: counted, cut, packed, and put together with another one.
use bforest::{Set, SetForest};
use bforest_calls::{Answer, Call, run_set};
use std::alloc::{AllocError, Global};
use std::ops::Bound;

/// The handle that is filled first, the one of its copy, and the one of a part.
const FILLED: usize = 0;

const COPY: usize = 1;

const TAIL: usize = 2;

/// The one comparator of a list.
const ORDER: usize = 0;

fn insert(k: u32) -> Call<u32, ()> {
    let (h, c, v) = (FILLED, ORDER, ());
    Call::Insert { h, c, k, v }
}

fn intersect(h: usize, other: usize) -> Call<u32, ()> {
    Call::Intersect { h, other, c: ORDER }
}

fn subtract(h: usize, other: usize) -> Call<u32, ()> {
    Call::Subtract { h, other, c: ORDER }
}

fn unite(h: usize, other: usize) -> Call<u32, ()> {
    Call::Unite { h, other, c: ORDER }
}

fn is_subset(h: usize, other: usize) -> Call<u32, ()> {
    Call::IsSubset { h, other, c: ORDER }
}

fn is_disjoint(h: usize, other: usize) -> Call<u32, ()> {
    Call::IsDisjoint { h, other, c: ORDER }
}

/// The keys of the first set from 20 on go to another handle.
fn split_off(to: usize) -> Call<u32, ()> {
    let (h, c, k) = (FILLED, ORDER, 20);
    Call::SplitOff { h, c, k, to }
}

/// Calls on the keys 10, 20 and 30, and on a copy. The load at the end is of `entries`.
fn calls(entries: Vec<(u32, ())>) -> [Call<u32, ()>; 26] {
    [
        insert(10),
        insert(20),
        insert(30),
        Call::DeepClone {
            from: FILLED,
            to: COPY,
        },
        // The copy has 10 and 30 then.
        Call::RemoveRange {
            h: COPY,
            c: ORDER,
            lo: Bound::Excluded(10),
            hi: Bound::Included(20),
        },
        Call::Len { h: COPY },
        // 20 is left, and all three are there again.
        subtract(FILLED, COPY),
        unite(FILLED, COPY),
        unite(FILLED, COPY),
        // 20 and 30 are in the third.
        Call::DeepClone {
            from: FILLED,
            to: TAIL,
        },
        Call::RemoveRange {
            h: TAIL,
            c: ORDER,
            lo: Bound::Unbounded,
            hi: Bound::Excluded(20),
        },
        // 30 is left.
        intersect(COPY, TAIL),
        Call::Compact { h: COPY },
        intersect(COPY, COPY),
        Call::Iter { h: TAIL },
        is_subset(COPY, TAIL),
        is_disjoint(COPY, TAIL),
        // 10 is left in the first, and 20 and 30 are in the copy.
        split_off(COPY),
        split_off(FILLED),
        is_disjoint(FILLED, COPY),
        is_subset(COPY, TAIL),
        is_subset(TAIL, COPY),
        subtract(TAIL, TAIL),
        Call::Len { h: TAIL },
        Call::Load { h: TAIL, entries },
        Call::Len { h: TAIL },
    ]
}

/// Their answers, where the entries of the third one are `tail`.
fn wanted(tail: Vec<(u32, ())>) -> [Answer<u32, ()>; 26] {
    [
        Answer::Put(Ok(None)),
        Answer::Put(Ok(None)),
        Answer::Put(Ok(None)),
        Answer::Made(Ok(())),
        Answer::Changed(true),
        Answer::Count(2),
        Answer::Changed(true),
        Answer::United(Ok(true)),
        Answer::United(Ok(false)),
        Answer::Made(Ok(())),
        Answer::Changed(true),
        Answer::Changed(true),
        Answer::Made(Ok(())),
        Answer::Changed(false),
        Answer::Pairs(tail),
        Answer::Holds(true),
        Answer::Holds(false),
        Answer::Made(Ok(())),
        Answer::NoIndex,
        Answer::Holds(true),
        Answer::Holds(true),
        Answer::Holds(true),
        Answer::Changed(true),
        Answer::Count(0),
        Answer::Made(Ok(())),
        Answer::Count(2),
    ]
}

fn are(answers: &[Answer<u32, ()>], wanted: &[Answer<u32, ()>]) -> bool {
    answers == wanted
}

/// The entries 20 and 30.
fn tail(alloc: Global) -> Result<Vec<(u32, ())>, AllocError> {
    let mut tail = Vec::new(alloc);
    tail.push((20, ()))?;
    tail.push((30, ()))?;
    Ok(tail)
}

fn are_right(alloc: Global) -> Result<bool, AllocError> {
    let answers = run_set(
        alloc,
        &calls(tail(alloc)?),
        &[()],
        &mut [Set::new(), Set::new(), Set::new()],
        &mut SetForest::new(alloc),
    )?;
    Ok(are(&answers, &wanted(tail(alloc)?)))
}

#[test]
fn whole_sets_are_answered(rt: HostRuntime) {
    assert_eq!(rt; are_right(rt.alloc()), Ok(true));
}
