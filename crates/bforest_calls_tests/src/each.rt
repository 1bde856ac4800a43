//! Calls that lists of the other tests do not have, each of them once: on maps, and what sets do not offer.
use bforest::{Map, MapForest, Set, SetForest};
use bforest_calls::{Answer, Call, run_map, run_set};
use std::alloc::{AllocError, Global};

/// The handle of the tree that is filled, and the one of its copy.
const FILLED: usize = 0;

const COPY: usize = 1;

/// The one comparator of a list.
const ORDER: usize = 0;

/// The value that an insertion or an update writes.
const NEW: u32 = 7;

fn insert(k: u32, v: u32) -> Call<u32, u32> {
    let (h, c) = (FILLED, ORDER);
    Call::Insert { h, c, k, v }
}

fn greater(h: usize, k: u32) -> Call<u32, u32> {
    Call::GetOrGreater { h, c: ORDER, k }
}

/// Calls on the keys 10, 20 and 30, with the values 1, 2 and 3, and on a copy, in which these keys become others.
fn calls(keys: Vec<(u32, u32)>) -> [Call<u32, u32>; 12] {
    [
        insert(10, 1),
        insert(20, 2),
        insert(30, 3),
        greater(FILLED, 15),
        Call::First { h: FILLED },
        Call::Last { h: FILLED },
        Call::DeepClone {
            from: FILLED,
            to: COPY,
        },
        Call::PopFirst { h: FILLED },
        Call::PopLast { h: FILLED },
        Call::Shift {
            h: COPY,
            c: ORDER,
            from: 15,
            keys,
        },
        Call::IterBack { h: COPY },
        greater(COPY, 15),
    ]
}

/// Their answers, where the entries of the copy are `left` from the last to the first.
fn wanted(left: Vec<(u32, u32)>) -> [Answer<u32, u32>; 12] {
    [
        Answer::Put(Ok(None)),
        Answer::Put(Ok(None)),
        Answer::Put(Ok(None)),
        Answer::Pair(Some((20, 2))),
        Answer::Pair(Some((10, 1))),
        Answer::Pair(Some((30, 3))),
        Answer::Made(Ok(())),
        Answer::Pair(Some((10, 1))),
        Answer::Pair(Some((30, 3))),
        Answer::Done,
        Answer::Pairs(left),
        Answer::Unordered,
    ]
}

/// A list of a few values.
fn list<T: Copy, const N: usize>(alloc: Global, values: [T; N]) -> Result<Vec<T>, AllocError> {
    let mut list = Vec::new(alloc);
    for value in values {
        list.push(value)?;
    }
    Ok(list)
}

fn are<V: Copy + PartialEq>(answers: &[Answer<u32, V>], wanted: &[Answer<u32, V>]) -> bool {
    answers == wanted
}

fn are_right(alloc: Global) -> Result<bool, AllocError> {
    let keys = list(alloc, [(20, 25), (30, 15)])?;
    let left = list(alloc, [(15, 3), (25, 2), (10, 1)])?;
    let answers = run_map(
        alloc,
        &calls(keys),
        &[()],
        &mut [Map::new(), Map::new()],
        &mut MapForest::new(alloc),
    )?;
    Ok(are(&answers, &wanted(left)))
}

#[test]
fn calls_are_answered(rt: HostRuntime) {
    assert_eq!(rt; are_right(rt.alloc()), Ok(true));
}

/// A load of these entries, of which 10 has the value `first`, and updates and insertions of the keys 10 and 20.
fn updates<V: Copy>(entries: Vec<(u32, V)>, first: V, new: V) -> [Call<u32, V>; 6] {
    let (h, c) = (FILLED, ORDER);
    [
        Call::Load { h, entries },
        Call::GetOrInsert {
            h,
            c,
            k: 10,
            v: new,
        },
        Call::Update {
            h,
            c,
            k: 20,
            v: new,
        },
        Call::UpdateOrInsert {
            h,
            c,
            k: 20,
            v: first,
            put: new,
        },
        Call::UpdateOrInsert {
            h,
            c,
            k: 20,
            v: first,
            put: new,
        },
        Call::Update {
            h,
            c,
            k: 10,
            v: new,
        },
    ]
}

/// Makes them on a map, and returns whether each is answered as it has to be.
fn are_updated(alloc: Global) -> Result<bool, AllocError> {
    let entries = list(alloc, [(10, 1), (30, 3)])?;
    let answers = run_map(
        alloc,
        &updates(entries, 1, NEW),
        &[()],
        &mut [Map::new()],
        &mut MapForest::new(alloc),
    )?;
    let wanted = [
        Answer::Made(Ok(())),
        Answer::Put(Ok(Some(1))),
        Answer::Value(None),
        Answer::Put(Ok(Some(1))),
        Answer::Put(Ok(Some(NEW))),
        Answer::Value(Some(NEW)),
    ];
    Ok(are(&answers, &wanted))
}

/// Makes them on a set, and returns whether the load alone is offered.
fn load_alone_is_offered(alloc: Global) -> Result<bool, AllocError> {
    let entries = list(alloc, [(10, ())])?;
    let answers = run_set(
        alloc,
        &updates(entries, (), ()),
        &[()],
        &mut [Set::new()],
        &mut SetForest::new(alloc),
    )?;
    let wanted = [
        Answer::Made(Ok(())),
        Answer::NotOffered,
        Answer::NotOffered,
        Answer::NotOffered,
        Answer::NotOffered,
        Answer::NotOffered,
    ];
    Ok(are(&answers, &wanted))
}

#[test]
fn values_of_maps_are_updated(rt: HostRuntime) {
    assert_eq!(rt; are_updated(rt.alloc()), Ok(true));
}

#[test]
fn values_of_sets_are_not_updated(rt: HostRuntime) {
    assert_eq!(rt; load_alone_is_offered(rt.alloc()), Ok(true));
}
