//! A list of calls on a map, and the same on a set, of which one request for memory may be refused. Where the run ends for that, the first
//! calls were made and no other; else one insertion is answered so, and all others are made. `tools/refuse_each` runs this with each request
//! for memory refused in turn.
#![tactic(auto)]

mod answers;

use answers::Inserted;
use bforest::{Map, MapForest, Set, SetForest};
use bforest_calls::{Act, Call, run_map, run_set};
use std::alloc::{AllocError, Global};
use std::io;

/// The number of keys that are inserted by a call each.
const BY_CALLS: u32 = 20;

/// The number of keys after which all entries are listed.
const LISTED: u32 = 5;

/// The last key: those behind `BY_CALLS` are inserted by a cursor.
const LAST: u32 = 30;

/// The results of the program.
#[derive(Clone, Copy)]
struct Seen {
    /// Whether the memory of a run, or of its list of calls, was refused.
    ended: u32,
    /// The number of insertions that were refused.
    refused: u32,
    is_right: bool,
}

/// Keys inserted in order, with all entries listed now and then.
fn calls<V: Copy>(alloc: Global, value: V) -> Result<Vec<Call<u32, V>>, AllocError> {
    let mut calls = Vec::new(alloc);
    for key in 1..=BY_CALLS {
        calls.push(Call::Insert {
            h: 0,
            c: 0,
            k: key,
            v: value,
        })?;
        if key % LISTED == 0 {
            calls.push(Call::Iter { h: 0 })?;
        }
    }
    let mut steps = Vec::new(alloc);
    for key in BY_CALLS + 1..=LAST {
        steps.push(Act::Put(key, value))?;
    }
    calls.push(Call::Edit { h: 0, c: 0, steps })?;
    calls.push(Call::Iter { h: 0 })?;
    Ok(calls)
}

/// Makes the calls on a map.
fn on_maps(alloc: Global, seen: &mut Seen) -> Result<(), AllocError> {
    let calls = calls(alloc, 1u32)?;
    let mut forest = MapForest::new(alloc);
    let mut handles = [Map::new()];
    let run = run_map(alloc, &calls, &[()], &mut handles, &mut forest);
    let mut left = Inserted::none();
    if forest.holds(&handles[0]) {
        for (key, _) in handles[0].iter(&forest) {
            left.add(key);
        }
    }
    answers::check(run, left, seen)
}

/// Makes the calls on a set.
fn on_sets(alloc: Global, seen: &mut Seen) -> Result<(), AllocError> {
    let calls = calls(alloc, ())?;
    let mut forest = SetForest::new(alloc);
    let mut handles = [Set::new()];
    let run = run_set(alloc, &calls, &[()], &mut handles, &mut forest);
    let mut left = Inserted::none();
    if forest.holds(&handles[0]) {
        for key in handles[0].iter(&forest) {
            left.add(key);
        }
    }
    answers::check(run, left, seen)
}

fn main(rt: HostRuntime) -> io::Result<()> {
    let mut seen = Seen {
        ended: 0,
        refused: 0,
        is_right: true,
    };
    if on_maps(rt.alloc(), &mut seen).is_err() {
        seen.ended = seen.ended.saturating_add(1);
    }
    if on_sets(rt.alloc(), &mut seen).is_err() {
        seen.ended = seen.ended.saturating_add(1);
    }
    println!(rt;
        "refused {} right {} ended {}",
        seen.refused.saturating_add(seen.ended),
        seen.is_right,
        seen.ended
    )
}
