//! The calls of a benchmark: whole runs on numbers. Each run builds its maps or sets, works on them, drops them, and returns a checksum of
//! its answers, or 0 where memory was refused. Rounds that change nothing can be repeated any number of times: the difference of two runs
//! is the time of one round.
#![tactic(auto)]

mod edges;
mod edits;
mod indexed;
mod large;
mod mixture;
mod one_map;
mod one_set;
mod random;
mod ranges;
mod small_sets;
mod smalls;
mod standard;
mod walks;

use crate::indexed::Indexed;
use crate::small_sets::SmallSets;
use crate::smalls::Smalls;
use crate::standard::Standards;
use std::alloc::Global;
use std::collections::{BTreeMap, BTreeSet};

/// How many rounds a run makes, once its maps or sets are filled.
#[derive(Clone, Copy)]
pub struct Rounds {
    /// Rounds of lookups, or of tests.
    pub looks: u32,
    /// Rounds that read entries.
    pub walks: u32,
    /// Rounds of what else the run does. What it does once alone, it does if there are any.
    pub turns: u32,
}

/// The subject of a run: what it fills at first, and what its rounds do.
#[derive(Clone, Copy)]
pub enum Kind {
    /// `size` small maps, by 30 calls for each, in no order: half insert, a quarter looks up and a quarter removes, on 20 keys. Then
    /// rounds of as many lookups, rounds that read each entry, and, if there are turns, the clearing of each map.
    Mixture,
    /// The maps of `Mixture`, named by an index.
    Indexed,
    /// One map of `size` entries, inserted in no order. Then rounds of as many lookups, rounds that read each entry, and, if there are
    /// turns, the removal of each key.
    Random,
    /// One map, as in `Random`, inserted in ascending order.
    Ascending,
    /// The map of `Random`. Rounds read each entry by a cursor from the first on, and turns from the last back.
    RandomCursor,
    /// The map of `Ascending`, with the rounds of `RandomCursor`.
    AscendingCursor,
    /// One to four edges out of each of `size` blocks of a control flow graph, in a map of predecessors for each block. Then rounds that
    /// read each map, and turns that redirect each edge to the block behind its target, by a removal and an insertion.
    Edges,
    /// The maps of `Edges`. Rounds read each map by a cursor, from the first entry on.
    EdgesCursor,
    /// `size` small sets, by the calls of `Mixture`: half insert, a quarter tests and a quarter removes.
    SetMixture,
    /// One set of `size` keys, inserted in no order. Then rounds of as many tests, rounds that read each key, and turns of a tenth as many
    /// edits: a cursor inserts five keys beside one another, and removes five from the first of them on.
    RandomSet,
    /// One set, as in `RandomSet`, inserted in ascending order.
    AscendingSet,
    /// `size` live ranges in one map, from the point where each begins to its end, inserted in order, by one cursor per eight ranges. Then
    /// rounds of as many look-ups of the last range that begins at a point or before, and rounds that read the first and the last of as
    /// many spans. If there are turns, then as many ranges more between those, each behind the one that its cursor inserted before.
    Ranges,
}

impl Kind {
    /// The kind of a number, in the order above.
    pub fn of(number: u32) -> Option<Kind> {
        Some(match number {
            0 => Kind::Mixture,
            1 => Kind::Indexed,
            2 => Kind::Random,
            3 => Kind::Ascending,
            4 => Kind::RandomCursor,
            5 => Kind::AscendingCursor,
            6 => Kind::Edges,
            7 => Kind::EdgesCursor,
            8 => Kind::SetMixture,
            9 => Kind::RandomSet,
            10 => Kind::AscendingSet,
            11 => Kind::Ranges,
            _ => return None,
        })
    }
}

/// Makes a run on maps and sets of `bforest`.
pub fn run(alloc: Global, kind: Kind, size: u32, rounds: Rounds) -> u64 {
    match kind {
        Kind::Mixture => run_mixture(alloc, size, calls(size), rounds),
        Kind::Indexed => run_indexed(alloc, size, calls(size), rounds),
        Kind::Random => run_large(alloc, size, true, rounds),
        Kind::Ascending => run_large(alloc, size, false, rounds),
        Kind::RandomCursor => run_large_cursor(alloc, size, true, rounds),
        Kind::AscendingCursor => run_large_cursor(alloc, size, false, rounds),
        Kind::Edges => run_edges(alloc, size, rounds),
        Kind::EdgesCursor => run_edges_cursor(alloc, size, rounds),
        Kind::SetMixture => run_set_mixture(alloc, size, calls(size), rounds),
        Kind::RandomSet => run_large_set(alloc, size, true, rounds),
        Kind::AscendingSet => run_large_set(alloc, size, false, rounds),
        Kind::Ranges => run_ranges(alloc, size, rounds),
    }
}

/// Makes a run of small maps, of edges read by `iter`, or of small sets, on maps and sets of the toolchain's standard library. Of any other
/// kind returns 0.
pub fn run_std(alloc: Global, kind: Kind, size: u32, rounds: Rounds) -> u64 {
    match kind {
        Kind::Mixture | Kind::Indexed => run_std_mixture(alloc, size, calls(size), rounds),
        Kind::Edges => run_std_edges(alloc, size, rounds),
        Kind::SetMixture => run_std_set_mixture(alloc, size, calls(size), rounds),
        _ => 0,
    }
}

// The number of calls that fill the maps or sets of a mixture.
fn calls(size: u32) -> u32 {
    size.saturating_mul(30)
}

fn run_mixture(alloc: Global, size: u32, calls: u32, rounds: Rounds) -> u64 {
    mixture::run(Smalls::new(alloc, size).ok(), size, calls, rounds).unwrap_or(0)
}

fn run_indexed(alloc: Global, size: u32, calls: u32, rounds: Rounds) -> u64 {
    mixture::run(Indexed::new(alloc, size), size, calls, rounds).unwrap_or(0)
}

fn run_large(alloc: Global, size: u32, is_mixed: bool, rounds: Rounds) -> u64 {
    large::run(alloc, size, is_mixed, rounds).unwrap_or(0)
}

fn run_large_cursor(alloc: Global, size: u32, is_mixed: bool, rounds: Rounds) -> u64 {
    large::run_by_cursor(alloc, size, is_mixed, rounds).unwrap_or(0)
}

fn run_edges(alloc: Global, size: u32, rounds: Rounds) -> u64 {
    edges::run(Smalls::new(alloc, size).ok(), size, rounds).unwrap_or(0)
}

fn run_edges_cursor(alloc: Global, size: u32, rounds: Rounds) -> u64 {
    edges::run_by_cursor(alloc, size, rounds).unwrap_or(0)
}

fn run_set_mixture(alloc: Global, size: u32, calls: u32, rounds: Rounds) -> u64 {
    mixture::run(SmallSets::new(alloc, size).ok(), size, calls, rounds).unwrap_or(0)
}

fn run_large_set(alloc: Global, size: u32, is_mixed: bool, rounds: Rounds) -> u64 {
    large::run_set(alloc, size, is_mixed, rounds).unwrap_or(0)
}

fn run_ranges(alloc: Global, size: u32, rounds: Rounds) -> u64 {
    ranges::run(alloc, size, rounds).unwrap_or(0)
}

fn run_std_mixture(alloc: Global, size: u32, calls: u32, rounds: Rounds) -> u64 {
    let smalls = Standards::<BTreeMap<u32, u32>>::new(alloc, size).ok();
    mixture::run(smalls, size, calls, rounds).unwrap_or(0)
}

fn run_std_edges(alloc: Global, size: u32, rounds: Rounds) -> u64 {
    let smalls = Standards::<BTreeMap<u32, u32>>::new(alloc, size).ok();
    edges::run(smalls, size, rounds).unwrap_or(0)
}

fn run_std_set_mixture(alloc: Global, size: u32, calls: u32, rounds: Rounds) -> u64 {
    let smalls = Standards::<BTreeSet<u32>>::new(alloc, size).ok();
    mixture::run(smalls, size, calls, rounds).unwrap_or(0)
}
