//! The runs of `bforest_workloads_bench` for a caller in another language: `bench/driver.rs`, which makes equal runs on other maps.
#![tactic(auto)]

use bforest_workloads_bench::{Kind, Rounds, run, run_std};
use std::alloc::Global;

/// Makes the run of a kind, which is named by its number, on maps and sets of `bforest` or of the toolchain's standard library. Returns its
/// checksum, or 0 where there is no such run.
#[unsafe(no_mangle)]
pub extern "C" fn bench_run(
    alloc: Global,
    kind: u32,
    size: u32,
    looks: u32,
    walks: u32,
    turns: u32,
    is_std: bool,
) -> u64 {
    let rounds = Rounds {
        looks,
        walks,
        turns,
    };
    match Kind::of(kind) {
        Some(kind) if is_std => run_std(alloc, kind, size, rounds),
        Some(kind) => run(alloc, kind, size, rounds),
        None => 0,
    }
}
