//! Makes runs of the benchmark at a hundredth of their size, and writes a line for each: the kind, the size, the rounds of lookups, of
//! reads and of removals, and the checksum. `bench/run --quick` compares the checksums with those of Rust's own maps.
#![tactic(auto)]

use bforest_workloads_bench::{Kind, Rounds, run};
use std::io;

/// The name of a kind in a line.
fn name(kind: Kind) -> &'static str {
    match kind {
        Kind::Mixture => "Mixture",
        Kind::Indexed => "Indexed",
        Kind::Random => "Random",
        Kind::Ascending => "Ascending",
        Kind::RandomCursor => "RandomCursor",
        Kind::AscendingCursor => "AscendingCursor",
        Kind::Edges => "Edges",
        Kind::EdgesCursor => "EdgesCursor",
        Kind::SetMixture => "SetMixture",
        Kind::RandomSet => "RandomSet",
        Kind::AscendingSet => "AscendingSet",
        Kind::Ranges => "Ranges",
    }
}

/// No rounds: the maps are filled, and no more.
const FILLED: Rounds = Rounds {
    looks: 0,
    walks: 0,
    turns: 0,
};
/// Rounds of lookups alone.
const LOOKED_UP: Rounds = Rounds {
    looks: 3,
    walks: 0,
    turns: 0,
};
/// Rounds that read each entry alone.
const READ: Rounds = Rounds {
    looks: 0,
    walks: 20,
    turns: 0,
};
/// One round that removes entries, edits, inserts ranges between ranges, or reads by a cursor from the last entry back.
const TAKEN: Rounds = Rounds {
    looks: 0,
    walks: 0,
    turns: 1,
};

/// Makes a run and writes its line.
fn show(rt: HostRuntime, kind: Kind, size: u32, rounds: Rounds) -> io::Result<()> {
    let sum = run(rt.alloc(), kind, size, rounds);
    let Rounds {
        looks,
        walks,
        turns,
    } = rounds;
    println!(rt;
        "{} {} {} {} {} {}",
        name(kind),
        size,
        looks,
        walks,
        turns,
        sum
    )
}

/// Makes the runs of a kind: with no entry, and of a size, with rounds that read and with one that removes entries.
fn show_all(rt: HostRuntime, kind: Kind, size: u32) -> io::Result<()> {
    show(rt, kind, 0, FILLED)?;
    show(rt, kind, size, FILLED)?;
    show(rt, kind, size, READ)?;
    show(rt, kind, size, TAKEN)
}

/// Makes the runs of sets and of live ranges.
fn show_sets(rt: HostRuntime) -> io::Result<()> {
    show_all(rt, Kind::SetMixture, 1000)?;
    show(rt, Kind::SetMixture, 1000, LOOKED_UP)?;
    show_all(rt, Kind::RandomSet, 10_000)?;
    show(rt, Kind::RandomSet, 10_000, LOOKED_UP)?;
    show_all(rt, Kind::AscendingSet, 10_000)?;
    show(rt, Kind::AscendingSet, 10_000, LOOKED_UP)?;
    show_all(rt, Kind::Ranges, 10_000)?;
    show(rt, Kind::Ranges, 10_000, LOOKED_UP)
}

/// Makes the runs of maps that are read by cursors.
fn show_cursors(rt: HostRuntime) -> io::Result<()> {
    show_all(rt, Kind::RandomCursor, 10_000)?;
    show_all(rt, Kind::AscendingCursor, 10_000)?;
    show(rt, Kind::EdgesCursor, 0, READ)?;
    show(rt, Kind::EdgesCursor, 1000, READ)
}

fn main(rt: HostRuntime) -> io::Result<()> {
    show_all(rt, Kind::Mixture, 1000)?;
    show(rt, Kind::Mixture, 1000, LOOKED_UP)?;
    show(rt, Kind::Indexed, 1000, FILLED)?;
    show(rt, Kind::Indexed, 1000, TAKEN)?;
    show_all(rt, Kind::Random, 10_000)?;
    show(rt, Kind::Random, 10_000, LOOKED_UP)?;
    show_all(rt, Kind::Ascending, 10_000)?;
    show(rt, Kind::Ascending, 10_000, LOOKED_UP)?;
    show_all(rt, Kind::Edges, 1000)?;
    show_sets(rt)?;
    show_cursors(rt)
}
