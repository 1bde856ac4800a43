//! The predecessors of the blocks of a control flow graph: a map for each block, from the number of an edge to the block where it begins.

use crate::Rounds;
use crate::mixture::{Collections, walk_all};
use crate::random::{Random, added};
use crate::smalls::Smalls;
use std::alloc::Global;

/// Makes a whole run, as described at `run_edges`.
pub(crate) fn run<S: Collections + Drop>(
    smalls: Option<S>,
    blocks: u32,
    rounds: Rounds,
) -> Option<u64> {
    let mut smalls = smalls?;
    add_all(&mut smalls, blocks)?;
    let mut sum = 0u64;
    for _ in 0..rounds.walks {
        sum = sum.wrapping_add(walk_all(&smalls, blocks));
    }
    for turn in 0..rounds.turns {
        sum = sum.wrapping_add(lead_all(&mut smalls, blocks, turn)?);
    }
    Some(sum)
}

/// Makes a whole run, as described at `run_edges_cursor`.
pub(crate) fn run_by_cursor(alloc: Global, blocks: u32, rounds: Rounds) -> Option<u64> {
    let mut smalls = Smalls::new(alloc, blocks).ok()?;
    add_all(&mut smalls, blocks)?;
    let mut sum = 0u64;
    for _ in 0..rounds.walks {
        sum = sum.wrapping_add(smalls.read_all(blocks));
    }
    Some(sum)
}

// Adds the edges out of each block.
fn add_all<S: Collections>(smalls: &mut S, blocks: u32) -> Option<()> {
    let mut random = edges();
    for block in 0..blocks {
        add(smalls, blocks, block, &mut random)?;
    }
    Some(())
}

// Adds the edges out of a block.
fn add<S: Collections>(smalls: &mut S, blocks: u32, block: u32, random: &mut Random) -> Option<()> {
    for count in 0..=random.below(4) {
        let target = random.below(blocks);
        smalls.put(target, edge(block, count), block)?;
    }
    Some(())
}

// Redirects each edge from the block `turn` behind its first target to the block behind that.
fn lead_all<S: Collections>(smalls: &mut S, blocks: u32, turn: u32) -> Option<u64> {
    let mut random = edges();
    let mut sum = 0u64;
    for block in 0..blocks {
        sum = lead(smalls, blocks, block, turn, &mut random, sum)?;
    }
    Some(sum)
}

// Redirects the edges of a block, and adds the removed values to a checksum.
fn lead<S: Collections>(
    smalls: &mut S,
    blocks: u32,
    block: u32,
    turn: u32,
    random: &mut Random,
    sum: u64,
) -> Option<u64> {
    let mut sum = sum;
    for count in 0..=random.below(4) {
        let first = random.below(blocks);
        let found = smalls.take(behind(first, turn, blocks), edge(block, count));
        let target = behind(first, turn.wrapping_add(1), blocks);
        smalls.put(target, edge(block, count), block)?;
        sum = added(sum, found.unwrap_or(7));
    }
    Some(sum)
}

// The generator of the targets of edges, and of their number for each block.
fn edges() -> Random {
    Random::new(2718281828)
}

// The number of an edge.
fn edge(block: u32, count: u32) -> u32 {
    block.wrapping_mul(4).wrapping_add(count)
}

// The block that is `count` blocks behind another, in a circle.
fn behind(block: u32, count: u32, blocks: u32) -> u32 {
    if blocks == 0 {
        0
    } else {
        block.wrapping_add(count) % blocks
    }
}
