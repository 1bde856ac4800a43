//! Ranges that are kept apart: a new one is joined to all those that it overlaps or touches.
#![tactic(auto)]

mod ranges;
mod sweep;

use crate::ranges::Ranges;
use bforest::OutOfMemory;
use std::alloc::Global;
use std::io;

// Ranges that touch, overlap and bridge a gap.
fn make(alloc: Global) -> Result<Ranges, OutOfMemory> {
    let mut ranges = Ranges::new(alloc);
    ranges.insert(10, 20)?;
    ranges.insert(40, 50)?;
    ranges.insert(20, 25)?;
    ranges.insert(60, 70)?;
    ranges.insert(45, 65)?;
    Ok(ranges)
}

fn main(rt: HostRuntime) -> io::Result<()> {
    let Ok(ranges) = make(rt.alloc()) else {
        return println!(rt; "no memory");
    };
    for (from, to) in [(9, 10), (24, 25), (39, 40), (55, 69), (70, 71)] {
        println!(rt;
            "{} {}, {} {}",
            from,
            ranges.covers(from),
            to,
            ranges.covers(to)
        )?;
    }
    Ok(())
}
