//! Insertions by a writing cursor into a map and into a set that grow to three levels, beside another tree of the forest; and insertions
//! after nodes are reserved. A request for memory may be refused: then nothing changes but the cursor, which stands where `goto` of the
//! key goes, and the same call succeeds when it is repeated. `tools/refuse_each` runs this with each request for memory refused in turn, and
//! with all refused once the nodes are there: then come the calls that request none.
#![tactic(auto)]

mod maps;
mod quiet;
mod sets;

use bforest::{MapForest, OutOfMemory, SetForest};
use std::io;

/// The results of the run so far.
#[derive(Clone, Copy)]
struct Seen {
    refused: u32,
    is_right: bool,
}

impl Seen {
    /// Records whether something is right.
    fn note(&mut self, is_right: bool) {
        self.is_right = self.is_right && is_right;
    }

    /// Records a refusal, which has to be for want of memory and to change nothing.
    fn refuse(&mut self, error: OutOfMemory, is_same: bool) {
        self.refused = self.refused.saturating_add(1);
        self.note(error == OutOfMemory::Memory && is_same);
    }
}

fn main(rt: HostRuntime) -> io::Result<()> {
    let mut seen = Seen {
        refused: 0,
        is_right: true,
    };
    let mut forest = MapForest::new(rt.alloc());
    let mut ahead = MapForest::new(rt.alloc());
    maps::grow(&mut forest, &mut seen);
    maps::grow_ahead(&mut ahead, &mut seen);
    let mut set_forest = SetForest::new(rt.alloc());
    let mut set_ahead = SetForest::new(rt.alloc());
    sets::grow(&mut set_forest, &mut seen);
    sets::grow_ahead(&mut set_ahead, &mut seen);
    let slots = (
        forest.slots(),
        ahead.slots(),
        set_forest.slots(),
        set_ahead.slots(),
    );
    quiet::maps::all(ahead, &mut seen);
    quiet::sets::all(&mut set_ahead, &mut seen);
    println!(rt;
        "refused {} right {} slots {} and {} of maps, {} and {} of sets",
        seen.refused, seen.is_right, slots.0, slots.1, slots.2, slots.3
    )
}
