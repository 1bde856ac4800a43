//! Room that is reserved: handles and nodes are taken for some maps and sets of so many entries each, and then come a million insertions
//! and removals in random ones of them, none of which may fail. The requests for memory that come first may be refused: then nothing
//! changes, and the same call succeeds when it is repeated. `tools/refuse_each` runs this with each request refused in turn, and with all
//! refused once the room is there.
#![tactic(auto)]

mod maps;
mod random;
mod sets;

use bforest_indexed::{Maps, Sets};
use std::io;

/// The results of the run so far.
#[derive(Clone, Copy)]
struct Seen {
    refused: u32,
    is_right: bool,
}

impl Seen {
    /// Records whether something is right.
    fn note(&mut self, is_right: bool) {
        self.is_right = self.is_right && is_right;
    }

    /// Records a refusal, which may change nothing.
    fn refuse(&mut self, is_same: bool) {
        self.refused = self.refused.saturating_add(1);
        self.note(is_same);
    }
}

/// The insertions and removals in maps, and as many in sets.
const CALLS: u32 = 500_000;

fn main(rt: HostRuntime) -> io::Result<()> {
    let mut seen = Seen {
        refused: 0,
        is_right: true,
    };
    let mut maps = Maps::new(rt.alloc(), ());
    let mut sets = Sets::new(rt.alloc(), ());
    maps::reserve(&mut maps, &mut seen);
    sets::reserve(&mut sets, &mut seen);
    let slots = (maps.slots(), sets.slots());
    maps::change(&mut maps, CALLS, &mut seen);
    sets::change(&mut sets, CALLS, &mut seen);
    seen.note((maps.slots(), sets.slots()) == slots);
    println!(rt;
        "refused {} right {} slots {} of maps, {} of sets",
        seen.refused, seen.is_right, slots.0, slots.1
    )
}
