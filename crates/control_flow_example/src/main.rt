//! A control flow graph: the successors of each block, as a set, and its predecessors, as a map with the branches that lead from them. Both
//! mirror each other while edges are added, removed and redirected, and while a block is split.
#![tactic(auto)]

mod cfg;

ghost use Rattle.control_flow_example.specs.Graphs.{blocks};
ghost use Rattle.std.specs.Prelude.{◌≡◌};

use crate::cfg::Cfg;
use bforest_indexed::OutOfMemory;
use std::io;

// Block 0 branches to 1 and 2, which both lead to 3. Then block 2 leads to 1 instead, and 0 is split.
fn build(cfg: &mut Cfg) -> Result<(), OutOfMemory>
    requires { blocks cfg.old ≡ 5 }
    ensures { blocks cfg.new ≡ 5 }
{
    cfg.add_edge(0, 10, 1)?;
    cfg.add_edge(0, 10, 2)?;
    cfg.add_edge(1, 11, 3)?;
    cfg.add_edge(2, 12, 3)?;
    cfg.redirect((2, 3), (2, 1))?;
    cfg.split(0, 13, 4)
}

fn main(rt: HostRuntime) -> io::Result<()> {
    let Ok(mut cfg) = Cfg::new(rt.alloc(), 5) else {
        return println!(rt; "no memory");
    };
    if build(&mut cfg).is_err() {
        return println!(rt; "no memory");
    }
    println!(rt; "0 to 1 {}, 0 to 4 {}", cfg.leads(0, 1), cfg.leads(0, 4))?;
    println!(rt;
        "0 to 4 {:?}, 4 to 1 {:?}",
        cfg.branch(0, 4),
        cfg.branch(4, 1)
    )?;
    println!(rt;
        "1 to 3 {:?}, 2 to 3 {:?}",
        cfg.branch(1, 3),
        cfg.branch(2, 3)
    )?;
    println!(rt; "2 to 1 {:?}, 4 to 2 {}", cfg.branch(2, 1), cfg.leads(4, 2))
}
