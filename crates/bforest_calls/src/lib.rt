//! Lists of calls on a forest of maps or of sets, as values: what each call answers, and what all of them leave.
#![tactic(auto)]

mod call;
mod collection;
mod engine;
mod known;
mod maps;
mod run;
mod sets;
mod shift;
mod steps;

pub use call::{Act, Answer, Call, Look, Seen, Side};
pub use collection::Collection;
pub use engine::make;
pub use known::Known;
pub use maps::run_map;
pub use sets::run_set;
