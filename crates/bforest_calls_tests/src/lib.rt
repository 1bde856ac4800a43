//! Callers of lists of calls: consequences of the contracts of `bforest_calls` alone; and tests of lists of many calls.
#![tactic(auto)]

mod callers;
#[cfg(test)]
mod each;
#[cfg(test)]
mod lists;
#[cfg(test)]
mod whole;

pub use callers::beside::{run_beside, run_beside_sets};
pub use callers::counted::{run_counted, run_counted_sets};
pub use callers::exchanged::{run_either, run_either_sets};
pub use callers::twice::{run_twice, run_twice_sets};
pub use callers::{run_both, run_both_sets};
