//! Callers of `interval_books`, proved from its contracts alone. Runs on books are cases of the program `forest_run`.
#![tactic(auto)]

pub mod callers;
