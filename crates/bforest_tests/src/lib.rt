//! Tests of `bforest`: calls at concrete types, custom orders, and callers that are proved. The lines and answers of the program
//! `forest_run` test maps from files, beside random lines, and `bforest_calls_tests` makes lists of calls.
#![tactic(auto)]

pub mod callers;
#[cfg(test)]
mod checked;
#[cfg(test)]
mod maps;
#[cfg(test)]
mod nearest;
#[cfg(test)]
mod orders;
#[cfg(test)]
mod refusals;
#[cfg(test)]
mod reserved;
#[cfg(test)]
mod retained;
#[cfg(test)]
mod room;
