//! Tests of `bforest_indexed`: callers that are proved, room that is reserved at a tight limit, and values that are replaced.
#![tactic(auto)]

pub mod callers;
#[cfg(test)]
mod room;
#[cfg(test)]
mod typed;
#[cfg(test)]
mod updates;
