//! Tests of `bforest_run`: numbers, and readers and writers that fail. The lines and answers of the program `forest_run` are tested from
//! files.
#![tactic(auto)]

#[cfg(test)]
mod numbers;
#[cfg(test)]
mod strange;
#[cfg(test)]
mod streams;
