//! Tests of `bforest_core` for types, loans and refusals: values that are lent, a growth that is refused, nodes of other types than small
//! maps have, and sizes worked by hand. The cases of trees and of single nodes are files, which the program `tree_cases` reads.
#![tactic(auto)]

#[cfg(test)]
mod nodes;
#[cfg(test)]
mod pools;
#[cfg(test)]
mod types;
#[cfg(test)]
mod worked;
