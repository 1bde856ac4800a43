//! Bookings of resources by half-open intervals of time, in a forest of maps. Its proofs use the contracts of `bforest` alone.
//!
//! [`Books`] has a map from start to end for each resource, and all maps are in one forest. Contracts are stated on the list of each
//! resource's bookings (`specs/Books.antt`); docs/MODEL.md explains these definitions.
#![tactic(auto)]

mod book_error;
mod books;
mod intervals;

pub use bforest::OutOfMemory;
pub use book_error::BookError;
pub use books::Books;
