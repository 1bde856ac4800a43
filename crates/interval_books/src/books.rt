//! The books of all resources.
ghost use Rattle.interval_books.specs.Books.{Books, Cancelled, Recorded, at_moment, bookings, node_sizes, resource_count, table};
ghost use Rattle.interval_books.specs.Bookings.{AreApart};
ghost use Rattle.bforest.specs.Forest.{empty};
ghost use Rattle.std.specs.Prelude.{IfOk, OnErr, [], ◌<◌, ◌≡◌, ℕ};

use crate::book_error::BookError;
use crate::intervals::{first_met, holding};
use bforest_indexed::Maps;
use std::alloc::{AllocError, Global};
use std::marker::Model;

/// The booked intervals of each resource, no two of which meet.
///
/// Resources are numbered from 0, and times are numbers. An interval holds each moment from its start up to its end, without the end;
/// two intervals that only touch do not meet.
#[derive(Drop)]
pub struct Books {
    maps: Maps<u64, u64, ()>,
}

impl Model for Books {
    ghost use Rattle.interval_books.specs.Books.{AreApartAll, Books, books_of};

    ghost Value = { Books };

    ghost view = { λ b. books_of b.maps };

    ghost invariant = { λ b. AreApartAll (books_of b.maps) };
}

impl Books {
    /// Books of `resources` resources, with nothing booked. They take memory once, for a handle of each resource.
    ///
    /// # Errors
    ///
    /// `AllocError` where memory was refused. For no resources none is requested.
    pub fn new(alloc: Global, resources: u32) -> Result<Books, AllocError>
        ensures count { IfOk result (λ b. resource_count b ≡ resources) }
        ensures nothing { IfOk result (λ b. (r : ℕ) → bookings b r ≡ []) }
        ensures sizes { IfOk result (λ b. (r : ℕ) → node_sizes b r ≡ []) }
        ensures table { IfOk result (λ b. table b ≡ empty u32.MAX) }
        ensures refused { OnErr result (0 < resources) }
    {
        let mut maps = Maps::new(alloc, ());
        maps.grow_to(resources as usize)?;
        Ok(Books { maps })
    }

    /// Books a resource from `start` up to `end`. Three searches in the resource's map: about 9 comparisons.
    ///
    /// # Errors
    ///
    /// In this order: `UnknownResource`; `EmptyInterval` where `start` is not less than `end`; `Overlaps` with the booked interval that it
    /// meets, or the one with the least start where it meets several; `Forest` where the forest had no node for it. Then nothing changes.
    pub fn book(&mut self, resource: u32, start: u64, end: u64) -> Result<(), BookError>
        ensures { Recorded self.old resource start end result self.new }
    {
        let index = resource as usize;
        if index >= self.maps.len() {
            return Err(BookError::UnknownResource);
        }
        if start >= end {
            return Err(BookError::EmptyInterval);
        }
        if let Some(met) = first_met(&self.maps, index, start, end) {
            return Err(BookError::Overlaps(met.0, met.1));
        }
        match self.maps.insert(index, start, end) {
            Ok(_) => Ok(()),
            Err(refused) => Err(BookError::Forest(refused)),
        }
    }

    /// Removes the booked interval that begins at `start`, and returns its end. One search; it takes no memory.
    ///
    /// # Errors
    ///
    /// In this order: `UnknownResource`; `NotBooked` where none begins at `start`, also where one contains `start`. Then nothing changes.
    pub fn cancel(&mut self, resource: u32, start: u64) -> Result<u64, BookError>
        ensures { Cancelled self.old resource start result self.new }
    {
        let index = resource as usize;
        if index >= self.maps.len() {
            return Err(BookError::UnknownResource);
        }
        self.maps.remove(index, start).ok_or(BookError::NotBooked)
    }

    /// The booked interval that contains a moment: its start and its end. One search.
    ///
    /// # Errors
    ///
    /// `UnknownResource` where there is no such resource.
    pub fn at(&self, resource: u32, moment: u64) -> Result<Option<(u64, u64)>, BookError>
        ensures answer { result ≡ at_moment self.now resource moment }
        ensures apart { (r : ℕ) → AreApart (bookings self.now r) }
    {
        let index = resource as usize;
        if index >= self.maps.len() {
            return Err(BookError::UnknownResource);
        }
        Ok(holding(&self.maps, index, moment))
    }
}
