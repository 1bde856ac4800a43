//! Ranges that are kept apart.
ghost use Rattle.joining_ranges_example.specs.Ranges.{AreApart, high_of, is_covered, is_in, low_of};
ghost use Rattle.std.specs.Prelude.{OnErr, OnOk, [], ◌<◌, ◌≡◌, ◌||◌, ℕ};

use crate::sweep::remove_between;
use bforest::{Map, MapForest, OutOfMemory};
use std::alloc::Global;
use std::marker::Model;

/// Ranges of points, each from its start up to its end, which it does not contain. No two overlap or touch.
#[derive(Drop)]
pub(crate) struct Ranges {
    forest: MapForest<u32, u32>,
    map: Map<u32, u32>,
}

impl Model for Ranges {
    ghost use Rattle.bforest.specs.Forest.{list_of};
    ghost use Rattle.joining_ranges_example.specs.Ranges.{AreKept};
    ghost use Rattle.std.specs.Prelude.{List, ℕ};

    ghost Value = { List (ℕ × ℕ) };

    ghost view = { λ r. list_of r.forest r.map };

    ghost invariant = { λ r. AreKept r.forest r.map };
}

impl Ranges {
    /// No range.
    pub(crate) fn new(alloc: Global) -> Self
        ensures none { result ≡ [] }
    {
        Ranges {
            forest: MapForest::new(alloc),
            map: Map::new(),
        }
    }

    /// Whether a point is in some range.
    pub(crate) fn covers(&self, point: u32) -> bool
        ensures covered { result ≡ is_covered self.now point }
        ensures apart { AreApart self.now }
    {
        match self.map.get_or_less(point, &self.forest, &()) {
            Some(range) => point < range.1,
            None => false,
        }
    }

    /// Puts a range in, joined to all those that it overlaps or touches. A refusal changes nothing. Ranges that are apart and cover these
    /// points are there in one way only.
    pub(crate) fn insert(&mut self, start: u32, end: u32) -> Result<(), OutOfMemory>
        requires some { start < end }
        ensures covered { OnOk result ((point : ℕ)
            → is_covered self.new point ≡ (is_covered self.old point || is_in start end point)) }
        ensures apart { AreApart self.new }
        ensures refused { OnErr result (self.new ≡ self.old) }
    {
        let first = self.first_of(start);
        let last = self.last_of(end);
        self.map.insert(first, last, &mut self.forest, &())?;
        remove_between(&mut self.map, &mut self.forest, &(), first, last);
        Ok(())
    }

    // Where a range from `start` on begins, once it is joined.
    fn first_of(&self, start: u32) -> u32
        ensures { result ≡ low_of self.now start }
    {
        match self.map.get_or_less(start, &self.forest, &()) {
            Some(range) if start <= range.1 => range.0,
            _ => start,
        }
    }

    // Where a range up to `end` ends, once it is joined.
    fn last_of(&self, end: u32) -> u32
        ensures { result ≡ high_of self.now end }
    {
        match self.map.get_or_less(end, &self.forest, &()) {
            Some(range) => end.max(range.1),
            None => end,
        }
    }
}
