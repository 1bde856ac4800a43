//! An order book: for each side its price levels, the best first, in maps with one type of comparator. Orders that cross remove the best
//! level.
#![tactic(auto)]

ghost use Rattle.bforest.specs.Bounds.{entries_between};
ghost use Rattle.bforest.specs.Entries.{put};
ghost use Rattle.order_book_example.specs.Sides.{IsTotalOrder-order_of, order_of};
ghost use Rattle.std.specs.List.{last_or};
ghost use Rattle.std.specs.Prelude.{None, OnErr, OnOk, [], drop, remove, slice_get, ◌≡◌};
ghost use Rattle.std.specs.declared.ops.Bound.TheVariants.{Included};

use bforest::{Comparator, Map, MapForest, OutOfMemory};
use std::alloc::Global;
use std::cmp::Ordering;
use std::io;
use std::marker::Model;
use std::ops::Bound;

/// A side of the book, which orders its prices with the best first.
#[derive(Clone, Copy)]
enum Side {
    /// The highest price first.
    Bid,
    /// The lowest price first.
    Ask,
}

impl Comparator<u32> for Side {
    ghost order = { order_of };

    ghost total = { IsTotalOrder-order_of };

    fn cmp(&self, a: u32, b: u32) -> Ordering {
        match self {
            Side::Bid => b.cmp(&a),
            Side::Ask => a.cmp(&b),
        }
    }
}

/// A price, and the amount that is bid or asked at it.
type Level = (u32, u32);

/// The levels of one side.
#[derive(Drop)]
struct Levels {
    forest: MapForest<u32, u32>,
    map: Map<u32, u32>,
    side: Side,
}

impl Model for Levels {
    ghost use Rattle.bforest.specs.Forest.{IsLive, list_of};
    ghost use Rattle.bforest.specs.Entries.{IsIncreasing};
    ghost use Rattle.order_book_example.specs.Sides.{order_of};
    ghost use Rattle.order_book_example.specs.declared.Side.{Side};
    ghost use Rattle.std.specs.Prelude.{List, ℕ};

    ghost Value = { List (ℕ × ℕ) × Side };

    ghost view = { λ l. (list_of l.forest l.map, l.side) };

    ghost invariant = { λ l. IsLive l.forest l.map × IsIncreasing (order_of l.side) (list_of l.forest l.map) };
}

impl Levels {
    /// Levels with no entry.
    fn new(alloc: Global, side: Side) -> Self
        ensures { result ≡ ([], side) }
    {
        Levels {
            forest: MapForest::new(alloc),
            map: Map::new(),
            side,
        }
    }

    /// Sets the amount at a price.
    fn set(&mut self, price: u32, amount: u32) -> Result<Option<u32>, OutOfMemory>
        ensures put { OnOk result
            (self.new ≡ (put (order_of self.old.1) self.old.0 price amount, self.old.1)) }
        ensures refused { OnErr result (self.new ≡ self.old) }
    {
        self.map.insert(price, amount, &mut self.forest, &self.side)
    }

    /// The best level.
    fn best(&self) -> Option<Level>
        ensures { result ≡ slice_get self.now.0 0 }
    {
        self.map.first(&self.forest)
    }

    /// The first level from one price to another, and the last of the others.
    fn within(&self, from: u32, to: u32) -> (Option<Level>, Option<Level>)
        ensures first { result.0 ≡ slice_get
            (entries_between (order_of self.now.1) (Included from) (Included to) self.now.0) 0 }
        ensures last { result.1 ≡ last_or None (drop 1
            (entries_between (order_of self.now.1) (Included from) (Included to) self.now.0)) }
    {
        let bounds = (Bound::Included(from), Bound::Included(to));
        let mut levels = self.map.range(bounds, &self.forest, &self.side);
        (levels.next(), levels.next_back())
    }

    /// Removes the best level, and returns it: then the second is the best, and all others stay.
    fn take_best(&mut self) -> Option<Level>
        ensures level { result ≡ slice_get self.old.0 0 }
        ensures rest { self.new ≡ (remove self.old.0 0, self.old.1) }
    {
        self.map.pop_first(&mut self.forest)
    }
}

// Makes two sides with levels, where the best bid is not less than the best ask.
fn make(bids: &mut Levels, asks: &mut Levels) -> Result<(), OutOfMemory> {
    for level in [(100, 5), (98, 7), (103, 2)] {
        bids.set(level.0, level.1)?;
    }
    for level in [(102, 4), (105, 9), (104, 1)] {
        asks.set(level.0, level.1)?;
    }
    Ok(())
}

fn main(rt: HostRuntime) -> io::Result<()> {
    let mut bids = Levels::new(rt.alloc(), Side::Bid);
    let mut asks = Levels::new(rt.alloc(), Side::Ask);
    if make(&mut bids, &mut asks).is_err() {
        return println!(rt; "no memory");
    }
    println!(rt; "bid {:?}, ask {:?}", bids.best(), asks.best())?;
    println!(rt; "taken: {:?} at the bid", bids.take_best())?;
    println!(rt; "bid {:?}, ask {:?}", bids.best(), asks.best())?;
    let (first, last) = asks.within(103, 110);
    println!(rt; "asks from 103 to 110: {:?} .. {:?}", first, last)
}
