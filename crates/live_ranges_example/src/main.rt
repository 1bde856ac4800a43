//! The live ranges of a value by program points, as a register allocator keeps them: inserted, split at a point, and looked up by the
//! point where they are live and by the span where they begin.
#![tactic(auto)]

ghost use Rattle.bforest.specs.Bounds.{entries_between};
ghost use Rattle.bforest.specs.Calls.{Inserts};
ghost use Rattle.bforest.specs.Forest.{IsLive, list_of};
ghost use Rattle.bforest.specs.Entries.{IsIncreasing, put};
ghost use Rattle.live_ranges_example.specs.Live.{live_in, split_in};
ghost use Rattle.std.specs.Ordering.{nat_cmp};
ghost use Rattle.std.specs.List.{last_or};
ghost use Rattle.std.specs.Prelude.{List, None, OnErr, OnOk, [], drop, slice_get, ◌≡◌, ℕ};
ghost use Rattle.std.specs.declared.ops.Bound.TheVariants.{Excluded, Included};

use bforest::{Comparator, Map, MapForest, OutOfMemory};
use std::alloc::Global;
use std::io;
use std::marker::Model;
use std::ops::Bound;

type Starts = Map<u32, u32>;

type Forest = MapForest<u32, u32>;

type Put = Result<Option<u32>, OutOfMemory>;

/// A range: where it begins, and where it ends, without the end itself.
type Range = (u32, u32);

/// Live ranges: from the point where each begins to the point where it ends.
#[derive(Drop)]
struct Ranges {
    forest: Forest,
    map: Starts,
}

impl Model for Ranges {
    ghost Value = { List (ℕ × ℕ) };

    ghost view = { λ r. list_of r.forest r.map };

    ghost invariant = { λ r. IsLive r.forest r.map × IsIncreasing nat_cmp (list_of r.forest r.map) };
}

impl Ranges {
    /// Ranges with no entry.
    fn new(alloc: Global) -> Self
        ensures { result ≡ [] }
    {
        Ranges {
            forest: MapForest::new(alloc),
            map: Map::new(),
        }
    }

    /// Inserts a range. A range that begins at the same point ends at `end` then.
    fn add(&mut self, start: u32, end: u32) -> Put
        ensures put { OnOk result (self.new ≡ put nat_cmp self.old start end) }
        ensures refused { OnErr result (self.new ≡ self.old) }
    {
        put_in(&mut self.map, (start, end), &mut self.forest, &())
    }

    /// The range that is live at a point.
    fn live_at(&self, point: u32) -> Option<Range>
        ensures { result ≡ live_in self.now point }
    {
        match self.map.get_or_less(point, &self.forest, &()) {
            Some(range) if point < range.1 => Some(range),
            _ => None,
        }
    }

    /// The first range that begins in a span, without the span's end, and the last of the others.
    fn begin_in(&self, from: u32, to: u32) -> (Option<Range>, Option<Range>)
        ensures first { result.0
            ≡ slice_get (entries_between nat_cmp (Included from) (Excluded to) self.now) 0 }
        ensures last { result.1
            ≡ last_or None (drop 1 (entries_between nat_cmp (Included from) (Excluded to) self.now)) }
    {
        let bounds = (Bound::Included(from), Bound::Excluded(to));
        let mut range = self.map.range(bounds, &self.forest, &());
        (range.next(), range.next_back())
    }

    /// Splits the range that is live at a point there. Where none is, or it begins there, nothing changes.
    fn split(&mut self, point: u32) -> Result<(), OutOfMemory>
        ensures { OnOk result (self.new ≡ split_in self.old point) }
    {
        if let Some((start, end)) = self.live_at(point)
            && start < point
        {
            self.add(point, end)?;
            self.add(start, point)?;
        }
        Ok(())
    }
}

// Inserts a range by a cursor, which goes to the range's place first.
fn put_in<C: Comparator<u32>>(map: &mut Starts, range: Range, forest: &mut Forest, comp: &C) -> Put
    requires live { IsLive forest.old map.old }
    requires increasing { IsIncreasing (C.order comp.now) (list_of forest.old map.old) }
    ensures { Inserts 7 (C.order comp.now) forest.old map.old range.0 range.1 result forest.new map.new }
{
    map.cursor_mut(forest, comp).insert(range.0, range.1)
}

// Makes three ranges, of which one is split at a point.
fn make(alloc: Global) -> Result<Ranges, OutOfMemory> {
    let mut ranges = Ranges::new(alloc);
    ranges.add(10, 30)?;
    ranges.add(0, 4)?;
    ranges.add(40, 44)?;
    ranges.split(20)?;
    Ok(ranges)
}

fn main(rt: HostRuntime) -> io::Result<()> {
    let Ok(ranges) = make(rt.alloc()) else {
        return println!(rt; "no memory");
    };
    println!(rt;
        "at 12 {:?}, at 20 {:?}",
        ranges.live_at(12),
        ranges.live_at(20)
    )?;
    println!(rt;
        "at 30 {:?}, at 43 {:?}",
        ranges.live_at(30),
        ranges.live_at(43)
    )?;
    let (first, last) = ranges.begin_in(1, 40);
    println!(rt; "from 1 to 40 {:?} .. {:?}", first, last)
}
