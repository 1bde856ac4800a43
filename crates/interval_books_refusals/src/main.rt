//! Bookings of one resource that grow its map to three levels, beside a booking of another. One call may fail for want of memory:
//! then nothing changes, and the same call succeeds when it is repeated. Then all bookings are cancelled. `tools/refuse_each` runs this
//! with
//! each request for memory refused in turn.
#![tactic(auto)]

use interval_books::{BookError, Books, OutOfMemory};
use std::alloc::{AllocError, Global};
use std::io;

/// The number of intervals that are booked, each of ten moments and right behind the one before.
const COUNT: u64 = 36;

/// The results of the run so far.
#[derive(Clone, Copy)]
struct Seen {
    refused: u32,
    is_right: bool,
}

/// Books of two resources. A call that failed is repeated once.
fn two_resources(alloc: Global, seen: &mut Seen) -> Result<Books, AllocError> {
    match Books::new(alloc, 2) {
        Ok(books) => Ok(books),
        Err(_) => {
            seen.refused = seen.refused.saturating_add(1);
            Books::new(alloc, 2)
        }
    }
}

/// The interval at an index.
fn interval(index: u64) -> (u64, u64) {
    let start = index.wrapping_mul(10);
    (start, start.wrapping_add(10))
}

/// Whether the first resource has the first `count` intervals booked and no other, and the second resource has `other`.
fn is_booked(books: &Books, count: u64, other: Option<(u64, u64)>) -> bool {
    for index in 0..=COUNT {
        let wanted = interval(index);
        let found = if index < count { Some(wanted) } else { None };
        for moment in [wanted.0, wanted.1.wrapping_sub(1)] {
            if books.at(0, moment) != Ok(found) {
                return false;
            }
        }
    }
    books.at(1, 7) == Ok(other)
}

/// Books an interval of either resource, and repeats once a call that failed. `before` says what is booked before.
fn book(
    books: &mut Books,
    resource: u32,
    (start, end): (u64, u64),
    before: (u64, Option<(u64, u64)>),
    seen: &mut Seen,
) {
    if let Err(refused) = books.book(resource, start, end) {
        seen.refused = seen.refused.saturating_add(1);
        if refused != BookError::Forest(OutOfMemory::Memory)
            || !is_booked(books, before.0, before.1)
            || books.book(resource, start, end) != Ok(())
        {
            seen.is_right = false;
        }
    }
}

/// Whether all intervals of the first resource can be cancelled.
fn cancels_all(books: &mut Books) -> bool {
    for index in 0..COUNT {
        let (start, end) = interval(index);
        if books.cancel(0, start) != Ok(end) {
            return false;
        }
    }
    true
}

fn main(rt: HostRuntime) -> io::Result<()> {
    let mut seen = Seen {
        refused: 0,
        is_right: true,
    };
    let mut books = two_resources(rt.alloc(), &mut seen)?;
    let other = (5, 8);
    book(&mut books, 1, other, (0, None), &mut seen);
    for index in 0..COUNT {
        book(
            &mut books,
            0,
            interval(index),
            (index, Some(other)),
            &mut seen,
        );
    }
    let is_all = is_booked(&books, COUNT, Some(other));
    let is_none = cancels_all(&mut books) && is_booked(&books, 0, Some(other));
    println!(rt;
        "refused {} right {} booked {} cancelled {}",
        seen.refused, seen.is_right, is_all, is_none
    )
}
