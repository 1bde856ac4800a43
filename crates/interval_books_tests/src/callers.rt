//! What a caller can prove of books from their contracts alone.
ghost use Rattle.interval_books.specs.Bookings.{with_booking};
ghost use Rattle.interval_books.specs.Books.{bookings};
ghost use Rattle.std.specs.Prelude.{IfOk, OnOk, Some, ◌<◌, ◌≡◌, ◌≢◌, ◌≤◌};

use interval_books::{BookError, Books};

/// Books an interval and looks one of its moments up: the interval is found.
pub fn book_and_ask(
    books: &mut Books,
    resource: u32,
    interval: (u64, u64),
    moment: u64,
) -> Result<Option<(u64, u64)>, BookError>
    requires from { interval.0 ≤ moment }
    requires before { moment < interval.1 }
    ensures { IfOk result (λ found. found ≡ Some interval) }
{
    books.book(resource, interval.0, interval.1)?;
    books.at(resource, moment)
}

/// Cancels a booking and books the same interval again: the resource has its old bookings.
pub fn cancel_and_book(books: &mut Books, resource: u32, start: u64) -> Result<(), BookError>
    ensures { OnOk result (bookings books.new resource ≡ bookings books.old resource) }
{
    let end = books.cancel(resource, start)?;
    books.book(resource, start, end)
}

/// Books an interval of each of two resources: neither booking changes the other.
pub fn book_both(
    books: &mut Books,
    first: (u32, u64, u64),
    second: (u32, u64, u64),
) -> Result<(), BookError>
    requires different { first.0 ≢ second.0 }
    ensures first { OnOk result (bookings books.new first.0
        ≡ with_booking (bookings books.old first.0) first.1 first.2) }
    ensures second { OnOk result (bookings books.new second.0
        ≡ with_booking (bookings books.old second.0) second.1 second.2) }
{
    books.book(first.0, first.1, first.2)?;
    books.book(second.0, second.1, second.2)
}
