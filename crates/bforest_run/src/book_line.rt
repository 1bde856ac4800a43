//! Lines about books, and what their words spell.
ghost use Rattle.bforest_run.specs.Bookings.{asking_of, book_line_of, booking_of, cancelling_of};
ghost use Rattle.std.specs.Prelude.{map, ◌≡◌};

use crate::word::{number, time};

/// What a line about books asks for.
#[derive(Clone, Copy, Debug, PartialEq, Eq)]
pub(crate) enum BookLine {
    /// To book a resource from the first time up to the second.
    Book(u32, u64, u64),
    /// To cancel a resource's booking that begins at this time.
    Cancel(u32, u64),
    /// To find the booking of a resource that contains this time.
    At(u32, u64),
}

/// The line that these words spell, if they spell one.
pub(crate) fn book_line(words: &[&str]) -> Option<BookLine>
    ensures { result ≡ book_line_of (map (λ w. w.now) words.now) }
{
    let [verb, words @ ..] = words else {
        return None;
    };
    match *verb {
        "book" => booking(words),
        "cancel" => cancelling(words),
        "at" => asking(words),
        _ => None,
    }
}

/// The booking that the words `R S E` spell.
fn booking(words: &[&str]) -> Option<BookLine>
    ensures { result ≡ booking_of (map (λ w. w.now) words.now) }
{
    let [resource, start, end] = words else {
        return None;
    };
    Some(BookLine::Book(number(resource)?, time(start)?, time(end)?))
}

/// The cancellation that the words `R S` spell.
fn cancelling(words: &[&str]) -> Option<BookLine>
    ensures { result ≡ cancelling_of (map (λ w. w.now) words.now) }
{
    let [resource, start] = words else {
        return None;
    };
    Some(BookLine::Cancel(number(resource)?, time(start)?))
}

/// The question that the words `R T` spell.
fn asking(words: &[&str]) -> Option<BookLine>
    ensures { result ≡ asking_of (map (λ w. w.now) words.now) }
{
    let [resource, moment] = words else {
        return None;
    };
    Some(BookLine::At(number(resource)?, time(moment)?))
}
