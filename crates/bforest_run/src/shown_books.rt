//! Answers about books, as their lines show them.
ghost use Rattle.bforest_run.specs.Bookings.{book_text, interval_text, why_text};
ghost use Rattle.std.specs.Prelude.{Some};

use crate::shown::Refusal;
use interval_books::BookError;
use std::fmt;

/// An answer about books.
#[derive(Clone, Copy)]
pub(crate) enum BookAnswer {
    /// The answer to a booking.
    Booked(Result<(), BookError>),
    /// The answer to a cancellation: the end of the booking.
    Cancelled(Result<u64, BookError>),
    /// The booking that contains a moment, if there is one.
    Held(Result<Option<(u64, u64)>, BookError>),
}

impl fmt::Display for BookAnswer {
    ghost output = { λ answer. Some (book_text answer) };

    fn fmt<W: fmt::Write>(&self, f: &mut fmt::Formatter<W>) -> fmt::Result {
        match *self {
            BookAnswer::Booked(Ok(())) => write!(f, "ok"),
            BookAnswer::Cancelled(Ok(end)) => write!(f, "{end}"),
            BookAnswer::Held(Ok(Some((start, end)))) => write!(f, "{}", Interval(start, end)),
            BookAnswer::Held(Ok(None)) => write!(f, "none"),
            BookAnswer::Booked(Err(why))
            | BookAnswer::Cancelled(Err(why))
            | BookAnswer::Held(Err(why)) => write!(f, "{}", Why(why)),
        }
    }
}

/// Why a call failed.
#[derive(Clone, Copy)]
struct Why(BookError);

impl fmt::Display for Why {
    ghost output = { λ reason. Some (why_text reason.0) };

    fn fmt<W: fmt::Write>(&self, f: &mut fmt::Formatter<W>) -> fmt::Result {
        match self.0 {
            BookError::UnknownResource => write!(f, "unknown"),
            BookError::EmptyInterval => write!(f, "empty"),
            BookError::Overlaps(start, end) => write!(f, "overlaps {}", Interval(start, end)),
            BookError::NotBooked => write!(f, "not booked"),
            BookError::Forest(refused) => write!(f, "{}", Refusal(refused)),
        }
    }
}

/// An interval's start and end.
#[derive(Clone, Copy)]
struct Interval(u64, u64);

impl fmt::Display for Interval {
    ghost output = { λ it. Some (interval_text it.0 it.1) };

    fn fmt<W: fmt::Write>(&self, f: &mut fmt::Formatter<W>) -> fmt::Result {
        write!(f, "{} {}", self.0, self.1)
    }
}
