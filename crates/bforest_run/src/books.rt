//! Books, and their answers to lines.
ghost use Rattle.bforest_run.specs.Bookings.{BookTells, IsBadForBooks, TellsBooks, book_text};

use crate::book_line::{BookLine, book_line};
use crate::engine::Engine;
use crate::shown_books::BookAnswer;
use interval_books::Books;
use std::alloc::{AllocError, Global};

/// The answer to a line.
fn tell(books: &mut Books, line: BookLine) -> BookAnswer
    ensures { TellsBooks books.old line (book_text result) books.new }
{
    match line {
        BookLine::Book(resource, start, end) => {
            BookAnswer::Booked(books.book(resource, start, end))
        }
        BookLine::Cancel(resource, start) => BookAnswer::Cancelled(books.cancel(resource, start)),
        BookLine::At(resource, moment) => BookAnswer::Held(books.at(resource, moment)),
    }
}

impl Engine for Books {
    type Answer = BookAnswer;

    ghost tells = { BookTells };

    ghost is_bad = { IsBadForBooks };

    fn answer(&mut self, _alloc: Global, words: &[&str]) -> Result<Option<BookAnswer>, AllocError> {
        let Some(line) = book_line(words) else {
            return Ok(None);
        };
        Ok(Some(tell(self, line)))
    }
}
