//! Parts of answers that maps and sets share.
ghost use Rattle.bforest_run.specs.Shown.{counts_text, number_text, refusal_text};
ghost use Rattle.std.specs.Prelude.{Some};

use bforest::OutOfMemory;
use std::fmt;

/// A number, if there is one.
#[derive(Clone, Copy)]
pub(crate) struct Maybe(pub(crate) Option<u32>);

impl fmt::Display for Maybe {
    ghost output = { λ maybe. Some (number_text maybe.0) };

    fn fmt<W: fmt::Write>(&self, f: &mut fmt::Formatter<W>) -> fmt::Result {
        match self.0 {
            Some(number) => write!(f, "{number}"),
            None => write!(f, "none"),
        }
    }
}

/// Why an insertion got no node.
#[derive(Clone, Copy)]
pub(crate) struct Refusal(pub(crate) OutOfMemory);

impl fmt::Display for Refusal {
    ghost output = { λ refusal. Some (refusal_text refusal.0) };

    fn fmt<W: fmt::Write>(&self, f: &mut fmt::Formatter<W>) -> fmt::Result {
        match self.0 {
            OutOfMemory::Memory => write!(f, "memory"),
            OutOfMemory::Full => write!(f, "full"),
        }
    }
}

/// The height of a tree, and the numbers of slots of the table and of free slots.
#[derive(Clone, Copy)]
pub(crate) struct Counts {
    pub(crate) levels: usize,
    pub(crate) slots: u32,
    pub(crate) free: u32,
}

impl fmt::Display for Counts {
    ghost output = { λ counts. Some (counts_text counts.levels counts.slots counts.free) };

    fn fmt<W: fmt::Write>(&self, f: &mut fmt::Formatter<W>) -> fmt::Result {
        write!(
            f,
            "levels {} slots {} free {}",
            self.levels, self.slots, self.free,
        )
    }
}
