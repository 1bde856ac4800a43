//! The interface of what answers lines.
ghost use Rattle.std.specs.Option.{IsSomeAnd};
ghost use Rattle.std.specs.Prelude.{IfNone, IfOk, IfSome, List, map, ◌≡◌, ℕ};

use std::alloc::{AllocError, Global};
use std::fmt;

/// An engine that answers the words of lines, one line after another.
pub(crate) trait Engine {
    /// The answer to a line, which is displayed as its text.
    type Answer: fmt::Display + Drop;

    /// Whether these words may have this text as answer, and leave this engine.
    ghost tells: { Self → List (List ℕ) → List ℕ → Self → Type 0 };

    /// Whether these words spell no line.
    ghost is_bad: { List (List ℕ) → Type 0 };

    /// The answer to the words, or `None` where they spell no line.
    fn answer(&mut self, alloc: Global, words: &[&str]) -> Result<Option<Self::Answer>, AllocError>
        ensures answered { IfOk result (λ given. IfSome given (λ answer. IsSomeAnd (Self.Answer.output answer)
            (λ text. tells self.old (map (λ w. w.now) words.now) text self.new))) }
        ensures bad { IfOk result (λ given. IfNone given (is_bad (map (λ w. w.now) words.now))) }
        ensures stays { IfOk result (λ given. IfNone given (self.new ≡ self.old)) };
}
