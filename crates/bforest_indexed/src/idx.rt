//! Types that name maps and sets by numbers.
ghost use Rattle.std.specs.Prelude.{⊤, ◌≡◌, ℕ};

/// A type whose values name the maps of a table, or its sets, by their numbers: `usize`, or one of your own, so that a block and a variable
/// can't be exchanged.
///
/// Both calls take constant time, and a value has one number, always the same.
pub trait Idx: Copy {
    // the number of a value
    ghost number: { Self → ℕ };

    // whether a value may be made of a number
    ghost names: { ℕ → Type 0 };

    /// Returns the value that names the map or set of a number. It is called by `push` alone.
    fn new(index: usize) -> Self
        requires nameable { names index }
        ensures number { number result ≡ index };

    /// Returns the number.
    fn index(self) -> usize
        ensures number { result ≡ number self };
}

impl Idx for usize {
    ghost number = { λ i. i };

    ghost names = { λ _. ⊤ };

    fn new(index: usize) -> usize {
        index
    }

    fn index(self) -> usize {
        self
    }
}
