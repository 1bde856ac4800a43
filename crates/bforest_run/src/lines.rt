//! The lines of an input.
ghost use Rattle.bforest_run.specs.Lines.{lines_left, lines_of, parts_left, without_return};
ghost use Rattle.std.specs.Iterator.{YieldsFirstRef, item_count};
ghost use Rattle.std.specs.List.{slice_split};
ghost use Rattle.std.specs.Prelude.{length, position, ◌+◌, ◌==◌, ◌∷◌, ◌≡◌, ◌≤◌};

/// The lines of some bytes, without their ends. A line ends at a line feed or at the end of the bytes, and a carriage return right before
/// that is part of the end.
#[derive(Drop)]
pub(crate) struct Lines<'a> {
    rest: Option<&'a [u8]>,
}

impl<'a> Lines<'a> {
    /// The lines of these bytes.
    #[tactic(auto, using(crate::proofs::Parts::few_lines))]
    pub(crate) fn of(bytes: &'a [u8]) -> Lines<'a>
        ensures lines { lines_left result.rest ≡ lines_of bytes.now }
        ensures few { length (lines_left result.rest) ≤ length bytes.now + 1 }
    {
        Lines { rest: Some(bytes) }
    }
}

impl<'a> Iterator for Lines<'a> {
    type Item = &'a [u8];

    ghost next_gives = { YieldsFirstRef (λ lines. lines_left lines.rest) };

    ghost remaining = { item_count (λ lines. lines_left lines.rest) };

    fn next(&mut self) -> Option<&'a [u8]> {
        let (line, rest) = first_part(self.rest?);
        self.rest = rest;
        Some(without_return(line))
    }
}

/// The bytes before the first line feed, and those behind it.
fn first_part(bytes: &[u8]) -> (&[u8], Option<&[u8]>)
    ensures { slice_split (λ b. b == 10) bytes.now ≡ result.0.now ∷ parts_left result.1 }
{
    match line_feed_in(bytes) {
        Some(end) => (&bytes[..end], Some(&bytes[end + 1..])),
        None => (bytes, None),
    }
}

/// The index of the first line feed.
fn line_feed_in(bytes: &[u8]) -> Option<usize>
    ensures { result ≡ position (λ b. b == 10) bytes.now }
{
    bytes.iter().position(|byte| *byte == b'\n')
}

/// The line without a carriage return at its end.
fn without_return(line: &[u8]) -> &[u8]
    ensures { result.now ≡ without_return line.now }
{
    match line {
        [front @ .., b'\r'] => front,
        _ => line,
    }
}
