//! The reply to a line.

/// The reply to a line.
#[derive(Drop)]
pub(crate) enum Reply {
    /// The line has no words.
    Skipped,
    /// The line is answered by this line, with its end.
    Told(String),
    /// The line is bad.
    Bad,
}
