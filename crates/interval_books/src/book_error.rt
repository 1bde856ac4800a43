//! The errors of calls on books.

use bforest::OutOfMemory;

/// Why a call on books failed. The call changed nothing. Where several apply, the first in this order is returned.
#[derive(Clone, Copy, Debug, PartialEq, Eq)]
pub enum BookError {
    /// There is no resource of this number.
    UnknownResource,
    /// The interval is empty: it does not start before it ends.
    EmptyInterval,
    /// The interval meets a booked one, given by its start and its end. Of several, it is the one with the least start.
    Overlaps(u64, u64),
    /// No booked interval begins at the given start.
    NotBooked,
    /// The forest had no node for the booking, for this reason.
    Forest(OutOfMemory),
}
