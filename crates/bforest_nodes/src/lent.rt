//! Loans out of an array.
//!
//! The borrow checker does not state the final value of an array of which an element is returned. Where the first elements are returned, it
//! states it for a list of their length alone, and a clause states it of each list. Therefore the two functions here are proved by hand.
//! Those that call them are not.
ghost use Rattle.std.specs.Borrow.{sem, Array, Lends};
ghost use Rattle.std.specs.Prelude.{◌++◌, ◌<◌, ◌≡◌, ◌≤◌, Some, drop, length, slice_get, slice_set, take};

/// The element at an index, for writing.
pub(crate) fn element_mut<T, const N: usize>(items: &mut [T; N], index: usize) -> &mut T
    requires { index < N }
    ensures* writes_back { sem 𝓛
        (Lends (Array T.row N) T.row items.entry result (slice_set items.old index)) }
    ensures value { slice_get items.old index ≡ Some result.now }
{
    &mut items[index]
}

/// The first `len` elements, for writing.
pub(crate) fn front_mut<T, const N: usize>(items: &mut [T; N], len: usize) -> &mut [T]
    requires { len ≤ N }
    ensures* writes_back { sem 𝓛 (Lends (Array T.row N) (Array T.row 0) items.entry result
        (λ w. w ++ drop (length w) items.old)) }
    ensures value { result.now ≡ take len items.old }
{
    &mut items[..len]
}
