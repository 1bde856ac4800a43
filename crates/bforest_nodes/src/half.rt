//! When a node is half full.
//!
//! A node is half full where it has at least half of the entries that it can hold. A removal answers whether its node still is, and a split
//! gives the entry that is put in to the half that is not.
ghost use Rattle.bforest_nodes.specs.Content.{IsLeafCapacity, removed_answer};
ghost use Rattle.std.specs.Prelude.{if◌then◌else◌, nat_le, ◌+◌, ◌/◌, ◌<◌, ◌^◌, ◌≡◌};

use crate::node::Removed;

/// The state of a node of this capacity with `left` entries, after the one at `index` was removed.
pub(crate) fn answer_of(index: usize, left: usize, most: usize) -> Removed
    requires { left < 2 ^ 32 }
    ensures { result ≡ removed_answer most index left }
{
    if 2 * left >= most {
        if index == left {
            Removed::Rightmost
        } else {
            Removed::Healthy
        }
    } else if left > 0 {
        Removed::Underflow
    } else {
        Removed::Empty
    }
}

/// How many entries of a full leaf of this capacity stay in its left half.
pub(crate) fn left_half_of(most: usize, insert_index: usize) -> usize
    requires { IsLeafCapacity most }
    ensures half { result ≡ (if nat_le insert_index (most / 2) then most / 2 else (most + 1) / 2) }
    ensures some { 0 < result }
    ensures within { result < most }
{
    if insert_index <= most / 2 {
        most / 2
    } else {
        most / 2 + 1
    }
}
