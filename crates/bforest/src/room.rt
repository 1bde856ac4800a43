//! How many nodes a tree of so many entries can have.
ghost use Rattle.bforest.specs.Room.{IsEnoughAbove, IsEnoughFor, IsMetAbove, IsMetBy};
ghost use Rattle.std.specs.Int.{div_ceil};
ghost use Rattle.std.specs.Prelude.{◌*◌, ◌<◌, ◌≡◌, ◌≤◌, ℕ};

/// The least number of children of an inner node that is not the last of its level.
const MIN_CHILDREN: usize = 4;

/// Returns the most nodes that a tree of `entries` entries or fewer can have, whose leaves have at most `capacity` each.
pub(crate) fn most_nodes(entries: usize, capacity: usize) -> usize
    requires capacity { 3 ≤ capacity }
    requires small { capacity ≤ 255 }
    ensures enough { IsEnoughFor capacity entries result }
    ensures met { IsMetBy capacity entries result }
    ensures few { result ≤ 2 * div_ceil entries (div_ceil capacity 2) }
{
    if entries == 0 {
        return 0;
    }
    let half = capacity.div_ceil(2);
    nodes_from(entries.div_ceil(half))
}

// Returns the most nodes that a level of at most `count` nodes, 1 or more, can have together with the levels above it.
fn nodes_from(count: usize) -> usize
    requires some { 0 < count }
    requires small { count ≤ 9223372036854775808 }
    ensures enough { IsEnoughAbove count result }
    ensures met { IsMetAbove count result }
    ensures few { result < 2 * count }
{
    if count == 1 {
        return 1;
    }
    count + nodes_from(count.div_ceil(MIN_CHILDREN))
}
