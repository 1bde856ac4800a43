//! The sizes of the nodes of one level.

/// The node in which a place is, and the place in it. The place just past a node's last counts as its own if `is_behind_allowed`.
pub(crate) fn node_at(level: &[usize], place: usize, is_behind_allowed: bool) -> (usize, usize) {
    let mut left = place;
    for (index, size) in level.iter().enumerate() {
        if left < *size || is_behind_allowed && left == *size {
            return (index, left);
        }
        left = left.saturating_sub(*size);
    }
    (0, 0)
}

/// The sizes of the halves of a full inner node whose child at an index was split.
pub(crate) fn halves_of_children(index: usize) -> (usize, usize) {
    if index < 4 { (5, 4) } else { (4, 5) }
}

/// Removes one element of a node that may have `most`. Returns whether the node is removed.
pub(crate) fn lose_one(level: &mut Vec<usize>, index: usize, most: usize) -> bool {
    let Some(size) = level.get_mut(index) else {
        return false;
    };
    *size = size.saturating_sub(1);
    let left = *size;
    if left.saturating_mul(2) >= most {
        return false;
    }
    if left > 0 && !is_settled(level, index, most) {
        return false;
    }
    if index < level.len() {
        level.remove(index);
    }
    true
}

// Balances a node of less than half of `most` with its right neighbour, if it has one. Returns whether the node is merged into it.
fn is_settled(level: &mut [usize], index: usize, most: usize) -> bool {
    let left = level.get(index).copied().unwrap_or(0);
    let Some(next) = level.get_mut(index.saturating_add(1)) else {
        return false;
    };
    let all = left.saturating_add(*next);
    if all <= most {
        *next = all;
        return true;
    }
    *next = all / 2;
    let rest = all.saturating_sub(all / 2);
    if let Some(size) = level.get_mut(index) {
        *size = rest;
    }
    false
}
