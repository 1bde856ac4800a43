//! Comparators of keys.
ghost use Rattle.bforest_nodes.specs.Search.{count_less, count_up_to, search_of};
ghost use Rattle.std.specs.Cmp.{IsTotalOrder};
ghost use Rattle.std.specs.List.Sorted.{IsStrictlySortedBy};
ghost use Rattle.std.specs.Ordering.{is_gt, is_lt};
ghost use Rattle.std.specs.Prelude.{false, get_or, if◌then◌else◌, length, take, true, ◌+◌, ◌-◌, ◌/◌, ◌<◌, ◌≡◌, ◌≤◌, ℕ};
ghost use Rattle.std.specs.declared.cmp.Ordering.{Ordering};

use std::cmp::{Ord, Ordering};
use std::mem::size_of_val;

/// An order of keys, with whatever it needs to compare them.
///
/// Each call that compares is handed a comparator, so that a key can be a bare number whose order only its owner knows. An implementation
/// proves that `order` is a total order: two keys may compare equal and still be different values.
pub trait Comparator<K: Copy> {
    /// The order as a function, which contracts cite.
    ghost order: { Self → K → K → Ordering };

    /// Compares two keys.
    fn cmp(&self, a: K, b: K) -> Ordering
        ensures { result ≡ order self.now a b };

    /// Finds a key in a slice whose keys strictly increase: returns `Ok` of its index, or `Err` of how many keys are less.
    ///
    /// The provided body is a binary search, which compares about log2 of the slice's length times. An implementation may replace it, for
    /// example by a linear scan. Nothing is said of a slice whose keys do not strictly increase.
    fn search(&self, k: K, s: &[K]) -> Result<usize, usize>
        ensures { IsStrictlySortedBy (order self.now) s.now
            → result ≡ search_of (order self.now) s.now k }
    {
        s.binary_search_by(|x| self.cmp(*x, k))
    }

    /// Returns how many keys of a slice whose keys strictly increase are not greater than `k`. Among the separators of an inner node that
    /// is the index of the child under which `k` belongs. Nothing is said of a slice whose keys do not strictly increase.
    ///
    /// The provided body calls `search`. An implementation that replaces `search` by a linear scan may replace this call too.
    fn upper_bound(&self, k: K, s: &[K]) -> usize
        ensures { IsStrictlySortedBy (order self.now) s.now
            → result ≡ count_up_to (order self.now) s.now k }
    {
        match self.search(k, s) {
            Ok(index) => index.saturating_add(1),
            Err(index) => index,
        }
    }

    /// Makes `search` among the first `len` keys of a row. The keys behind them are of any order and do not change the result.
    ///
    /// A node hands over its whole row of keys, so that an implementation may read at fixed places. Replacing it pays where a comparison
    /// costs less than a mispredicted branch. The provided body searches the first `len` keys alone, in about log2 of `len` comparisons.
    ///
    /// # Panics
    ///
    /// The provided body panics where `len` is greater than the row's length.
    fn search_prefix(&self, k: K, row: &[K], len: usize) -> Result<usize, usize>
        requires { len ≤ length row.now }
        ensures { IsStrictlySortedBy (order self.now) (take len row.now)
            → result ≡ search_of (order self.now) (take len row.now) k }
    {
        self.search(k, &row[..len])
    }

    /// Makes `upper_bound` among the first `len` keys of a row, as `search_prefix` makes `search` among them.
    ///
    /// # Panics
    ///
    /// The provided body panics where `len` is greater than the row's length.
    fn upper_bound_prefix(&self, k: K, row: &[K], len: usize) -> usize
        requires { len ≤ length row.now }
        ensures { IsStrictlySortedBy (order self.now) (take len row.now)
            → result ≡ count_up_to (order self.now) (take len row.now) k }
    {
        self.upper_bound(k, &row[..len])
    }

    /// The proof that the order is total: each key equals itself, swapping two keys reverses the result, and less than and equal are
    /// transitive.
    ghost total: { (c : Self) → IsTotalOrder (order c) };
}

// The size in bytes above which keys are compared one after another, up to the first that is not less.
const WIDE: usize = 8;

// Finds a key in a slice whose keys strictly increase, with one comparison for each key up to the first that is not less.
fn scan<K: Copy + Ord>(k: K, s: &[K]) -> Result<usize, usize>
    ensures { IsStrictlySortedBy K.cmp s.now → result ≡ search_of K.cmp s.now k }
{
    let mut at = 0;
    for x in s {
        match (*x).cmp(&k) {
            Ordering::Less => {}
            Ordering::Equal => return Ok(at),
            Ordering::Greater => return Err(at),
        }
        at += 1;
    }
    Err(at)
}

// The length above which a row of an odd length is searched in one of its halves.
const LONG: usize = 8;

/// The keys' own order, by `Ord`.
///
/// A search in a slice compares with each key once, and then with one of them once more. A search in a node's row compares with the first
/// key and the last valid one, and only between these two with all other keys of the row, or of one half of a long row. Keys of more than 8
/// bytes are compared in their order, up to the first that is not less.
impl<K: Copy + Ord> Comparator<K> for () {
    ghost order = { λ _. K.cmp };

    ghost total = { λ _. K.total };

    fn cmp(&self, a: K, b: K) -> Ordering {
        a.cmp(&b)
    }

    // A count of the lesser keys: a few cheap comparisons cost less than a mispredicted branch.
    fn search(&self, k: K, s: &[K]) -> Result<usize, usize> {
        let mut less = 0;
        for x in s {
            less += (*x < k) as usize;
        }
        if less < s.len() && s[less] == k {
            Ok(less)
        } else {
            Err(less)
        }
    }

    fn upper_bound(&self, k: K, s: &[K]) -> usize {
        let mut count = 0;
        for x in s {
            count += (*x <= k) as usize;
        }
        count
    }

    // Inlined, as is what it calls: where the row's length is known, its indices need no test.
    #[inline(always)]
    fn search_prefix(&self, k: K, row: &[K], len: usize) -> Result<usize, usize> {
        if size_of_val(&k) > WIDE {
            return scan(k, &row[..len]);
        }
        let at = lower_bound(k, row, len);
        if at < len && row[at] == k {
            Ok(at)
        } else {
            Err(at)
        }
    }

    #[inline(always)]
    fn upper_bound_prefix(&self, k: K, row: &[K], len: usize) -> usize {
        if size_of_val(&k) > WIDE {
            return match scan(k, &row[..len]) {
                Ok(at) => at.saturating_add(1),
                Err(at) => at,
            };
        }
        if len == 0 || row[0] > k {
            return 0;
        }
        if row[len - 1] <= k {
            return len;
        }
        first_greater(k, row, len)
    }
}

// Returns how many of the first `len` keys of a row are less than `k`.
fn lower_bound<K: Copy + Ord>(k: K, row: &[K], len: usize) -> usize
    requires { len ≤ length row.now }
    ensures within { result ≤ len }
    ensures count { IsStrictlySortedBy K.cmp (take len row.now)
        → result ≡ count_less K.cmp (take len row.now) k }
{
    if len == 0 || row[0] >= k {
        return 0;
    }
    if row[len - 1] < k {
        return len;
    }
    first_not_less(k, row, len)
}

// Returns an index among the first `len` whose key is not less than `k`, while the key before it is less. It reads the whole row from the
// right, or one half of a long row, and chooses without a branch.
fn first_not_less<K: Copy + Ord>(k: K, row: &[K], len: usize) -> usize
    requires some { 0 < len }
    requires most { len ≤ length row.now }
    requires first { (d : K) → is_lt (K.cmp (get_or row.now 0 d) k) ≡ true }
    requires last { (d : K) → is_lt (K.cmp (get_or row.now (len - 1) d) k) ≡ false }
    ensures within { result < len }
    ensures before { (d : K) → is_lt (K.cmp (get_or row.now (result - 1) d) k) ≡ true }
    ensures here { (d : K) → is_lt (K.cmp (get_or row.now result d) k) ≡ false }
{
    if row.len() > LONG && row.len() % 2 == 1 {
        let middle = row.len() / 2;
        let start = middle_if((len > middle) & (row[middle] < k), middle);
        return first_not_less_behind(start, k, row);
    }
    let mut at = row.len() - 1;
    for back in 2..row.len() {
        let index = row.len() - back;
        at = if row[index] < k { at } else { index };
    }
    at
}

// Returns an index among the first `len` whose key is greater than `k`, while the key before it is not. It reads as `first_not_less` does.
fn first_greater<K: Copy + Ord>(k: K, row: &[K], len: usize) -> usize
    requires some { 0 < len }
    requires most { len ≤ length row.now }
    requires first { (d : K) → is_gt (K.cmp (get_or row.now 0 d) k) ≡ false }
    requires last { (d : K) → is_gt (K.cmp (get_or row.now (len - 1) d) k) ≡ true }
    ensures within { result < len }
    ensures before { (d : K) → is_gt (K.cmp (get_or row.now (result - 1) d) k) ≡ false }
    ensures here { (d : K) → is_gt (K.cmp (get_or row.now result d) k) ≡ true }
{
    if row.len() > LONG && row.len() % 2 == 1 {
        let middle = row.len() / 2;
        let start = middle_if((len > middle) & (row[middle] <= k), middle);
        return first_greater_behind(start, k, row);
    }
    let mut at = row.len() - 1;
    for back in 2..row.len() {
        let index = row.len() - back;
        at = if row[index] <= k { at } else { index };
    }
    at
}

// Returns `middle` if the right half is to be searched, or 0, without a branch.
fn middle_if(right: bool, middle: usize) -> usize
    ensures { result ≡ (if right then middle else 0) }
{
    middle * right as usize
}

// Returns the least index behind `start` whose key is not less than `k`, or the last index that is read where there is none. It reads as many
// keys behind `start` as half of the row's length, from the right, and chooses without a branch.
fn first_not_less_behind<K: Copy + Ord>(start: usize, k: K, row: &[K]) -> usize
    requires some { 1 < length row.now }
    requires within { start + length row.now / 2 < length row.now }
    ensures behind { start < result }
    ensures within { result ≤ start + length row.now / 2 }
    ensures before { (j : ℕ) (d : K) → start < j → j < result → is_lt (K.cmp (get_or row.now j d) k) ≡ true }
    ensures here { (d : K) → result < start + length row.now / 2
        → is_lt (K.cmp (get_or row.now result d) k) ≡ false }
{
    let middle = row.len() / 2;
    let mut at = start + middle;
    for back in 1..middle {
        let place = start + middle - back;
        at = if row[place] < k { at } else { place };
    }
    at
}

// Returns the least index behind `start` whose key is greater than `k`, or the last index that is read where there is none. It reads the keys
// that `first_not_less_behind` reads.
fn first_greater_behind<K: Copy + Ord>(start: usize, k: K, row: &[K]) -> usize
    requires some { 1 < length row.now }
    requires within { start + length row.now / 2 < length row.now }
    ensures behind { start < result }
    ensures within { result ≤ start + length row.now / 2 }
    ensures before { (j : ℕ) (d : K) → start < j → j < result → is_gt (K.cmp (get_or row.now j d) k) ≡ false }
    ensures here { (d : K) → result < start + length row.now / 2
        → is_gt (K.cmp (get_or row.now result d) k) ≡ true }
{
    let middle = row.len() / 2;
    let mut at = start + middle;
    for back in 1..middle {
        let place = start + middle - back;
        at = if row[place] <= k { at } else { place };
    }
    at
}
