//! Calls and answers, as values. They name handles and comparators by their index in the slices that a run is given.
use bforest::OutOfMemory;
use std::ops::Bound;

/// A call on a forest, or on one of its handles: `h` is a handle's index, `c` a comparator's.
#[derive(Drop)]
pub enum Call<K: Copy, V: Copy> {
    /// `get`, for sets `contains`. Answers [`Answer::Value`].
    Get {
        h: usize,
        c: usize,
        k: K,
    },
    /// `get_or_less`. Answers [`Answer::Pair`].
    GetOrLess {
        h: usize,
        c: usize,
        k: K,
    },
    /// `get_or_greater`. Answers [`Answer::Pair`].
    GetOrGreater {
        h: usize,
        c: usize,
        k: K,
    },
    /// `first`. Answers [`Answer::Pair`].
    First {
        h: usize,
    },
    /// `last`. Answers [`Answer::Pair`].
    Last {
        h: usize,
    },
    /// `insert`. Answers [`Answer::Put`].
    Insert {
        h: usize,
        c: usize,
        k: K,
        v: V,
    },
    /// `get_or_insert`. Answers [`Answer::Put`] with the value that the key has then, for sets [`Answer::NotOffered`].
    GetOrInsert {
        h: usize,
        c: usize,
        k: K,
        v: V,
    },
    /// `update`: the value of a key that is present becomes `v`. Answers [`Answer::Value`], for sets [`Answer::NotOffered`].
    Update {
        h: usize,
        c: usize,
        k: K,
        v: V,
    },
    /// `update_or_insert`: the value of a key that is present becomes `put`, else `v` is inserted. Answers [`Answer::Put`] with the value
    /// that the key has then, for sets [`Answer::NotOffered`].
    UpdateOrInsert {
        h: usize,
        c: usize,
        k: K,
        v: V,
        put: V,
    },
    /// `shift`: each key that is not less than `from` becomes the new key of the first pair in `keys` whose old key compares equal to it.
    /// A key without such a pair stays. Whether the list increases then is not tested: later calls that compare answer
    /// [`Answer::Unordered`] where it does not. Answers [`Answer::Done`].
    Shift {
        h: usize,
        c: usize,
        from: K,
        keys: Vec<(K, K)>,
    },
    /// `remove`. Answers [`Answer::Value`].
    Remove {
        h: usize,
        c: usize,
        k: K,
    },
    /// `pop_first`. Answers [`Answer::Pair`].
    PopFirst {
        h: usize,
    },
    /// `pop_last`. Answers [`Answer::Pair`].
    PopLast {
        h: usize,
    },
    /// `len`. Answers [`Answer::Count`].
    Len {
        h: usize,
    },
    /// `compact`. Answers [`Answer::Made`].
    Compact {
        h: usize,
    },
    /// `remove_range`: whether an entry was removed. Answers [`Answer::Changed`].
    RemoveRange {
        h: usize,
        c: usize,
        lo: Bound<K>,
        hi: Bound<K>,
    },
    /// `union_with` of the list of handle `other`, which may be `h`. Answers [`Answer::United`].
    Unite {
        h: usize,
        other: usize,
        c: usize,
    },
    /// `intersect_with` of the list of handle `other`, which may be `h`: whether an entry was removed. Answers [`Answer::Changed`].
    Intersect {
        h: usize,
        other: usize,
        c: usize,
    },
    /// `difference_with` of the list of handle `other`, which may be `h`: whether an entry was removed. Answers [`Answer::Changed`].
    Subtract {
        h: usize,
        other: usize,
        c: usize,
    },
    /// `is_subset` of the list of handle `other`, which may be `h`. Answers [`Answer::Holds`].
    IsSubset {
        h: usize,
        other: usize,
        c: usize,
    },
    /// `is_disjoint` from the list of handle `other`, which may be `h`. Answers [`Answer::Holds`].
    IsDisjoint {
        h: usize,
        other: usize,
        c: usize,
    },
    /// `clear` of the map or set. Answers [`Answer::Done`].
    Clear {
        h: usize,
    },
    /// `iter` to its end. Answers [`Answer::Pairs`].
    Iter {
        h: usize,
    },
    /// `iter_back` to its end. Answers [`Answer::Pairs`].
    IterBack {
        h: usize,
    },
    /// A reading cursor and each step in turn. Answers [`Answer::Script`], for sets [`Answer::NotOffered`].
    Read {
        h: usize,
        c: usize,
        steps: Vec<Look<K>>,
    },
    /// A writing cursor and each step in turn. Answers [`Answer::Script`].
    Edit {
        h: usize,
        c: usize,
        steps: Vec<Act<K, V>>,
    },
    /// `range`, and a step from one of its ends for each side. Answers [`Answer::Script`] of [`Seen::Pair`]s.
    Range {
        h: usize,
        c: usize,
        lo: Bound<K>,
        hi: Bound<K>,
        ends: Vec<Side>,
    },
    /// `retain`: each entry first gets the value of `put`, if there is one, and is kept if some listed key compares equal to its key. The
    /// comparator serves the predicate alone. Answers [`Answer::Done`].
    Retain {
        h: usize,
        c: usize,
        keys: Vec<K>,
        put: Option<V>,
    },
    /// Handle `to` becomes a `clone` of handle `from`, live or not; the tree that `to` named before stays. Answers [`Answer::Done`].
    Alias {
        from: usize,
        to: usize,
    },
    /// Handle `to` becomes a `deep_clone` of handle `from`, where one is made; the tree that `to` named before stays. Answers
    /// [`Answer::Made`].
    DeepClone {
        from: usize,
        to: usize,
    },
    /// `split_off`: handle `to` becomes the handle of the entries whose keys are not less than `k`, where they are moved; the tree that `to`
    /// named before stays. Answers [`Answer::Made`], and [`Answer::NoIndex`] where `to` is `h`.
    SplitOff {
        h: usize,
        c: usize,
        k: K,
        to: usize,
    },
    /// Handle `h` becomes a `load` of the entries, where one is made; the tree that it named before stays. Whether they increase is not
    /// tested, as after a shift. Answers [`Answer::Made`].
    Load {
        h: usize,
        entries: Vec<(K, V)>,
    },
    /// `clear` of the forest; the handles keep their numbers. Answers [`Answer::Done`].
    ForestClear,
}

/// What a call answers.
#[derive(Drop, Debug, PartialEq, Eq)]
pub enum Answer<K: Copy, V: Copy> {
    Value(Option<V>),
    Pair(Option<(K, V)>),
    Put(Result<Option<V>, OutOfMemory>),
    Pairs(Vec<(K, V)>),
    Script(Vec<Seen<K, V>>),
    /// A tree was made, or nodes for it were refused.
    Made(Result<(), OutOfMemory>),
    /// How many entries there are.
    Count(usize),
    /// Whether the list changed.
    Changed(bool),
    /// Whether an entry of the other list was new, or nodes for it were refused.
    United(Result<bool, OutOfMemory>),
    /// Whether it is as was asked.
    Holds(bool),
    Done,
    /// An index is past the end of its slice, or both handles of a split are one.
    NoIndex,
    /// The handle is not live.
    Dead,
    /// The list does not increase under the comparator.
    Unordered,
    /// Sets do not offer this call.
    NotOffered,
}

/// A step of a reading cursor.
#[derive(Drop)]
pub enum Look<K: Copy> {
    Empty,
    Next,
    Prev,
    Key,
    Value,
    Goto(K),
    First,
    End,
}

/// A step of a writing cursor.
#[derive(Drop)]
pub enum Act<K: Copy, V: Copy> {
    Empty,
    Next,
    Prev,
    Key,
    Value,
    Goto(K),
    First,
    /// `insert`.
    Put(K, V),
    /// Writes the value at the cursor's place, through `value_mut`.
    Write(V),
    Remove,
}

/// What a step of a cursor or of a range returned.
#[derive(Drop, Debug, PartialEq, Eq)]
pub enum Seen<K: Copy, V: Copy> {
    Pair(Option<(K, V)>),
    Key(Option<K>),
    Value(Option<V>),
    Put(Result<Option<V>, OutOfMemory>),
    Flag(bool),
    Done,
}

/// An end of a range.
#[derive(Clone, Copy, Debug, PartialEq, Eq)]
pub enum Side {
    Front,
    Back,
}
