//! What the engine requires of a map or of a set.
ghost use Rattle.bforest.specs.Calls.{Clears, Clones, Loads, SplitsOff};
ghost use Rattle.bforest.specs.Forest.{Forest, IsLive, emptied, list_of};
ghost use Rattle.bforest_calls.specs.Beside.{IsBeside, MakesBeside};
ghost use Rattle.bforest_calls.specs.Compared.{IsComparing, IsListed, Makes};
ghost use Rattle.bforest_calls.specs.Alone.{IsAlone, MakesAlone};
ghost use Rattle.bforest_calls.specs.State.{Retained};
ghost use Rattle.bforest_nodes.specs.Entries.{IsIncreasing};
ghost use Rattle.std.specs.Prelude.{Bool, Err, IfErr, IfOk, IsTrue, List, None, Ok, OnErr, Option, false, get_or, length, reverse, slice_set, ◌%◌, ◌<◌, ◌↔◌, ◌≡◌, ℕ};

use crate::call::{Answer, Call};
use bforest::{Comparator, OutOfMemory};
use std::alloc::{AllocError, Global};

/// A handle of a map or of a set, with the calls that [`crate::make`] makes on it: implemented for [`bforest::Map`] and, with the unit as
/// value, for [`bforest::Set`].
pub trait Collection<K: Copy, V: Copy>: Drop {
    /// The forest in which the handle's entries lie.
    type Forest;

    /// Whether the calls that only maps have are offered: reading cursors, and the calls that insert or update a value.
    const READS: bool;

    ghost READS: { Bool };

    // The number of a handle, those of many, and what contracts see of a forest.
    ghost number: { Self → Option ℕ };

    ghost numbers: { List Self → List (Option ℕ) };

    ghost trees: { Self.Forest → Forest K V };

    // The number of entries that a leaf has at most.
    ghost most: { ℕ };

    // What the calls require of the sizes of types.
    ghost fits: { Type 0 };

    /// Whether the handle is live.
    fn is_live(&self, forest: &Self::Forest) -> bool
        requires fits { fits }
        ensures live { IsTrue result ↔ IsLive (trees forest.now) (number self.now) };

    /// Whether the list strictly increases under a comparator.
    fn increases<C: Comparator<K>>(&self, forest: &Self::Forest, comp: &C) -> bool
        requires fits { fits }
        requires live { IsLive (trees forest.now) (number self.now) }
        ensures increasing { IsTrue result
            ↔ IsIncreasing (C.order comp.now) (list_of (trees forest.now) (number self.now)) };

    /// All entries, by an iterator.
    fn entries(&self, alloc: Global, forest: &Self::Forest) -> Result<Vec<(K, V)>, AllocError>
        requires fits { fits }
        requires live { IsLive (trees forest.now) (number self.now) }
        ensures entries { IfOk result (λ entries.
            entries.items ≡ list_of (trees forest.now) (number self.now)) };

    /// All entries from the last to the first, by an iterator.
    fn entries_back(&self, alloc: Global, forest: &Self::Forest) -> Result<Vec<(K, V)>, AllocError>
        requires fits { fits }
        requires live { IsLive (trees forest.now) (number self.now) }
        ensures entries { IfOk result (λ entries.
            entries.items ≡ reverse (list_of (trees forest.now) (number self.now))) };

    /// Makes a call that compares no key.
    fn answer_alone(&mut self, call: &Call<K, V>, forest: &mut Self::Forest) -> Answer<K, V>
        requires fits { fits }
        requires alone { (h : ℕ) × IsAlone h call.now }
        requires live { IsLive (trees forest.old) (number self.old) }
        ensures makes { MakesAlone most call.now
            (record { forest = trees forest.old; number = number self.old }) result
            (record { forest = trees forest.new; number = number self.new }) };

    /// Makes a call that compares keys. Room for an answer that is a list is taken before anything changes.
    fn answer<C: Comparator<K>>(
        &mut self,
        alloc: Global,
        call: &Call<K, V>,
        forest: &mut Self::Forest,
        comp: &C,
    ) -> Result<Answer<K, V>, AllocError>
        requires fits { fits }
        requires compares { (h : ℕ) × (c : ℕ) × IsComparing READS h c call.now }
        requires live { IsLive (trees forest.old) (number self.old) }
        requires increasing { IsIncreasing (C.order comp.now) (list_of (trees forest.old) (number self.old)) }
        ensures makes { IfOk result (λ given. Makes most (C.order comp.now) call.now
            (record { forest = trees forest.old; number = number self.old }) given
            (record { forest = trees forest.new; number = number self.new })) }
        ensures room { OnErr result (IsListed call.now) }
        ensures err_forest { OnErr result (forest.new ≡ forest.old) }
        ensures err_self { OnErr result (self.new ≡ self.old) };

    /// Makes a call that compares keys with those of another list. The two may be one.
    fn answer_beside<C: Comparator<K>>(
        &mut self,
        call: &Call<K, V>,
        other: &Self,
        forest: &mut Self::Forest,
        comp: &C,
    ) -> Answer<K, V>
        requires fits { fits }
        requires beside { (h : ℕ) × (o : ℕ) × (c : ℕ) × IsBeside h o c call.now }
        requires live { IsLive (trees forest.old) (number self.old) }
        requires increasing { IsIncreasing (C.order comp.now) (list_of (trees forest.old) (number self.old)) }
        requires other_live { IsLive (trees forest.old) (number other.now) }
        requires other_increasing { IsIncreasing (C.order comp.now)
            (list_of (trees forest.old) (number other.now)) }
        ensures makes { MakesBeside most (C.order comp.now) (number other.now) call.now
            (record { forest = trees forest.old; number = number self.old }) result
            (record { forest = trees forest.new; number = number self.new }) };

    /// Keeps the entries whose keys are listed, with the value of `put` if there is one.
    fn retain<C: Comparator<K>>(
        &mut self,
        keys: &[K],
        put: Option<V>,
        forest: &mut Self::Forest,
        comp: &C,
    )
        requires fits { fits }
        requires live { IsLive (trees forest.old) (number self.old) }
        ensures retained { Retained most (C.order comp.now) keys.now put
            (record { forest = trees forest.old; number = number self.old })
            (record { forest = trees forest.new; number = number self.new }) };

    /// Removes all entries.
    fn clear(&mut self, forest: &mut Self::Forest)
        requires fits { fits }
        requires live { IsLive (trees forest.old) (number self.old) }
        ensures clears { Clears (trees forest.old) (number self.old) (trees forest.new) (number self.new) };

    /// A handle to a second tree with the list of this one.
    fn deep_clone(&self, forest: &mut Self::Forest) -> Result<Self, OutOfMemory>
        requires fits { fits }
        requires live { IsLive (trees forest.old) (number self.now) }
        ensures made { IfOk result (λ copy.
            Clones (trees forest.old) (number self.now) (Ok (number copy)) (trees forest.new)) }
        ensures refused { IfErr result (λ why.
            Clones (trees forest.old) (number self.now) (Err why) (trees forest.new)) };

    /// A handle to a tree of the entries whose keys are not less than `key`, which are moved there.
    fn split_off<C: Comparator<K>>(
        &mut self,
        key: K,
        forest: &mut Self::Forest,
        comp: &C,
    ) -> Result<Self, OutOfMemory>
        requires fits { fits }
        requires live { IsLive (trees forest.old) (number self.old) }
        requires increasing { IsIncreasing (C.order comp.now) (list_of (trees forest.old) (number self.old)) }
        ensures made { IfOk result (λ tail. SplitsOff most (C.order comp.now) (trees forest.old)
            (number self.old) key (Ok (number tail)) (trees forest.new) (number self.new)) }
        ensures refused { IfErr result (λ why. SplitsOff most (C.order comp.now) (trees forest.old)
            (number self.old) key (Err why) (trees forest.new) (number self.new)) };

    /// A handle to a tree of these entries. For a list of keys alone, memory is requested before anything changes.
    fn load(
        alloc: Global,
        entries: &[(K, V)],
        forest: &mut Self::Forest,
    ) -> Result<Result<Self, OutOfMemory>, AllocError>
        requires fits { fits }
        ensures made { IfOk result (λ loaded. IfOk loaded (λ tree.
            Loads most (trees forest.old) entries.now (Ok (number tree)) (trees forest.new))) }
        ensures refused { IfOk result (λ loaded. IfErr loaded (λ why.
            Loads most (trees forest.old) entries.now (Err why) (trees forest.new))) }
        ensures room { OnErr result ((READS ≡ false) × (0 < length entries.now)) }
        ensures err_forest { OnErr result (forest.new ≡ forest.old) };

    /// A second handle to the same tree.
    fn alias(&self) -> Self
        ensures same { result ≡ self.now };

    /// Whether two handles are one, which is whether they have one number.
    fn is_same_handle(&self, other: &Self) -> bool
        ensures same { IsTrue result ↔ (number self.now ≡ number other.now) };

    /// Removes all trees of a forest.
    fn clear_all(forest: &mut Self::Forest)
        requires fits { fits }
        ensures empty { trees forest.new ≡ emptied (trees forest.old) };

    ghost odd: { most % 2 ≡ 1 };

    // The numbers of many handles are that of each.
    ghost counted: { (xs : List Self) → length (numbers xs) ≡ length xs };

    ghost at: { (xs : List Self) (h : ℕ) (x : Self) → h < length xs → x ≡ get_or xs h x
        → number x ≡ get_or (numbers xs) h None };

    ghost written: { (xs : List Self) (h : ℕ) (x : Self)
        → numbers (slice_set xs h x) ≡ slice_set (numbers xs) h (number x) };
}
