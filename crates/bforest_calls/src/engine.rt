//! One call, and the tests before it.
ghost use Rattle.bforest_calls.specs.Beside.{IsBeside};
ghost use Rattle.bforest_calls.specs.Compared.{IsComparing, IsKeeping, IsOfMaps};
ghost use Rattle.bforest_calls.specs.Alone.{IsAlone};
ghost use Rattle.bforest_calls.specs.Machine.{AreKnown, AsksRoom, IsKnown, Lacks, Live, Ordered, Passes, Refuses, State, Step};
ghost use Rattle.bforest_calls.specs.State.{StillAddsUp};
ghost use Rattle.bforest_calls.specs.declared.call.Answer.TheVariants as answer;
ghost use Rattle.bforest_calls.specs.declared.call.Call.TheVariants as call;
ghost use Rattle.std.specs.Prelude.{Err, IfErr, IfOk, IfSome, None, Ok, Bool, OnErr, false, length, map, slice_set, ◌<◌, ◌≡◌, ℕ};

use crate::call::{Answer, Call};
use crate::collection::Collection;
use crate::known::Known;
use bforest::{Comparator, OutOfMemory};
use std::alloc::{AllocError, Global};

/// Makes one call, on maps or on sets. Handles and orders may be any: the call tests them. Room for its answer is taken before anything
/// changes.
///
/// `known` are handles that are live, each with a comparator under which its list increases. These are not tested again. Afterwards it is
/// what the call leaves of it, and what the call tells: the handle and the comparator of a call that compared keys, if it was made and is
/// no shift and no split. A handle is forgotten where a call may change its tree through a copy, or may make it name another tree. So
/// calls on a few handles in turn read each whole list once, as long as they keep to one comparator for each handle.
///
/// # Errors
///
/// `AllocError` where memory for an answer that is a list, or for the keys of a set that is loaded, was refused: then nothing has changed.
pub fn make<K: Copy, V: Copy, C: Comparator<K>, T: Collection<K, V>>(
    alloc: Global,
    call: &Call<K, V>,
    comps: &[C],
    handles: &mut [T],
    forest: &mut T::Forest,
    known: &mut Known,
) -> Result<Answer<K, V>, AllocError>
    requires fits { T.fits }
    requires known { AreKnown (map C.order comps.now)
        (record { forest = T.trees forest.old; handles = T.numbers handles.old }) known.old }
    ensures step { IfOk result (λ given. Step T.most T.READS (map C.order comps.now)
        (record { forest = T.trees forest.old; handles = T.numbers handles.old }) call.now given
        (record { forest = T.trees forest.new; handles = T.numbers handles.new })) }
    ensures room { OnErr result (AsksRoom T.READS (map C.order comps.now)
        (record { forest = T.trees forest.old; handles = T.numbers handles.old }) call.now) }
    ensures err_forest { OnErr result (forest.new ≡ forest.old) }
    ensures err_handles { OnErr result (handles.new ≡ handles.old) }
    ensures err_known { OnErr result (known.new ≡ known.old) }
    ensures known { AreKnown (map C.order comps.now)
        (record { forest = T.trees forest.new; handles = T.numbers handles.new }) known.new }
    ensures adds_up { StillAddsUp T.most (T.trees forest.old) (T.trees forest.new) }
{
    let mut left = *known;
    left.forget(call, handles);
    let given = make_by(alloc, call, comps, handles, forest, known)?;
    left.learn(known_by(call, &given));
    *known = left;
    Ok(given)
}

/// What an answer tells of the handle and the comparator of its call.
fn known_by<K: Copy, V: Copy>(call: &Call<K, V>, given: &Answer<K, V>) -> Option<(usize, usize)>
    ensures { (most : ℕ) (reads : Bool) (orders : _) (old new : State K V)
        → Step most reads orders old call.now given.now new → IsKnown orders new result }
{
    match given {
        Answer::NoIndex | Answer::Dead | Answer::Unordered | Answer::NotOffered => None,
        _ => kept_by(call),
    }
}

/// The handle and the comparator of a call that compares keys and keeps the list increasing.
fn kept_by<K: Copy, V: Copy>(call: &Call<K, V>) -> Option<(usize, usize)>
    ensures keeping { IfSome result (λ it. IsKeeping it.0 it.1 call.now) }
{
    match call {
        Call::Get { h, c, .. }
        | Call::GetOrLess { h, c, .. }
        | Call::GetOrGreater { h, c, .. }
        | Call::Insert { h, c, .. }
        | Call::GetOrInsert { h, c, .. }
        | Call::Update { h, c, .. }
        | Call::UpdateOrInsert { h, c, .. }
        | Call::Remove { h, c, .. }
        | Call::Read { h, c, .. }
        | Call::Edit { h, c, .. }
        | Call::Unite { h, c, .. }
        | Call::Intersect { h, c, .. }
        | Call::Subtract { h, c, .. }
        | Call::IsSubset { h, c, .. }
        | Call::IsDisjoint { h, c, .. }
        | Call::Range { h, c, .. }
        | Call::RemoveRange { h, c, .. } => Some((*h, *c)),
        _ => None,
    }
}

/// Makes one call, and does not test what is known.
fn make_by<K: Copy, V: Copy, C: Comparator<K>, T: Collection<K, V>>(
    alloc: Global,
    call: &Call<K, V>,
    comps: &[C],
    handles: &mut [T],
    forest: &mut T::Forest,
    known: &Known,
) -> Result<Answer<K, V>, AllocError>
    requires fits { T.fits }
    requires known { AreKnown (map C.order comps.now)
        (record { forest = T.trees forest.old; handles = T.numbers handles.old }) known.now }
    ensures step { IfOk result (λ given. Step T.most T.READS (map C.order comps.now)
        (record { forest = T.trees forest.old; handles = T.numbers handles.old }) call.now given
        (record { forest = T.trees forest.new; handles = T.numbers handles.new })) }
    ensures room { OnErr result (AsksRoom T.READS (map C.order comps.now)
        (record { forest = T.trees forest.old; handles = T.numbers handles.old }) call.now) }
    ensures err_forest { OnErr result (forest.new ≡ forest.old) }
    ensures err_handles { OnErr result (handles.new ≡ handles.old) }
{
    match call {
        Call::Get { h, c, .. }
        | Call::GetOrLess { h, c, .. }
        | Call::GetOrGreater { h, c, .. }
        | Call::Insert { h, c, .. }
        | Call::Remove { h, c, .. }
        | Call::Shift { h, c, .. }
        | Call::Edit { h, c, .. }
        | Call::Range { h, c, .. }
        | Call::RemoveRange { h, c, .. } => {
            compare(alloc, call, *h, *c, known, comps, handles, forest)
        }
        Call::GetOrInsert { h, c, .. }
        | Call::Update { h, c, .. }
        | Call::UpdateOrInsert { h, c, .. }
        | Call::Read { h, c, .. } => {
            if T::READS {
                compare(alloc, call, *h, *c, known, comps, handles, forest)
            } else {
                Ok(not_offered(call, *h, *c, comps, handles))
            }
        }
        Call::Unite { h, other, c }
        | Call::Intersect { h, other, c }
        | Call::Subtract { h, other, c }
        | Call::IsSubset { h, other, c }
        | Call::IsDisjoint { h, other, c } => {
            Ok(beside(call, *h, *other, *c, comps, handles, forest))
        }
        Call::First { h }
        | Call::Last { h }
        | Call::PopFirst { h }
        | Call::PopLast { h }
        | Call::Len { h }
        | Call::Compact { h } => Ok(alone(call, *h, handles, forest)),
        Call::Retain { h, c, keys, put } => Ok(retain(*h, *c, keys, *put, comps, handles, forest)),
        Call::Clear { h } => Ok(clear(*h, handles, forest)),
        Call::Iter { h } => iter(alloc, *h, handles, forest),
        Call::IterBack { h } => iter_back(alloc, *h, handles, forest),
        Call::Alias { from, to } => Ok(alias(*from, *to, handles)),
        Call::DeepClone { from, to } => Ok(deep_clone(*from, *to, handles, forest)),
        Call::SplitOff { h, c, k, to } => {
            Ok(split_off(*h, *c, *k, *to, known, comps, handles, forest))
        }
        Call::Load { h, entries } => load(alloc, *h, entries, handles, forest),
        Call::ForestClear => {
            T::clear_all(forest);
            Ok(Answer::Done)
        }
    }
}

/// The answer to a call on handle `h` that cannot be made, since there is no such handle or it is not live; `None` where it can.
fn unnamed<K: Copy, V: Copy, T: Collection<K, V>>(
    h: usize,
    handles: &[T],
    forest: &T::Forest,
) -> Option<Answer<K, V>>
    requires fits { T.fits }
    ensures made { result ≡ None → (h < length (T.numbers handles.now))
        × Live (record { forest = T.trees forest.now; handles = T.numbers handles.now }) h }
    ensures refused { IfSome result (Refuses (h < length (T.numbers handles.now))
        (Live (record { forest = T.trees forest.now; handles = T.numbers handles.now }) h) (Unit {0})) }
{
    if h >= handles.len() {
        return Some(Answer::NoIndex);
    }
    if !handles[h].is_live(forest) {
        return Some(Answer::Dead);
    }
    None
}

/// The answer to a call on handle `h` that compares keys by comparator `c` and cannot be made; `None` where it can.
fn refusal<K: Copy, V: Copy, C: Comparator<K>, T: Collection<K, V>>(
    h: usize,
    c: usize,
    known: &Known,
    comps: &[C],
    handles: &[T],
    forest: &T::Forest,
) -> Option<Answer<K, V>>
    requires fits { T.fits }
    requires known { AreKnown (map C.order comps.now)
        (record { forest = T.trees forest.now; handles = T.numbers handles.now }) known.now }
    ensures made { result ≡ None → Passes (map C.order comps.now)
        (record { forest = T.trees forest.now; handles = T.numbers handles.now }) h c }
    ensures refused { IfSome result (Refuses
        ((h < length (T.numbers handles.now)) × (c < length (map C.order comps.now)))
        (Live (record { forest = T.trees forest.now; handles = T.numbers handles.now }) h)
        (Ordered (map C.order comps.now)
        (record { forest = T.trees forest.now; handles = T.numbers handles.now }) h c)) }
{
    let known = known.of(h);
    if known == Some((h, c)) {
        return None;
    }
    if c >= comps.len() {
        return Some(Answer::NoIndex);
    }
    if let Some(given) = unnamed(h, handles, forest) {
        return Some(given);
    }
    if !handles[h].increases(forest, &comps[c]) {
        return Some(Answer::Unordered);
    }
    None
}

/// Makes a call on handle `h` that compares keys by comparator `c`.
fn compare<K: Copy, V: Copy, C: Comparator<K>, T: Collection<K, V>>(
    alloc: Global,
    call: &Call<K, V>,
    h: usize,
    c: usize,
    known: &Known,
    comps: &[C],
    handles: &mut [T],
    forest: &mut T::Forest,
) -> Result<Answer<K, V>, AllocError>
    requires fits { T.fits }
    requires known { AreKnown (map C.order comps.now)
        (record { forest = T.trees forest.old; handles = T.numbers handles.old }) known.now }
    requires compares { IsComparing T.READS h c call.now }
    ensures step { IfOk result (λ given. Step T.most T.READS (map C.order comps.now)
        (record { forest = T.trees forest.old; handles = T.numbers handles.old }) call.now given
        (record { forest = T.trees forest.new; handles = T.numbers handles.new })) }
    ensures room { OnErr result (AsksRoom T.READS (map C.order comps.now)
        (record { forest = T.trees forest.old; handles = T.numbers handles.old }) call.now) }
    ensures err_forest { OnErr result (forest.new ≡ forest.old) }
    ensures err_handles { OnErr result (handles.new ≡ handles.old) }
{
    if let Some(refused) = refusal(h, c, known, comps, handles, forest) {
        return Ok(refused);
    }
    let given = handles[h].answer(alloc, call, forest, &comps[c])?;
    Ok(given)
}

/// Makes a call on handle `h` that compares its keys with those of handle `o`, by comparator `c`.
fn beside<K: Copy, V: Copy, C: Comparator<K>, T: Collection<K, V>>(
    call: &Call<K, V>,
    h: usize,
    o: usize,
    c: usize,
    comps: &[C],
    handles: &mut [T],
    forest: &mut T::Forest,
) -> Answer<K, V>
    requires fits { T.fits }
    requires beside { IsBeside h o c call.now }
    ensures { Step T.most T.READS (map C.order comps.now)
        (record { forest = T.trees forest.old; handles = T.numbers handles.old }) call.now result
        (record { forest = T.trees forest.new; handles = T.numbers handles.new }) }
{
    if h >= handles.len() || o >= handles.len() || c >= comps.len() {
        return Answer::NoIndex;
    }
    if !handles[h].is_live(forest) || !handles[o].is_live(forest) {
        return Answer::Dead;
    }
    let comp = &comps[c];
    if !handles[h].increases(forest, comp) || !handles[o].increases(forest, comp) {
        return Answer::Unordered;
    }
    let other = handles[o].alias();
    handles[h].answer_beside(call, &other, forest, comp)
}

/// Makes a call on handle `h` that compares no key.
fn alone<K: Copy, V: Copy, T: Collection<K, V>>(
    call: &Call<K, V>,
    h: usize,
    handles: &mut [T],
    forest: &mut T::Forest,
) -> Answer<K, V>
    requires fits { T.fits }
    requires alone { IsAlone h call.now }
    ensures { (orders : _) → Step T.most T.READS orders
        (record { forest = T.trees forest.old; handles = T.numbers handles.old }) call.now result
        (record { forest = T.trees forest.new; handles = T.numbers handles.new }) }
{
    if let Some(given) = unnamed(h, handles, forest) {
        return given;
    }
    handles[h].answer_alone(call, forest)
}

/// The answer to a call that only maps offer.
fn not_offered<K: Copy, V: Copy, C: Comparator<K>, T: Collection<K, V>>(
    call: &Call<K, V>,
    h: usize,
    c: usize,
    comps: &[C],
    handles: &[T],
) -> Answer<K, V>
    requires of_maps { IsOfMaps h c call.now }
    ensures { (trees : _) → Step T.most false (map C.order comps.now)
        (record { forest = trees; handles = T.numbers handles.now }) call.now result
        (record { forest = trees; handles = T.numbers handles.now }) }
{
    lacks(h, c, comps, handles)
}

/// The answer to a call on handle `h`, by comparator `c`, that is not offered.
fn lacks<K: Copy, V: Copy, C: Comparator<K>, T: Collection<K, V>>(
    h: usize,
    c: usize,
    comps: &[C],
    handles: &[T],
) -> Answer<K, V>
    ensures { (trees : _) → Lacks
        ((h < length (T.numbers handles.now)) × (c < length (map C.order comps.now)))
        (record { forest = trees; handles = T.numbers handles.now }) result
        (record { forest = trees; handles = T.numbers handles.now }) }
{
    if h >= handles.len() || c >= comps.len() {
        return Answer::NoIndex;
    }
    Answer::NotOffered
}

fn retain<K: Copy, V: Copy, C: Comparator<K>, T: Collection<K, V>>(
    h: usize,
    c: usize,
    keys: &Vec<K>,
    put: Option<V>,
    comps: &[C],
    handles: &mut [T],
    forest: &mut T::Forest,
) -> Answer<K, V>
    requires fits { T.fits }
    ensures { Step T.most T.READS (map C.order comps.now)
        (record { forest = T.trees forest.old; handles = T.numbers handles.old }) (call.Retain h c keys.now put)
        result (record { forest = T.trees forest.new; handles = T.numbers handles.new }) }
{
    if c >= comps.len() {
        return Answer::NoIndex;
    }
    if let Some(given) = unnamed(h, handles, forest) {
        return given;
    }
    handles[h].retain(keys, put, forest, &comps[c]);
    Answer::Done
}

fn clear<K: Copy, V: Copy, T: Collection<K, V>>(
    h: usize,
    handles: &mut [T],
    forest: &mut T::Forest,
) -> Answer<K, V>
    requires fits { T.fits }
    ensures { (orders : _) → Step T.most T.READS orders
        (record { forest = T.trees forest.old; handles = T.numbers handles.old }) (call.Clear h) result
        (record { forest = T.trees forest.new; handles = T.numbers handles.new }) }
{
    if let Some(given) = unnamed(h, handles, forest) {
        return given;
    }
    handles[h].clear(forest);
    Answer::Done
}

fn iter<K: Copy, V: Copy, T: Collection<K, V>>(
    alloc: Global,
    h: usize,
    handles: &[T],
    forest: &T::Forest,
) -> Result<Answer<K, V>, AllocError>
    requires fits { T.fits }
    ensures step { (orders : _) → IfOk result (λ given. Step T.most T.READS orders
        (record { forest = T.trees forest.now; handles = T.numbers handles.now }) (call.Iter h) given
        (record { forest = T.trees forest.now; handles = T.numbers handles.now })) }
    ensures room { (orders : _) → OnErr result (AsksRoom T.READS orders
        (record { forest = T.trees forest.now; handles = T.numbers handles.now }) (call.Iter h)) }
{
    if let Some(given) = unnamed(h, handles, forest) {
        return Ok(given);
    }
    let pairs = handles[h].entries(alloc, forest)?;
    Ok(Answer::Pairs(pairs))
}

fn iter_back<K: Copy, V: Copy, T: Collection<K, V>>(
    alloc: Global,
    h: usize,
    handles: &[T],
    forest: &T::Forest,
) -> Result<Answer<K, V>, AllocError>
    requires fits { T.fits }
    ensures step { (orders : _) → IfOk result (λ given. Step T.most T.READS orders
        (record { forest = T.trees forest.now; handles = T.numbers handles.now }) (call.IterBack h) given
        (record { forest = T.trees forest.now; handles = T.numbers handles.now })) }
    ensures room { (orders : _) → OnErr result (AsksRoom T.READS orders
        (record { forest = T.trees forest.now; handles = T.numbers handles.now }) (call.IterBack h)) }
{
    if let Some(given) = unnamed(h, handles, forest) {
        return Ok(given);
    }
    let pairs = handles[h].entries_back(alloc, forest)?;
    Ok(Answer::Pairs(pairs))
}

fn alias<K: Copy, V: Copy, T: Collection<K, V>>(
    from: usize,
    to: usize,
    handles: &mut [T],
) -> Answer<K, V>
    ensures { (orders : _) (trees : _) → Step T.most T.READS orders
        (record { forest = trees; handles = T.numbers handles.old }) (call.Alias from to) result
        (record { forest = trees; handles = T.numbers handles.new }) }
{
    if from >= handles.len() || to >= handles.len() {
        return Answer::NoIndex;
    }
    handles[to] = handles[from].alias();
    Answer::Done
}

fn deep_clone<K: Copy, V: Copy, T: Collection<K, V>>(
    from: usize,
    to: usize,
    handles: &mut [T],
    forest: &mut T::Forest,
) -> Answer<K, V>
    requires fits { T.fits }
    ensures { (orders : _) → Step T.most T.READS orders
        (record { forest = T.trees forest.old; handles = T.numbers handles.old }) (call.DeepClone from to) result
        (record { forest = T.trees forest.new; handles = T.numbers handles.new }) }
{
    if to >= handles.len() {
        return Answer::NoIndex;
    }
    if let Some(given) = unnamed(from, handles, forest) {
        return given;
    }
    name(handles[from].deep_clone(forest), to, handles)
}

fn split_off<K: Copy, V: Copy, C: Comparator<K>, T: Collection<K, V>>(
    h: usize,
    c: usize,
    k: K,
    to: usize,
    known: &Known,
    comps: &[C],
    handles: &mut [T],
    forest: &mut T::Forest,
) -> Answer<K, V>
    requires fits { T.fits }
    requires known { AreKnown (map C.order comps.now)
        (record { forest = T.trees forest.old; handles = T.numbers handles.old }) known.now }
    ensures { Step T.most T.READS (map C.order comps.now)
        (record { forest = T.trees forest.old; handles = T.numbers handles.old }) (call.SplitOff h c k to) result
        (record { forest = T.trees forest.new; handles = T.numbers handles.new }) }
{
    if to >= handles.len() || to == h {
        return Answer::NoIndex;
    }
    if let Some(refused) = refusal(h, c, known, comps, handles, forest) {
        return refused;
    }
    let tail = handles[h].split_off(k, forest, &comps[c]);
    name(tail, to, handles)
}

fn load<K: Copy, V: Copy, T: Collection<K, V>>(
    alloc: Global,
    h: usize,
    entries: &Vec<(K, V)>,
    handles: &mut [T],
    forest: &mut T::Forest,
) -> Result<Answer<K, V>, AllocError>
    requires fits { T.fits }
    ensures step { (orders : _) → IfOk result (λ given. Step T.most T.READS orders
        (record { forest = T.trees forest.old; handles = T.numbers handles.old }) (call.Load h entries.now) given
        (record { forest = T.trees forest.new; handles = T.numbers handles.new })) }
    ensures room { (orders : _) → OnErr result (AsksRoom T.READS orders
        (record { forest = T.trees forest.old; handles = T.numbers handles.old }) (call.Load h entries.now)) }
    ensures err_forest { OnErr result (forest.new ≡ forest.old) }
    ensures err_handles { OnErr result (handles.new ≡ handles.old) }
{
    if h >= handles.len() {
        return Ok(Answer::NoIndex);
    }
    let loaded = T::load(alloc, entries, forest)?;
    Ok(name(loaded, h, handles))
}

/// Handle `h` becomes the one of a tree that was made, and stays where none was.
fn name<K: Copy, V: Copy, T: Collection<K, V>>(
    made: Result<T, OutOfMemory>,
    h: usize,
    handles: &mut [T],
) -> Answer<K, V>
    requires within { h < length handles.old }
    ensures made { IfOk made (λ tree. (result ≡ answer.Made (Ok tt))
        × (T.numbers handles.new ≡ slice_set (T.numbers handles.old) h (T.number tree))) }
    ensures refused { IfErr made (λ why. (result ≡ answer.Made (Err why))
        × (T.numbers handles.new ≡ T.numbers handles.old)) }
{
    match made {
        Ok(tree) => {
            handles[h] = tree;
            Answer::Made(Ok(()))
        }
        Err(why) => Answer::Made(Err(why)),
    }
}
