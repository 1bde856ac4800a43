//! The lines that words spell.
ghost use Rattle.bforest_run.specs.Grammar.{Reads, Says, SaysEdit, SaysNone, SaysRange, SaysRead, SaysRetain, Spells};
ghost use Rattle.bforest_run.specs.Grammar.{all_of, inserted_map_of, inserted_set_of, keyed_of, lone_of, pair_of, range_of, retained_map_of, retained_set_of};
ghost use Rattle.bforest_run.specs.Grammar.{script_of, side_of, simple_of, verbs};
ghost use Rattle.bforest_calls.specs.declared.call.Call.TheVariants as call;
ghost use Rattle.bforest_run.specs.Words.{Word, row_of};
ghost use Rattle.bforest_run.specs.declared.line.Line.TheVariants.{Made};
ghost use Rattle.bforest_run.specs.declared.line.Line.{Line};
ghost use Rattle.std.specs.Prelude.{IfOk, List, Option, map, option_map, ◌≡◌, ℕ};

use crate::line::{Line, Verb};
use crate::named::{Acted, Named, all_named};
use crate::shown_answer::Shows;
use crate::word::{bound_named, handle_named, number, order_named, put_named};
use bforest_calls::{Act, Call, Look, Side};
use std::alloc::{AllocError, Global};
use std::ops::Bound;

/// The first word of a line.
pub(crate) fn verb_named(word: &str) -> Option<Verb>
    ensures { result ≡ row_of verbs word.now }
{
    match word {
        "get" => Some(Verb::Get),
        "less" => Some(Verb::Less),
        "insert" => Some(Verb::Insert),
        "remove" => Some(Verb::Remove),
        "clear" => Some(Verb::Clear),
        "iter" => Some(Verb::Iter),
        "range" => Some(Verb::Range),
        "read" => Some(Verb::Read),
        "edit" => Some(Verb::Edit),
        "retain" => Some(Verb::Retain),
        "alias" => Some(Verb::Alias),
        "wipe" => Some(Verb::Wipe),
        "holds" => Some(Verb::Holds),
        "stat" => Some(Verb::Stat),
        _ => None,
    }
}

/// The line that the words behind its verb spell, if it has no list and is the same for maps and sets.
pub(crate) fn simple<V: Copy>(verb: Verb, words: &[&str]) -> Option<Line<V>>
    ensures { result ≡ simple_of verb (map (λ w. w.now) words.now) }
{
    match verb {
        Verb::Get => {
            let (h, c, k) = keyed(words)?;
            Some(Line::Made(Call::Get { h, c, k }))
        }
        Verb::Less => {
            let (h, c, k) = keyed(words)?;
            Some(Line::Made(Call::GetOrLess { h, c, k }))
        }
        Verb::Remove => {
            let (h, c, k) = keyed(words)?;
            Some(Line::Made(Call::Remove { h, c, k }))
        }
        Verb::Clear => Some(Line::Made(Call::Clear { h: lone(words)? })),
        Verb::Iter => Some(Line::Made(Call::Iter { h: lone(words)? })),
        Verb::Alias => {
            let (from, to) = pair(words)?;
            Some(Line::Made(Call::Alias { from, to }))
        }
        Verb::Wipe if words.is_empty() => Some(Line::Made(Call::ForestClear)),
        Verb::Holds => Some(Line::Holds(lone(words)?)),
        Verb::Stat => Some(Line::Stat(lone(words)?)),
        _ => None,
    }
}

/// The handle of the words `H`.
fn lone(words: &[&str]) -> Option<usize>
    ensures { result ≡ lone_of (map (λ w. w.now) words.now) }
{
    let [handle] = words else {
        return None;
    };
    handle_named(handle)
}

/// The handle, the order and the key of the words `H O K`.
pub(crate) fn keyed(words: &[&str]) -> Option<(usize, usize, u32)>
    ensures { result ≡ keyed_of (map (λ w. w.now) words.now) }
{
    let [handle, order, key] = words else {
        return None;
    };
    Some((handle_named(handle)?, order_named(order)?, number(key)?))
}

/// The handles of the words `I J`.
fn pair(words: &[&str]) -> Option<(usize, usize)>
    ensures { result ≡ pair_of (map (λ w. w.now) words.now) }
{
    let [from, to] = words else {
        return None;
    };
    Some((handle_named(from)?, handle_named(to)?))
}

/// The words `H O STEP ..`, with at least one step.
pub(crate) fn script<T: Named>(
    alloc: Global,
    words: &[&str],
) -> Result<Option<(usize, usize, Vec<T>)>, AllocError>
    ensures { IfOk result (λ o. option_map (λ s. (s.0, s.1, s.2.items)) o
        ≡ script_of T.named (map (λ w. w.now) words.now)) }
{
    let [handle, order, steps @ ..] = words else {
        return Ok(None);
    };
    let (Some(handle), Some(order), false) = (
        handle_named(handle),
        order_named(order),
        steps.is_empty(),
    ) else {
        return Ok(None);
    };
    let Some(steps) = all_named(alloc, steps)? else {
        return Ok(None);
    };
    Ok(Some((handle, order, steps)))
}

/// The bounds and the ends of a range, with the indices of its handle and its order.
type Ranged = (usize, usize, Bound<u32>, Bound<u32>, Vec<Side>);

/// The range that the words `H O LO HI ENDS` spell.
fn ranged(alloc: Global, words: &[&str]) -> Result<Option<Ranged>, AllocError>
    ensures { IfOk result (λ o. option_map (λ r. (r.0, r.1, r.2, r.3, r.4.items)) o
        ≡ range_of (map (λ w. w.now) words.now)) }
{
    let [handle, order, lo, hi, ends] = words else {
        return Ok(None);
    };
    let (Some(h), Some(c), Some(lo), Some(hi)) = (
        handle_named(handle),
        order_named(order),
        bound_named(lo),
        bound_named(hi),
    ) else {
        return Ok(None);
    };
    let Some(ends) = sides(alloc, ends)? else {
        return Ok(None);
    };
    Ok(Some((h, c, lo, hi, ends)))
}

/// The line `range H O LO HI ENDS`.
fn ranging<V: Copy>(alloc: Global, words: &[&str]) -> Result<Option<Line<V>>, AllocError>
    ensures { IfOk result (Reads (SaysRange (map (λ w. w.now) words.now))) }
{
    let Some((h, c, lo, hi, ends)) = ranged(alloc, words)? else {
        return Ok(None);
    };
    Ok(Some(Line::Made(Call::Range { h, c, lo, hi, ends })))
}

/// The ends that the letters of a word name.
fn sides(alloc: Global, word: &str) -> Result<Option<Vec<Side>>, AllocError>
    ensures { IfOk result (λ o. option_map (λ v. v.items) o ≡ all_of side_of word.now) }
{
    let mut sides = Vec::new(alloc);
    'letters: for letter in word.as_bytes() {
        let Some(side) = side_named(*letter) else {
            return Ok(None);
        };
        sides.push(side)?;
    }
    Ok(Some(sides))
}

/// The end of a range that a letter names: `f` or `b`.
fn side_named(letter: u8) -> Option<Side>
    ensures { result ≡ side_of letter }
{
    match letter {
        b'f' => Some(Side::Front),
        b'b' => Some(Side::Back),
        _ => None,
    }
}

/// The handle, the order, the value that each entry first gets, and the keys that stay.
type Retained<V> = (usize, usize, Option<V>, Vec<u32>);

/// The value of an entry, as lines spell it: a number for maps, and nothing for sets.
pub(crate) trait Spelled: Shows + Acted {
    // What words spell: an entry, the line of a reading cursor, and what is retained.
    ghost inserted_of: { List Word → Option (ℕ × ℕ × ℕ × Self) };

    ghost says_read: { List Word → Line Self → Type 0 };

    ghost retained_of: { List Word → Option (ℕ × ℕ × Option Self × List ℕ) };

    /// The handle, the order, the key and the value of the words.
    fn inserted(words: &[&str]) -> Option<(usize, usize, u32, Self)>
        ensures { result ≡ inserted_of (map (λ w. w.now) words.now) };

    /// The line of a reading cursor that the words spell.
    fn reading(alloc: Global, words: &[&str]) -> Result<Option<Line<Self>>, AllocError>
        ensures { IfOk result (Reads (says_read (map (λ w. w.now) words.now))) };

    /// What the words retain.
    fn retained(alloc: Global, words: &[&str]) -> Result<Option<Retained<Self>>, AllocError>
        ensures { IfOk result (λ o. option_map (λ r. (r.0, r.1, r.2, r.3.items)) o
            ≡ retained_of (map (λ w. w.now) words.now)) };
}

/// The line that the words spell, or `None` where it is bad.
pub(crate) fn line<V: Spelled>(alloc: Global, words: &[&str]) -> Result<Option<Line<V>>, AllocError>
    ensures { IfOk result (Reads (Spells (Says V.inserted_of V.says_read V.act_of V.retained_of)
        (map (λ w. w.now) words.now))) }
{
    let [verb, words @ ..] = words else {
        return Ok(None);
    };
    match verb_named(verb) {
        Some(verb) => line_of(alloc, verb, words),
        None => Ok(None),
    }
}

/// The line that the words behind its verb spell, or `None` where it is bad.
fn line_of<V: Spelled>(
    alloc: Global,
    verb: Verb,
    words: &[&str],
) -> Result<Option<Line<V>>, AllocError>
    ensures { IfOk result (Reads (Says V.inserted_of V.says_read V.act_of V.retained_of verb
        (map (λ w. w.now) words.now))) }
{
    match verb {
        Verb::Insert => Ok(insertion(words)),
        Verb::Range => ranging(alloc, words),
        Verb::Read => V::reading(alloc, words),
        Verb::Edit => editing(alloc, words),
        Verb::Retain => retaining(alloc, words),
        _ => Ok(simple(verb, words)),
    }
}

/// The line of an insertion.
fn insertion<V: Spelled>(words: &[&str]) -> Option<Line<V>>
    ensures { result ≡ option_map (λ at. Made (call.Insert at.0 at.1 at.2 at.3))
        (V.inserted_of (map (λ w. w.now) words.now)) }
{
    let (h, c, k, v) = V::inserted(words)?;
    Some(Line::Made(Call::Insert { h, c, k, v }))
}

/// The line `edit H O STEP ..`.
fn editing<V: Spelled>(alloc: Global, words: &[&str]) -> Result<Option<Line<V>>, AllocError>
    ensures { IfOk result (Reads (SaysEdit V.act_of (map (λ w. w.now) words.now))) }
{
    let Some((h, c, steps)) = script::<Act<u32, V>>(alloc, words)? else {
        return Ok(None);
    };
    Ok(Some(Line::Made(Call::Edit { h, c, steps })))
}

/// The line of what is retained.
fn retaining<V: Spelled>(alloc: Global, words: &[&str]) -> Result<Option<Line<V>>, AllocError>
    ensures { IfOk result (Reads (SaysRetain V.retained_of (map (λ w. w.now) words.now))) }
{
    let Some((h, c, put, keys)) = V::retained(alloc, words)? else {
        return Ok(None);
    };
    Ok(Some(Line::Made(Call::Retain { h, c, keys, put })))
}

impl Spelled for u32 {
    ghost inserted_of = { inserted_map_of };

    ghost says_read = { SaysRead };

    ghost retained_of = { retained_map_of };

    /// The words `H O K V`.
    fn inserted(words: &[&str]) -> Option<(usize, usize, u32, u32)> {
        let [handle, order, key, value] = words else {
            return None;
        };
        Some((
            handle_named(handle)?,
            order_named(order)?,
            number(key)?,
            number(value)?,
        ))
    }

    /// The words `H O STEP ..`.
    fn reading(alloc: Global, words: &[&str]) -> Result<Option<Line<u32>>, AllocError> {
        let Some((h, c, steps)) = script::<Look<u32>>(alloc, words)? else {
            return Ok(None);
        };
        Ok(Some(Line::Made(Call::Read { h, c, steps })))
    }

    /// The words `H O V K ..`.
    fn retained(alloc: Global, words: &[&str]) -> Result<Option<Retained<u32>>, AllocError> {
        let [handle, order, put, keys @ ..] = words else {
            return Ok(None);
        };
        let (Some(handle), Some(order), Some(put)) = (
            handle_named(handle),
            order_named(order),
            put_named(put),
        ) else {
            return Ok(None);
        };
        let Some(keys) = all_named(alloc, keys)? else {
            return Ok(None);
        };
        Ok(Some((handle, order, put, keys)))
    }
}

impl Spelled for () {
    ghost inserted_of = { inserted_set_of };

    ghost says_read = { SaysNone };

    ghost retained_of = { retained_set_of };

    /// The words `H O K`.
    fn inserted(words: &[&str]) -> Option<(usize, usize, u32, ())> {
        let (h, c, k) = keyed(words)?;
        Some((h, c, k, ()))
    }

    /// Sets have no reading cursors.
    fn reading(_alloc: Global, _words: &[&str]) -> Result<Option<Line<()>>, AllocError> {
        Ok(None)
    }

    /// The words `H O K ..`.
    fn retained(alloc: Global, words: &[&str]) -> Result<Option<Retained<()>>, AllocError> {
        let [handle, order, keys @ ..] = words else {
            return Ok(None);
        };
        let (Some(handle), Some(order)) = (handle_named(handle), order_named(order)) else {
            return Ok(None);
        };
        let Some(keys) = all_named(alloc, keys)? else {
            return Ok(None);
        };
        Ok(Some((handle, order, None, keys)))
    }
}
