//! Values that a word names.
ghost use Rattle.bforest_run.specs.Grammar.{all_of, colon_pair_of, look_of, look_with, map_act_of, map_act_with, set_act_of, set_act_with};
ghost use Rattle.bforest_calls.specs.declared.call.Act.{Act};
ghost use Rattle.bforest_run.specs.Numbers.{number_of};
ghost use Rattle.bforest_run.specs.Words.{cut_at};
ghost use Rattle.std.specs.Prelude.{IfOk, List, Option, map, option_map, ◌≡◌, ℕ};

use crate::word::number;
use bforest_calls::{Act, Look};
use std::alloc::{AllocError, Global};

/// A value that a word of a list names.
pub(crate) trait Named: Drop {
    /// The value that a word names, if it names one.
    ghost named: { List ℕ → Option Self };

    /// The value that the word names, if there is one.
    fn from_word(word: &str) -> Option<Self>
        ensures { result ≡ named word.now };
}

/// The values that the words name, if each names one.
pub(crate) fn all_named<T: Named>(
    alloc: Global,
    words: &[&str],
) -> Result<Option<Vec<T>>, AllocError>
    ensures { IfOk result (λ o. option_map (λ v. v.items) o
        ≡ all_of T.named (map (λ w. w.now) words.now)) }
{
    let mut values = Vec::new(alloc);
    'words: for word in words {
        let Some(value) = T::from_word(word) else {
            return Ok(None);
        };
        values.push(value)?;
    }
    Ok(Some(values))
}

impl Named for u32 {
    ghost named = { number_of };

    fn from_word(word: &str) -> Option<u32> {
        number(word)
    }
}

impl Named for Look<u32> {
    ghost named = { look_of };

    fn from_word(word: &str) -> Option<Look<u32>> {
        match word {
            "empty" => Some(Look::Empty),
            "next" => Some(Look::Next),
            "prev" => Some(Look::Prev),
            "key" => Some(Look::Key),
            "value" => Some(Look::Value),
            "first" => Some(Look::First),
            "end" => Some(Look::End),
            _ => {
                let (name, part) = cut(word)?;
                look_with(name, part)
            }
        }
    }
}

/// The value of an entry, as the steps of a writing cursor spell it.
pub(crate) trait Acted: Copy {
    /// The step that a word names, if it names one.
    ghost act_of: { List ℕ → Option (Act ℕ Self) };

    /// The step that the word names, if there is one.
    fn act(word: &str) -> Option<Act<u32, Self>>
        ensures { result ≡ act_of word.now };
}

impl<V: Acted> Named for Act<u32, V> {
    ghost named = { V.act_of };

    fn from_word(word: &str) -> Option<Act<u32, V>> {
        V::act(word)
    }
}

impl Acted for u32 {
    ghost act_of = { map_act_of };

    fn act(word: &str) -> Option<Act<u32, u32>> {
        match word {
            "empty" => Some(Act::Empty),
            "next" => Some(Act::Next),
            "prev" => Some(Act::Prev),
            "key" => Some(Act::Key),
            "value" => Some(Act::Value),
            "first" => Some(Act::First),
            "del" => Some(Act::Remove),
            _ => {
                let (name, part) = cut(word)?;
                map_act_with(name, part)
            }
        }
    }
}

impl Acted for () {
    ghost act_of = { set_act_of };

    fn act(word: &str) -> Option<Act<u32, ()>> {
        match word {
            "empty" => Some(Act::Empty),
            "next" => Some(Act::Next),
            "prev" => Some(Act::Prev),
            "key" => Some(Act::Key),
            "first" => Some(Act::First),
            "del" => Some(Act::Remove),
            _ => {
                let (name, part) = cut(word)?;
                set_act_with(name, part)
            }
        }
    }
}

/// The step of a reading cursor with this name, and this part behind its `=`.
fn look_with(name: &str, part: &str) -> Option<Look<u32>>
    ensures { result ≡ look_with name.now part.now }
{
    match name {
        "goto" => Some(Look::Goto(number(part)?)),
        _ => None,
    }
}

/// The step of a cursor that writes in maps, with this name, and this part behind its `=`.
fn map_act_with(name: &str, part: &str) -> Option<Act<u32, u32>>
    ensures { result ≡ map_act_with name.now part.now }
{
    match name {
        "goto" => Some(Act::Goto(number(part)?)),
        "put" => {
            let (key, value) = entry(part)?;
            Some(Act::Put(key, value))
        }
        "set" => Some(Act::Write(number(part)?)),
        _ => None,
    }
}

/// The step of a cursor that writes in sets, with this name, and this part behind its `=`.
fn set_act_with(name: &str, part: &str) -> Option<Act<u32, ()>>
    ensures { result ≡ set_act_with name.now part.now }
{
    match name {
        "goto" => Some(Act::Goto(number(part)?)),
        "put" => Some(Act::Put(number(part)?, ())),
        _ => None,
    }
}

/// The key and the value of a word `K:V`.
fn entry(word: &str) -> Option<(u32, u32)>
    ensures { result ≡ colon_pair_of word.now }
{
    let (key, value) = cut_at_colon(word)?;
    Some((number(key)?, number(value)?))
}

/// The text before the first `=`, and the text behind it.
fn cut(word: &str) -> Option<(&str, &str)>
    ensures { option_map (λ parts. (parts.0.now, parts.1.now)) result ≡ cut_at 61 word.now }
{
    word.split_once('=')
}

/// The text before the first colon, and the text behind it.
fn cut_at_colon(word: &str) -> Option<(&str, &str)>
    ensures { option_map (λ parts. (parts.0.now, parts.1.now)) result ≡ cut_at 58 word.now }
{
    word.split_once(':')
}
