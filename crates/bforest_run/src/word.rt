//! Words, and what they name.
ghost use Rattle.bforest_run.specs.Numbers.{IsNumber, IsTime, number_of, time_of};
ghost use Rattle.bforest_run.specs.Words.{bound_of, handle_of, order_of, put_of, words_of};
ghost use Rattle.std.specs.Char.{is_ascii_digit};
ghost use Rattle.std.specs.List.{list_all};
ghost use Rattle.std.specs.Option.{SomeIff};
ghost use Rattle.std.specs.Prelude.{IfOk, length, map, not, ◌==◌, ◌≡◌};
ghost use Rattle.std.specs.Str.Parse.{digits_value};

use std::alloc::{AllocError, Global};
use std::ops::Bound;

/// The number of handles that lines can name.
pub(crate) const HANDLE_COUNT: usize = 8;

/// The words of a line: the parts between its spaces.
pub(crate) fn words_in(alloc: Global, line: &str) -> Result<Vec<&str>, AllocError>
    ensures { IfOk result (λ words. map (λ w. w.now) words.items ≡ words_of line.now) }
{
    line.split(' ').filter(|word| is_word(word)).collect(alloc)
}

/// Whether a part is not empty.
fn is_word(part: &str) -> bool
    ensures { result ≡ not (length part.now == 0) }
{
    !part.is_empty()
}

/// The index of a handle, `0` to `7`.
pub(crate) fn handle_named(word: &str) -> Option<usize>
    ensures { result ≡ handle_of word.now }
{
    match word.as_bytes() {
        [digit @ b'0'..=b'7'] => Some((*digit - b'0') as usize),
        _ => None,
    }
}

/// The index of an order.
pub(crate) fn order_named(word: &str) -> Option<usize>
    ensures { result ≡ order_of word.now }
{
    match word {
        "up" => Some(0),
        "down" => Some(1),
        "tens" => Some(2),
        _ => None,
    }
}

/// A value, or `-` for no value.
pub(crate) fn put_named(word: &str) -> Option<Option<u32>>
    ensures { result ≡ put_of word.now }
{
    match word {
        "-" => Some(None),
        _ => Some(Some(number(word)?)),
    }
}

/// A bound of a range: `-`, `=K` or `!K`.
pub(crate) fn bound_named(word: &str) -> Option<Bound<u32>>
    ensures { result ≡ bound_of word.now }
{
    if word == "-" {
        return Some(Bound::Unbounded);
    }
    if let Some(key) = word.strip_prefix('=') {
        return Some(Bound::Included(number(key)?));
    }
    if let Some(key) = word.strip_prefix('!') {
        return Some(Bound::Excluded(number(key)?));
    }
    None
}

/// A number of 1 to 10 digits, at most 4294967295. Leading zeros are allowed; a sign is not.
pub fn number(word: &str) -> Option<u32>
    ensures number { SomeIff result (IsNumber word.now) (digits_value 10 word.now) }
    ensures value { result ≡ number_of word.now }
{
    if word.len() > 10 || !is_digits(word) {
        return None;
    }
    word.parse().ok()
}

/// A time of 1 to 20 digits, at most 18446744073709551615. Leading zeros are allowed; a sign is not.
pub(crate) fn time(word: &str) -> Option<u64>
    ensures time { SomeIff result (IsTime word.now) (digits_value 10 word.now) }
    ensures value { result ≡ time_of word.now }
{
    if word.len() > 20 || !is_digits(word) {
        return None;
    }
    word.parse().ok()
}

/// Whether a word has only digits.
fn is_digits(word: &str) -> bool
    ensures { result ≡ list_all is_ascii_digit word.now }
{
    word.bytes().all(|byte| byte.is_ascii_digit())
}
