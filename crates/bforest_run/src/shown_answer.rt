//! Answers, as their lines show them.
ghost use Rattle.bforest_run.specs.Shown.{entry_text, key_text, more_texts, number_text, old_key_text, old_text, pair_text, present_text};
ghost use Rattle.bforest_run.specs.Shown.{put_text, seen_text, texts, told_text};
ghost use Rattle.std.specs.Fmt.{WritesOnOk};
ghost use Rattle.std.specs.Prelude.{List, Option, Some, ℕ};

use crate::shown::{Counts, Maybe, Refusal};
use bforest::OutOfMemory;
use bforest_calls::{Answer, Seen};
use std::fmt;

/// The value of an entry, as lines show it: the number of a map's, and nothing of a set's.
pub(crate) trait Shows: Copy {
    // The texts of a value, if there is one, of an entry, and of the value that an insertion met.
    ghost value_text: { Option Self → List ℕ };

    ghost entry_text: { ℕ × Self → List ℕ };

    ghost old_text: { Option Self → List ℕ };

    /// Writes a value, if there is one.
    fn value<W: fmt::Write>(value: Option<Self>, f: &mut fmt::Formatter<W>) -> fmt::Result
        ensures writes { WritesOnOk W.write_str_gives f.old result (value_text value) f.new };

    /// Writes an entry.
    fn entry<W: fmt::Write>(entry: (u32, Self), f: &mut fmt::Formatter<W>) -> fmt::Result
        ensures writes { WritesOnOk W.write_str_gives f.old result (entry_text entry) f.new };

    /// Writes the value that an insertion met, if there was one.
    fn old<W: fmt::Write>(old: Option<Self>, f: &mut fmt::Formatter<W>) -> fmt::Result
        ensures writes { WritesOnOk W.write_str_gives f.old result (old_text old) f.new };
}

impl Shows for u32 {
    ghost value_text = { number_text };

    ghost entry_text = { entry_text };

    ghost old_text = { old_text };

    fn value<W: fmt::Write>(value: Option<u32>, f: &mut fmt::Formatter<W>) -> fmt::Result
        ensures writes { WritesOnOk W.write_str_gives f.old result (number_text value) f.new }
    {
        write!(f, "{}", Maybe(value))
    }

    fn entry<W: fmt::Write>(entry: (u32, u32), f: &mut fmt::Formatter<W>) -> fmt::Result
        ensures writes { WritesOnOk W.write_str_gives f.old result (entry_text entry) f.new }
    {
        let (key, value) = entry;
        write!(f, "{key}:{value}")
    }

    fn old<W: fmt::Write>(old: Option<u32>, f: &mut fmt::Formatter<W>) -> fmt::Result
        ensures writes { WritesOnOk W.write_str_gives f.old result (old_text old) f.new }
    {
        match old {
            None => write!(f, "new"),
            Some(old) => write!(f, "old:{old}"),
        }
    }
}

impl Shows for () {
    ghost value_text = { present_text };

    ghost entry_text = { key_text };

    ghost old_text = { old_key_text };

    fn value<W: fmt::Write>(value: Option<()>, f: &mut fmt::Formatter<W>) -> fmt::Result
        ensures writes { WritesOnOk W.write_str_gives f.old result (present_text value) f.new }
    {
        match value {
            Some(()) => write!(f, "true"),
            None => write!(f, "false"),
        }
    }

    fn entry<W: fmt::Write>(entry: (u32, ()), f: &mut fmt::Formatter<W>) -> fmt::Result
        ensures writes { WritesOnOk W.write_str_gives f.old result (key_text entry) f.new }
    {
        let (key, ()) = entry;
        write!(f, "{key}")
    }

    fn old<W: fmt::Write>(old: Option<()>, f: &mut fmt::Formatter<W>) -> fmt::Result
        ensures writes { WritesOnOk W.write_str_gives f.old result (old_key_text old) f.new }
    {
        match old {
            None => write!(f, "new"),
            Some(()) => write!(f, "old"),
        }
    }
}

/// What a line is answered.
#[derive(Drop)]
pub(crate) enum Told<V: Copy> {
    /// The answer to a call.
    Answer(Answer<u32, V>),
    /// Whether a handle is live.
    Truth(bool),
    /// The height of a tree, and the counts of the table.
    Counts(Counts),
}

impl<V: Shows> fmt::Display for Told<V> {
    ghost output = { λ told. Some (told_text V.value_text V.entry_text V.old_text told) };

    fn fmt<W: fmt::Write>(&self, f: &mut fmt::Formatter<W>) -> fmt::Result {
        match self {
            Told::Answer(Answer::Value(value)) => V::value(*value, f),
            Told::Answer(Answer::Pair(pair)) => write!(f, "{}", Pair(*pair)),
            Told::Answer(Answer::Put(result)) => write!(f, "{}", Put(*result)),
            Told::Answer(Answer::Pairs(pairs)) => write!(f, "[{}]", Entries(pairs)),
            Told::Answer(Answer::Script(sights)) => write!(f, "{}", Sights(sights)),
            Told::Answer(Answer::Made(Ok(())) | Answer::Done) => write!(f, "ok"),
            Told::Answer(Answer::Made(Err(why)) | Answer::United(Err(why))) => {
                write!(f, "{}", Refusal(*why))
            }
            Told::Answer(Answer::Count(n)) => write!(f, "{n}"),
            Told::Answer(Answer::Changed(so) | Answer::United(Ok(so)) | Answer::Holds(so)) => {
                write!(f, "{so}")
            }
            Told::Answer(Answer::NoIndex) => write!(f, "no index"),
            Told::Answer(Answer::Dead) => write!(f, "dead"),
            Told::Answer(Answer::Unordered) => write!(f, "unordered"),
            Told::Answer(Answer::NotOffered) => write!(f, "not offered"),
            Told::Truth(so) => write!(f, "{so}"),
            Told::Counts(counts) => write!(f, "{counts}"),
        }
    }
}

/// The answer of a step.
#[derive(Clone, Copy)]
struct Sight<'a, V: Copy>(&'a Seen<u32, V>);

impl<V: Shows> fmt::Display for Sight<'_, V> {
    ghost output = { λ sight. Some (seen_text V.value_text V.entry_text V.old_text sight.0.now) };

    fn fmt<W: fmt::Write>(&self, f: &mut fmt::Formatter<W>) -> fmt::Result {
        match self.0 {
            Seen::Pair(pair) => write!(f, "{}", Pair(*pair)),
            Seen::Key(key) => write!(f, "{}", Maybe(*key)),
            Seen::Value(value) => V::value(*value, f),
            Seen::Put(result) => write!(f, "{}", Put(*result)),
            Seen::Flag(so) => write!(f, "{so}"),
            Seen::Done => write!(f, "ok"),
        }
    }
}

/// The answer of an insertion.
#[derive(Clone, Copy)]
struct Put<V: Copy>(Result<Option<V>, OutOfMemory>);

impl<V: Shows> fmt::Display for Put<V> {
    ghost output = { λ put. Some (put_text V.value_text V.entry_text V.old_text put.0) };

    fn fmt<W: fmt::Write>(&self, f: &mut fmt::Formatter<W>) -> fmt::Result {
        match self.0 {
            Ok(old) => V::old(old, f),
            Err(why) => write!(f, "{}", Refusal(why)),
        }
    }
}

/// An entry, if there is one.
#[derive(Clone, Copy)]
struct Pair<V: Copy>(Option<(u32, V)>);

impl<V: Shows> fmt::Display for Pair<V> {
    ghost output = { λ pair. Some (pair_text V.value_text V.entry_text V.old_text pair.0) };

    fn fmt<W: fmt::Write>(&self, f: &mut fmt::Formatter<W>) -> fmt::Result {
        match self.0 {
            Some(entry) => V::entry(entry, f),
            None => write!(f, "none"),
        }
    }
}

/// A key and its value.
#[derive(Clone, Copy)]
struct Entry<V: Copy>((u32, V));

impl<V: Shows> fmt::Display for Entry<V> {
    ghost output = { λ entry. Some (V.entry_text entry.0) };

    fn fmt<W: fmt::Write>(&self, f: &mut fmt::Formatter<W>) -> fmt::Result {
        V::entry(self.0, f)
    }
}

/// Entries, with one space between them.
#[derive(Clone, Copy)]
struct Entries<'a, V: Copy>(&'a [(u32, V)]);

impl<V: Shows> fmt::Display for Entries<'_, V> {
    ghost output = { λ entries. Some (texts V.entry_text entries.0.now) };

    fn fmt<W: fmt::Write>(&self, f: &mut fmt::Formatter<W>) -> fmt::Result {
        match self.0 {
            [] => Ok(()),
            [first, rest @ ..] => write!(f, "{}{}", Entry(*first), MoreEntries(rest)),
        }
    }
}

/// Entries, with one space before each.
#[derive(Clone, Copy)]
struct MoreEntries<'a, V: Copy>(&'a [(u32, V)]);

impl<V: Shows> fmt::Display for MoreEntries<'_, V> {
    ghost output = { λ entries. Some (more_texts V.entry_text entries.0.now) };

    fn fmt<W: fmt::Write>(&self, f: &mut fmt::Formatter<W>) -> fmt::Result {
        'entries: for entry in self.0 {
            write!(f, " {}", Entry(*entry))?;
        }
        Ok(())
    }
}

/// The answers of steps, with one space between them.
#[derive(Clone, Copy)]
struct Sights<'a, V: Copy>(&'a [Seen<u32, V>]);

impl<V: Shows> fmt::Display for Sights<'_, V> {
    ghost output = { λ sights. Some (texts (seen_text V.value_text V.entry_text V.old_text) sights.0.now) };

    fn fmt<W: fmt::Write>(&self, f: &mut fmt::Formatter<W>) -> fmt::Result {
        match self.0 {
            [] => Ok(()),
            [first, rest @ ..] => write!(f, "{}{}", Sight(first), MoreSights(rest)),
        }
    }
}

/// The answers of steps, with one space before each.
#[derive(Clone, Copy)]
struct MoreSights<'a, V: Copy>(&'a [Seen<u32, V>]);

impl<V: Shows> fmt::Display for MoreSights<'_, V> {
    ghost output = { λ sights. Some (more_texts (seen_text V.value_text V.entry_text V.old_text) sights.0.now) };

    fn fmt<W: fmt::Write>(&self, f: &mut fmt::Formatter<W>) -> fmt::Result {
        'sights: for sight in self.0 {
            write!(f, " {}", Sight(sight))?;
        }
        Ok(())
    }
}
