//! A tree beside the plain program: each change is made to both, and then both are compared.

use crate::any::AnyTree;
use crate::plain::Plain;
use crate::words::{Stop, keys, number};
use bforest_core::OutOfMemory;
use std::alloc::{AllocError, Global};

/// A tree, and the state of the plain program after the same calls.
#[derive(Drop)]
pub(crate) struct Trial {
    tree: AnyTree,
    plain: Plain,
    limit: u32,
}

impl Trial {
    /// An empty tree, in a table of at most `limit` slots. Leaves have a capacity of 3, 7, 15 or 255 entries.
    pub(crate) fn new(alloc: Global, capacity: u32, limit: u32) -> Result<Self, Stop> {
        Ok(Trial {
            tree: AnyTree::new(alloc, capacity, limit).ok_or(Stop::Bad)?,
            plain: Plain::new(alloc, capacity as usize),
            limit,
        })
    }

    /// Makes an operation, and writes its answer.
    pub(crate) fn answer(
        &mut self,
        alloc: Global,
        words: &[&str],
        out: &mut String,
    ) -> Result<(), Stop> {
        match words {
            ["insert", keys @ ..] => self.insert_all(alloc, keys, out),
            ["remove", keys @ ..] => self.remove_all(alloc, keys, out),
            ["put", key, value] => self.put(alloc, number(key)?, number(value)?, out),
            ["count", key] => self.count(alloc, number(key)?, out),
            ["random", seed, steps, keys] => {
                self.run(alloc, number(seed)?, number(steps)?, number(keys)?, out)
            }
            ["end"] => self.end(alloc, out),
            _ => self.tell(alloc, words, out),
        }
    }

    // Writes the answer of an operation that changes nothing.
    fn tell(&self, alloc: Global, words: &[&str], out: &mut String) -> Result<(), Stop> {
        match words {
            ["stat"] => self.tell_sizes(out),
            ["keys"] => Ok(self.tree.show(alloc, out)?),
            ["draw"] => Ok(self.tree.draw(alloc, out)?),
            ["root"] => tell_number(self.tree.root(), out),
            ["here", keys @ ..] => self.tell_searches(alloc, keys, out),
            [asked, key] => self.tell_of(asked, number(key)?, out),
            _ => Err(Stop::Bad),
        }
    }

    // Writes the answer to a question about a key, or about a node's number.
    fn tell_of(&self, asked: &str, key: u32, out: &mut String) -> Result<(), Stop> {
        match asked {
            "get" => tell_number(self.tree.get(key), out),
            "need" => tell_number(self.tree.need(key), out),
            "find" => tell_position(self.tree.position(key), out),
            "at" => tell_entry(self.tree.entry_from(key), out),
            "after" => tell_entry(self.tree.entry_after(key), out),
            "before" => tell_entry(self.tree.entry_before(key), out),
            "is_root" => tell_truth(self.tree.is_root(key), out),
            _ => Err(Stop::Bad),
        }
    }

    // Writes whether searches for each of these keys, started at each of these keys, end where searches from the root do.
    fn tell_searches(&self, alloc: Global, words: &[&str], out: &mut String) -> Result<(), Stop> {
        let keys = keys(alloc, words)?;
        for from in &keys {
            for key in &keys {
                if !self.tree.finds_from(*from, *key) {
                    return Ok(write!(out, "from {from} to {key}: another place")?);
                }
            }
        }
        Ok(out.push_str("ok")?)
    }

    // Writes the height and the counts of slots.
    fn tell_sizes(&self, out: &mut String) -> Result<(), Stop> {
        let (levels, slots, free) = self.tree.sizes();
        Ok(write!(out, "levels {levels} slots {slots} free {free}")?)
    }

    // Inserts keys, each with itself as value, until one fails.
    fn insert_all(&mut self, alloc: Global, words: &[&str], out: &mut String) -> Result<(), Stop> {
        for key in &keys(alloc, words)? {
            if let Err(refused) = self.insert(alloc, *key, *key, out)? {
                let why = refusal(refused);
                return Ok(write!(out, "{why} at {key}")?);
            }
        }
        Ok(out.push_str("ok")?)
    }

    // Inserts an entry.
    fn put(&mut self, alloc: Global, key: u32, value: u32, out: &mut String) -> Result<(), Stop> {
        let answer = match self.insert(alloc, key, value, out)? {
            Ok(()) => "ok",
            Err(refused) => refusal(refused),
        };
        Ok(out.push_str(answer)?)
    }

    // Removes keys, and writes the value of the last one and the entry where the path stands then.
    fn remove_all(&mut self, alloc: Global, words: &[&str], out: &mut String) -> Result<(), Stop> {
        let mut answer = (None, None);
        for key in &keys(alloc, words)? {
            answer = self.remove(alloc, *key, out)?;
        }
        tell_number(answer.0, out)?;
        out.push_str(" before ")?;
        tell_entry(answer.1, out)
    }

    // Adds one to the value of a key.
    fn count(&mut self, alloc: Global, key: u32, out: &mut String) -> Result<(), Stop> {
        let is_there = self.tree.count(key);
        if let Some(value) = self.plain.get(key) {
            self.plain.insert(key, value.wrapping_add(1))?;
        }
        self.compare(alloc, out)?;
        tell_truth(is_there, out)
    }

    // Removes the tree.
    fn end(&mut self, alloc: Global, out: &mut String) -> Result<(), Stop> {
        self.tree.end();
        self.plain.clear();
        self.compare(alloc, out)?;
        Ok(out.push_str("ok")?)
    }

    // Inserts and removes keys below a number, without an order, in rounds. Every second round mostly removes.
    fn run(
        &mut self,
        alloc: Global,
        seed: u32,
        steps: u32,
        keys: u32,
        out: &mut String,
    ) -> Result<(), Stop> {
        let mut state = seed;
        for step in 0..steps {
            state = next_state(state);
            let key = key_of(state, keys);
            if is_removal(state, step) {
                self.remove(alloc, key, out)?;
            } else {
                let _refused = self.insert(alloc, key, step, out)?;
            }
        }
        Ok(out.push_str("ok")?)
    }

    // Inserts an entry into both. It fails in the tree exactly where the plain program needs more nodes than the table has room for.
    fn insert(
        &mut self,
        alloc: Global,
        key: u32,
        value: u32,
        out: &mut String,
    ) -> Result<Result<(), OutOfMemory>, Stop> {
        let need = self.plain.need(key);
        let is_full = self.plain.nodes().saturating_add(need) > self.limit;
        let told = self.tree.need(key).unwrap_or(need);
        let answer = self.tree.insert(key, value);
        if is_full != (answer == Err(OutOfMemory::Full)) || told != need {
            write!(out, "inserting {key}: it needs {need} nodes")?;
            return Err(Stop::Differs);
        }
        if answer.is_ok() {
            self.plain.insert(key, value)?;
        }
        self.compare(alloc, out)?;
        Ok(answer)
    }

    // Removes a key from both, and returns its value and the entry where the path stands then.
    fn remove(
        &mut self,
        alloc: Global,
        key: u32,
        out: &mut String,
    ) -> Result<(Option<u32>, Option<(u32, u32)>), Stop> {
        let next = behind(self.plain.list(), key);
        let wanted = self.plain.remove(key);
        let (value, entry) = self.tree.remove(key);
        if value != wanted || wanted.is_some() && entry != next {
            write!(out, "removing {key}: another answer")?;
            return Err(Stop::Differs);
        }
        self.compare(alloc, out)?;
        Ok((value, entry))
    }

    // Compares the tree with the plain program.
    fn compare(&self, alloc: Global, out: &mut String) -> Result<(), Stop> {
        if !self.tree.has_entries(self.plain.list()) {
            out.push_str("other entries")?;
            return Err(Stop::Differs);
        }
        if !self.has_same_nodes(alloc)? {
            out.push_str("other nodes")?;
            return Err(Stop::Differs);
        }
        Ok(())
    }

    // Whether both have nodes of the same sizes, and no other slot is in use.
    fn has_same_nodes(&self, alloc: Global) -> Result<bool, AllocError> {
        let (_, slots, free) = self.tree.sizes();
        let used = slots.saturating_sub(free);
        Ok(used == self.plain.nodes() && self.tree.has_sizes(alloc, &self.plain)?)
    }
}

// The next of a sequence of numbers without an order, which determine the steps of a run.
fn next_state(state: u32) -> u32 {
    state.wrapping_mul(1664525).wrapping_add(1013904223)
}

// The key of a step, below `keys`.
fn key_of(state: u32, keys: u32) -> u32 {
    (state / 65536).checked_rem(keys).unwrap_or(0)
}

// Whether a step removes its key: two of eight steps do in one round, six of eight in the next.
fn is_removal(state: u32, step: u32) -> bool {
    let out_of_eight = if step / 150 % 2 == 0 { 2 } else { 6 };
    state / 4096 % 8 < out_of_eight
}

// The first entry with a greater key.
fn behind(list: &[(u32, u32)], key: u32) -> Option<(u32, u32)> {
    list.iter().find(|entry| entry.0 > key).copied()
}

// The answer to an insertion that failed.
fn refusal(refused: OutOfMemory) -> &'static str {
    match refused {
        OutOfMemory::Full => "full",
        OutOfMemory::Memory => "memory",
    }
}

// Writes a number, or that there is none.
fn tell_number(number: Option<u32>, out: &mut String) -> Result<(), Stop> {
    match number {
        Some(number) => Ok(write!(out, "{number}")?),
        None => Ok(out.push_str("none")?),
    }
}

// Writes an entry, or that there is none.
fn tell_entry(entry: Option<(u32, u32)>, out: &mut String) -> Result<(), Stop> {
    match entry {
        Some((key, value)) => Ok(write!(out, "{key}:{value}")?),
        None => Ok(out.push_str("end")?),
    }
}

// Writes a leaf and a place in it, or that there is none.
fn tell_position(position: Option<(u32, usize)>, out: &mut String) -> Result<(), Stop> {
    match position {
        Some((leaf, index)) => Ok(write!(out, "leaf {leaf} index {index}")?),
        None => Ok(out.push_str("none")?),
    }
}

// Writes a truth value.
fn tell_truth(is_so: bool, out: &mut String) -> Result<(), Stop> {
    Ok(write!(out, "{is_so}")?)
}
