//! A map as its list, and the sizes of its tree's nodes.

use crate::level::{halves_of_children, lose_one, node_at};
use std::alloc::{AllocError, Global};

/// A map as its list, and the sizes of its tree's nodes, level by level, the leaves first. The capacity of a leaf is an odd number of at
/// least 3.
#[derive(Drop)]
pub struct Plain {
    alloc: Global,
    most: usize,
    list: Vec<(u32, u32)>,
    sizes: Vec<Vec<usize>>,
}

impl Plain {
    /// Makes an empty map, without nodes, whose leaves have at most `most` entries.
    pub fn new(alloc: Global, most: usize) -> Plain {
        Plain {
            alloc,
            most,
            list: Vec::new(alloc),
            sizes: Vec::new(alloc),
        }
    }

    /// The entries, in order.
    pub fn list(&self) -> &[(u32, u32)] {
        self.list.as_slice()
    }

    /// The height of the tree.
    pub fn levels(&self) -> usize {
        self.sizes.len()
    }

    /// The sizes of the nodes of a level, that of the leaves at height 0.
    pub fn level(&self, height: usize) -> &[usize] {
        match self.sizes.get(height) {
            Some(level) => level.as_slice(),
            None => &[],
        }
    }

    /// How many nodes the tree has.
    pub fn nodes(&self) -> u32 {
        let mut nodes = 0u32;
        for level in &self.sizes {
            for _node in level {
                nodes = nodes.saturating_add(1);
            }
        }
        nodes
    }

    /// The value of a key.
    pub fn get(&self, key: u32) -> Option<u32> {
        let entry = self.list.iter().find(|entry| entry.0 == key)?;
        Some(entry.1)
    }

    /// How many nodes an insertion of a key takes.
    pub fn need(&self, key: u32) -> u32 {
        if self.get(key).is_some() {
            return 0;
        }
        let mut at = self.place(key);
        let mut full = 0u32;
        for (height, level) in self.sizes.iter().enumerate() {
            let (index, _) = node_at(level, at, height == 0);
            if level.get(index).copied().unwrap_or(0) < self.most_at(height) {
                return full;
            }
            full = full.saturating_add(1);
            at = index;
        }
        full.saturating_add(1)
    }

    /// Inserts an entry, or writes the value if the key is present.
    pub fn insert(&mut self, key: u32, value: u32) -> Result<(), AllocError> {
        let place = self.place(key);
        if self.get(key).is_some() {
            if let Some(entry) = self.list.get_mut(place) {
                entry.1 = value;
            }
            return Ok(());
        }
        self.grow(place)?;
        if place <= self.list.len() {
            self.list.insert(place, (key, value))?;
        }
        Ok(())
    }

    /// Removes an entry, and returns its value.
    pub fn remove(&mut self, key: u32) -> Option<u32> {
        let old = self.get(key)?;
        let place = self.place(key);
        self.remove_at(place);
        Some(old)
    }

    /// Adds a number to each value, in order, and keeps the entries whose keys leave a remainder under a divisor.
    pub fn retain_rests(&mut self, divisor: u32, added: u32) {
        let mut place = 0usize;
        for _asked in 0..self.list.len() {
            let Some(entry) = self.list.get_mut(place) else {
                return;
            };
            entry.1 = entry.1.wrapping_add(added);
            if entry.0.checked_rem(divisor) == Some(0) {
                self.remove_at(place);
            } else {
                place = place.saturating_add(1);
            }
        }
    }

    /// Ends the tree.
    pub fn clear(&mut self) {
        self.list.clear();
        self.sizes.clear();
    }

    // The number of lesser keys.
    fn place(&self, key: u32) -> usize {
        self.list.iter().filter(|entry| entry.0 < key).count()
    }

    // The capacity of a node at a height.
    fn most_at(&self, height: usize) -> usize {
        if height == 0 { self.most } else { 8 }
    }

    // The sizes of the halves of a full node, with the new entry or child.
    fn halves(&self, height: usize, within: usize) -> (usize, usize) {
        if height == 0 {
            let half = self.most.saturating_add(1) / 2;
            (half, half)
        } else {
            halves_of_children(within)
        }
    }

    // Updates the sizes for an insertion at a place.
    fn grow(&mut self, place: usize) -> Result<(), AllocError> {
        let mut at = place;
        for height in 0..self.sizes.len() {
            let most = self.most_at(height);
            let Some(level) = self.sizes.get_mut(height) else {
                return Ok(());
            };
            let (index, within) = node_at(level, at, height == 0);
            let Some(size) = level.get_mut(index) else {
                return Ok(());
            };
            if *size < most {
                *size += 1;
                return Ok(());
            }
            let (left, right) = self.halves(height, within);
            if let Some(level) = self.sizes.get_mut(height) {
                split(level, index, left, right)?;
            }
            at = index;
        }
        let mut root = Vec::new(self.alloc);
        root.push(if self.sizes.is_empty() { 1 } else { 2 })?;
        self.sizes.push(root)?;
        Ok(())
    }

    // Updates the list and the sizes for a removal at a place.
    fn remove_at(&mut self, place: usize) {
        if place < self.list.len() {
            self.list.remove(place);
        }
        let mut at = place;
        for height in 0..self.sizes.len() {
            let most = self.most_at(height);
            let Some(level) = self.sizes.get_mut(height) else {
                return;
            };
            let (index, _) = node_at(level, at, false);
            if !lose_one(level, index, most) {
                break;
            }
            at = index;
        }
        self.trim();
    }

    // Discards roots that are empty or have a single child.
    fn trim(&mut self) {
        for height in (0..self.sizes.len()).rev() {
            match self.level(height) {
                [] => {}
                [1] if height > 0 => {}
                _ => return,
            }
            self.sizes.pop();
        }
    }
}

// Replaces a node by two of these sizes.
fn split(
    level: &mut Vec<usize>,
    index: usize,
    left: usize,
    right: usize,
) -> Result<(), AllocError> {
    if let Some(size) = level.get_mut(index) {
        *size = left;
        level.insert(index + 1, right)?;
    }
    Ok(())
}
