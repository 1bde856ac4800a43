//! Rebalancing on the way up, once an entry has gone. It is about a node that underflows and its right neighbour, under the same parent or
//! another, and about a merged or emptied node, which is taken out of the rows above it. Separators above a node whose first key changed
//! are renewed.
ghost use Rattle.std.specs.Prelude.{◌≡◌, ℕ, suc, ◌+◌, ◌-◌, ◌<◌, ◌≤◌, List, [], ◌∷◌, ◌++◌, map, length, get_or, slice_get, Some, None, true, false};
ghost use Rattle.std.specs.List.{flat_map};
ghost use Rattle.bforest_core.specs.Levels.{LevelNode, numbers, sizes, most_levels};
ghost use Rattle.bforest_core.specs.Sizes.{loss_above};
ghost use Rattle.bforest_core.specs.Place.{inner_content};
ghost use Rattle.bforest_core.specs.Climb.{Above, LastAbove, NextIs, nodes_up, OneAbove, TwoAbove};
ghost use Rattle.bforest_core.specs.Removal.{Rebuilt, Keeps, Loosened, Loses, Heals, Joins, Dropped};

use crate::access::{child, entries, remove_child, separator, set_separator};
use crate::path::{MIN_CHILDREN, Path};
use crate::pool::NodePool;
use bforest_nodes::Node;

impl<K: Copy, V: Copy, const N: usize> Path<K, V, N> {
    // The right neighbour of the path's node below level `up`, which may have another parent, with the key between the two.
    #[tactic(auto, using(crate::proofs::removal::Asked::one_low, crate::proofs::removal::Asked::one_small))]
    pub(super) fn right_sibling(&self, up: usize, pool: &NodePool<K, V, N>) -> Option<(K, Node)>
        requires height { self.now.size ≤ most_levels }
        requires pending { OneAbove pool.now self.now.node self.now.entry up self.now.size }
        ensures { (w : OneAbove pool.now self.now.node self.now.entry up self.now.size)
            → NextIs result w.after }
    {
        if up == self.size {
            return None;
        }
        let parent = self.node[up];
        let index = self.entry[up] as usize;
        if index + 1 < entries(pool, parent) {
            Some((
                separator(pool, parent, index),
                child(pool, parent, index + 1),
            ))
        } else {
            match self.right_sibling(up + 1, pool) {
                None => None,
                Some(next) => Some((next.0, child(pool, next.1, 0))),
            }
        }
    }

    // Updates the key between the path's node below level `up` and its right neighbour.
    #[tactic(auto, using(crate::proofs::removal::Asked::two_low, crate::proofs::removal::Asked::two_small))]
    pub(super) fn update_next_separator(&self, up: usize, key: K, pool: &mut NodePool<K, V, N>)
        requires height { self.now.size ≤ most_levels }
        requires pending { TwoAbove pool.old self.now.node self.now.entry up self.now.size }
        ensures { (w : TwoAbove pool.old self.now.node self.now.entry up self.now.size) → Rebuilt pool.old
            pool.new self.now.node self.now.entry self.now.node self.now.entry up self.now.size w.rows
            (w.before ++ w.x ∷ (key, w.y.1) ∷ w.after) (length w.before) (map sizes w.rows) [] }
    {
        let parent = self.node[up];
        let index = self.entry[up] as usize;
        if index + 1 < entries(pool, parent) {
            set_separator(pool, parent, index, key);
        } else {
            self.update_next_separator(up + 1, key, pool);
        }
    }

    // Updates the first key of the path's node below level `up`: its separator in the table, if it has one.
    pub(super) fn update_separator(&self, up: usize, key: K, pool: &mut NodePool<K, V, N>)
        requires height { self.now.size ≤ most_levels }
        requires pending { OneAbove pool.old self.now.node self.now.entry up self.now.size }
        ensures { (w : OneAbove pool.old self.now.node self.now.entry up self.now.size) → Rebuilt pool.old
            pool.new self.now.node self.now.entry self.now.node self.now.entry up self.now.size w.rows
            (w.before ++ (key, w.x.1) ∷ w.after) (length w.before) (map sizes w.rows) [] }
    {
        if up >= self.size {
            return;
        }
        let index = self.entry[up] as usize;
        if index > 0 {
            set_separator(pool, self.node[up], index - 1, key);
        } else {
            self.update_separator(up + 1, key, pool);
        }
    }

    // Goes to the first entry of the next node on `level`, if there is one.
    pub(super) fn enter_next(&mut self, level: usize, pool: &NodePool<K, V, N>)
        requires height { self.old.size ≤ most_levels }
        requires pending { TwoAbove pool.now self.old.node self.old.entry (suc level) self.old.size }
        ensures moved { (w : TwoAbove pool.now self.old.node self.old.entry (suc level) self.old.size) → Above
            pool.now self.new.node self.new.entry (suc level) self.old.size w.rows
            (w.before ++ w.x ∷ w.y ∷ w.after) (suc (length w.before))
            × (get_or self.new.node level 0 ≡ w.y.1) }
        ensures first { get_or self.new.entry level 0 ≡ 0 }
        ensures keeps { Keeps self.old.node self.old.entry self.new.node self.new.entry level self.old.size }
        ensures size { self.new.size ≡ self.old.size }
    {
        let _moved = self.next_node(level, pool);
        self.entry[level] = 0;
    }

    // Removes the entry at the path from level `up`, and gives its key to the next one.
    #[tactic(auto, using(crate::proofs::removal::Asked::two_low, crate::proofs::removal::Asked::two_small))]
    fn remove_merged(&self, up: usize, pool: &mut NodePool<K, V, N>)
        requires height { self.now.size ≤ most_levels }
        requires pending { TwoAbove pool.old self.now.node self.now.entry up self.now.size }
        ensures { (w : TwoAbove pool.old self.now.node self.now.entry up self.now.size)
            → Loosened inner_content 4 8 pool.old pool.new self.now.node self.now.entry up self.now.size
            (map sizes w.rows) (flat_map numbers w.rows) (w.before ++ (w.x.0, w.y.1) ∷ w.after)
            (length w.before) }
    {
        let parent = self.node[up];
        let index = self.entry[up] as usize;
        if index + 1 < entries(pool, parent) {
            // The removal of the first child takes the first separator with it, so it does not matter which key was written there.
            let key = separator(pool, parent, index.saturating_sub(1));
            set_separator(pool, parent, index, key);
            let _answer = remove_child(pool, parent, index);
        } else {
            let key = separator(pool, parent, index - 1);
            self.update_next_separator(up + 1, key, pool);
            let _answer = remove_child(pool, parent, index);
        }
    }

    // Balances the path's node on `level`, which lost an entry, with its right neighbour, if it has fewer than `least` entries. Returns
    // whether it was merged into the neighbour, to which the path leads then.
    #[tactic(auto, using(crate::proofs::removal::Rebalancing::loses_low))]
    #[inline(always)]
    pub(super) fn rebalance(
        &mut self,
        level: usize,
        least: usize,
        pool: &mut NodePool<K, V, N>,
    ) -> bool
        requires height { self.old.size ≤ most_levels }
        requires lost { Loses N least pool.old self.old.node self.old.entry level self.old.size }
        ensures healed { result ≡ false
            → (w : Loses N least pool.old self.old.node self.old.entry level self.old.size)
            → Heals w pool.new self.new.node self.new.entry }
        ensures joined { result ≡ true
            → (w : Loses N least pool.old self.old.node self.old.entry level self.old.size)
            → Joins w pool.new self.new.node self.new.entry }
        ensures size { self.new.size ≡ self.old.size }
    {
        let here = self.node[level];
        let left = entries(pool, here);
        if left >= least {
            if self.entry[level] as usize == left {
                self.enter_next(level, pool);
            }
            return false;
        }
        match self.right_sibling(level + 1, pool) {
            None => false,
            Some(next) => match pool.balance_nodes(here, next.0, next.1) {
                Some(new_key) => {
                    self.update_next_separator(level + 1, new_key, pool);
                    false
                }
                None => {
                    pool.free_node(here);
                    self.node[level] = next.1;
                    true
                }
            },
        }
    }

    // Removes the entry of the path's node below level `up`, which was merged into its right neighbour, and gives its key to the neighbour.
    #[tactic(auto, using(crate::proofs::removal::Asked::two_low))]
    pub(super) fn merge_above(&mut self, up: usize, pool: &mut NodePool<K, V, N>)
        requires height { self.old.size ≤ most_levels }
        requires pending { TwoAbove pool.old self.old.node self.old.entry up self.old.size }
        ensures merged { (w : TwoAbove pool.old self.old.node self.old.entry up self.old.size)
            → (levels : ℕ) × Rebuilt pool.old pool.new self.old.node self.old.entry self.new.node
            self.new.entry up self.old.size w.rows (w.before ++ (w.x.0, w.y.1) ∷ w.after) (length w.before)
            (loss_above (Some (length w.before)) (map sizes w.rows)) (nodes_up self.old.node up levels) }
        ensures size { self.new.size ≡ self.old.size }
    {
        self.remove_merged(up, pool);
        if self.rebalance(up, MIN_CHILDREN, pool) {
            self.merge_above(up + 1, pool);
        }
    }

    // Removes the entry of the path's node below level `up`, which was the rightmost and is empty, and the nodes that this empties.
    #[tactic(auto, using(crate::proofs::removal::Asked::last_low))]
    pub(super) fn remove_emptied(&self, up: usize, pool: &mut NodePool<K, V, N>)
        requires height { self.now.size ≤ most_levels }
        requires pending { LastAbove pool.old self.now.node self.now.entry up self.now.size }
        ensures { (w : LastAbove pool.old self.now.node self.now.entry up self.now.size) → (levels : ℕ)
            × Dropped pool.old pool.new self.now.node self.now.size w.rows (w.before ++ w.y ∷ [])
            (loss_above (Some (suc (length w.before))) (map sizes w.rows))
            (nodes_up self.now.node up levels) }
    {
        let parent = self.node[up];
        if entries(pool, parent) == 1 {
            pool.free_node(parent);
            self.remove_emptied(up + 1, pool);
        } else {
            let last = self.entry[up] as usize;
            let _answer = remove_child(pool, parent, last);
        }
    }
}
