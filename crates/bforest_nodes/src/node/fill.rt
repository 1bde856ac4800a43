//! Filling a leaf with entries that are given in order.
ghost use Rattle.bforest_nodes.specs.Content.{IsLeaf, Leaf, entry_count, keys_of, vals_of};
ghost use Rattle.std.specs.Prelude.{[], length, map, ◌++◌, ◌<◌, ◌∷◌, ◌≡◌, ◌≤◌};

use crate::entries::Entries;
use crate::node::{NodeData, State};
use crate::source::Source;

impl<K: Copy, V: Copy, const N: usize> NodeData<K, V, N> {
    /// Makes the slot a leaf of these entries, 1 to `N`, whatever it held.
    pub fn leaf_of<S: Source<K, V>>(&mut self, entries: S)
        requires some { 0 < length (S.list entries) }
        requires few { length (S.list entries) ≤ N }
        ensures node { self.new ≡ Leaf (map (λ e. e.0) (S.list entries)) (map (λ e. e.1) (S.list entries)) }
    {
        let (key, value) = entries.entry(0);
        self.leaf(key, value);
        match &mut self.state {
            State::Entries(size, leaf) => {
                leaf.fill(entries);
                *size = entries.len() as u8;
            }
            _ => unreachable!(),
        }
    }

    /// Puts an entry behind all those of a leaf that is not full.
    #[inline(always)]
    pub fn push_entry(&mut self, key: K, value: V)
        requires leaf { IsLeaf self.old }
        requires room { entry_count self.old < N }
        ensures node { self.new ≡ Leaf (keys_of self.old ++ key ∷ []) (vals_of self.old ++ value ∷ []) }
    {
        match &mut self.state {
            State::Entries(size, Entries { keys, vals }) => {
                let len = *size as usize;
                keys.push(len, key);
                vals.push(len, value);
                *size = (len + 1) as u8;
            }
            _ => unreachable!(),
        }
    }
}
