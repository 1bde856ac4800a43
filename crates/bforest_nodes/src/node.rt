//! What a node holds: the children of an inner node, the entries of a leaf, or the next free slot.
ghost use Rattle.bforest_nodes.specs.Content.{Balances, Free, HasShape, Inner, IsCut, IsFree, IsInner, IsLeaf, IsLeafCapacity, IsSameKind, Leaf, children_of, entry_capacity, entry_count, first_part, joined, keys_of, last_part, left_half, put_answer, removed_answer, take_answer, vals_of, with_child, with_child_at, with_entry, with_entry_key, with_key, with_put, with_taken, without_child, without_entry};
ghost use Rattle.bforest_nodes.specs.Search.{count_up_to, search_of};
ghost use Rattle.std.specs.Borrow.{sem};
ghost use Rattle.std.specs.List.Sorted.{IsStrictlySortedBy};
ghost use Rattle.std.specs.Prelude.{Err, IfOk, IfSome, IsSome, IsTrue, None, Some, Ok, [], if◌then◌else◌, length, map, option_map, slice_get, ◌*◌, ◌+◌, ◌++◌, ◌-◌, ◌/◌, ◌<◌, ◌↔◌, ◌∷◌, ◌≡◌, ◌≤◌, ℕ};

mod fill;

use crate::comparator::Comparator;
use crate::entries::Entries;
use crate::half::{answer_of, left_half_of};
use crate::number::{Node, PackedNode};
use crate::row::Row;
use std::alloc::{AllocError, Global};
use std::marker::Model;

/// The most children of an inner node.
const INNER_SIZE: usize = 8;

/// The state of a node after one of its children or entries was removed, by how many are left and its capacity.
#[derive(Clone, Copy, Debug, PartialEq, Eq)]
pub enum Removed {
    /// At least half full, and the removed one was not the last.
    Healthy,
    /// At least half full, and the removed one was the last.
    Rightmost,
    /// Less than half full, and not empty: the node has to be balanced with its right neighbour.
    Underflow,
    /// The node is empty.
    Empty,
}

/// The result of `split`: how many children or entries each half has, and the key between them.
#[derive(Drop)]
pub struct SplitOff<K> {
    /// Of the left half.
    pub lhs_entries: usize,
    /// Of the right half.
    pub rhs_entries: usize,
    /// The first key of a leaf's right half; of an inner node the key between the halves, which is in neither.
    pub crit_key: K,
}

// How the entries lie in a node: the size counts keys, of which an inner node has one less than children.
#[derive(Drop)]
enum State<K, V, const N: usize> {
    Branch(u8, Row<K, 7>, Row<Node, 8>),
    Entries(u8, Entries<K, V, N>),
    Vacant(PackedNode),
}

/// A node of a B+-tree, or a free slot. `N` is how many entries a leaf can hold: an odd number from 3 to 255. An inner node has 1 to 8
/// children and one key fewer.
///
/// The entries lie inline, so that no call on a node takes memory or gives it back. No call compares keys. What a call costs is at most a
/// move of a node's entries within it, and for `split` and `balance` a move of entries to the other node.
#[derive(Drop)]
pub struct NodeData<K, V, const N: usize> {
    state: State<K, V, N>,
}

impl<K, V, const N: usize> Model for NodeData<K, V, N> {
    ghost use Rattle.bforest_nodes.specs.Content.{Content, IsLeafCapacity};

    ghost Value = { Content K V };

    ghost use Rattle.bforest_nodes.specs.Layout.{Fits, content_of};

    ghost view = { λ a. content_of a.state };

    ghost invariant = { λ a. IsLeafCapacity N × Fits a.state };
}

impl<K: Copy, V: Copy, const N: usize> NodeData<K, V, N> {
    ghost use Rattle.bforest_nodes.specs.LendingNode.{lends_vals, lends_value};

    /// A free node with no next one. It takes no memory and always succeeds, since the room for the entries is the node's own.
    pub fn new(_alloc: Global) -> Result<Self, AllocError>
        requires capacity { IsLeafCapacity N }
        ensures ok { result ≡ Ok (Free None) }
    {
        Ok(NodeData {
            state: State::Vacant(PackedNode::none()),
        })
    }

    /// Whether the slot is free.
    pub fn is_free(&self) -> bool
        ensures free { IsTrue result ↔ IsFree self.now }
    {
        matches!(self.state, State::Vacant(_))
    }

    /// Whether the slot is an inner node.
    pub fn is_inner(&self) -> bool
        ensures inner { IsTrue result ↔ IsInner self.now }
    {
        matches!(self.state, State::Branch(_, _, _))
    }

    /// The number of children of an inner node, or of entries of a leaf.
    pub fn entries(&self) -> usize
        requires used { ¬ IsFree self.now }
        ensures value { result ≡ entry_count self.now }
        ensures shape { HasShape N self.now }
        ensures most { result ≤ 255 }
    {
        match &self.state {
            State::Branch(..) => self.unwrap_inner().1.len(),
            State::Entries(..) => self.unwrap_leaf().1.len(),
            State::Vacant(_) => unreachable!(),
        }
    }

    /// Whether an inner node has 8 children, or a leaf `N` entries.
    pub fn is_full(&self) -> bool
        requires used { ¬ IsFree self.now }
        ensures full { IsTrue result ↔ (entry_count self.now ≡ entry_capacity N self.now) }
    {
        match &self.state {
            State::Branch(size, _, tree) => tree.front(*size as usize + 1).len() == INNER_SIZE,
            State::Entries(size, Entries { keys, .. }) => keys.front(*size as usize).len() == N,
            State::Vacant(_) => unreachable!(),
        }
    }

    /// Makes the slot free, whatever it held, with `next` after it in the chain. For the pool alone.
    pub fn make_free(&mut self, next: PackedNode)
        ensures { self.new ≡ Free next }
    {
        self.state = State::Vacant(next);
    }

    /// The node after this free one in the chain. For the pool alone.
    pub fn next_free(&self) -> PackedNode
        requires { IsFree self.now }
        ensures { self.now ≡ Free result }
    {
        match &self.state {
            State::Vacant(next) => *next,
            _ => unreachable!(),
        }
    }

    /// A node with the same content.
    pub fn copied(&self) -> Self
        ensures node { result ≡ self.now }
    {
        let state = match &self.state {
            State::Branch(size, keys, tree) => State::Branch(*size, *keys, *tree),
            State::Entries(size, Entries { keys, vals }) => State::Entries(
                *size,
                Entries {
                    keys: *keys,
                    vals: *vals,
                },
            ),
            State::Vacant(next) => State::Vacant(*next),
        };
        NodeData { state }
    }

    /// Makes the slot an inner node of two children, whatever it held.
    pub fn inner(&mut self, left: Node, key: K, right: Node)
        ensures node { self.new ≡ Inner (key ∷ []) (left ∷ right ∷ []) }
    {
        let mut tree = Row { items: [right; 8] };
        tree.items[0] = left;
        self.state = State::Branch(1, Row { items: [key; 7] }, tree);
    }

    /// Makes the slot an inner node of one child, whatever it held. The key fills room that does not count.
    pub fn only_child(&mut self, key: K, child: Node)
        ensures node { self.new ≡ Inner [] (child ∷ []) }
    {
        self.state = State::Branch(0, Row { items: [key; 7] }, Row { items: [child; 8] });
    }

    /// A leaf of one entry.
    #[inline(always)]
    pub fn new_leaf(key: K, value: V) -> Self
        requires capacity { IsLeafCapacity N }
        ensures node { result ≡ Leaf (key ∷ []) (value ∷ []) }
    {
        NodeData {
            state: State::Entries(
                1,
                Entries {
                    keys: Row { items: [key; N] },
                    vals: Row { items: [value; N] },
                },
            ),
        }
    }

    /// Makes the slot a leaf of one entry, whatever it held.
    pub fn leaf(&mut self, key: K, value: V)
        ensures node { self.new ≡ Leaf (key ∷ []) (value ∷ []) }
    {
        self.state = State::Entries(
            1,
            Entries {
                keys: Row { items: [key; N] },
                vals: Row { items: [value; N] },
            },
        );
    }

    /// The keys and the children of an inner node.
    pub fn unwrap_inner(&self) -> (&[K], &[Node])
        requires inner { IsInner self.now }
        ensures value { self.now ≡ Inner result.0.now result.1.now }
        ensures shape { HasShape N self.now }
    {
        match &self.state {
            State::Branch(size, keys, tree) => {
                (keys.front(*size as usize), tree.front(*size as usize + 1))
            }
            _ => unreachable!(),
        }
    }

    /// The keys and the values of a leaf.
    pub fn unwrap_leaf(&self) -> (&[K], &[V])
        requires leaf { IsLeaf self.now }
        ensures value { self.now ≡ Leaf result.0.now result.1.now }
        ensures shape { HasShape N self.now }
    {
        match &self.state {
            State::Entries(size, Entries { keys, vals }) => {
                (keys.front(*size as usize), vals.front(*size as usize))
            }
            _ => unreachable!(),
        }
    }

    /// The index of the child of an inner node in which a search for `key` continues, which is how many keys are not greater, and the
    /// child. Compares as `Comparator::upper_bound_prefix` does.
    pub fn follow<C: Comparator<K>>(&self, key: K, comp: &C) -> (usize, Node)
        requires inner { IsInner self.now }
        requires sorted { IsStrictlySortedBy (C.order comp.now) (keys_of self.now) }
        ensures index { result.0 ≡ count_up_to (C.order comp.now) (keys_of self.now) key }
        ensures child { slice_get (children_of self.now) result.0 ≡ Some result.1 }
        ensures most { result.0 ≤ 255 }
    {
        match &self.state {
            State::Branch(size, keys, tree) => {
                let len = *size as usize;
                let index = comp.upper_bound_prefix(key, &keys.items, len);
                (index, tree.at(len + 1, index))
            }
            _ => unreachable!(),
        }
    }

    /// The place of `key` among the keys of a leaf, and its value if it is there. Compares as `Comparator::search_prefix` does.
    pub fn look_up<C: Comparator<K>>(&self, key: K, comp: &C) -> (usize, Option<V>)
        requires leaf { IsLeaf self.now }
        requires sorted { IsStrictlySortedBy (C.order comp.now) (keys_of self.now) }
        ensures found { IfSome result.1
            (λ v. search_of (C.order comp.now) (keys_of self.now) key ≡ Ok result.0) }
        ensures value { IfSome result.1 (λ v. slice_get (vals_of self.now) result.0 ≡ Some v) }
        ensures absent { result.1 ≡ None
            → search_of (C.order comp.now) (keys_of self.now) key ≡ Err result.0 }
        ensures most { result.0 ≤ 255 }
    {
        match &self.state {
            State::Entries(size, Entries { keys, vals }) => {
                let len = *size as usize;
                match comp.search_prefix(key, &keys.items, len) {
                    Ok(index) => (index, Some(vals.at(len, index))),
                    Err(index) => (index, None),
                }
            }
            _ => unreachable!(),
        }
    }

    /// Inserts a value at a key of a leaf, and returns the value that it replaces. Compares as `Comparator::search_prefix` does.
    ///
    /// Inlined, since a call of its own takes one in fifty of an insertion's instructions.
    ///
    /// # Errors
    ///
    /// The key's place if the key is absent and the leaf has `N` entries; the leaf is then as before.
    #[inline(always)]
    pub fn put<C: Comparator<K>>(&mut self, key: K, value: V, comp: &C) -> Result<Option<V>, usize>
        requires leaf { IsLeaf self.old }
        requires sorted { IsStrictlySortedBy (C.order comp.now) (keys_of self.old) }
        ensures answer { result
            ≡ put_answer N self.old (search_of (C.order comp.now) (keys_of self.old) key) }
        ensures node { self.new
            ≡ with_put N self.old (search_of (C.order comp.now) (keys_of self.old) key) key value }
        ensures most { (index : ℕ) → result ≡ Err index → index ≤ 255 }
    {
        match &mut self.state {
            State::Entries(size, Entries { keys, vals }) => {
                let count = *size as usize;
                match comp.search_prefix(key, &keys.items, count) {
                    Ok(index) => {
                        let old = vals.at(count, index);
                        vals.set(count, index, value);
                        Ok(Some(old))
                    }
                    Err(index) => {
                        if count >= N {
                            return Err(index);
                        }
                        keys.insert(count, index, key);
                        vals.insert(count, index, value);
                        *size = (count + 1) as u8;
                        Ok(None)
                    }
                }
            }
            _ => unreachable!(),
        }
    }

    /// Removes a key from a leaf, and returns its place and its value, or `None` if it is absent. Compares as `Comparator::search_prefix`
    /// does.
    #[inline(always)]
    pub fn take<C: Comparator<K>>(&mut self, key: K, comp: &C) -> Option<(usize, V)>
        requires leaf { IsLeaf self.old }
        requires sorted { IsStrictlySortedBy (C.order comp.now) (keys_of self.old) }
        ensures answer { result ≡ take_answer self.old (search_of (C.order comp.now) (keys_of self.old) key) }
        ensures node { self.new ≡ with_taken self.old (search_of (C.order comp.now) (keys_of self.old) key) }
        ensures most { IfSome result (λ e. e.0 ≤ 255) }
    {
        match &mut self.state {
            State::Entries(size, Entries { keys, vals }) => {
                let len = *size as usize;
                match comp.search_prefix(key, &keys.items, len) {
                    Ok(index) => {
                        let old = vals.at(len, index);
                        keys.remove(len, index);
                        vals.remove(len, index);
                        *size = (len - 1) as u8;
                        Some((index, old))
                    }
                    Err(_) => None,
                }
            }
            _ => unreachable!(),
        }
    }

    /// The value of a leaf's entry, for writing.
    pub fn value_mut(&mut self, index: usize) -> &mut V
        requires leaf { IsLeaf self.old }
        requires within { index < entry_count self.old }
        ensures* writes_back { sem 𝓛 (lends_value K.row V.row N.row self.entry index result) }
        ensures value { slice_get (vals_of self.old) index ≡ Some result.now }
    {
        match &mut self.state {
            State::Entries(_, entries) => entries.vals.at_mut(index),
            _ => unreachable!(),
        }
    }

    /// The keys of a leaf, and its values for writing.
    pub fn unwrap_leaf_mut(&mut self) -> (&[K], &mut [V])
        requires { IsLeaf self.old }
        ensures* writes_back { sem 𝓛 (lends_vals K.row V.row N.row self.entry result.1) }
        ensures value { self.old ≡ Leaf result.0.now result.1.now }
        ensures shape { HasShape N self.old }
    {
        let len = self.entries();
        match &mut self.state {
            State::Entries(_, entries) => entries.parts_mut(len),
            _ => unreachable!(),
        }
    }

    /// The child of an inner node at `index`.
    pub fn child(&self, index: usize) -> Node
        requires inner { IsInner self.now }
        requires within { index < entry_count self.now }
        ensures child { slice_get (children_of self.now) index ≡ Some result }
    {
        match &self.state {
            State::Branch(size, _, tree) => tree.at(*size as usize + 1, index),
            _ => unreachable!(),
        }
    }

    /// The key between the children of an inner node at `index` and at `index + 1`.
    pub fn separator(&self, index: usize) -> K
        requires inner { IsInner self.now }
        requires within { index < length (keys_of self.now) }
        ensures key { slice_get (keys_of self.now) index ≡ Some result }
    {
        match &self.state {
            State::Branch(size, keys, _) => keys.at(*size as usize, index),
            _ => unreachable!(),
        }
    }

    /// The key and the value of a leaf's entry.
    pub fn entry(&self, index: usize) -> (K, V)
        requires leaf { IsLeaf self.now }
        requires within { index < entry_count self.now }
        ensures key { slice_get (keys_of self.now) index ≡ Some result.0 }
        ensures value { slice_get (vals_of self.now) index ≡ Some result.1 }
    {
        match &self.state {
            State::Entries(size, Entries { keys, vals }) => {
                let len = *size as usize;
                (keys.at(len, index), vals.at(len, index))
            }
            _ => unreachable!(),
        }
    }

    /// The key and the value of a leaf's entry, or `None` if the leaf has no entry at this index.
    pub fn get_entry(&self, index: usize) -> Option<(K, V)>
        requires leaf { IsLeaf self.now }
        ensures key { option_map (λ e. e.0) result ≡ slice_get (keys_of self.now) index }
        ensures value { option_map (λ e. e.1) result ≡ slice_get (vals_of self.now) index }
        ensures most { IsSome result → index < 255 }
    {
        match &self.state {
            State::Entries(size, Entries { keys, vals }) => {
                let len = *size as usize;
                if index < len {
                    let key = keys.at(len, index);
                    Some((key, vals.at(len, index)))
                } else {
                    None
                }
            }
            _ => unreachable!(),
        }
    }

    /// Writes the key between the children of an inner node at `index` and at `index + 1`.
    pub fn set_separator(&mut self, index: usize, key: K)
        requires inner { IsInner self.old }
        requires within { index < length (keys_of self.old) }
        ensures node { self.new ≡ with_key self.old index key }
    {
        match &mut self.state {
            State::Branch(size, keys, _) => keys.set(*size as usize, index, key),
            _ => unreachable!(),
        }
    }

    /// Writes the child of an inner node at `index`.
    pub fn set_child(&mut self, index: usize, child: Node)
        requires inner { IsInner self.old }
        requires within { index < entry_count self.old }
        ensures node { self.new ≡ with_child_at self.old index child }
    {
        match &mut self.state {
            State::Branch(size, _, tree) => tree.set(*size as usize + 1, index, child),
            _ => unreachable!(),
        }
    }

    /// Writes the key of a leaf's entry.
    pub fn set_key(&mut self, index: usize, key: K)
        requires leaf { IsLeaf self.old }
        requires within { index < entry_count self.old }
        ensures node { self.new ≡ with_entry_key self.old index key }
    {
        match &mut self.state {
            State::Entries(size, entries) => entries.keys.set(*size as usize, index, key),
            _ => unreachable!(),
        }
    }

    /// The first key of a leaf, which separates it from its left neighbour.
    pub fn leaf_crit_key(&self) -> K
        requires leaf { IsLeaf self.now }
        requires filled { 0 < entry_count self.now }
        ensures key { slice_get (keys_of self.now) 0 ≡ Some result }
    {
        match &self.state {
            State::Entries(size, Entries { keys, .. }) => keys.at(*size as usize, 0),
            _ => unreachable!(),
        }
    }

    /// Inserts the entry at `index`. If the leaf has `N` entries it returns false, and leaves the leaf unchanged.
    pub fn try_leaf_insert(&mut self, index: usize, key: K, value: V) -> bool
        requires leaf { IsLeaf self.old }
        requires within { index ≤ entry_count self.old }
        ensures room { IsTrue result ↔ (entry_count self.old < N) }
        ensures node { self.new ≡ (if result then with_entry self.old index key value else self.old) }
    {
        match &mut self.state {
            State::Entries(size, Entries { keys, vals }) => {
                let len = *size as usize;
                if len >= N {
                    return false;
                }
                keys.insert(len, index, key);
                vals.insert(len, index, value);
                *size = (len + 1) as u8;
                true
            }
            _ => unreachable!(),
        }
    }

    /// Inserts the key at `index`, and the node after it at `index + 1`. If there are 8 children it returns false, and leaves the node
    /// unchanged.
    pub fn try_inner_insert(&mut self, index: usize, key: K, node: Node) -> bool
        requires inner { IsInner self.old }
        requires within { index ≤ length (keys_of self.old) }
        ensures room { IsTrue result ↔ (entry_count self.old < 8) }
        ensures node { self.new ≡ (if result then with_child self.old index key node else self.old) }
    {
        match &mut self.state {
            State::Branch(size, keys, tree) => {
                let len = *size as usize;
                if len >= INNER_SIZE - 1 {
                    return false;
                }
                keys.insert(len, index, key);
                tree.insert(len + 1, index + 1, node);
                *size = (len + 1) as u8;
                true
            }
            _ => unreachable!(),
        }
    }

    /// Removes the child at `index` and the key before it, which for the first child is the first key. With a single child it returns
    /// `Empty` and leaves the node as it was.
    pub fn inner_remove(&mut self, index: usize) -> Removed
        requires inner { IsInner self.old }
        requires within { index < entry_count self.old }
        ensures answer { result ≡ removed_answer 8 index (entry_count self.old - 1) }
        ensures node { self.new ≡ without_child self.old index }
    {
        match &mut self.state {
            State::Branch(size, keys, tree) => {
                let left = *size as usize;
                if left > 0 {
                    tree.remove(left + 1, index);
                    keys.remove(left, index.saturating_sub(1));
                    *size = (left - 1) as u8;
                }
                answer_of(index, left, INNER_SIZE)
            }
            _ => unreachable!(),
        }
    }

    /// Removes the entry at `index`.
    pub fn leaf_remove(&mut self, index: usize) -> Removed
        requires leaf { IsLeaf self.old }
        requires within { index < entry_count self.old }
        ensures answer { result ≡ removed_answer N index (entry_count self.old - 1) }
        ensures node { self.new ≡ without_entry self.old index }
    {
        match &mut self.state {
            State::Entries(size, Entries { keys, vals }) => {
                let len = *size as usize;
                keys.remove(len, index);
                vals.remove(len, index);
                *size = (len - 1) as u8;
                answer_of(index, len - 1, N)
            }
            _ => unreachable!(),
        }
    }

    /// Keeps the first `count` children of an inner node, or entries of a leaf, and drops those behind. It has so many at least.
    pub fn keep_front(&mut self, count: usize)
        requires used { ¬ IsFree self.old }
        requires some { 1 ≤ count }
        requires within { count ≤ entry_count self.old }
        ensures node { self.new ≡ first_part count self.old }
    {
        match &mut self.state {
            State::Branch(size, ..) => *size = (count - 1) as u8,
            State::Entries(size, ..) => *size = count as u8,
            State::Vacant(_) => unreachable!(),
        }
    }

    /// Keeps the children of an inner node, or the entries of a leaf, from the index `from` on, and drops those in front. It has one there
    /// at least.
    pub fn keep_back(&mut self, from: usize)
        requires used { ¬ IsFree self.old }
        requires within { from < entry_count self.old }
        ensures node { self.new ≡ last_part from self.old }
    {
        match &mut self.state {
            State::Branch(size, keys, tree) => {
                let len = *size as usize;
                keys.remove_front(len, from);
                tree.remove_front(len + 1, from);
                *size = (len - from) as u8;
            }
            State::Entries(size, Entries { keys, vals }) => {
                let len = *size as usize;
                keys.remove_front(len, from);
                vals.remove_front(len, from);
                *size = (len - from) as u8;
            }
            State::Vacant(_) => unreachable!(),
        }
    }

    /// Splits a full node, at which an insertion at `insert_index` had no room. The right half is written to `rhs`, whatever that held.
    ///
    /// A leaf keeps `N / 2` entries where the insertion index is at most `N / 2`, else one more, so that both halves have `(N + 1) / 2`
    /// once the insertion is made. An inner node keeps four children, four go to the right, and the key between these stays in neither.
    pub fn split(&mut self, insert_index: usize, rhs: &mut Self) -> SplitOff<K>
        requires used { ¬ IsFree self.old }
        requires full { entry_count self.old ≡ entry_capacity N self.old }
        ensures left_entries { result.lhs_entries ≡ left_half N self.old insert_index }
        ensures all_entries { result.lhs_entries + result.rhs_entries ≡ entry_count self.old }
        ensures cut { IsCut self.old result.lhs_entries self.new result.crit_key rhs.new }
        ensures rejoins { joined self.new result.crit_key rhs.new ≡ self.old }
    {
        if self.is_inner() {
            self.split_inner(rhs)
        } else {
            self.split_leaf(insert_index, rhs)
        }
    }

    // Cuts a full inner node after its first four children.
    fn split_inner(&mut self, rhs: &mut Self) -> SplitOff<K>
        requires inner { IsInner self.old }
        requires full { entry_count self.old ≡ 8 }
        ensures left_entries { result.lhs_entries ≡ 4 }
        ensures right_entries { result.rhs_entries ≡ 4 }
        ensures cut { IsCut self.old 4 self.new result.crit_key rhs.new }
    {
        match &mut self.state {
            State::Branch(size, keys, tree) => {
                let len = *size as usize;
                rhs.state = State::Branch(
                    (len - 4) as u8,
                    keys.tail(len, 4),
                    tree.tail(len + 1, 4),
                );
                *size = 3;
                SplitOff {
                    lhs_entries: 4,
                    rhs_entries: len - 3,
                    crit_key: keys.at(len, 3),
                }
            }
            _ => unreachable!(),
        }
    }

    // Cuts a full leaf, at which an insertion at `insert_index` had no room.
    fn split_leaf(&mut self, insert_index: usize, rhs: &mut Self) -> SplitOff<K>
        requires leaf { IsLeaf self.old }
        requires full { entry_count self.old ≡ N }
        ensures left_entries { result.lhs_entries ≡ left_half N self.old insert_index }
        ensures some { 0 < result.lhs_entries }
        ensures all_entries { result.lhs_entries + result.rhs_entries ≡ entry_count self.old }
        ensures cut { IsCut self.old result.lhs_entries self.new result.crit_key rhs.new }
    {
        match &mut self.state {
            State::Entries(size, Entries { keys, vals }) => {
                let len = *size as usize;
                let half = left_half_of(len, insert_index);
                rhs.state = State::Entries(
                    (len - half) as u8,
                    Entries {
                        keys: keys.tail(len, half),
                        vals: vals.tail(len, half),
                    },
                );
                *size = half as u8;
                SplitOff {
                    lhs_entries: half,
                    rhs_entries: len - half,
                    crit_key: keys.at(len, half),
                }
            }
            _ => unreachable!(),
        }
    }

    /// Balances a node that is at most half full with its right neighbour, from which `crit_key` separates it, and returns the key that
    /// separates them afterwards.
    ///
    /// Where one node can hold everything, all moves to the right one and the result is `None`; what the left one holds then is
    /// unspecified. Otherwise the right one gets half, rounded down, and the left one the rest.
    pub fn balance(&mut self, crit_key: K, rhs: &mut Self) -> Option<K>
        requires kind { IsSameKind self.old rhs.old }
        requires filled { 0 < entry_count self.old }
        requires rhs_filled { 0 < entry_count rhs.old }
        requires half_full { 2 * entry_count self.old ≤ entry_capacity N self.old }
        ensures balanced { Balances N self.old crit_key rhs.old result self.new rhs.new }
    {
        if self.is_inner() {
            self.balance_inner(crit_key, rhs)
        } else {
            self.balance_leaf(rhs)
        }
    }

    // Balances two inner nodes.
    fn balance_inner(&mut self, crit_key: K, rhs: &mut Self) -> Option<K>
        requires inner { IsInner self.old }
        requires rhs_inner { IsInner rhs.old }
        requires filled { 0 < entry_count self.old }
        requires rhs_filled { 0 < entry_count rhs.old }
        requires half_full { entry_count self.old ≤ 4 }
        ensures { Balances N self.old crit_key rhs.old result self.new rhs.new }
    {
        match (&mut self.state, &mut rhs.state) {
            (State::Branch(size, keys, tree), State::Branch(right_size, right_keys, right_tree)) =>
                {
                    let len = *size as usize;
                    let right_len = *right_size as usize;
                    keys.push(len, crit_key);
                    if len + right_len + 2 <= INNER_SIZE {
                        right_keys.put_before(right_len, keys, len + 1);
                        right_tree.put_before(right_len + 1, tree, len + 1);
                        *right_size = (len + right_len + 1) as u8;
                        return None;
                    }
                    let moved = (len + right_len + 2).div_ceil(2) - (len + 1);
                    keys.append(len + 1, right_keys, right_len, moved);
                    tree.append(len + 1, right_tree, right_len + 1, moved);
                    right_keys.remove_front(right_len, moved);
                    right_tree.remove_front(right_len + 1, moved);
                    *size = (len + moved) as u8;
                    *right_size = (right_len - moved) as u8;
                    Some(keys.at(len + 1 + moved, len + moved))
                }
            _ => unreachable!(),
        }
    }

    // Balances two leaves, whatever the key between them.
    fn balance_leaf(&mut self, rhs: &mut Self) -> Option<K>
        requires leaf { IsLeaf self.old }
        requires rhs_leaf { IsLeaf rhs.old }
        requires rhs_filled { 0 < entry_count rhs.old }
        requires half_full { 2 * entry_count self.old ≤ N }
        ensures { (crit_key : K) → Balances N self.old crit_key rhs.old result self.new rhs.new }
    {
        match (&mut self.state, &mut rhs.state) {
            (
                State::Entries(size, Entries { keys, vals }),
                State::Entries(
                    right_size,
                    Entries {
                        keys: right_keys,
                        vals: right_vals,
                    },
                ),
            ) => {
                let len = *size as usize;
                let right_len = *right_size as usize;
                if len + right_len <= N {
                    right_keys.put_before(right_len, keys, len);
                    right_vals.put_before(right_len, vals, len);
                    *right_size = (len + right_len) as u8;
                    return None;
                }
                let moved = (len + right_len).div_ceil(2) - len;
                keys.append(len, right_keys, right_len, moved);
                vals.append(len, right_vals, right_len, moved);
                right_keys.remove_front(right_len, moved);
                right_vals.remove_front(right_len, moved);
                *size = (len + moved) as u8;
                *right_size = (right_len - moved) as u8;
                Some(right_keys.at(right_len - moved, 0))
            }
            _ => unreachable!(),
        }
    }
}
