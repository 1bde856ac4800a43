//! Reading and writing one node of a pool, by its number.
ghost use Rattle.std.specs.Prelude.{◌≡◌, ℕ, ◌-◌, ◌<◌, ◌≤◌, IfSome, List, length, slice_get, Some, Err};
ghost use Rattle.std.specs.List.Sorted.{IsStrictlySortedBy};
ghost use Rattle.bforest_nodes.specs.Content.{Content, Inner, IsInner, IsLeafCapacity, IsFree, Leaf, with_child_at, with_entry_key, with_key, without_child, without_entry, removed_answer, entry_count, put_answer, take_answer, with_put, with_taken};
ghost use Rattle.bforest_nodes.specs.Search.{search_of};
ghost use Rattle.bforest_core.specs.Descent.{child_index};
ghost use Rattle.bforest_nodes.specs.Entries.{IsIncreasing, place, value_for};
ghost use Rattle.bforest_core.specs.Place.{entry_keys, leaf_content};
ghost use Rattle.bforest_core.specs.Table.{IsUsed, PutsChild, PutsEntry, with_node};

use crate::pool::NodePool;
use bforest_nodes::{Comparator, Node, Removed};

// Makes a used node what another one is.
pub(crate) fn copy_over<K: Copy, V: Copy, const N: usize>(
    pool: &mut NodePool<K, V, N>,
    from: Node,
    to: Node,
)
    requires used { IsUsed pool.old to }
    requires source { IsUsed pool.old from }
    ensures { (content : Content K V) → slice_get pool.old.nodes from ≡ Some content
        → pool.new ≡ with_node pool.old to content }
{
    let content = pool.node(from).copied();
    *pool.node_mut(to) = content;
}

// Inserts a child and its first key into an inner node, after the child at `index`. Returns whether there was room.
pub(crate) fn put_child<K: Copy, V: Copy, const N: usize>(
    pool: &mut NodePool<K, V, N>,
    node: Node,
    index: usize,
    key: K,
    child: Node,
) -> bool
    requires used { IsUsed pool.old node }
    requires inner { (keys : List K) × (children : List ℕ)
        × (slice_get pool.old.nodes node ≡ Some (Inner keys children)) × (index ≤ length keys) }
    ensures { PutsChild pool.old pool.new node index key child result }
{
    pool.node_mut(node).try_inner_insert(index, key, child)
}

// The index of the child of an inner node in which a search for `key` continues, and the child.
#[inline(always)]
pub(crate) fn follow<K: Copy, V: Copy, const N: usize, C: Comparator<K>>(
    pool: &NodePool<K, V, N>,
    node: Node,
    key: K,
    comp: &C,
) -> (usize, Node)
    requires inner { (keys : List K) × (children : List ℕ)
        × (slice_get pool.now.nodes node ≡ Some (Inner keys children)) × IsStrictlySortedBy (C.order comp.now)
        keys }
    ensures index { (keys : List K) (children : List ℕ) → slice_get pool.now.nodes node
        ≡ Some (Inner keys children) → result.0 ≡ child_index (C.order comp.now) keys key }
    ensures child { (keys : List K) (children : List ℕ) → slice_get pool.now.nodes node
        ≡ Some (Inner keys children) → slice_get children result.0 ≡ Some result.1 }
    ensures most { result.0 ≤ 255 }
{
    pool.node(node).follow(key, comp)
}

// The place of `key` among the entries of a leaf, and its value.
pub(crate) fn look_up<K: Copy, V: Copy, const N: usize, C: Comparator<K>>(
    pool: &NodePool<K, V, N>,
    node: Node,
    key: K,
    comp: &C,
) -> (usize, Option<V>)
    requires capacity { IsLeafCapacity N }
    requires leaf { (entries : List (K × V)) × (slice_get pool.now.nodes node ≡ Some (leaf_content entries))
        × IsIncreasing (C.order comp.now) entries }
    ensures place { (entries : List (K × V)) → slice_get pool.now.nodes node ≡ Some (leaf_content entries)
        → result.0 ≡ place (C.order comp.now) entries key }
    ensures value { (entries : List (K × V)) → slice_get pool.now.nodes node ≡ Some (leaf_content entries)
        → result.1 ≡ value_for (C.order comp.now) entries key }
    ensures most { result.0 ≤ 255 }
{
    pool.node(node).look_up(key, comp)
}

// The index of the last entry or child of a node that has one.
pub(crate) fn last_index<K: Copy, V: Copy, const N: usize>(
    pool: &NodePool<K, V, N>,
    node: Node,
) -> usize
    requires some { (content : Content K V) × (slice_get pool.now.nodes node ≡ Some content)
        × (1 ≤ entry_count content) }
    ensures last { (content : Content K V) → slice_get pool.now.nodes node ≡ Some content → result
        ≡ entry_count content - 1 }
    ensures most { result ≤ 255 }
{
    pool.node(node).entries() - 1
}

// Inserts an entry into a leaf at `index`. Returns whether there was room.
#[inline(always)]
pub(crate) fn put_entry<K: Copy, V: Copy, const N: usize>(
    pool: &mut NodePool<K, V, N>,
    node: Node,
    index: usize,
    key: K,
    value: V,
) -> bool
    requires used { IsUsed pool.old node }
    requires leaf { (keys : List K) × (vals : List V)
        × (slice_get pool.old.nodes node ≡ Some (Leaf keys vals)) × (index ≤ length keys) }
    ensures { PutsEntry N pool.old pool.new node index key value result }
{
    pool.node_mut(node).try_leaf_insert(index, key, value)
}

// Puts a value in at a key of a leaf, and returns the value that it replaces, or the key's place if the key is absent and the leaf is full.
#[inline(always)]
pub(crate) fn put<K: Copy, V: Copy, const N: usize, C: Comparator<K>>(
    pool: &mut NodePool<K, V, N>,
    node: Node,
    key: K,
    value: V,
    comp: &C,
) -> Result<Option<V>, usize>
    requires used { IsUsed pool.old node }
    requires leaf { (entries : List (K × V)) × (slice_get pool.old.nodes node ≡ Some (leaf_content entries))
        × IsIncreasing (C.order comp.now) entries }
    ensures answer { (entries : List (K × V)) → slice_get pool.old.nodes node ≡ Some (leaf_content entries)
        → result
        ≡ put_answer N (leaf_content entries) (search_of (C.order comp.now) (entry_keys entries) key) }
    ensures node { (entries : List (K × V)) → slice_get pool.old.nodes node ≡ Some (leaf_content entries)
        → pool.new ≡ with_node pool.old node (with_put N (leaf_content entries)
        (search_of (C.order comp.now) (entry_keys entries) key) key value) }
    ensures most { (index : ℕ) → result ≡ Err index → index ≤ 255 }
{
    pool.node_mut(node).put(key, value, comp)
}

// Removes a key from a leaf, and returns its place and its value, or `None` if it is absent.
#[inline(always)]
pub(crate) fn take<K: Copy, V: Copy, const N: usize, C: Comparator<K>>(
    pool: &mut NodePool<K, V, N>,
    node: Node,
    key: K,
    comp: &C,
) -> Option<(usize, V)>
    requires used { IsUsed pool.old node }
    requires leaf { (entries : List (K × V)) × (slice_get pool.old.nodes node ≡ Some (leaf_content entries))
        × IsIncreasing (C.order comp.now) entries }
    ensures answer { (entries : List (K × V)) → slice_get pool.old.nodes node ≡ Some (leaf_content entries)
        → result
        ≡ take_answer (leaf_content entries) (search_of (C.order comp.now) (entry_keys entries) key) }
    ensures node { (entries : List (K × V)) → slice_get pool.old.nodes node ≡ Some (leaf_content entries)
        → pool.new ≡ with_node pool.old node (with_taken (leaf_content entries)
        (search_of (C.order comp.now) (entry_keys entries) key)) }
    ensures most { IfSome result (λ e. e.0 ≤ 255) }
{
    pool.node_mut(node).take(key, comp)
}

// The number of children or entries.
pub(crate) fn entries<K: Copy, V: Copy, const N: usize>(
    pool: &NodePool<K, V, N>,
    node: Node,
) -> usize
    requires { (content : Content K V) × (slice_get pool.now.nodes node ≡ Some content) × (¬ IsFree content) }
    ensures value { (content : Content K V) → slice_get pool.now.nodes node ≡ Some content → result
        ≡ entry_count content }
    ensures most { result ≤ 255 }
{
    pool.node(node).entries()
}

// The number of children of an inner node.
pub(crate) fn child_count<K: Copy, V: Copy, const N: usize>(
    pool: &NodePool<K, V, N>,
    node: Node,
) -> usize
    requires { (content : Content K V) × (slice_get pool.now.nodes node ≡ Some content) × IsInner content }
    ensures value { (content : Content K V) → slice_get pool.now.nodes node ≡ Some content → result
        ≡ entry_count content }
    ensures most { result ≤ 8 }
{
    let (_, children) = pool.node(node).unwrap_inner();
    children.len()
}

// A separator of an inner node.
pub(crate) fn separator<K: Copy, V: Copy, const N: usize>(
    pool: &NodePool<K, V, N>,
    node: Node,
    index: usize,
) -> K
    requires { (keys : List K) × (children : List ℕ)
        × (slice_get pool.now.nodes node ≡ Some (Inner keys children)) × (index < length keys) }
    ensures { (keys : List K) (children : List ℕ) → slice_get pool.now.nodes node ≡ Some (Inner keys children)
        → slice_get keys index ≡ Some result }
{
    pool.node(node).separator(index)
}

// A child of an inner node.
pub(crate) fn child<K: Copy, V: Copy, const N: usize>(
    pool: &NodePool<K, V, N>,
    node: Node,
    index: usize,
) -> Node
    requires { (keys : List K) × (children : List ℕ)
        × (slice_get pool.now.nodes node ≡ Some (Inner keys children)) × (index < length children) }
    ensures { (keys : List K) (children : List ℕ) → slice_get pool.now.nodes node ≡ Some (Inner keys children)
        → slice_get children index ≡ Some result }
{
    pool.node(node).child(index)
}

// Writes a separator of an inner node.
pub(crate) fn set_separator<K: Copy, V: Copy, const N: usize>(
    pool: &mut NodePool<K, V, N>,
    node: Node,
    index: usize,
    key: K,
)
    requires used { IsUsed pool.old node }
    requires inner { (keys : List K) × (children : List ℕ)
        × (slice_get pool.old.nodes node ≡ Some (Inner keys children)) × (index < length keys) }
    ensures { (keys : List K) (children : List ℕ) → slice_get pool.old.nodes node ≡ Some (Inner keys children)
        → pool.new ≡ with_node pool.old node (with_key (Inner keys children) index key) }
{
    pool.node_mut(node).set_separator(index, key);
}

// Writes a child of an inner node.
pub(crate) fn set_child<K: Copy, V: Copy, const N: usize>(
    pool: &mut NodePool<K, V, N>,
    node: Node,
    index: usize,
    child: Node,
)
    requires used { IsUsed pool.old node }
    requires inner { (content : Content K V) × (slice_get pool.old.nodes node ≡ Some content)
        × IsInner content × (index < entry_count content) }
    ensures { (content : Content K V) → slice_get pool.old.nodes node ≡ Some content
        → pool.new ≡ with_node pool.old node (with_child_at content index child) }
{
    pool.node_mut(node).set_child(index, child);
}

// Writes the key of an entry of a leaf.
pub(crate) fn set_leaf_key<K: Copy, V: Copy, const N: usize>(
    pool: &mut NodePool<K, V, N>,
    node: Node,
    index: usize,
    key: K,
)
    requires used { IsUsed pool.old node }
    requires leaf { (keys : List K) × (vals : List V)
        × (slice_get pool.old.nodes node ≡ Some (Leaf keys vals)) × (index < length keys) }
    ensures { (keys : List K) (vals : List V) → slice_get pool.old.nodes node ≡ Some (Leaf keys vals)
        → pool.new ≡ with_node pool.old node (with_entry_key (Leaf keys vals) index key) }
{
    pool.node_mut(node).set_key(index, key);
}

// Removes a child of an inner node, and the key before it.
pub(crate) fn remove_child<K: Copy, V: Copy, const N: usize>(
    pool: &mut NodePool<K, V, N>,
    node: Node,
    index: usize,
) -> Removed
    requires used { IsUsed pool.old node }
    requires inner { (keys : List K) × (children : List ℕ)
        × (slice_get pool.old.nodes node ≡ Some (Inner keys children)) × (index < length children) }
    ensures node { (keys : List K) (children : List ℕ) → slice_get pool.old.nodes node
        ≡ Some (Inner keys children) → pool.new
        ≡ with_node pool.old node (without_child (Inner keys children) index) }
    ensures answer { (keys : List K) (children : List ℕ) → slice_get pool.old.nodes node
        ≡ Some (Inner keys children) → result ≡ removed_answer 8 index (length children - 1) }
{
    pool.node_mut(node).inner_remove(index)
}

// Removes an entry of a leaf.
pub(crate) fn remove_entry<K: Copy, V: Copy, const N: usize>(
    pool: &mut NodePool<K, V, N>,
    node: Node,
    index: usize,
)
    requires used { IsUsed pool.old node }
    requires leaf { (keys : List K) × (vals : List V)
        × (slice_get pool.old.nodes node ≡ Some (Leaf keys vals)) × (index < length keys) }
    ensures { (keys : List K) (vals : List V) → slice_get pool.old.nodes node ≡ Some (Leaf keys vals)
        → pool.new ≡ with_node pool.old node (without_entry (Leaf keys vals) index) }
{
    let _answer = pool.node_mut(node).leaf_remove(index);
}

// The first key of a leaf.
pub(crate) fn leaf_key<K: Copy, V: Copy, const N: usize>(pool: &NodePool<K, V, N>, node: Node) -> K
    requires { (keys : List K) × (vals : List V) × (slice_get pool.now.nodes node ≡ Some (Leaf keys vals))
        × (0 < length keys) }
    ensures { (keys : List K) (vals : List V) → slice_get pool.now.nodes node ≡ Some (Leaf keys vals)
        → slice_get keys 0 ≡ Some result }
{
    pool.node(node).leaf_crit_key()
}

// The index of a leaf's last entry, and its key.
pub(crate) fn last_key<K: Copy, V: Copy, const N: usize>(
    pool: &NodePool<K, V, N>,
    node: Node,
) -> (usize, K)
    requires { (keys : List K) × (vals : List V) × (slice_get pool.now.nodes node ≡ Some (Leaf keys vals))
        × (0 < length keys) }
    ensures index { (keys : List K) (vals : List V) → slice_get pool.now.nodes node ≡ Some (Leaf keys vals)
        → result.0 ≡ length keys - 1 }
    ensures key { (keys : List K) (vals : List V) → slice_get pool.now.nodes node ≡ Some (Leaf keys vals)
        → slice_get keys (length keys - 1) ≡ Some result.1 }
{
    let index = last_index(pool, node);
    (index, pool.node(node).entry(index).0)
}

// The entry of a leaf at `index`, or `None` if there is none.
pub(crate) fn leaf_entry<K: Copy, V: Copy, const N: usize>(
    pool: &NodePool<K, V, N>,
    node: Node,
    index: usize,
) -> Option<(K, V)>
    requires { (entries : List (K × V)) × (slice_get pool.now.nodes node ≡ Some (leaf_content entries)) }
    ensures value { (entries : List (K × V)) → slice_get pool.now.nodes node ≡ Some (leaf_content entries)
        → result ≡ slice_get entries index }
    ensures most { IfSome result (λ entry. index ≤ 255) }
{
    pool.node(node).get_entry(index)
}
