//! Numbered nodes, of which the free ones form a list.
ghost use Rattle.std.specs.Prelude.{◌≡◌, ◌≢◌, ℕ, ◌*◌, ◌+◌, ◌-◌, ◌<◌, ◌≤◌, ◌↔◌, ◌++◌, length, max, IsTrue, IsOk, IfOk, OnOk, OnErr, Ok, Err, Some, None, [], ◌∷◌, slice_get, slice_set, vec_len, vec_capacity};
ghost use Rattle.std.specs.Borrow.{sem, LendsBoth, Array};
ghost use Rattle.bforest_nodes.specs.Content.{Content, Inner, Leaf, IsLeafCapacity, children_of};
ghost use Rattle.bforest_core.specs.Change.{AllocatesLeaf, KeepsTrees};
ghost use Rattle.bforest_core.specs.Trees.{IsUnion};
ghost use Rattle.bforest_core.specs.Place.{leaf_content};
ghost use Rattle.bforest_core.specs.Table.{slot_count, free_count, room, GrowsFor, NeedsGrowth, IsUsed, IsTable, reserved, without_front, with_front, with_freed, fresh_nodes, front_of, front_of_new, IsFullAt, IsSplitAt, IsHalfFullAt, IsBalancedAt, IsEntryAt, value_at};

use bforest_nodes::{Node, NodeData, PackedNode, Source, SplitOff};
use std::alloc::{AllocError, Global};
use std::marker::Model;

/// Why an insertion or a reservation failed. The call that returns it has changed nothing.
#[derive(Clone, Copy, Debug, PartialEq, Eq)]
pub enum OutOfMemory {
    /// The allocator gave no memory for more nodes, which the limit would allow. The call may succeed when it is made again.
    Memory,
    /// The forest's limit does not allow the nodes that are needed: the free ones and those up to the limit are too few.
    Full,
}

/// Nodes in one table, each of which is named by its number. The free ones form a list, which the nodes themselves keep.
#[derive(Drop)]
pub struct NodePool<K, V, const N: usize> {
    nodes: Vec<NodeData<K, V, N>>,
    // A free node that is never handed out. By it the type of a pool tells that a node fits in memory, so that no call has to require it.
    blank: NodeData<K, V, N>,
    first: PackedNode,
    free: u32,
    limit: u32,
    alloc: Global,
}

impl<K, V, const N: usize> Model for NodePool<K, V, N> {
    ghost use Rattle.bforest_core.specs.Table.{Table};
    ghost use Rattle.std.specs.Prelude.{vec_capacity};

    ghost Value = { Table K V };

    ghost use Rattle.bforest_core.specs.Chain.{chain_from, IsPool};

    ghost view = { λ a. record {
      nodes = a.nodes.items;
      chain = chain_from a.nodes.items a.free a.first;
      limit = a.limit;
      memory = vec_capacity a.nodes;
    } };

    ghost invariant = { λ a. IsPool N a.nodes.items a.first a.free a.limit };
}

impl<K: Copy, V: Copy, const N: usize> NodePool<K, V, N> {
    ghost use Rattle.bforest_core.specs.Lending.{lends_node, lends_value_at};

    /// Makes a pool with no slots, which may have at most 4294967295. Takes no memory.
    pub fn new(alloc: Global) -> Self
        requires { IsLeafCapacity N }
        ensures empty { result ≡ record { nodes = []; chain = []; limit = 4294967295; memory = 0 } }
    {
        NodePool::with_limit(alloc, u32::MAX)
    }

    /// Makes a pool with no slots, which may have at most `limit`. Takes no memory.
    pub fn with_limit(alloc: Global, limit: u32) -> Self
        requires { IsLeafCapacity N }
        ensures empty { result ≡ record { nodes = []; chain = []; limit = limit; memory = 0 } }
    {
        NodePool {
            nodes: Vec::new(alloc),
            blank: NodeData::new(alloc).unwrap(),
            first: PackedNode::none(),
            free: 0,
            limit,
            alloc,
        }
    }

    /// The number of slots, used or free, for each of which memory is held. Constant time.
    pub fn slots(&self) -> u32
        ensures value { result ≡ slot_count self.now }
        ensures table { IsTable self.now }
        ensures held { slot_count self.now ≤ self.now.memory }
    {
        self.nodes.len() as u32
    }

    /// The number of free nodes. Constant time.
    pub fn free(&self) -> u32
        ensures value { result ≡ free_count self.now }
    {
        self.free
    }

    /// The most slots that the pool may have. Constant time.
    pub fn limit(&self) -> u32
        ensures value { result ≡ self.now.limit }
    {
        self.limit
    }

    /// The allocator that gives the memory for the slots.
    pub fn allocator(&self) -> Global {
        self.alloc
    }

    /// The content of a slot. One index.
    pub fn node(&self, node: Node) -> &NodeData<K, V, N>
        requires { node < slot_count self.now }
        ensures value { slice_get self.now.nodes node ≡ Some result.now }
    {
        &self.nodes[node.number() as usize]
    }

    // The number of children of a node: 0 for a leaf.
    pub(crate) fn child_count(&self, node: Node) -> usize
        requires { node < slot_count self.now }
        ensures value { (content : Content K V) → slice_get self.now.nodes node ≡ Some content → result
            ≡ length (children_of content) }
        ensures few { slot_count self.now ≤ 4294967295 }
    {
        let node = &self.nodes[node.number() as usize];
        if node.is_inner() { node.entries() } else { 0 }
    }

    /// The content of a used slot, for writing. One index. Whatever is written, the free list stays as it is.
    pub fn node_mut(&mut self, node: Node) -> &mut NodeData<K, V, N>
        requires { IsUsed self.old node }
        ensures* writes_back { sem 𝓛 (lends_node K.row V.row N.row self.entry node result) }
        ensures value { slice_get self.old.nodes node ≡ Some result.now }
    {
        &mut self.nodes[node.number() as usize]
    }

    /// Drops all slots, used and free. Keeps the limit, and the memory for later slots.
    pub fn clear(&mut self)
        ensures empty { self.new ≡ record self.old { nodes = []; chain = [] } }
    {
        self.nodes.clear();
        self.first = PackedNode::none();
        self.free = 0;
    }

    /// Frees a used slot: it becomes the front of the free list, and the next to be taken. Constant time.
    pub fn free_node(&mut self, node: Node)
        requires used { IsUsed self.old node }
        ensures freed { self.new ≡ with_freed self.old node }
    {
        let slot = &mut self.nodes[node.number() as usize];
        slot.make_free(self.first);
        self.first = PackedNode::some(node);
        self.free += 1;
    }

    /// Makes sure that `n` nodes are free: if fewer are, adds slots until exactly `n` are, by one growth of the table.
    ///
    /// No tree changes. If `n` nodes are free already, it changes nothing and takes no memory.
    ///
    /// # Errors
    ///
    /// `Full` where the limit does not allow the slots needed, which is tested first, and `Memory` where the table could not grow. After
    /// either the pool is as before.
    pub fn reserve(&mut self, n: u32) -> Result<(), OutOfMemory>
        ensures ok { OnOk result (self.new ≡ reserved self.old n self.new.memory) }
        ensures growth { GrowsFor n self.old self.new }
        ensures err { OnErr result (self.new ≡ self.old) }
        ensures full { (result ≡ Err OutOfMemory.Full) ↔ (room self.old < n) }
        ensures memory { result ≡ Err OutOfMemory.Memory → NeedsGrowth n self.old }
        ensures enough { n ≤ free_count self.old → IsOk result }
        ensures numbers { slot_count self.old ≤ 4294967295 }
        ensures free { OnOk result (n ≤ free_count self.new) }
        ensures trees { IsUnion N self.old → IsUnion N self.new × KeepsTrees self.old.nodes self.new.nodes }
    {
        if n <= self.free {
            return Ok(());
        }
        let missing = n - self.free;
        if missing > self.limit - self.nodes.len() as u32 {
            return Err(OutOfMemory::Full);
        }
        match add_slots(&mut self.nodes, missing, self.first, self.alloc) {
            Ok(first) => {
                self.first = first;
                self.free = n;
                Ok(())
            }
            Err(_) => Err(OutOfMemory::Memory),
        }
    }

    /// Makes the front of the free list a leaf of one entry, or a new slot if no node is free, and returns its number.
    ///
    /// # Errors
    ///
    /// The errors of `reserve(1)`. After either the pool is as before.
    pub fn alloc_node(&mut self, key: K, value: V) -> Result<Node, OutOfMemory>
        ensures { AllocatesLeaf N self.old self.new key value result }
    {
        if self.free == 0 {
            return self.push_leaf(key, value);
        }
        let node = self.take_slot();
        self.node_mut(node).leaf(key, value);
        Ok(node)
    }

    // Adds a slot that is a leaf of one entry, where no node is free.
    fn push_leaf(&mut self, key: K, value: V) -> Result<Node, OutOfMemory>
        requires none { free_count self.old ≡ 0 }
        ensures { AllocatesLeaf N self.old self.new key value result }
    {
        let number = self.nodes.len() as u32;
        if number == self.limit {
            Err(OutOfMemory::Full)
        } else if hold(&mut self.nodes, 1).is_err() {
            Err(OutOfMemory::Memory)
        } else {
            self.nodes.push_reserved(NodeData::new_leaf(key, value));
            Ok(Node::new(number))
        }
    }

    /// Makes the front of the free list an inner node of two children, and returns its number. Takes no memory.
    pub fn inner_node(&mut self, left: Node, key: K, right: Node) -> Node
        requires room { 0 < free_count self.old }
        ensures node { front_of self.old.chain ≡ Some result }
        ensures table { self.new
            ≡ with_front self.old self.old.chain (Inner (key ∷ []) (left ∷ right ∷ [])) }
        ensures used { IsUsed self.new result }
    {
        let node = self.take_slot();
        self.node_mut(node).inner(left, key, right);
        node
    }

    /// Makes the front of the free list this node, and returns its number. Takes no memory.
    pub fn add_node(&mut self, content: NodeData<K, V, N>) -> Node
        requires room { 0 < free_count self.old }
        ensures node { front_of self.old.chain ≡ Some result }
        ensures table { self.new ≡ with_front self.old self.old.chain content }
        ensures used { IsUsed self.new result }
    {
        let node = self.take_slot();
        *self.node_mut(node) = content;
        node
    }

    // Makes the front of the free list what a used slot is, and returns its number. Takes no memory.
    pub(crate) fn copy_node(&mut self, node: Node) -> Node
        requires used { IsUsed self.old node }
        requires room { 0 < free_count self.old }
        ensures node { front_of self.old.chain ≡ Some result }
        ensures table { (content : Content K V) → slice_get self.old.nodes node ≡ Some content
            → self.new ≡ with_front self.old self.old.chain content }
        ensures used { IsUsed self.new result }
    {
        let content = self.node(node).copied();
        self.add_node(content)
    }

    // Makes the front of the free list a leaf of these entries, 1 to `N`, and returns its number. Takes no memory.
    #[inline(always)]
    pub(crate) fn add_leaf<S: Source<K, V>>(&mut self, entries: S) -> Node
        requires some { 0 < length (S.list entries) }
        requires few { length (S.list entries) ≤ N }
        requires room { 0 < free_count self.old }
        ensures node { front_of self.old.chain ≡ Some result }
        ensures table { self.new ≡ with_front self.old self.old.chain (leaf_content (S.list entries)) }
        ensures used { IsUsed self.new result }
    {
        let leaf = self.take_slot();
        self.node_mut(leaf).leaf_of(entries);
        leaf
    }

    // An inner node of one child, which is in no slot yet. The key fills room that does not count.
    pub(crate) fn over(&self, key: K, child: Node) -> NodeData<K, V, N>
        ensures node { result ≡ Inner [] (child ∷ []) }
    {
        let mut node = NodeData::new(self.alloc).unwrap();
        node.only_child(key, child);
        node
    }

    /// Splits the full node `left`, at which an insertion at `insert_index` had no room. The right half is in the front of the free list,
    /// whose number is returned. Takes no memory.
    pub fn split_node(&mut self, left: Node, insert_index: usize) -> (Node, SplitOff<K>)
        requires used { IsUsed self.old left }
        requires full { IsFullAt N self.old.nodes left }
        requires room { 0 < free_count self.old }
        ensures node { front_of self.old.chain ≡ Some result.0 }
        ensures split { IsSplitAt N self.old left insert_index result.1 self.new }
        ensures used { IsUsed self.new result.0 }
        ensures capacity { IsLeafCapacity N }
    {
        let right = self.take_slot();
        let (rhs, lhs) = two_nodes(
            self.nodes.as_mut_slice(),
            right.number() as usize,
            left.number() as usize,
        );
        (right, lhs.split(insert_index, rhs))
    }

    /// Balances the node `left`, which is at most half full, with its right neighbour, from which `crit_key` separates it: see
    /// `NodeData::balance`, whose answer it returns. Takes no memory.
    pub fn balance_nodes(&mut self, left: Node, crit_key: K, right: Node) -> Option<K>
        requires left { IsUsed self.old left }
        requires right { IsUsed self.old right }
        requires apart { left ≢ right }
        requires balanceable { IsHalfFullAt N self.old.nodes left right }
        ensures balanced { IsBalancedAt N self.old left crit_key right result self.new }
    {
        let (lhs, rhs) = two_nodes(
            self.nodes.as_mut_slice(),
            left.number() as usize,
            right.number() as usize,
        );
        lhs.balance(crit_key, rhs)
    }

    /// The value of a leaf's entry, for writing. Two indices.
    pub fn value_mut(&mut self, node: Node, index: usize) -> &mut V
        requires used { IsUsed self.old node }
        requires entry { IsEntryAt self.old.nodes node index }
        ensures* writes_back { sem 𝓛
            (lends_value_at K.row V.row N.row self.entry node index result) }
        ensures value { Some result.now ≡ value_at self.old.nodes node index }
    {
        self.node_mut(node).value_mut(index)
    }

    // Takes the front off the free list: a used slot from then on, which the caller fills.
    pub(crate) fn take_slot(&mut self) -> Node
        requires room { 0 < free_count self.old }
        ensures node { front_of self.old.chain ≡ Some result }
        ensures table { self.new ≡ without_front self.old self.old.chain }
        ensures used { IsUsed self.new result }
    {
        let node = self.first.expand().unwrap();
        self.first = self.nodes[node.number() as usize].next_free();
        self.free -= 1;
        node
    }
}

// Two different nodes, for writing.
fn two_nodes<T>(nodes: &mut [T], left: usize, right: usize) -> (&mut T, &mut T)
    requires left_within { left < length nodes.old }
    requires right_within { right < length nodes.old }
    requires apart { left ≢ right }
    ensures* writes_back { sem 𝓛 (LendsBoth (Array T.row 0) T.row T.row nodes.entry result
        (λ l r. slice_set (slice_set nodes.old left l) right r)) }
    ensures left { slice_get nodes.old left ≡ Some result.0.now }
    ensures right { slice_get nodes.old right ≡ Some result.1.now }
{
    if left < right {
        let (front, back) = nodes.split_at_mut(right);
        (&mut front[left], &mut back[0])
    } else {
        let (front, back) = nodes.split_at_mut(left);
        (&mut back[0], &mut front[right])
    }
}

// The fewest slots for which memory is taken, so that a small forest grows once.
const LEAST_SLOTS: usize = 4;

// Takes memory for `more` slots beside those that are there, where there is less: for twice the slots that there are, or for as many as are
// asked for. So the time that growing takes is constant on average, and a table holds at most twice what it needs.
fn hold<T>(slots: &mut Vec<T>, more: usize) -> Result<(), AllocError>
    requires few { vec_len slots.old + more ≤ 4294967295 }
    ensures items { slots.new.items ≡ slots.old.items }
    ensures len { vec_len slots.new ≡ vec_len slots.old }
    ensures ok { OnOk result (vec_len slots.old + more ≤ vec_capacity slots.new) }
    ensures grows { vec_capacity slots.old ≤ vec_capacity slots.new }
    ensures suffices { vec_len slots.old + more ≤ vec_capacity slots.old → vec_capacity slots.new
        ≡ vec_capacity slots.old }
    ensures bounded { vec_capacity slots.new
        ≤ max (vec_capacity slots.old) (max (2 * (vec_len slots.old + more)) 4) }
    ensures kept { OnErr result (vec_capacity slots.new ≡ vec_capacity slots.old) }
    ensures short { OnErr result (vec_capacity slots.old < vec_len slots.old + more) }
{
    let len = slots.len();
    let needed = len + more;
    if needed <= slots.capacity() {
        return Ok(());
    }
    let held = needed.max(2 * len).max(LEAST_SLOTS);
    slots.reserve_exact(held - len)
}

// Adds slots, each of which names the one before and the first of which names `next`; returns `None` if there is no memory for them.
fn add_slots<K: Copy, V: Copy, const N: usize>(
    nodes: &mut Vec<NodeData<K, V, N>>,
    count: u32,
    next: PackedNode,
    alloc: Global,
) -> Result<PackedNode, AllocError>
    requires capacity { IsLeafCapacity N }
    requires room { vec_len nodes.old + count ≤ 4294967295 }
    ensures ok { OnOk result (nodes.new.items
        ≡ nodes.old.items ++ fresh_nodes (vec_len nodes.old) count next) }
    ensures first { IfOk result (λ first. first ≡ front_of_new (vec_len nodes.old) count next) }
    ensures err { OnErr result (nodes.new.items ≡ nodes.old.items) }
    ensures memory { vec_capacity nodes.old ≤ vec_capacity nodes.new }
    ensures suffices { vec_len nodes.old + count ≤ vec_capacity nodes.old → vec_capacity nodes.new
        ≡ vec_capacity nodes.old }
    ensures bounded { vec_capacity nodes.new
        ≤ max (vec_capacity nodes.old) (max (2 * (vec_len nodes.old + count)) 4) }
    ensures kept { OnErr result (vec_capacity nodes.new ≡ vec_capacity nodes.old) }
    ensures short { OnErr result (vec_capacity nodes.old < vec_len nodes.old + count) }
{
    hold(nodes, count as usize)?;
    let mut first = next;
    for _added in 0..count {
        let mut node = NodeData::new(alloc).unwrap();
        node.make_free(first);
        first = PackedNode::some(Node::new(nodes.len() as u32));
        nodes.push_reserved(node);
    }
    Ok(first)
}
