//! A tree of numbers in a pool of its own. Its type states that it is a tree with its keys in order, and tests loop over its calls.
ghost use Rattle.bforest_nodes.specs.Content.{IsLeafCapacity};
ghost use Rattle.bforest_core.specs.Paths.{StandingUnder};
ghost use Rattle.bforest_core.specs.Trees.{IsUnion};
ghost use Rattle.tree_cases.specs.Ordered.{CanGoOn, IsOrderedAt};
ghost use Rattle.std.specs.Prelude.{IfOk, IfSome, OnErr, ℕ, ◌<◌, ◌≡◌, ◌≢◌};

use crate::plain::Plain;
use bforest_core::{Node, NodePool, OutOfMemory, Path};
use std::alloc::{AllocError, Global};
use std::marker::Model;
use std::process::Abort;

/// A pool of entries of numbers.
type Pool<const N: usize> = NodePool<u32, u32, N>;

/// The part of a node that is shown.
#[derive(Clone, Copy, Debug, PartialEq, Eq)]
pub(crate) enum Detail {
    /// The keys of a node.
    Keys,
    /// The number and the keys of a node.
    Nodes,
}

/// A tree of entries of numbers, which may be empty, and nothing else in its pool.
#[derive(Drop)]
pub(crate) struct Tree<const N: usize> {
    pool: NodePool<u32, u32, N>,
    root: Option<Node>,
}

impl<const N: usize> Model for Tree<N> {
    ghost use Rattle.bforest_core.specs.Table.{Table};
    ghost use Rattle.tree_cases.specs.Ordered.{IsOrdered};
    ghost use Rattle.std.specs.Prelude.{ℕ, Option};

    ghost Value = { Table ℕ ℕ × Option ℕ };

    ghost view = { λ t. (t.pool, t.root) };

    ghost invariant = { λ t. IsOrdered N t.pool t.root };
}

impl<const N: usize> Tree<N> {
    /// An empty tree, in a pool of at most `limit` slots.
    pub(crate) fn new(alloc: Global, limit: u32) -> Self
        requires { IsLeafCapacity N }
    {
        Tree {
            pool: NodePool::with_limit(alloc, limit),
            root: None,
        }
    }

    /// Inserts an entry, or replaces the value where the key is present.
    pub(crate) fn insert(&mut self, key: u32, value: u32) -> Result<(), OutOfMemory> {
        let root = match self.root {
            Some(root) => put(&mut self.pool, root, key, value)?,
            None => plant(&mut self.pool, key, value)?,
        };
        self.root = Some(root);
        Ok(())
    }

    /// Removes a key. Returns its value, and the entry where the path stands then.
    pub(crate) fn remove(&mut self, key: u32) -> (Option<u32>, Option<(u32, u32)>) {
        let Some(root) = self.root else {
            return (None, None);
        };
        let (root, value, entry) = cut(&mut self.pool, root, key);
        self.root = root;
        (value, entry)
    }

    /// Removes the tree.
    pub(crate) fn end(&mut self) {
        if let Some(root) = self.root {
            self.pool.free_tree(root);
            self.root = None;
        }
    }

    /// Adds one to the value of a key, and returns whether the key is present.
    pub(crate) fn count(&mut self, key: u32) -> bool {
        match self.root {
            Some(root) => count_at(&mut self.pool, root, key),
            None => false,
        }
    }

    /// The value of a key.
    pub(crate) fn get(&self, key: u32) -> Option<u32> {
        let mut path = Path::default();
        path.find(key, self.root?, &self.pool, &())
    }

    /// The number of the leaf where a search for a key ends, and its place there.
    pub(crate) fn position(&self, key: u32) -> Option<(u32, usize)> {
        let mut path = Path::default();
        path.find(key, self.root?, &self.pool, &());
        place(&path)
    }

    /// Whether a search for `key`, started at the first entry not less than `from`, ends where a search from the root does.
    pub(crate) fn finds_from(&self, from: u32, key: u32) -> bool {
        let Some(root) = self.root else {
            return true;
        };
        let mut path = Path::default();
        seek(&mut path, root, &self.pool, from);
        let value = path.find_here(key, root, &self.pool, &());
        value == self.get(key) && place(&path) == self.position(key)
    }

    /// The root's number.
    pub(crate) fn root(&self) -> Option<u32> {
        Some(self.root?.number())
    }

    /// The height of the tree.
    pub(crate) fn levels(&self) -> usize {
        match self.root {
            Some(root) => self.pool.levels(root),
            None => 0,
        }
    }

    /// The number of slots of the pool.
    pub(crate) fn slots(&self) -> u32 {
        self.pool.slots()
    }

    /// The number of free slots of the pool.
    pub(crate) fn free(&self) -> u32 {
        self.pool.free()
    }

    /// Whether a root has this number.
    pub(crate) fn is_root(&self, number: u32) -> bool {
        number < u32::MAX && self.pool.is_root(Node::new(number))
    }

    /// The number of nodes that an insertion takes, if the key is absent.
    pub(crate) fn need(&self, key: u32) -> Option<u32> {
        need(&self.pool, self.root?, key)
    }

    /// The first entry whose key is not less than `key`.
    pub(crate) fn entry_from(&self, key: u32) -> Option<(u32, u32)> {
        entry_from(&self.pool, self.root?, key)
    }

    /// The entry behind that of a key, if the key is present.
    pub(crate) fn entry_after(&self, key: u32) -> Option<(u32, u32)> {
        entry_after(&self.pool, self.root?, key)
    }

    /// The entry in front of that of a key, if the key is present.
    pub(crate) fn entry_before(&self, key: u32) -> Option<(u32, u32)> {
        entry_before(&self.pool, self.root?, key)
    }

    /// Writes the keys of the nodes, level by level, the root first: `40 / 10 20 30 | 40 50 60 70`.
    pub(crate) fn show(
        &self,
        alloc: Global,
        detail: Detail,
        out: &mut String,
    ) -> Result<(), AllocError> {
        let mut row = Vec::new(alloc);
        if let Some(root) = self.root {
            row.push(root)?;
        }
        for level in 0..self.levels() {
            if level > 0 {
                out.push_str(" /")?;
                row = row_below(&self.pool, alloc, &row)?;
            }
            push_row(out, &self.pool, detail, &row)?;
        }
        Ok(())
    }

    /// Writes the numbers of the free nodes: `/ free #3`.
    pub(crate) fn show_free(&self, out: &mut String) -> Result<(), AllocError> {
        out.push_str(" / free")?;
        for number in 0..self.slots() {
            if is_free(&self.pool, number) {
                write!(out, " #{number}")?;
            }
        }
        Ok(())
    }

    /// Whether the nodes have the sizes of the plain program's nodes, level by level.
    pub(crate) fn has_sizes(&self, alloc: Global, plain: &Plain) -> Result<bool, AllocError> {
        if self.levels() != plain.levels() {
            return Ok(false);
        }
        let mut row = Vec::new(alloc);
        if let Some(root) = self.root {
            row.push(root)?;
        }
        for height in (0..plain.levels()).rev() {
            if !are_sizes(&self.pool, &row, plain.level(height)) {
                return Ok(false);
            }
            row = row_below(&self.pool, alloc, &row)?;
        }
        Ok(true)
    }

    /// Whether each of these entries is found by its key.
    pub(crate) fn finds(&self, list: &[(u32, u32)]) -> bool {
        for (key, value) in list {
            if self.get(*key) != Some(*value) {
                return false;
            }
        }
        true
    }

    /// Whether steps from the first entry on yield these entries, and then `None`.
    pub(crate) fn gives(&self, list: &[(u32, u32)]) -> bool {
        let (Some(root), [head, rest @ ..]) = (self.root, list) else {
            return self.root.is_none() && list.is_empty();
        };
        let mut path = Path::default();
        if first(&mut path, root, &self.pool) != *head {
            return false;
        }
        'steps: for entry in rest {
            if next(&mut path, &self.pool) != Some(*entry) {
                return false;
            }
        }
        next(&mut path, &self.pool).is_none() && next(&mut path, &self.pool).is_none()
    }

    /// Whether steps from the end back yield these entries, and then `None`.
    pub(crate) fn gives_back(&self, list: &[(u32, u32)]) -> bool {
        let Some(root) = self.root else {
            return list.is_empty();
        };
        let mut path = Path::default();
        'steps: for at in 0..list.len() {
            if prev(&mut path, root, &self.pool) != Some(list[list.len() - 1 - at]) {
                return false;
            }
        }
        prev(&mut path, root, &self.pool).is_none()
    }
}

// Makes a tree of one entry, and returns its root.
fn plant<const N: usize>(pool: &mut Pool<N>, key: u32, value: u32) -> Result<Node, OutOfMemory>
    requires union { IsUnion N pool.old }
    ensures planted { IfOk result (λ root. IsUnion N pool.new × IsOrderedAt pool.new root) }
    ensures refused { OnErr result (pool.new ≡ pool.old) }
{
    pool.alloc_node(key, value)
}

// Inserts an entry into a tree, or replaces the value where the key is present. Returns the root.
fn put<const N: usize>(
    pool: &mut Pool<N>,
    root: Node,
    key: u32,
    value: u32,
) -> Result<Node, OutOfMemory>
    requires union { IsUnion N pool.old }
    requires ordered { IsOrderedAt pool.old root }
    ensures put { IfOk result (λ root'. IsUnion N pool.new × IsOrderedAt pool.new root') }
    ensures refused { OnErr result (pool.new ≡ pool.old) }
{
    let mut path = Path::default();
    if path.find(key, root, pool, &()).is_some() {
        path.set_value(value, pool);
        Ok(root)
    } else {
        path.insert(key, value, pool)
    }
}

// Removes a key from a tree. Returns the root, or `None` where no entry is left, the key's value, and the next entry.
fn cut<const N: usize>(
    pool: &mut Pool<N>,
    root: Node,
    key: u32,
) -> (Option<Node>, Option<u32>, Option<(u32, u32)>)
    requires union { IsUnion N pool.old }
    requires ordered { IsOrderedAt pool.old root }
    ensures union { IsUnion N pool.new }
    ensures ordered { IfSome result.0 (λ root'. IsOrderedAt pool.new root') }
{
    let mut path = Path::default();
    let Some(value) = path.find(key, root, pool, &()) else {
        return (Some(root), None, None);
    };
    let root = path.remove(pool);
    (root, Some(value), path.entry(pool))
}

// Adds one to the value of a key, and returns whether the key is present.
fn count_at<const N: usize>(pool: &mut Pool<N>, root: Node, key: u32) -> bool
    requires union { IsUnion N pool.old }
    requires ordered { IsOrderedAt pool.old root }
    ensures union { IsUnion N pool.new }
    ensures ordered { IsOrderedAt pool.new root }
{
    let mut path = Path::default();
    match path.find(key, root, pool, &()) {
        Some(value) => {
            *pool.path_value_mut(&path) = value.wrapping_add(1);
            true
        }
        None => false,
    }
}

// The keys of a node; none where it is free.
fn keys<const N: usize>(pool: &Pool<N>, node: Node) -> &[u32] {
    if node.number() >= pool.slots() {
        return &[];
    }
    let content = pool.node(node);
    if content.is_inner() {
        content.unwrap_inner().0
    } else if content.is_free() {
        &[]
    } else {
        content.unwrap_leaf().0
    }
}

// Whether the slot of a number is free.
fn is_free<const N: usize>(pool: &Pool<N>, number: u32) -> bool {
    number < pool.slots() && pool.node(Node::new(number)).is_free()
}

// Writes the nodes of a row.
fn push_row<const N: usize>(
    out: &mut String,
    pool: &Pool<N>,
    detail: Detail,
    row: &[Node],
) -> Result<(), AllocError> {
    for (index, node) in row.iter().enumerate() {
        if index > 0 {
            out.push_str(" |")?;
        }
        if detail == Detail::Nodes {
            write!(out, " #{}", node.number())?;
        }
        for key in keys(pool, *node) {
            write!(out, " {key}")?;
        }
    }
    Ok(())
}

// The children of the nodes of a row, from left to right.
fn row_below<const N: usize>(
    pool: &Pool<N>,
    alloc: Global,
    row: &[Node],
) -> Result<Vec<Node>, AllocError> {
    let mut below = Vec::new(alloc);
    for node in row {
        for index in 0..8 {
            if let Some(child) = child(pool, *node, index) {
                below.push(child)?;
            }
        }
    }
    Ok(below)
}

// Whether the nodes of a row have these sizes.
fn are_sizes<const N: usize>(pool: &Pool<N>, row: &[Node], sizes: &[usize]) -> bool {
    for (node, wanted) in row.iter().zip(sizes) {
        if size(pool, *node) != *wanted {
            return false;
        }
    }
    row.len() == sizes.len()
}

// The number of entries or children of a node.
fn size<const N: usize>(pool: &Pool<N>, node: Node) -> usize {
    let keys = keys(pool, node).len();
    match child(pool, node, 0) {
        Some(_) => keys.saturating_add(1),
        None => keys,
    }
}

// The child of an inner node at an index, if there is one.
fn child<const N: usize>(pool: &Pool<N>, node: Node, index: usize) -> Option<Node> {
    if node.number() >= pool.slots() {
        return None;
    }
    let content = pool.node(node);
    if content.is_inner() {
        content.unwrap_inner().1.get(index).copied()
    } else {
        None
    }
}

// Goes to a tree's first entry.
fn first<const N: usize>(path: &mut Path<u32, u32, N>, root: Node, pool: &Pool<N>) -> (u32, u32)
    requires union { IsUnion N pool.now }
    requires ordered { IsOrderedAt pool.now root }
    ensures { CanGoOn pool.now path.new }
{
    path.first(root, pool)
}

// Goes to the next entry.
fn next<const N: usize>(path: &mut Path<u32, u32, N>, pool: &Pool<N>) -> Option<(u32, u32)>
    requires union { IsUnion N pool.now }
    requires stands { CanGoOn pool.now path.old }
    ensures { CanGoOn pool.now path.new }
{
    path.next(pool)
}

// Goes to the previous entry.
fn prev<const N: usize>(
    path: &mut Path<u32, u32, N>,
    root: Node,
    pool: &Pool<N>,
) -> Option<(u32, u32)>
    requires union { IsUnion N pool.now }
    requires ordered { IsOrderedAt pool.now root }
    requires stands { StandingUnder pool.now root path.old }
    ensures { StandingUnder pool.now root path.new }
{
    path.prev(root, pool)
}

// The number of a path's leaf, and the path's index in it.
fn place<const N: usize>(path: &Path<u32, u32, N>) -> Option<(u32, usize)> {
    let (leaf, index) = path.leaf_pos()?;
    Some((leaf.number(), index))
}

// Goes to the first entry whose key is not less than `key`, or to the end.
fn seek<const N: usize>(path: &mut Path<u32, u32, N>, root: Node, pool: &Pool<N>, key: u32)
    requires union { IsUnion N pool.now }
    requires ordered { IsOrderedAt pool.now root }
    ensures { StandingUnder pool.now root path.new }
{
    if path.find(key, root, pool, &()).is_none() {
        path.normalize(pool);
    }
}

// The number of nodes that an insertion takes, if the key is absent.
fn need<const N: usize>(pool: &Pool<N>, root: Node, key: u32) -> Option<u32>
    requires union { IsUnion N pool.now }
    requires ordered { IsOrderedAt pool.now root }
{
    let mut path = Path::default();
    match path.find(key, root, pool, &()) {
        Some(_) => None,
        None => Some(path.needed(pool)),
    }
}

// The first entry whose key is not less than `key`.
fn entry_from<const N: usize>(pool: &Pool<N>, root: Node, key: u32) -> Option<(u32, u32)>
    requires union { IsUnion N pool.now }
    requires ordered { IsOrderedAt pool.now root }
{
    let mut path = Path::default();
    seek(&mut path, root, pool, key);
    path.entry(pool)
}

// The entry behind that of a key, if the key is present.
fn entry_after<const N: usize>(pool: &Pool<N>, root: Node, key: u32) -> Option<(u32, u32)>
    requires union { IsUnion N pool.now }
    requires ordered { IsOrderedAt pool.now root }
{
    let mut path = Path::default();
    path.find(key, root, pool, &())?;
    path.next(pool)
}

// The entry in front of that of a key, if the key is present.
fn entry_before<const N: usize>(pool: &Pool<N>, root: Node, key: u32) -> Option<(u32, u32)>
    requires union { IsUnion N pool.now }
    requires ordered { IsOrderedAt pool.now root }
{
    let mut path = Path::default();
    path.find(key, root, pool, &())?;
    path.prev(root, pool)
}
