//! Two nodes of numbers, without a tree.
ghost use Rattle.bforest_nodes.specs.Content.{IsFree, IsInner, IsLeaf};
ghost use Rattle.std.specs.Prelude.{IfOk, ◌<◌};

use crate::words::{Stop, keys, number};
use bforest_nodes::{Node, NodeData, PackedNode, Removed};
use std::alloc::Global;
use std::mem::swap;

/// A node of numbers, with the capacity of maps.
type Numbers = NodeData<u32, u32, 7>;

/// The node of the operations, and its right sibling.
#[derive(Drop)]
pub(crate) struct Pair {
    node: NodeData<u32, u32, 7>,
    other: NodeData<u32, u32, 7>,
}

impl Pair {
    /// Two free nodes.
    pub(crate) fn new(alloc: Global) -> Self {
        Pair {
            node: NodeData::new(alloc).unwrap(),
            other: NodeData::new(alloc).unwrap(),
        }
    }

    /// Makes an operation, and writes its answer. An operation that writes answers the content of the nodes.
    pub(crate) fn answer(
        &mut self,
        alloc: Global,
        words: &[&str],
        out: &mut String,
    ) -> Result<(), Stop> {
        match words {
            ["leaf", words @ ..] => write_leaf(&mut self.node, &keys(alloc, words)?)?,
            ["inner", words @ ..] => write_inner(&mut self.node, &keys(alloc, words)?)?,
            ["free", next] => self.node.make_free(packed(next)?),
            ["other"] => swap(&mut self.node, &mut self.other),
            ["split", index] => return split(self, number(index)? as usize, out),
            ["balance", key] => return balance(self, number(key)?, out),
            _ => return one(&mut self.node, words, out),
        }
        self.show(out)
    }

    // Writes the content of both nodes.
    fn show(&self, out: &mut String) -> Result<(), Stop> {
        show(&self.node, out)?;
        out.push_str(" |")?;
        show(&self.other, out)
    }
}

// Splits the full node, for an insertion at an index, and moves its right half into the other.
fn split(pair: &mut Pair, index: usize, out: &mut String) -> Result<(), Stop> {
    if pair.node.is_free() || !pair.node.is_full() {
        return Err(Stop::Bad);
    }
    let halves = pair.node.split(index, &mut pair.other);
    let (left, right, key) = (halves.lhs_entries, halves.rhs_entries, halves.crit_key);
    write!(out, "{left} and {right} from {key}:")?;
    pair.show(out)
}

// Rebalances the underflowed node with the other, whose first key is given.
fn balance(pair: &mut Pair, key: u32, out: &mut String) -> Result<(), Stop> {
    if pair.node.is_free()
        || pair.other.is_free()
        || pair.node.is_inner() != pair.other.is_inner()
    {
        return Err(Stop::Bad);
    }
    let most = if pair.node.is_inner() { 8 } else { 7 };
    if pair.node.entries() == 0
        || pair.other.entries() == 0
        || pair.node.entries() > (most - 1) / 2
    {
        return Err(Stop::Bad);
    }
    match pair.node.balance(key, &mut pair.other) {
        Some(key) => {
            write!(out, "{key} between:")?;
            pair.show(out)
        }
        None => {
            out.push_str("one:")?;
            show(&pair.other, out)
        }
    }
}

// Makes an operation on one node, and writes its answer.
fn one(node: &mut Numbers, words: &[&str], out: &mut String) -> Result<(), Stop> {
    if node.is_free() {
        free(node, words, out)
    } else if node.is_inner() {
        inner(node, words, out)
    } else {
        leaf(node, words, out)
    }
}

// Makes an operation on a free node, and writes its answer.
fn free(node: &Numbers, words: &[&str], out: &mut String) -> Result<(), Stop>
    requires { IsFree node.now }
{
    match words {
        ["kind"] => Ok(out.push_str("free")?),
        ["next"] => match node.next_free().expand() {
            Some(next) => {
                let next = next.number();
                Ok(write!(out, "{next}")?)
            }
            None => Ok(out.push_str("none")?),
        },
        _ => Err(Stop::Bad),
    }
}

// Makes an operation on an inner node, and writes its answer.
fn inner(node: &mut Numbers, words: &[&str], out: &mut String) -> Result<(), Stop>
    requires { IsInner node.old }
{
    match words {
        ["child", index] => {
            let child = node.child(within(index, node.entries())?).number();
            Ok(write!(out, "{child}")?)
        }
        ["separator", index] => {
            let key = node.separator(within(index, node.entries() - 1)?);
            Ok(write!(out, "{key}")?)
        }
        ["separate", index, key] => {
            node.set_separator(within(index, node.entries() - 1)?, number(key)?);
            show(node, out)
        }
        ["add", index, key, child] => {
            let at = within(index, node.entries())?;
            let is_in = node.try_inner_insert(at, number(key)?, named(child)?);
            tell(is_in, node, out)
        }
        ["take", index] => {
            let left = node.inner_remove(within(index, node.entries())?);
            tell_left(left, node, out)
        }
        _ => used(node, words, out),
    }
}

// Makes an operation on a leaf, and writes its answer.
fn leaf(node: &mut Numbers, words: &[&str], out: &mut String) -> Result<(), Stop>
    requires { IsLeaf node.old }
{
    match words {
        ["entry", index] => {
            let (key, value) = node.entry(within(index, node.entries())?);
            Ok(write!(out, "{key}:{value}")?)
        }
        ["first"] if node.entries() > 0 => {
            let key = node.leaf_crit_key();
            Ok(write!(out, "{key}")?)
        }
        ["write", index, value] => {
            *node.value_mut(within(index, node.entries())?) = number(value)?;
            show(node, out)
        }
        ["add", index, key, value] => {
            let at = within(index, node.entries().saturating_add(1))?;
            let is_in = node.try_leaf_insert(at, number(key)?, number(value)?);
            tell(is_in, node, out)
        }
        ["take", index] => {
            let left = node.leaf_remove(within(index, node.entries())?);
            tell_left(left, node, out)
        }
        _ => used(node, words, out),
    }
}

// Makes an operation on a leaf or an inner node, and writes its answer.
fn used(node: &Numbers, words: &[&str], out: &mut String) -> Result<(), Stop>
    requires { ¬ IsFree node.now }
{
    match words {
        ["kind"] => {
            let kind = if node.is_inner() { "inner" } else { "leaf" };
            let fill = if node.is_full() { "full" } else { "not full" };
            let entries = node.entries();
            Ok(write!(out, "{kind} of {entries}, {fill}")?)
        }
        _ => Err(Stop::Bad),
    }
}

// Makes the node a leaf of these keys, each of whose values is its key.
fn write_leaf(node: &mut Numbers, keys: &[u32]) -> Result<(), Stop> {
    let [first, rest @ ..] = keys else {
        return Err(Stop::Bad);
    };
    node.leaf(*first, *first);
    for key in rest {
        if node.is_free() || node.is_inner() {
            return Err(Stop::Bad);
        }
        if !node.try_leaf_insert(node.entries(), *key, *key) {
            return Err(Stop::Bad);
        }
    }
    Ok(())
}

// Makes the node an inner node of a child, a key, a child and so on.
fn write_inner(node: &mut Numbers, words: &[u32]) -> Result<(), Stop> {
    let [left, key, right, rest @ ..] = words else {
        return Err(Stop::Bad);
    };
    node.inner(numbered(*left)?, *key, numbered(*right)?);
    for pair in rest.chunks_exact(2) {
        if !node.is_inner() {
            return Err(Stop::Bad);
        }
        let [key, child] = pair else {
            return Err(Stop::Bad);
        };
        if !node.try_inner_insert(node.entries() - 1, *key, numbered(*child)?) {
            return Err(Stop::Bad);
        }
    }
    Ok(())
}

// Writes the content of a node: ` 1:1 2:2`, ` 0 (10) 1 (11) 2`, or ` free`.
fn show(node: &Numbers, out: &mut String) -> Result<(), Stop> {
    if node.is_free() {
        Ok(out.push_str(" free")?)
    } else if node.is_inner() {
        let (keys, children) = node.unwrap_inner();
        show_inner(keys, children, out)
    } else {
        let (keys, vals) = node.unwrap_leaf();
        show_leaf(keys, vals, out)
    }
}

// Writes children with the keys between them.
fn show_inner(keys: &[u32], children: &[Node], out: &mut String) -> Result<(), Stop> {
    for (index, child) in children.iter().enumerate() {
        if let Some(key) = index.checked_sub(1).and_then(|at| keys.get(at)) {
            write!(out, " ({key})")?;
        }
        let child = child.number();
        write!(out, " {child}")?;
    }
    Ok(())
}

// Writes entries.
fn show_leaf(keys: &[u32], vals: &[u32], out: &mut String) -> Result<(), Stop> {
    for (key, value) in keys.iter().zip(vals) {
        write!(out, " {key}:{value}")?;
    }
    Ok(())
}

// Writes an answer, and the content of the node.
fn tell(is_in: bool, node: &Numbers, out: &mut String) -> Result<(), Stop> {
    write!(out, "{is_in}:")?;
    show(node, out)
}

// Writes the answer of a removal, and the content of the node.
fn tell_left(left: Removed, node: &Numbers, out: &mut String) -> Result<(), Stop> {
    write!(out, "{left:?}:")?;
    show(node, out)
}

// An index that is less than the bound.
fn within(word: &str, bound: usize) -> Result<usize, Stop>
    ensures { IfOk result (λ index. index < bound) }
{
    let index = number(word)? as usize;
    if index < bound {
        Ok(index)
    } else {
        Err(Stop::Bad)
    }
}

// The node of a number.
fn named(word: &str) -> Result<Node, Stop> {
    numbered(number(word)?)
}

// The node of a number.
fn numbered(number: u32) -> Result<Node, Stop> {
    if number == u32::MAX {
        return Err(Stop::Bad);
    }
    Ok(Node::new(number))
}

// The node of a number, or `none`.
fn packed(word: &str) -> Result<PackedNode, Stop> {
    match word {
        "none" => Ok(PackedNode::none()),
        _ => Ok(PackedNode::some(named(word)?)),
    }
}
