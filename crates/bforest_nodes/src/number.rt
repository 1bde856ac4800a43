//! A node's number, and an optional number in one word.
ghost use Rattle.std.specs.Prelude.{◌≡◌, ◌<◌, ◌↔◌, IsTrue, IsNone, None, Some};

use std::marker::Model;

/// The number of a node in its table: at most 4294967294, since 4294967295 stands for no node.
#[derive(Clone, Copy, PartialEq, Eq)]
pub struct Node {
    number: u32,
}

impl Model for Node {
    ghost use Rattle.std.specs.Prelude.{ℕ, ◌<◌};

    ghost Value = { ℕ };

    ghost view = { λ a. a.number };

    ghost invariant = { λ a. a.number < 4294967295 };

    ghost inverse = { λ n. record { number = n } };
}

impl Node {
    /// The node of this number.
    pub fn new(number: u32) -> Self
        requires below { number < 4294967295 }
        ensures number { result ≡ number }
    {
        Node { number }
    }

    /// The number of the node.
    pub fn number(self) -> u32
        ensures value { result ≡ self }
        ensures below { result < 4294967295 }
    {
        self.number
    }
}

/// An optional node, in 32 bits.
#[derive(Clone, Copy, PartialEq, Eq)]
pub struct PackedNode {
    raw: u32,
}

impl Model for PackedNode {
    ghost use Rattle.std.specs.Prelude.{ℕ, ◌≤◌, Option};
    ghost use Rattle.std.proofs.Common.{ap};
    ghost use Rattle.bforest_nodes.specs.Number.{unpacked, packed, packed-unpacked};

    ghost Value = { Option ℕ };

    ghost view = { λ a. unpacked a.raw };

    ghost invariant = { λ a. a.raw ≤ 4294967295 };

    ghost inverse = { λ o. record { raw = packed o } };

    ghost inverse_ok = { λ a h. ap (λ n. record { raw = n }) (packed-unpacked a.raw) };
}

impl PackedNode {
    /// No node.
    pub fn none() -> Self
        ensures none { result ≡ None }
    {
        PackedNode { raw: u32::MAX }
    }

    /// This node.
    pub fn some(node: Node) -> Self
        ensures node { result ≡ Some node }
    {
        PackedNode { raw: node.number() }
    }

    /// The node, if there is one.
    pub fn expand(self) -> Option<Node>
        ensures value { result ≡ self }
    {
        if self.raw == u32::MAX {
            None
        } else {
            Some(Node::new(self.raw))
        }
    }

    /// Whether there is no node.
    pub fn is_none(self) -> bool
        ensures none { IsTrue result ↔ IsNone self }
    {
        self.raw == u32::MAX
    }

    /// Removes the node and returns it, if there is one.
    pub fn take(&mut self) -> Option<Node>
        ensures value { result ≡ self.old }
        ensures after { self.new ≡ None }
    {
        let node = self.expand();
        *self = PackedNode::none();
        node
    }
}
