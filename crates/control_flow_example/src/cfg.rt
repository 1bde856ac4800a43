//! The control flow graph: for each block the set of its successors, and the map of its predecessors.
ghost use Rattle.control_flow_example.specs.Graphs.{IsMirrored, blocks, branch_of, redirected, split_in, with_edge, without_edge};
ghost use Rattle.std.specs.Option.{is_some};
ghost use Rattle.std.specs.Prelude.{IfOk, OnErr, OnOk, [], replicate, ◌<◌, ◌^◌, ◌≡◌};

use bforest_indexed::{Maps, OutOfMemory, Sets};
use std::alloc::{AllocError, Global};
use std::marker::Model;

/// Blocks that are numbered from 0, and the branches that lead from block to block.
#[derive(Drop)]
pub(crate) struct Cfg {
    successors: Sets<u32, ()>,
    predecessors: Maps<u32, u32, ()>,
}

impl Model for Cfg {
    ghost use Rattle.control_flow_example.specs.Graphs.{AreKept, Graph, graph_of};

    ghost Value = { Graph };

    ghost view = { λ c. graph_of c.successors c.predecessors };

    ghost invariant = { λ c. AreKept c.successors c.predecessors };
}

impl Cfg {
    /// A graph of `count` blocks, none of which leads to another.
    pub(crate) fn new(alloc: Global, count: usize) -> Result<Cfg, AllocError>
        ensures successors { IfOk result (λ c. c.successors ≡ replicate count []) }
        ensures predecessors { IfOk result (λ c. c.predecessors ≡ replicate count []) }
    {
        let mut successors = Sets::new(alloc, ());
        let mut predecessors = Maps::new(alloc, ());
        successors.grow_to(count)?;
        predecessors.grow_to(count)?;
        Ok(Cfg {
            successors,
            predecessors,
        })
    }

    /// The number of blocks.
    pub(crate) fn blocks(&self) -> usize
        ensures count { result ≡ blocks self.now }
        ensures mirrored { IsMirrored self.now }
    {
        self.predecessors.len()
    }

    /// The branch by which a block leads to another.
    pub(crate) fn branch(&self, from: u32, to: u32) -> Option<u32>
        ensures { result ≡ branch_of self.now from to }
    {
        if to as usize >= self.predecessors.len() {
            return None;
        }
        self.predecessors.get(to as usize, from)
    }

    /// Whether a block leads to another, by its successors.
    pub(crate) fn leads(&self, from: u32, to: u32) -> bool
        requires { from < blocks self.now }
        ensures { result ≡ is_some (branch_of self.now from to) }
    {
        self.successors.contains(from as usize, to)
    }

    /// Adds an edge, or gives it another branch.
    pub(crate) fn add_edge(&mut self, from: u32, branch: u32, to: u32) -> Result<(), OutOfMemory>
        requires from { from < blocks self.old }
        requires to { to < blocks self.old }
        ensures added { OnOk result (self.new ≡ with_edge self.old from branch to) }
        ensures refused { OnErr result (self.new ≡ self.old) }
        ensures same_blocks { blocks self.new ≡ blocks self.old }
    {
        let levels = self.successors.levels(from as usize);
        self.successors.reserve_nodes(levels as u32 + 1)?;
        self.predecessors.insert(to as usize, from, branch)?;
        // The nodes that this insertion needs are free.
        self.successors.insert(from as usize, to).unwrap();
        Ok(())
    }

    /// Removes an edge, if it is present.
    pub(crate) fn remove_edge(&mut self, from: u32, to: u32)
        requires from { from < blocks self.old }
        requires to { to < blocks self.old }
        ensures removed { self.new ≡ without_edge self.old from to }
        ensures same_blocks { blocks self.new ≡ blocks self.old }
    {
        self.successors.remove(from as usize, to);
        self.predecessors.remove(to as usize, from);
    }

    /// Moves the branch of an edge to another, new edge; the old edge is removed.
    pub(crate) fn redirect(&mut self, old: (u32, u32), new: (u32, u32)) -> Result<(), OutOfMemory>
        requires old_from { old.0 < blocks self.old }
        requires old_to { old.1 < blocks self.old }
        requires new_from { new.0 < blocks self.old }
        requires new_to { new.1 < blocks self.old }
        ensures led { OnOk result
            (self.new ≡ redirected self.old old new (branch_of self.old old.0 old.1)) }
        ensures refused { OnErr result (self.new ≡ self.old) }
        ensures same_blocks { blocks self.new ≡ blocks self.old }
    {
        if let Some(branch) = self.branch(old.0, old.1) {
            self.add_edge(new.0, branch, new.1)?;
            self.remove_edge(old.0, old.1);
        }
        Ok(())
    }

    /// Splits a block: its edges are moved to its tail, another block, and a branch leads there. If it fails, some edges may be moved
    /// already.
    pub(crate) fn split(&mut self, block: u32, branch: u32, tail: u32) -> Result<(), OutOfMemory>
        requires block { block < blocks self.old }
        requires tail { tail < blocks self.old }
        requires few { blocks self.old < 2 ^ 32 }
        ensures split { OnOk result (self.new ≡ split_in self.old block branch tail) }
        ensures same_blocks { blocks self.new ≡ blocks self.old }
    {
        for to in 0..self.blocks() as u32 {
            self.redirect((block, to), (tail, to))?;
        }
        self.add_edge(block, branch, tail)
    }
}
