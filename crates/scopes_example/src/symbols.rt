//! The symbol table.
ghost use Rattle.bforest.specs.Entries.{value_for};
ghost use Rattle.scopes_example.specs.Scopes.{HasRoomFor, HasRoomForAll, IsWithinRoom, innermost, meaning, with_all, with_definition};
ghost use Rattle.std.specs.Ordering.{nat_cmp};
ghost use Rattle.std.specs.Prelude.{IfOk, IsOk, IsTrue, OnErr, OnOk, [], drop, length, ◌<◌, ◌↔◌, ◌∷◌, ◌≡◌, ◌≤◌};

use bforest_indexed::{Maps, OutOfMemory};
use std::alloc::Global;
use std::marker::Model;

/// The definitions of names in nested scopes. Names and meanings are numbers.
///
/// Each open scope is a map of its own, by its depth. Room for all scopes is taken at the start.
#[derive(Drop)]
pub(crate) struct Symbols {
    scopes: Maps<u32, u32, ()>,
    depth: usize,
    most_scopes: usize,
    most_names: usize,
}

impl Model for Symbols {
    ghost use Rattle.scopes_example.specs.Scopes.{AreKept, Symbols, seen};

    ghost Value = { Symbols };

    ghost view = { λ s. seen s.scopes s.depth s.most_scopes s.most_names };

    ghost invariant = { λ s. AreKept s.scopes s.depth s.most_scopes s.most_names };
}

impl Symbols {
    /// A table with no scope, and with room for `most_scopes` scopes of `most_names` names each.
    pub(crate) fn new(
        alloc: Global,
        most_scopes: usize,
        most_names: usize,
    ) -> Result<Symbols, OutOfMemory>
        ensures scopes { IfOk result (λ s. s.scopes ≡ []) }
        ensures most_scopes { IfOk result (λ s. s.most_scopes ≡ most_scopes) }
        ensures most_names { IfOk result (λ s. s.most_names ≡ most_names) }
    {
        let mut scopes = Maps::new(alloc, ());
        scopes.reserve_for(most_scopes, most_names)?;
        if scopes.grow_to(most_scopes).is_err() {
            return Err(OutOfMemory::Memory);
        }
        Ok(Symbols {
            scopes,
            depth: 0,
            most_scopes,
            most_names,
        })
    }

    /// How many scopes there may be, and for how many names in each there is room.
    pub(crate) fn room(&self) -> (usize, usize)
        ensures scopes { result.0 ≡ self.now.most_scopes }
        ensures names { result.1 ≡ self.now.most_names }
    {
        (self.most_scopes, self.most_names)
    }

    /// Whether there may be one more scope.
    pub(crate) fn may_enter(&self) -> bool
        ensures may { IsTrue result ↔ (length self.now.scopes < self.now.most_scopes) }
    {
        self.depth < self.most_scopes
    }

    /// Enters a new scope. This is never refused.
    pub(crate) fn enter(&mut self)
        requires may { length self.old.scopes < self.old.most_scopes }
        ensures entered { self.new ≡ record self.old { scopes = [] ∷ self.old.scopes } }
    {
        self.depth += 1;
    }

    /// Leaves the innermost scope: all others are as they were.
    pub(crate) fn leave(&mut self)
        requires inside { 0 < length self.old.scopes }
        ensures left { self.new ≡ record self.old { scopes = drop 1 self.old.scopes } }
    {
        self.depth -= 1;
        self.scopes.clear(self.depth);
    }

    /// Defines a name in the innermost scope, and returns what it meant in that scope before.
    #[tactic(auto, using(crate::proofs::Stacks::defined, crate::proofs::Stacks::meant))]
    pub(crate) fn define(&mut self, name: u32, is: u32) -> Result<Option<u32>, OutOfMemory>
        requires inside { 0 < length self.old.scopes }
        ensures before { IfOk result
            (λ was. was ≡ value_for nat_cmp (innermost self.old.scopes) name) }
        ensures defined { OnOk result
            (self.new ≡ record self.old { scopes = with_definition self.old.scopes name is }) }
        ensures refused { OnErr result (self.new ≡ self.old) }
        ensures room { HasRoomFor self.old name → IsOk result }
    {
        self.scopes.insert(self.depth - 1, name, is)
    }

    /// The meaning of a name: that of the innermost scope that defines it.
    pub(crate) fn lookup(&self, name: u32) -> Option<u32>
        ensures meaning { result ≡ meaning self.now.scopes name }
    {
        let mut depth = self.depth;
        while 0 < depth {
            depth -= 1;
            if let Some(found) = self.scopes.get(depth, name) {
                return Some(found);
            }
        }
        None
    }

    /// Makes some definitions in the innermost scope, one after another. If one is refused, those before it are made.
    #[tactic(auto, using(crate::proofs::Stacks::outer_same, crate::proofs::Stacks::same_depth, crate::proofs::Stacks::next))]
    pub(crate) fn define_all(&mut self, definitions: &[(u32, u32)]) -> Result<(), OutOfMemory>
        requires inside { 0 < length self.old.scopes }
        ensures defined { OnOk result (self.new ≡ record self.old
            { scopes = with_all self.old.scopes definitions.now }) }
        ensures outer { record self.new { scopes = drop 1 self.new.scopes }
            ≡ record self.old { scopes = drop 1 self.old.scopes } }
        ensures deep { length self.new.scopes ≡ length self.old.scopes }
        ensures room { HasRoomForAll self.old (length definitions.now) → IsOk result }
    {
        for definition in definitions {
            self.define(definition.0, definition.1)?;
        }
        Ok(())
    }

    /// The meaning of a name in a scope of its own with some definitions. The scope is left again: then all is as it was.
    pub(crate) fn meaning_within(
        &mut self,
        definitions: &[(u32, u32)],
        name: u32,
    ) -> Result<Option<u32>, OutOfMemory>
        requires may { length self.old.scopes < self.old.most_scopes }
        ensures restored { self.new ≡ self.old }
        ensures meaning { IfOk result
            (λ found. found ≡ meaning (with_all ([] ∷ self.old.scopes) definitions.now) name) }
        ensures room { IsWithinRoom self.old → length definitions.now ≤ self.old.most_names
            → IsOk result }
    {
        self.enter();
        let defined = self.define_all(definitions);
        let found = self.lookup(name);
        self.leave();
        match defined {
            Ok(()) => Ok(found),
            Err(refused) => Err(refused),
        }
    }
}
