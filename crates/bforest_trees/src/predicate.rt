//! A predicate on entries.
ghost use Rattle.std.specs.Prelude.{Bool};
ghost use Rattle.bforest_trees.specs.Retain.{Answers, MayAsk};

use std::marker::Model;

/// A question about a key and its value, which may change the value.
pub trait Predicate<K, V>: Drop {
    // Whether it may be called on this key and value.
    ghost may: { Self → K → V → Type 0 };

    // Whether a call on this key and value may return this, and leave this value and this predicate.
    ghost step: { Self → K → V → Bool → V → Self → Type 0 };

    fn ask(&mut self, key: K, value: &mut V) -> bool
        requires { may self.old key value.old }
        ensures { step self.old key value.old result value.new self.new };
}

/// A closure as a predicate.
#[derive(Drop)]
pub struct Asked<F> {
    pub predicate: F,
}

impl<F> Model for Asked<F> {
    ghost Value = { F };

    ghost view = { λ a. a.predicate };
}

impl<K, V, F: FnMut(K, &mut V) -> bool> Predicate<K, V> for Asked<F> {
    ghost may = { MayAsk F.FnMut };

    ghost step = { Answers F.FnMut };

    fn ask(&mut self, key: K, value: &mut V) -> bool {
        (self.predicate)(key, value)
    }
}
