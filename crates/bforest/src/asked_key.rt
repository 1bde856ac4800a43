//! A closure on keys as a predicate on entries.
use bforest_core::SetValue;
use bforest_trees::Predicate;
use std::marker::Model;

/// A closure on keys as a predicate on the entries of a set.
#[derive(Drop)]
pub(crate) struct AskedKey<F> {
    pub(crate) predicate: F,
}

impl<F> Model for AskedKey<F> {
    ghost Value = { F };

    ghost view = { λ a. a.predicate };
}

impl<K, F: FnMut(K) -> bool> Predicate<K, SetValue> for AskedKey<F> {
    ghost use Rattle.bforest.specs.Set.{AnswersKey, MayAskKey};

    ghost may = { MayAskKey F.FnMut };

    ghost step = { AnswersKey F.FnMut };

    fn ask(&mut self, key: K, _value: &mut SetValue) -> bool {
        (self.predicate)(key)
    }
}
