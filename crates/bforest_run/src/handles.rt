//! The handles that lines name, of maps or of sets, and their answers to lines.
ghost use Rattle.bforest.specs.Forest.{IsLive, free_of, sizes_of, slots_of};
ghost use Rattle.bforest_calls.specs.Machine.{AreKnown, Live, State, Step, number_at};
ghost use Rattle.bforest_run.specs.Answers.{IsBadBy, Tells, TellsBy, all_orders};
ghost use Rattle.bforest_run.specs.Grammar.{Says, Spells};
ghost use Rattle.bforest_run.specs.Shown.{answer_text, told_text};
ghost use Rattle.bforest_run.specs.declared.line.Line.TheVariants.{Stat};
ghost use Rattle.std.specs.Prelude.{IfOk, IsTrue, None, length, ◌↔◌, ◌≡◌, ℕ};

use crate::engine::Engine;
use crate::line::Line;
use crate::order::ORDERS;
use crate::parse::{Spelled, line};
use crate::shown::Counts;
use crate::shown_answer::Told;
use crate::word::HANDLE_COUNT;
use bforest_calls::{Answer, Call, Collection, Known, make};
use std::alloc::{AllocError, Global};
use std::marker::Model;

/// A handle of a map or of a set: what lines ask of it beside calls.
pub(crate) trait Handle<V: Spelled>: Collection<u32, V> {
    /// An empty handle.
    fn none() -> Self
        ensures empty { Self.number result ≡ None };

    /// The height of the handle's tree, and the counts of the table.
    fn counts(&self, forest: &Self::Forest) -> Counts
        requires fits { Self.fits }
        requires live { IsLive (Self.trees forest.now) (Self.number self.now) }
        ensures levels { result.levels ≡ length (sizes_of (Self.trees forest.now) (Self.number self.now)) }
        ensures slots { result.slots ≡ slots_of (Self.trees forest.now) }
        ensures free { result.free ≡ free_of (Self.trees forest.now) };
}

/// A forest, and the handles in it that lines name.
#[derive(Drop)]
pub(crate) struct Handles<V: Spelled, T: Handle<V>> {
    pub(crate) forest: T::Forest,
    pub(crate) handles: [T; HANDLE_COUNT],
    /// Which handles are live, each with an order under which its list increases.
    pub(crate) known: Known,
}

impl<V: Spelled, T: Handle<V>> Model for Handles<V, T> {
    ghost Value = { State ℕ V };

    ghost view = { λ it. record { forest = T.trees it.forest; handles = T.numbers it.handles } };

    ghost invariant = { λ it. T.fits × AreKnown all_orders
        (record { forest = T.trees it.forest; handles = T.numbers it.handles }) it.known };
}

impl<V: Spelled, T: Handle<V>> Handles<V, T> {
    /// The answer to a line.
    fn tell(&mut self, alloc: Global, line: Line<V>) -> Result<Told<V>, AllocError>
        ensures { IfOk result (λ told. Tells T.most T.READS (answer_text V.value_text V.entry_text V.old_text)
            self.old line (told_text V.value_text V.entry_text V.old_text told) self.new) }
    {
        match line {
            Line::Made(call) => Ok(Told::Answer(self.make(alloc, call)?)),
            Line::Holds(h) => Ok(Told::Truth(self.holds(h))),
            Line::Stat(h) => Ok(self.stat(h)),
        }
    }

    /// Makes one call.
    fn make(&mut self, alloc: Global, call: Call<u32, V>) -> Result<Answer<u32, V>, AllocError>
        ensures { IfOk result (λ given. Step T.most T.READS all_orders self.old call given self.new) }
    {
        make(
            alloc,
            &call,
            &ORDERS,
            &mut self.handles,
            &mut self.forest,
            &mut self.known,
        )
    }

    /// Whether a handle is live.
    fn holds(&self, h: usize) -> bool
        ensures { IsTrue result ↔ Live self.now h }
    {
        self.handle(h).is_live(&self.forest)
    }

    /// The height of a handle's tree, and the counts of the table.
    fn stat(&self, h: usize) -> Told<V>
        ensures { Tells T.most T.READS (answer_text V.value_text V.entry_text V.old_text)
            self.now (Stat h) (told_text V.value_text V.entry_text V.old_text result) self.now }
    {
        if !self.holds(h) {
            return Told::Answer(Answer::Dead);
        }
        Told::Counts(self.handle(h).counts(&self.forest))
    }

    /// The handle with this index. A handle past the last one is empty.
    fn handle(&self, h: usize) -> T
        ensures { T.number result ≡ number_at self.now h }
    {
        match self.handles.get(h) {
            Some(handle) => handle.alias(),
            None => T::none(),
        }
    }
}

impl<V: Spelled, T: Handle<V>> Engine for Handles<V, T> {
    type Answer = Told<V>;

    ghost tells = { TellsBy T.most T.READS (answer_text V.value_text V.entry_text V.old_text)
        (Spells (Says V.inserted_of V.says_read V.act_of V.retained_of)) };

    ghost is_bad = { IsBadBy (Spells (Says V.inserted_of V.says_read V.act_of V.retained_of)) };

    fn answer(&mut self, alloc: Global, words: &[&str]) -> Result<Option<Told<V>>, AllocError> {
        let Some(line) = line(alloc, words)? else {
            return Ok(None);
        };
        Ok(Some(self.tell(alloc, line)?))
    }
}
