//! Lists of a fixed room.
ghost use Rattle.std.specs.Prelude.{◌≡◌, ◌++◌, ◌+◌, ◌<◌, ◌≤◌, ◌↔◌, [], ◌∷◌, All, IsNone, length, map, option_to_list, take};
ghost use Rattle.bio_workers.specs.Visits.{IsVisitAt};
ghost use Rattle.bio_workers.specs.declared.work.WorkOutcome.TheVariants.{Over};

use crate::bell::Bell;
use crate::visit::visit;
use crate::work::{Work, WorkOutcome};
use arrayvec::ArrayVec;
use std::marker::Model;
use std::sync::Wait;

/// The most tasks that a run has: eight writers, a rescuer or a completer for each of 32 devices, and the keeper of rounds.
pub const MOST_TASKS: usize = 41;

/// A list of tasks, as many as a run has at the most, so that dealing takes no memory. Contracts see the list.
#[derive(Drop)]
pub struct Few<T: Drop> {
    // All of them are there. An unused place of the vector holds a blank, which a task has none of.
    slots: ArrayVec<Option<T>, MOST_TASKS>,
}

impl<T: Drop> Model for Few<T> {
    ghost use Rattle.std.specs.Prelude.{List, All};
    ghost use Rattle.bio_workers.specs.Somes.{somes, HoldsOne};

    ghost Value = { List T };

    ghost view = { λ f. somes f.slots.items };

    ghost invariant = { λ f. All HoldsOne f.slots.items };
}

impl<T: Drop> Few<T> {
    /// No task.
    pub fn new() -> Few<T>
        ensures { result ≡ [] }
    {
        Few {
            slots: ArrayVec::new(),
        }
    }

    /// How many tasks there are.
    pub fn len(&self) -> usize
        ensures same { result ≡ length self.now }
        ensures few { result ≤ MOST_TASKS }
    {
        self.slots.len()
    }

    /// Adds a task.
    pub fn push(&mut self, task: T)
        requires { length self.old < MOST_TASKS }
        ensures { self.new ≡ self.old ++ task ∷ [] }
    {
        self.slots.push(Some(task));
    }

    /// Takes the last task. `None` exactly where there is none.
    pub fn pop(&mut self) -> Option<T>
        ensures last { self.old ≡ self.new ++ option_to_list result }
        ensures none { IsNone result ↔ (self.old ≡ []) }
    {
        match self.slots.pop() {
            Some(slot) => slot,
            None => None,
        }
    }

    // Visits the task at a place, where it stays. Rings behind each event.
    pub(crate) fn visit_at<R: Wait, W: Work<T>>(
        &mut self,
        rt: &R,
        work: &W,
        bell: &Bell,
        at: usize,
    ) -> WorkOutcome
        requires at { at < length self.old }
        requires can { All (W.can work.now) (map W.key self.old) }
        ensures keys { map W.key self.new ≡ map W.key self.old }
        ensures over { result ≡ Over → All W.is_over (take at self.old) → All W.is_over (take (at + 1) self.new) }
        ensures visit { IsVisitAt W.goes at result self.old self.new }
    {
        let Some(slot) = self.slots.get_mut(at) else {
            unreachable!()
        };
        let Some(task) = slot else { unreachable!() };
        visit(rt, work, bell, task)
    }
}
