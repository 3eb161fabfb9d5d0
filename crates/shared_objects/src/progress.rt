//! How far a task has come.
ghost use Rattle.shared_objects.specs.Rans.{StepsProgress};

use crate::locks::Locks;
use crate::noted::Noted;
use crate::recording::record_step;
use std::marker::Model;
use std::snapshot::Snapshot;
use task_core::{Step, Task};

/// What is kept of a task and its seats while these stand at a desk (`Ran::parts`): the task as it was opened, the locks, and what came of the
/// steps so far. Told of each step at the desk, it lets the three be put together again (`Ran::of`).
#[derive(Drop)]
pub struct Progress {
    pub(crate) first: Snapshot<Task>,
    pub(crate) home: Snapshot<Locks>,
    pub(crate) events: u64,
    pub(crate) stopped: bool,
    pub(crate) noted: Option<Noted>,
}

impl Model for Progress {
    ghost use Rattle.shared_objects.specs.Rans.{ProgressState};

    ghost Value = { ProgressState };

    ghost view = { λ p. record { first = p.first.value; home = p.home.value; events = p.events; stopped = p.stopped; noted = p.noted } };
}

impl Progress {
    /// Goes on with a step that the task has made, behind which its pass had seen this ticket last (`Desk::seen`).
    pub fn goes_on(&mut self, step: Step, seen: u64)
        ensures { StepsProgress step seen self.old self.new }
    {
        record_step(
            step,
            seen,
            &mut self.events,
            &mut self.stopped,
            &mut self.noted,
        );
    }
}
