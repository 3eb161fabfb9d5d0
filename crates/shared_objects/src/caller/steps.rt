//! Steps of a task that calls.
ghost use Rattle.std.specs.Prelude.{◌≡◌};
ghost use Rattle.task_steps.specs.Homes.{IsTaskOf};
ghost use Rattle.shared_objects.specs.Holding.{DeskHolds, StillHolds, stage_at};
ghost use Rattle.shared_objects.specs.Rans.{ChosenWith, TurnsWith};

use crate::caller::Caller;
use std::sync::Wait;
use task_steps::{Chooser, Step, Task};

impl<'a, R: Wait> Caller<'a, R> {
    // The next step of the task whose seats they are.
    #[inline(always)] // what the step came to is then in registers where its event is noted, and is not read from where it was just written
    pub(crate) fn step<C: Chooser>(&mut self, task: &mut Task, chooser: &mut C) -> Step
        requires holds { DeskHolds self.old.locks.now self.old.seats.now }
        requires routing { task.old.routing ≡ (stage_at self.old.locks.now).routing }
        requires task { IsTaskOf (stage_at self.old.locks.now) task.old.state }
        ensures turns { TurnsWith self.old.locks.now task.old self.old.seats.now task.new self.new.seats.now result }
        ensures chosen { ChosenWith C.chooses task.old.state self.old.seats.now self.new.seats.now chooser.old result chooser.new }
        ensures kept { StillHolds self.old.locks.now self.new.locks.now self.new.seats.now }
        ensures same { task.new.routing ≡ task.old.routing }
        ensures locks { self.new.locks.now ≡ self.old.locks.now }
        ensures lent { self.new.seats.ghost_name ≡ self.old.seats.ghost_name }
    {
        task.step(self, chooser)
    }
}
