//! The desk of a task.
ghost use Rattle.std.specs.Prelude.{◌≡◌};
ghost use Rattle.task_steps.specs.Homes.{IsTaskOf};
ghost use Rattle.shared_objects.specs.Holding.{DeskHolds, StillHolds, stage_at};
ghost use Rattle.shared_objects.specs.Logs.{seen_by};
ghost use Rattle.shared_objects.specs.Rans.{ChosenWith, TurnsWith};

pub mod objects;

use crate::caller::Caller;
use crate::locks::Locks;
use crate::ran::seen_by;
use crate::seats::TaskSeats;
use std::sync::Wait;
use task_steps::{Chooser, Step, Task};

/// The objects, as one task asks them: by its seats, each call in a turn of its own. An event gets a ticket, or is told that there is none.
#[derive(Drop)]
pub struct Desk<'a, R: Wait> {
    rt: &'a R,
    locks: &'a Locks,
    seats: TaskSeats,
}

impl<'a, R: Wait> Desk<'a, R> {
    /// A desk of these locks.
    pub(crate) fn new(rt: &'a R, locks: &'a Locks, seats: TaskSeats) -> Desk<'a, R>
        ensures { (result.locks.now ≡ locks.now) × (result.seats ≡ seats) }
    {
        Desk { rt, locks, seats }
    }

    /// Ends the use of the desk.
    pub fn back(self) -> TaskSeats
        ensures { result ≡ self.entry.seats }
    {
        let Desk {
            rt: _,
            locks: _,
            seats,
        } = self;
        seats
    }

    /// The greatest ticket that the task's pass has seen: behind an event, that one's.
    pub fn seen(&self) -> u64
        ensures { result ≡ seen_by self.now.seats.pass }
    {
        seen_by(&self.seats.pass)
    }

    /// The next step of the task whose desk it is. What the desk tells of it is kept in the task's calls.
    #[inline(always)] // as `Caller::step`
    pub fn step<C: Chooser>(&mut self, task: &mut Task, chooser: &mut C) -> Step
        requires holds { DeskHolds self.old.locks.now self.old.seats }
        requires routing { task.old.routing ≡ (stage_at self.old.locks.now).routing }
        requires task { IsTaskOf (stage_at self.old.locks.now) task.old.state }
        ensures turns { TurnsWith self.old.locks.now task.old self.old.seats task.new self.new.seats result }
        ensures chosen { ChosenWith C.chooses task.old.state self.old.seats self.new.seats chooser.old result chooser.new }
        ensures kept { StillHolds self.old.locks.now self.new.locks.now self.new.seats }
        ensures same { task.new.routing ≡ task.old.routing }
        ensures locks { self.new.locks.now ≡ self.old.locks.now }
    {
        let mut caller = Caller {
            rt: self.rt,
            locks: self.locks,
            seats: &mut self.seats,
        };
        caller.step(task, chooser)
    }
}
