//! Shared objects.
ghost use Rattle.std.specs.Prelude.{◌≡◌, length};

use crate::closed::{Closed, Room};
use crate::closing::{close_locks, join_tasks};
use crate::desk::Desk;
use crate::locks::Locks;
use crate::ran::Ran;
use crate::seats::TaskSeats;
use std::mem;
use std::snapshot::Snapshot;
use std::sync::Wait;
use task_core::Opened;

/// The objects of a run behind locks, with the tasks that were not handed out yet, or are back.
///
/// Threads share the locks by reference (`locks`). The first seats stand beside them, since only one thread may have a seat at a time.
pub struct Shared {
    pub(crate) locks: Locks,
    // The first seat of each lock and the first pass of the clock, from which those of all tasks were split off.
    pub(crate) firsts: TaskSeats,
    // Each task at its place, where it is not out.
    pub(crate) tasks: Vec<Option<Ran>>,
    // The next task to hand out.
    pub(crate) next: u32,
    pub(crate) room: Room,
    // What was shared. It has no bytes here.
    pub(crate) told: Snapshot<Opened>,
}

// A drop by hand is proved here, once. A derived one every crate above would prove anew that drops shared objects, or hands them to what may: that
// of each object in them, which takes minutes. The same holds of `Ran` and `Closed`.
impl Drop for Shared {
    fn drop(self) {
        let Shared {
            locks,
            firsts,
            tasks,
            next: _,
            room,
            told,
        } = self;
        drop(locks);
        drop(firsts);
        drop(tasks);
        drop(room);
        drop(told);
    }
}

impl Shared {
    ghost use Rattle.std.specs.Prelude.{◌↔◌, IfSome, IsNone, None};
    ghost use Rattle.std.specs.Option.{is_some};
    ghost use Rattle.shared_objects.specs.Holding.{DeskHolds};
    ghost use Rattle.shared_objects.specs.Left.{HasClosed};
    ghost use Rattle.shared_objects.specs.Rans.{ran_key};
    ghost use Rattle.shared_objects.specs.Shared.{HandsOut, HaveStopped, IsOut, SharedHolds, TakesBack};
    ghost use Rattle.shared_objects.specs.Tickets.{ShowsItsTickets};

    /// The locks of the objects.
    pub fn locks(&self) -> &Locks
        ensures { result.now ≡ self.now.locks }
    {
        &self.locks
    }

    /// The desk of the task that has these seats. Threads beside each other share the locks alone, and have theirs of `Locks::desk`.
    pub fn desk<'a, R: Wait>(&'a self, rt: &'a R, seats: TaskSeats) -> Desk<'a, R>
        requires { DeskHolds self.now.locks seats }
        ensures { (result.locks.now ≡ self.now.locks) × (result.seats ≡ seats) }
    {
        self.locks.desk(rt, seats)
    }

    /// How many tasks the run has.
    pub fn count(&self) -> usize
        ensures { result ≡ length self.now.tasks.items }
    {
        self.tasks.len()
    }

    /// Hands out the next task, with its seats, if there is one that was not handed out yet.
    pub fn take_task(&mut self) -> Option<Ran>
        requires { SharedHolds self.old }
        ensures holds { SharedHolds self.new }
        ensures none { IsNone result ↔ (self.old.next ≡ length self.old.tasks.items) }
        ensures task { IfSome result (λ ran. HandsOut self.old ran self.new) }
        ensures same { result ≡ None → self.new ≡ self.old }
    {
        let at = self.next as usize;
        if at == self.tasks.len() {
            return None;
        }
        self.next += 1;
        self.tasks[at].take()
    }

    /// Takes back a task that was handed out.
    pub fn put_task(&mut self, ran: Ran)
        requires holds { SharedHolds self.old }
        requires out { IsOut self.old (ran_key ran) }
        ensures holds { SharedHolds self.new }
        ensures back { TakesBack self.old ran self.new }
    {
        let at = ran.number() as usize;
        drop(mem::replace(&mut self.tasks[at], Some(ran)));
    }

    /// Ends the use of the objects: each task was handed out, came back and has stopped. What is left shows the whole history of each object,
    /// with each task's calls in it, and all tickets of their clock.
    pub fn close(self) -> Closed
        requires holds { SharedHolds self }
        requires over { HaveStopped self }
        ensures closed { HasClosed result }
        ensures tickets { ShowsItsTickets result }
        ensures told { result.told.value ≡ self.told.value }
        ensures trace { is_some result.trace ≡ self.locks.trace }
    {
        let Shared {
            locks,
            mut firsts,
            tasks,
            next: _,
            mut room,
            told,
        } = self;
        join_tasks(&locks, &mut firsts, tasks, &mut room.tasks, &mut room.trace);
        close_locks(locks, firsts, room, told)
    }
}
