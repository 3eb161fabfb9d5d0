//! A task with its seats.
ghost use Rattle.std.specs.Prelude.{◌≡◌};
ghost use Rattle.std.specs.Option.{is_some};
ghost use Rattle.shared_objects.specs.Logs.{seen_by};
ghost use Rattle.shared_objects.specs.Noting.{IsBlank, NotesStep};
ghost use Rattle.shared_objects.specs.Rans.{events_after, stopped_after};

use crate::caller::Caller;
use crate::closed::ClosedTask;
use crate::closing::join_seats;
use crate::locks::Locks;
use crate::noted::Noted;
use crate::progress::Progress;
use crate::recording::record_step;
use crate::seats::TaskSeats;
use std::alloc::Global;
use std::marker::Model;
use std::snapshot::Snapshot;
use std::sync::Wait;
use task_core::{Chooser, Kind, Step, Task, TaskId};
use tick_clock::Pass;

/// A task with its seats of shared objects, as it goes from thread to thread. Whatever steps it has made, its seats show the calls that led it
/// from where it was opened to where it is. It steps itself, or is taken apart for a desk and put together again.
pub struct Ran {
    pub task: Task,
    pub seats: TaskSeats,
    /// The task as it was opened. It has no bytes here, nor have the locks that the seats are of.
    pub first: Snapshot<Task>,
    pub(crate) home: Snapshot<Locks>,
    // How many events it has had; 2^64 - 1 where there are more.
    pub(crate) events: u64,
    // Whether a step has told that it has stopped.
    pub(crate) stopped: bool,
    // What it has noted, where that is wanted.
    pub(crate) noted: Option<Noted>,
}

// By hand, as that of `Shared`.
impl Drop for Ran {
    fn drop(self) {
        let Ran {
            task,
            seats,
            first,
            home,
            events: _,
            stopped: _,
            noted,
        } = self;
        drop(task);
        drop(seats);
        drop(first);
        drop(home);
        drop(noted);
    }
}

impl Model for Ran {
    ghost use Rattle.shared_objects.specs.Rans.{RanState, RanHolds, ran_from};

    ghost Value = { RanState };

    ghost view = { λ r. ran_from r.task r.seats r.first.value r.home.value r.events r.stopped r.noted };

    ghost invariant = { λ r. RanHolds (ran_from r.task r.seats r.first.value r.home.value r.events r.stopped r.noted) };
}

impl Ran {
    ghost use Rattle.run_machine.specs.Events.{id_of};
    ghost use Rattle.task_steps.specs.Homes.{IsTaskOf};
    ghost use Rattle.shared_objects.specs.Holding.{DeskHolds, desk_of, stage_at};
    ghost use Rattle.shared_objects.specs.Joining.{HasJoinedSeats, IsPutAway};
    ghost use Rattle.shared_objects.specs.Rans.{ChosenWith, IsNewDesk, IsOtherPass, RanHolds, TurnsWith, progress_of, ran_key, ran_of, unstepped};
    ghost use Rattle.shared_objects.specs.Shared.{FirstsHold};

    /// A task as it was opened, with seats of these locks, at which nothing was called yet, and an empty list for its events, where the locks
    /// want that.
    pub(crate) fn new(alloc: Global, task: Task, seats: TaskSeats, locks: &Locks) -> Ran
        requires desk { DeskHolds locks.now seats }
        requires routing { task.routing ≡ (stage_at locks.now).routing }
        requires task { IsTaskOf (stage_at locks.now) task.state }
        requires pass { IsOtherPass seats.pass }
        requires unused { IsNewDesk (desk_of seats) }
        ensures made { result ≡ unstepped task seats task locks.now result.noted }
        ensures blank { IsBlank result.noted }
        ensures listed { is_some result.noted ≡ locks.now.trace }
    {
        let first = Snapshot::of(&task);
        let noted = noted_for(alloc, locks.trace);
        Ran {
            task,
            seats,
            first,
            home: Snapshot::of(locks),
            events: 0,
            stopped: false,
            noted,
        }
    }

    /// Steps the task once, where it stands, at the locks that its seats are of. Where that is wanted, it notes its event, with the ticket.
    #[inline(always)] // as `Caller::step`
    pub fn step<R: Wait, C: Chooser>(&mut self, rt: &R, locks: &Locks, chooser: &mut C) -> Step
        requires home { self.old.home ≡ locks.now }
        ensures turns { TurnsWith locks.now self.old.task self.old.seats self.new.task self.new.seats result }
        ensures chosen { ChosenWith C.chooses self.old.task.state self.old.seats self.new.seats chooser.old result chooser.new }
        ensures key { ran_key self.new ≡ ran_key self.old }
        ensures events { self.new.events ≡ events_after result self.old.events }
        ensures stopped { self.new.stopped ≡ stopped_after result self.old.stopped }
        ensures noted { NotesStep result (seen_by self.new.seats.pass) self.old.noted self.new.noted }
    {
        let mut caller = Caller {
            rt,
            locks,
            seats: &mut self.seats,
        };
        let step = caller.step(&mut self.task, chooser);
        let seen = seen_by(&self.seats.pass);
        record_step(
            step,
            seen,
            &mut self.events,
            &mut self.stopped,
            &mut self.noted,
        );
        step
    }

    /// The task and its seats, each by itself, for a desk that the caller holds (`Locks::desk`), and what is kept of the two meanwhile.
    pub fn parts(self) -> (Task, TaskSeats, Progress)
        ensures parts { (result.0 ≡ self.task) × (result.1 ≡ self.seats) × (result.2 ≡ progress_of self) }
        ensures holds { RanHolds self }
    {
        let Ran {
            task,
            seats,
            first,
            home,
            events,
            stopped,
            noted,
        } = self;
        let progress = Progress {
            first,
            home,
            events,
            stopped,
            noted,
        };
        (task, seats, progress)
    }

    /// Puts a task and its seats together again, that stood at a desk. What holds of them does so behind each step there, of which what is kept
    /// of them was told (`laws::steps_keep_tasks`).
    pub fn of(task: Task, seats: TaskSeats, progress: Progress) -> Ran
        requires holds { RanHolds (ran_of task seats progress) }
        ensures { result ≡ ran_of task seats progress }
    {
        let Progress {
            first,
            home,
            events,
            stopped,
            noted,
        } = progress;
        Ran {
            task,
            seats,
            first,
            home,
            events,
            stopped,
            noted,
        }
    }

    /// Puts the task away, and joins its seats into the first ones. What it noted is handed back beside it.
    pub(crate) fn join(self, locks: &Locks, firsts: &mut TaskSeats) -> (ClosedTask, Option<Noted>)
        requires home { self.home ≡ locks.now }
        requires firsts { FirstsHold locks.now firsts.old }
        ensures holds { RanHolds self }
        ensures away { IsPutAway self result.0 }
        ensures noted { result.1 ≡ self.noted }
        ensures joined { HasJoinedSeats locks.now firsts.old self.seats firsts.new }
        ensures of { FirstsHold locks.now firsts.new }
    {
        let Ran {
            task,
            seats,
            first,
            home: _,
            events,
            stopped: _,
            noted,
        } = self;
        let shown = Snapshot::of(&seats);
        join_seats(locks, firsts, seats);
        let closed = ClosedTask {
            task,
            first,
            seats: shown,
            events,
        };
        (closed, noted)
    }

    /// Which task it is: its number among the tasks of the run, in their order.
    pub fn number(&self) -> u32
        ensures { result ≡ self.now.seats.number }
    {
        self.seats.number
    }

    /// Which task it is, as its events name it.
    pub fn id(&self) -> TaskId
        ensures { result ≡ id_of self.now.task.state }
    {
        match self.task.kind() {
            Kind::Writer(writer) => TaskId::Writer(writer.number()),
            Kind::Rescuer(rescuer) => TaskId::Rescuer(rescuer.dev()),
            Kind::Completer { disk, carried: _ } => TaskId::Completer(*disk),
            Kind::Keeper(_) => TaskId::Keeper,
        }
    }

    /// Whether a step of it has told that it has stopped: it has ended, or cannot go on.
    pub fn stopped(&self) -> bool
        ensures { result ≡ self.now.stopped }
    {
        self.stopped
    }
}

// What a pass has seen, where it is at home.
pub(crate) fn seen_by(pass: &Option<Pass>) -> u64
    ensures { result ≡ seen_by pass.now }
{
    match pass {
        Some(pass) => pass.seen(),
        None => 0,
    }
}

// A list for a task's events, where one is wanted.
fn noted_for(alloc: Global, trace: bool) -> Option<Noted>
    ensures blank { IsBlank result }
    ensures listed { is_some result ≡ trace }
{
    if trace { Some(Noted::new(alloc)) } else { None }
}
