//! The workers of a run.
ghost use Rattle.std.specs.Prelude.{◌≡◌, ◌≤◌, All, length, map, true};
ghost use Rattle.std.specs.Option.{is_some};
ghost use Rattle.bio_workers.specs.Hands.{AreOut};
ghost use Rattle.bio_workers.specs.Steps.{came_of};
ghost use Rattle.shared_objects.specs.Left.{HasClosed};
ghost use Rattle.shared_objects.specs.Rans.{ran_key};
ghost use Rattle.shared_objects.specs.Shared.{HaveStopped, SameShared, SharedHolds};
ghost use Rattle.shared_objects.specs.Tickets.{ShowsItsTickets};

use crate::few::Few;
use crate::gate::Gate;
use crate::shift::run_tasks;
use crate::work::{Work, WorkOutcome};
use shared_objects::{Closed, Locks, Ran, Shared};
use std::marker::Model;
use std::snapshot::Snapshot;
use std::sync::Wait;
use std::thread::Threads;
use task_core::Task;
use task_steps::{Oldest, Step};

/// What stays of a task with its seats, whatever steps it makes. `Work` names the type of a key, so this has the key as its model, and no value
/// of it is made.
pub struct Identity {
    first: Snapshot<Task>,
    home: Snapshot<Locks>,
    number: u32,
}

impl Model for Identity {
    ghost use Rattle.shared_objects.specs.Rans.{RanKey};

    ghost Value = { RanKey };

    ghost view = { λ i. record { first = i.first.value; home = i.home.value; number = i.number } };
}

/// What workers step tasks of shared objects at: the locks, and who looks on.
#[derive(Drop)]
pub(crate) struct Crew<'a, G> {
    pub(crate) locks: &'a Locks,
    pub(crate) gate: &'a G,
}

impl<'a, G: Gate> Work<Ran> for Crew<'a, G> {
    ghost use Rattle.std.specs.Prelude.{◌≡◌, true};
    ghost use Rattle.shared_objects.specs.Rans.{ran_key};
    ghost use Rattle.bio_workers.specs.Steps.{HasStepped};

    type Key = Identity;

    ghost key = { λ ran. ran_key ran };

    ghost number = { λ key. key.number };

    ghost can = { λ crew key. key.home ≡ crew.locks.now };

    ghost is_over = { λ ran. ran.stopped ≡ true };

    ghost goes = { HasStepped };

    fn number(&self, task: &Ran) -> u32 {
        task.number()
    }

    #[inline(never)] // a visit calls it at two places, and what the step came to is known here, where it was made
    fn step<R: Wait>(&self, rt: &R, task: &mut Ran) -> WorkOutcome {
        let id = task.id();
        self.gate.before(id);
        let step = task.step(rt, self.locks, &mut Oldest);
        self.gate.after(id);
        work_outcome(&step)
    }
}

// What a step came to.
fn work_outcome(step: &Step) -> WorkOutcome
    ensures { result ≡ came_of step.now }
{
    match step {
        Step::Stepped(_) => WorkOutcome::Happened,
        Step::Blocked(_) | Step::Waiting => WorkOutcome::Nothing,
        Step::Ended | Step::Broken(_) => WorkOutcome::Over,
    }
}

// Takes all tasks.
fn take_all(shared: &mut Shared) -> Few<Ran>
    requires holds { SharedHolds shared.old }
    requires untaken { shared.old.next ≡ 0 }
    ensures holds { SharedHolds shared.new }
    ensures all { shared.new.next ≡ length shared.new.tasks.items }
    ensures out { AreOut shared.new (map ran_key result) }
    ensures same { SameShared shared.old shared.new }
{
    let mut tasks = Few::new();
    while let Some(task) = shared.take_task() {
        tasks.push(task);
    }
    tasks
}

// Puts back the tasks that are out.
fn put_all(shared: &mut Shared, tasks: Few<Ran>)
    requires holds { SharedHolds shared.old }
    requires all { shared.old.next ≡ length shared.old.tasks.items }
    requires out { AreOut shared.old (map ran_key tasks) }
    requires over { All (λ ran. ran.stopped ≡ true) tasks }
    ensures holds { SharedHolds shared.new }
    ensures stopped { HaveStopped shared.new }
    ensures same { SameShared shared.old shared.new }
{
    let mut tasks = tasks;
    while let Some(task) = tasks.pop() {
        shared.put_task(task);
    }
}

/// Steps all tasks of shared objects by so many workers, of which the caller is one, until each has ended or cannot go on, and closes the
/// objects. The gate looks on.
///
/// It takes no memory but for threads, for ordinary elements, and for what tasks note where there is a trace.
pub fn run_workers<R: Threads + Wait + Sync, G: Gate + Sync>(
    rt: &R,
    shared: Shared,
    n: u32,
    gate: &G,
) -> Closed
    requires holds { SharedHolds shared }
    requires untaken { shared.next ≡ 0 }
    requires workers { (1 ≤ n) × (n ≤ 16) }
    ensures closed { HasClosed result }
    ensures tickets { ShowsItsTickets result }
    ensures told { result.told.value ≡ shared.told.value }
    ensures trace { is_some result.trace ≡ shared.locks.trace }
{
    let mut shared = shared;
    let tasks = take_all(&mut shared);
    let crew = Crew {
        locks: shared.locks(),
        gate,
    };
    let tasks = run_tasks(rt, &crew, tasks, n);
    put_all(&mut shared, tasks);
    shared.close()
}
