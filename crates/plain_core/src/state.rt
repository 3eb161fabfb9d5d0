//! A state of the machine of a run as a running value.
ghost use Rattle.std.specs.Prelude.{◌≡◌, ◌<◌, map, length, MatchBool, MatchOption, IfOk};
ghost use Rattle.task_steps.specs.Within.{TaskIsWithin};
ghost use Rattle.task_core.specs.opened.OfOne.{IsOpened, scenario_in};
ghost use Rattle.plain_core.specs.steps.Views.{task_of_plain};
ghost use Rattle.plain_core.specs.opening.Opening.{CanOpen, IsOpenedCore};
ghost use Rattle.stack_base.specs.PoolId.{pool_number};
ghost use Rattle.run_machine.specs.Runs.{HasEnded, HasFree, unfinished};
ghost use Rattle.run_machine.specs.Scenario.{scenario_by};
ghost use Rattle.plain_core.specs.steps.Free.{IsFirstFree};
ghost use Rattle.plain_core.specs.Cores.{scene_of_core, state_of_core, task_at, AreFound, FindsTask, StepsAt, Applies};

use crate::fault::CoreFault;
use crate::objects::{Objects, pool_place};
use crate::opening::objects::open_objects;
use crate::opening::seen_objects::objects_seen;
use crate::opening::seen_tasks::tasks_seen;
use crate::opening::slots::slot_of;
use crate::steps::free::task_is_free;
use crate::steps::task::Task;
use crate::steps::task_step;
use fail_script::Script;
use mempool_core::Facts;
use stack_base::{PoolId, Stack};
use std::alloc::{AllocError, Global};
use std::marker::Model;
use std::sync::Arc;
use task_core::within::tasks_stay_within;
use task_core::{Event, Opened, Routes, TaskId, What, drop_tasks, open_tasks};
use work_text::Work;

/// A state of the machine of a run, without elements and ledgers.
///
/// A task's slot rises with its place (8 writers, 32 rescuers, 32 completers, the keeper), so that no two tasks share one. Room in a task's lists is
/// made by the call that changes the object, behind its question, and not before the step, so that an event that is no step is told so without
/// memory.
#[derive(Drop)]
pub struct Core {
    routes: Arc<Routes>,
    objects: Objects,
    tasks: Vec<Task>,
    // Where each task stands, by its name.
    places: Vec<u32>,
}

impl Model for Core {
    ghost use Rattle.std.specs.Prelude.{map};
    ghost use Rattle.plain_core.specs.steps.Views.{task_of_plain};
    ghost use Rattle.plain_core.specs.Cores.{CoreState, IsCore};

    ghost Value = { CoreState };

    ghost view = { λ c. record { routing = c.routes.value; objects = c.objects; tasks = map task_of_plain c.tasks.items } };

    ghost invariant = { λ c. IsCore c.routes.value c.objects (map task_of_plain c.tasks.items) c.places.items };
}

// Whether two names are of one task.
fn is_same(one: TaskId, other: TaskId) -> bool
    ensures { MatchBool result (one ≡ other) (one ≡ other → ⊥) }
{
    match one {
        TaskId::Writer(number) => matches!(other, TaskId::Writer(named) if named == number),
        TaskId::Rescuer(dev) => matches!(other, TaskId::Rescuer(named) if named == dev),
        TaskId::Completer(disk) => matches!(other, TaskId::Completer(named) if named == disk),
        TaskId::Keeper => matches!(other, TaskId::Keeper),
    }
}

// The place of a task, if there is one of this name.
fn find(tasks: &[Task], places: &[u32], name: TaskId) -> Option<usize>
    requires { AreFound places.now (map task_of_plain tasks.now) }
    ensures { FindsTask tasks.now name result }
{
    let place = *places.get(slot_of(name) as usize)? as usize;
    if !is_same(name, tasks.get(place)?.id()) {
        return None;
    }
    Some(place)
}

// The task at this place goes on.
fn step_at(
    routes: &Routes,
    objects: &mut Objects,
    tasks: &mut Vec<Task>,
    place: usize,
    what: &What,
) -> Result<(), CoreFault>
    requires stack { objects.old.stack ≡ routes.now.stack }
    requires place { place < length tasks.old.items }
    requires fits { TaskIsWithin routes.now.stack (task_at (map task_of_plain tasks.old.items) place) }
    ensures { StepsAt routes.now objects.old tasks.old.items place what.now result objects.new tasks.new.items }
{
    let Some(task) = tasks.get_mut(place) else {
        unreachable!()
    };
    task_step(routes, objects, task, what)
}

impl Core {
    /// The state in which the runs of a text begin, of which these are the stack, the scripts of its pools and the work over it. No object is
    /// opened for it. It wants less than an accepted text gives (`CanOpen`), so that it opens a stack whose rescuers were taken away, too.
    ///
    /// # Errors
    /// Where there is no memory.
    pub fn plain(
        alloc: Global,
        stack: &Stack,
        scripts: &[(PoolId, Script)],
        work: &Work,
    ) -> Result<Core, AllocError>
        requires { CanOpen stack.now scripts.now work.now }
        ensures { IfOk result (IsOpenedCore (scenario_by stack.now scripts.now work.now)) }
    {
        let (routes, opened, left) = open_tasks(alloc, stack, work)?;
        let seen = tasks_seen(alloc, &opened);
        drop_tasks(opened);
        let (tasks, places) = seen?;
        let objects = open_objects(alloc, stack, &routes, scripts, left, work.writes.len())?;
        Ok(Core {
            routes,
            objects,
            tasks,
            places,
        })
    }

    /// The plain state of what was opened of a text: pools, disks, books, the tally and the tasks as they are there, without an element. It reads
    /// these, and no copy of the text, so that opening keeps no more than a run needs. What they share of the stack is an `Arc` of its routes, of
    /// which the core takes a share.
    ///
    /// # Errors
    /// Where there is no memory.
    pub fn of(alloc: Global, opened: &Opened) -> Result<Core, AllocError>
        requires { IsOpened opened.now }
        ensures { IfOk result (IsOpenedCore (scenario_in opened.now)) }
    {
        let routes = opened.routes()?;
        let objects = objects_seen(alloc, opened, &routes)?;
        let (tasks, places) = tasks_seen(alloc, &opened.tasks)?;
        Ok(Core {
            routes,
            objects,
            tasks,
            places,
        })
    }

    /// The first task of all, in their order, that has an event which can come next and needs no ordinary memory: one with no ordinary element,
    /// and no missed take that waited.
    pub fn free(&self) -> Option<TaskId>
        ensures { MatchOption result (HasFree (scene_of_core self.now) (state_of_core self.now) → ⊥) (IsFirstFree self.now) }
    {
        'asking: for place in 0..self.tasks.len() {
            if task_is_free(&self.objects, &self.tasks[place]) {
                return Some(self.tasks[place].id());
            }
        }
        None
    }

    /// How many writes are unfinished.
    pub fn unfinished(&self) -> u128
        ensures { result ≡ unfinished (state_of_core self.now) }
    {
        self.objects.unfinished()
    }

    /// The numbers of a pool, which are those of an empty one where the stack has no such pool.
    pub fn facts(&self, pool: PoolId) -> Facts
        ensures { result ≡ ((state_of_core self.now).objects.pool (pool_number pool)).facts }
    {
        self.objects.facts(pool_place(pool))
    }

    /// Whether the run has ended: every write is done, and every element is at home.
    pub fn has_ended(&self) -> bool
        ensures { MatchBool result (HasEnded (state_of_core self.now)) (HasEnded (state_of_core self.now) → ⊥) }
    {
        self.unfinished() == 0 && self.objects.are_home()
    }

    /// Applies an event: the state is that after the step of the machine then, which is the only one that the event tells.
    ///
    /// # Errors
    /// `NotEnabled` exactly where the event is no step of the machine from this state, whether there is memory or not, and `Memory` where it is a
    /// step, but there is no memory for it. Nothing is changed then. Only a task with a submission under way takes memory.
    pub fn apply(&mut self, event: &Event) -> Result<(), CoreFault>
        ensures { Applies self.old event.now result self.new }
    {
        tasks_stay_within();
        self.routes.known();
        self.objects.known();
        let Some(place) = find(&self.tasks, &self.places, event.task) else {
            return Err(CoreFault::NotEnabled);
        };
        step_at(
            &self.routes,
            &mut self.objects,
            &mut self.tasks,
            place,
            &event.what,
        )
    }
}
