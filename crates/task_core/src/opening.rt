//! What is opened of an accepted text.
ghost use Rattle.std.specs.Prelude.{◌≡◌, ◌≤◌, ◌<◌, ◌^◌, IfOk, OnOk, length, sum};
ghost use Rattle.stack_base.specs.Stack.{HasRescuers, IsStack};
ghost use Rattle.task_core.specs.Leaving.{IsReservedForRun};
ghost use Rattle.task_core.specs.opened.NewTasks.{others_in, reserves_in, writers_in, AddsTasks, AreServableWrites, IsRoutingFor};
ghost use Rattle.task_core.specs.opened.OpenTasks.{AreTasksOf};
ghost use Rattle.task_core.specs.opened.OfOne.{scenario_in, AreOpenedOf, IsOpened};
ghost use Rattle.run_machine.specs.ReadBehind.{IsReadBehind};
ghost use Rattle.task_steps.specs.Routed.{routing_setup};
ghost use Rattle.run_machine.specs.Scenario.{scenario_of};
ghost use Rattle.run_machine.specs.Opened.{left_in, rounds_in};

pub(crate) mod objects;
pub(crate) mod pools;
pub(crate) mod rounds;
mod tasks;
mod writers;

use crate::ended::Ended;
use crate::opening::objects::open_objects;
use crate::opening::rounds::{left_of, open_keeper, open_tally};
use crate::opening::tasks::{DeviceTasks, open_device_tasks, tasks_of};
use crate::opening::writers::open_writers;
use crate::plain::Plain;
use decl_text::Accepted;
use stack_base::{PoolId, Stack};
use std::alloc::{AllocError, Global};
use std::snapshot::Snapshot;
use std::sync::Arc;
use task_steps::{Kind, Routes, Task};
use work_text::{Resize, Work};

/// The objects and the tasks of an accepted text, as a run begins with them, and room for what it leaves. It keeps the text's meaning as a ghost,
/// so that what runs it can say of which scenario it is, and costs no bytes.
#[derive(Drop)]
pub struct Opened {
    pub objects: Plain,
    /// Writers first, then rescuers, completers and the keeper.
    pub tasks: Vec<Task>,
    /// Empty lists, with room for all that a run leaves, so that its end takes no memory.
    pub room: Ended,
    // What all tasks know of devices, which they share.
    pub(crate) routes: Arc<Routes>,
    // What they were opened of. It has no bytes here.
    pub(crate) accepted: Snapshot<Accepted>,
    pub(crate) work: Snapshot<Work>,
}

// The reserves that pools get.
fn reserves_of(alloc: Global, resizes: &[Resize]) -> Result<Vec<(PoolId, u32)>, AllocError>
    ensures { IfOk result (λ reserves. reserves.items ≡ reserves_in resizes.now) }
{
    let mut reserves = Vec::with_capacity(alloc, resizes.len())?;
    'reserving: for i in 0..resizes.len() {
        reserves.push((resizes[i].pool, resizes[i].min))?;
    }
    Ok(reserves)
}

// Room for what a run of so many writes leaves.
fn room_of(alloc: Global, stack: &Stack, writes: usize) -> Result<Ended, AllocError>
    requires { IsStack stack.now }
    ensures { IfOk result (IsReservedForRun stack.now writes) }
{
    let devices = stack.devices.len();
    Ok(Ended {
        statuses: Vec::with_capacity(alloc, writes)?,
        disks: Vec::with_capacity(alloc, devices)?,
        pools: Vec::with_capacity(alloc, 2 * devices + 2)?,
        steps: 0,
    })
}

// Opens the writers, and with the places of their books what all tasks know of devices.
fn open_routes(
    alloc: Global,
    stack: &Stack,
    work: &Work,
    kinds: &mut Vec<Kind>,
) -> Result<Routes, AllocError>
    requires stack { IsStack stack.now }
    requires shared { AreServableWrites stack.now work.now.rounds.items work.now.writes.items }
    ensures kinds { OnOk result (AddsTasks kinds.old.items (writers_in work.now) kinds.new.items) }
    ensures routes { IfOk result (IsRoutingFor stack.now work.now) }
{
    let mut places = [0; 8];
    open_writers(alloc, stack, work, kinds, &mut places)?;
    Routes::new(alloc, stack, places)
}

// Opens the tasks of devices, and the keeper of the rounds.
fn open_others(
    alloc: Global,
    stack: &Stack,
    work: &Work,
    routes: &Routes,
    left: &[u32],
    kinds: &mut Vec<Kind>,
) -> Result<(), AllocError>
    requires stack { IsStack stack.now }
    requires same { routes.now.stack ≡ stack.now }
    requires few { length work.now.rounds.items < 2 ^ 32 }
    requires left { left.now ≡ left_in work.now.rounds.items }
    requires short { rounds_in work.now.rounds.items ≤ 2 ^ 32 }
    ensures { OnOk result (AddsTasks kinds.old.items (others_in (routing_setup routes.now) work.now) kinds.new.items) }
{
    open_device_tasks(stack, routes, DeviceTasks::Rescuers, kinds)?;
    open_device_tasks(stack, routes, DeviceTasks::Completers, kinds)?;
    open_keeper(alloc, &work.rounds, &work.resizes, left, kinds)?;
    Ok(())
}

/// The tasks of this work over a stack in their order, as its runs begin with them: what they all know of devices, which they share, the tasks,
/// and how many writes each round has.
///
/// # Errors
/// Where there is no memory for all of them.
pub fn open_tasks(
    alloc: Global,
    stack: &Stack,
    work: &Work,
) -> Result<(Arc<Routes>, Vec<Task>, Vec<u32>), AllocError>
    requires stack { IsStack stack.now }
    requires shared { AreServableWrites stack.now work.now.rounds.items work.now.writes.items }
    ensures { IfOk result (λ opened. AreTasksOf stack.now work.now opened.0.value opened.1.items opened.2.items) }
{
    let mut kinds = Vec::new(alloc);
    let routes = open_routes(alloc, stack, work, &mut kinds)?;
    let left = left_of(alloc, &work.rounds)?;
    open_others(alloc, stack, work, &routes, &left, &mut kinds)?;
    let routes = Arc::new(alloc, routes)?;
    let tasks = tasks_of(alloc, kinds, &routes)?;
    Ok((routes, tasks, left))
}

// Opens the objects, where this is how many writes each round has.
fn open_plain(
    alloc: Global,
    accepted: &Accepted,
    work: &Work,
    routes: &Routes,
    left: Vec<u32>,
) -> Result<Plain, AllocError>
    requires read { IsReadBehind accepted.now work.now }
    requires same { routes.now.stack ≡ accepted.now.stack }
    requires places { length routes.now.places ≡ 8 }
    requires left { left.items ≡ left_in work.now.rounds.items }
    requires short { rounds_in work.now.rounds.items ≤ 2 ^ 32 }
    requires all { sum left.items ≡ length work.now.rounds.items }
    ensures { IfOk result (AreOpenedOf accepted.now work.now routes.now) }
{
    let reserves = reserves_of(alloc, &work.resizes)?;
    let tally = open_tally(alloc, left, work.writes.len())?;
    open_objects(
        alloc,
        &accepted.stack,
        routes,
        &accepted.scripts,
        &reserves,
        tally,
    )
}

impl Opened {
    /// What all tasks know of devices, shared once more.
    ///
    /// # Errors
    /// Where no more can share it.
    pub fn routes(&self) -> Result<Arc<Routes>, AllocError>
        ensures { IfOk result (λ routes. routes.value ≡ self.now.routes.value) }
    {
        self.routes.clone()
    }

    /// The objects, the tasks and the room for what a run leaves, each by itself.
    pub fn parts(self) -> (Plain, Vec<Task>, Ended)
        ensures { result ≡ (self.objects, self.tasks, self.room) }
    {
        (self.objects, self.tasks, self.room)
    }
}

/// Drops the tasks of a run that is over.
pub fn drop_tasks(tasks: Vec<Task>) {
    drop(tasks);
}

/// The objects and the tasks of an accepted text, as its runs begin, and room for what a run leaves. Its mirrors of two members or more have
/// rescuers, without which a run may hang: that is asked here and kept by what is answered (`IsOpened`), so that whoever runs it asks no more.
/// A scenario whose runs may hang is looked at as a plain state alone (`Core::plain` of `plain_core`, which asks for no rescuers).
///
/// # Errors
/// Where there is no memory for all of them.
pub fn open(alloc: Global, accepted: &Accepted, work: &Work) -> Result<Opened, AllocError>
    requires read { IsReadBehind accepted.now work.now }
    requires rescuers { HasRescuers accepted.now.stack }
    ensures opened { IfOk result IsOpened }
    ensures of { IfOk result (λ o. scenario_in o ≡ scenario_of accepted.now work.now) }
{
    let (routes, tasks, left) = open_tasks(alloc, &accepted.stack, work)?;
    let room = room_of(alloc, &accepted.stack, work.writes.len())?;
    Ok(Opened {
        objects: open_plain(alloc, accepted, work, &routes, left)?,
        tasks,
        room,
        routes,
        accepted: Snapshot::of(accepted),
        work: Snapshot::of(work),
    })
}
