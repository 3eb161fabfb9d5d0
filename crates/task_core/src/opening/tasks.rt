//! The tasks of devices, and the list of all tasks.
ghost use Rattle.std.specs.Prelude.{◌≡◌, ◌<◌, [], ◌∷◌, ◌++◌, IfOk, OnOk, length};
ghost use Rattle.stack_base.specs.Stack.{IsStack};
ghost use Rattle.run_machine.specs.Opened.{rescuers_of, completers_of};
ghost use Rattle.task_steps.specs.TaskViews.{task_of};
ghost use Rattle.task_core.specs.opened.NewTasks.{device_tasks, device_tasks_in, shown_tasks, with_routing, AddsOfDevice, AddsTasks};

use crate::opening::objects::keeps_data;
use stack_base::{DevId, Stack};
use std::alloc::{AllocError, Global};
use std::sync::Arc;
use task_steps::{Carried, Kind, Rescuer, Routes, Task};

/// Which tasks of devices are opened.
#[derive(Clone, Copy)]
pub enum DeviceTasks {
    /// The rescuers of devices' sets.
    Rescuers,
    /// The completers of disks.
    Completers,
}

// Adds the rescuer of a device's set, if it has one.
fn add_rescuer(routes: &Routes, dev: DevId, kinds: &mut Vec<Kind>) -> Result<(), AllocError>
    requires { dev.0 < length routes.now.stack.devices.items }
    ensures { OnOk result (AddsOfDevice rescuers_of routes.now dev kinds.old.items kinds.new.items) }
{
    if routes.rescuer(dev) {
        kinds.push(Kind::Rescuer(Rescuer::new(dev)))?;
    }
    Ok(())
}

// Adds the completer of a device, if it is a disk.
fn add_completer(routes: &Routes, dev: DevId, kinds: &mut Vec<Kind>) -> Result<(), AllocError>
    requires { dev.0 < length routes.now.stack.devices.items }
    ensures { OnOk result (AddsOfDevice completers_of routes.now dev kinds.old.items kinds.new.items) }
{
    if keeps_data(routes, dev) {
        kinds.push(Kind::Completer {
            disk: dev,
            carried: Carried::empty(),
        })?;
    }
    Ok(())
}

// Adds the task of a device, if it has one of these.
fn add_device_task(
    routes: &Routes,
    which: DeviceTasks,
    dev: DevId,
    kinds: &mut Vec<Kind>,
) -> Result<(), AllocError>
    requires { dev.0 < length routes.now.stack.devices.items }
    ensures { OnOk result (AddsOfDevice (device_tasks which) routes.now dev kinds.old.items kinds.new.items) }
{
    match which {
        DeviceTasks::Rescuers => add_rescuer(routes, dev, kinds),
        DeviceTasks::Completers => add_completer(routes, dev, kinds),
    }
}

// Adds these tasks of a stack, in the order of its devices.
pub(crate) fn open_device_tasks(
    stack: &Stack,
    routes: &Routes,
    which: DeviceTasks,
    kinds: &mut Vec<Kind>,
) -> Result<(), AllocError>
    requires same { routes.now.stack ≡ stack.now }
    requires stack { IsStack stack.now }
    ensures { OnOk result (AddsTasks kinds.old.items (device_tasks_in which routes.now stack.now) kinds.new.items) }
{
    'opening: for number in 0..stack.devices.len() {
        add_device_task(routes, which, DevId(number as u32), kinds)?;
    }
    Ok(())
}

// Adds a task of this kind, which shares what all know of devices.
fn add_task(kind: Kind, routes: &Arc<Routes>, tasks: &mut Vec<Task>) -> Result<(), AllocError>
    ensures { OnOk result (tasks.new.items ≡ tasks.old.items ++ with_routing routes.now.value (task_of kind ∷ [])) }
{
    match routes.clone() {
        Ok(routes) => {
            tasks.push(Task::new(routes, kind))?;
            Ok(())
        }
        Err(error) => {
            drop(kind);
            Err(error)
        }
    }
}

// Tasks of these kinds, which share what they know of devices.
pub(crate) fn tasks_of(
    alloc: Global,
    kinds: Vec<Kind>,
    routes: &Arc<Routes>,
) -> Result<Vec<Task>, AllocError>
    ensures { IfOk result (λ tasks. tasks.items ≡ with_routing routes.now.value (shown_tasks kinds.items)) }
{
    let mut tasks = Vec::with_capacity(alloc, kinds.len())?;
    'sharing: for kind in kinds {
        add_task(kind, routes, &mut tasks)?;
    }
    Ok(tasks)
}
