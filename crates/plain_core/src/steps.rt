//! Steps of tasks.
ghost use Rattle.std.specs.Prelude.{◌≡◌, ◌<◌};
ghost use Rattle.task_steps.specs.Within.{TaskIsWithin};
ghost use Rattle.plain_core.specs.steps.Views.{task_of_plain, rescuer_of};
ghost use Rattle.plain_core.specs.steps.Moves.{PlainTaskMoves, RescuerMoves};

pub(crate) mod asks;
pub(crate) mod completer;
pub(crate) mod free;
pub(crate) mod keeper;
pub(crate) mod need;
pub(crate) mod submission;
pub(crate) mod task;
pub(crate) mod writer;

use crate::fault::CoreFault;
use crate::objects::Objects;
use crate::steps::completer::completer_step;
use crate::steps::keeper::keeper_step;
use crate::steps::submission::submission_step;
use crate::steps::task::{Completer, Keeper, Rescuer, Task, Writer};
use crate::steps::writer::{start, writer_step};
use task_core::{Routes, What};

/// The rescuer of a device's set goes on with what the event tells (`bio_alloc_rescue`, `block/bio.c`): with what it submits, or, where that is over,
/// with the next bio that waits for it.
///
/// # Errors
/// `NotEnabled` where no answer to its next request is what the event tells, and `Memory` where one is, but there is no memory to go on with it. Then
/// nothing is changed.
pub fn rescuer_step(
    routes: &Routes,
    objects: &mut Objects,
    rescuer: &mut Rescuer,
    what: &What,
) -> Result<(), CoreFault>
    requires stack { objects.old.stack ≡ routes.now.stack }
    requires fits { TaskIsWithin routes.now.stack (rescuer_of rescuer.old) }
    ensures { RescuerMoves routes.now objects.old rescuer.old what.now result objects.new rescuer.new }
{
    if !rescuer.submission.rests() {
        return submission_step(routes, objects, &mut rescuer.submission, what);
    }
    objects.known();
    match asks::pop(objects, rescuer.dev, what) {
        Err(fault) => Err(fault),
        Ok(part) => {
            start(routes, part, &mut rescuer.submission);
            Ok(())
        }
    }
}

/// A task goes on with what the event tells, where its next request can be answered so.
///
/// # Errors
/// `NotEnabled` where the task may not ask yet, or where no answer to its next request is what the event tells, and `Memory` where one is, but there
/// is no memory to go on with it. Then nothing is changed.
pub fn task_step(
    routes: &Routes,
    objects: &mut Objects,
    task: &mut Task,
    what: &What,
) -> Result<(), CoreFault>
    requires stack { objects.old.stack ≡ routes.now.stack }
    requires fits { TaskIsWithin routes.now.stack (task_of_plain task.old) }
    ensures { PlainTaskMoves routes.now objects.old task.old what.now result objects.new task.new }
{
    match task {
        Task::Writer(writer) => writer_step(routes, objects, writer, what),
        Task::Rescuer(rescuer) => rescuer_step(routes, objects, rescuer, what),
        Task::Completer(completer) => completer_step(objects, completer, what),
        Task::Keeper(keeper) => keeper_step(objects, keeper, what),
    }
}
