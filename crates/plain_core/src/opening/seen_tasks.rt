//! Opened tasks as plain data.
ghost use Rattle.std.specs.Prelude.{◌≡◌, IfOk, All};
ghost use Rattle.task_core.specs.opened.OfOne.{states};
ghost use Rattle.run_machine.specs.Tasks.{Keeper as Keeping};
ghost use Rattle.task_steps.specs.WriterViews.{writer_task};
ghost use Rattle.plain_core.specs.Cores.{most_slots};
ghost use Rattle.plain_core.specs.opening.Seen.{HasNotBegun, Rises};
ghost use Rattle.plain_core.specs.steps.Views.{keeper_of, task_of_plain, writer_of};
ghost use Rattle.plain_core.specs.opening.Opening.{IsEntering};

use crate::opening::slots::{enter, open_slots, resting};
use crate::steps::task::{Completer, Keeper, PlainCarried, PlainGathered, Rescuer, Task, Writer};
use std::alloc::{AllocError, Global};
use task_core as opened;
use task_core::{Kind, Todos};

// A writer that has not begun.
fn writer_seen(alloc: Global, writer: &opened::Writer) -> Result<Writer, AllocError>
    requires { HasNotBegun (writer_task writer.now) }
    ensures { IfOk result (λ seen. writer_of seen ≡ writer_task writer.now) }
{
    Ok(Writer {
        number: writer.number(),
        todo: Todos::new(Vec::from_slice(alloc, writer.todo().rest())?),
        taken: PlainGathered::NoBio,
        submission: resting(alloc),
    })
}

// A keeper that has not begun.
fn keeper_seen(alloc: Global, keeper: &opened::Keeper) -> Result<Keeper, AllocError>
    requires { HasNotBegun (Keeping keeper.now) }
    ensures { IfOk result (λ seen. keeper_of seen ≡ Keeping keeper.now) }
{
    Ok(Keeper::new(Vec::from_slice(alloc, keeper.duties())?))
}

// A task that has not begun.
fn task_seen(alloc: Global, task: &opened::Task) -> Result<Task, AllocError>
    requires { HasNotBegun task.now.state }
    ensures { IfOk result (λ seen. task_of_plain seen ≡ task.now.state) }
{
    match task.kind() {
        Kind::Writer(writer) => Ok(Task::Writer(writer_seen(alloc, writer)?)),
        Kind::Rescuer(rescuer) => Ok(Task::Rescuer(Rescuer {
            dev: rescuer.dev(),
            submission: resting(alloc),
        })),
        Kind::Completer { disk, carried: _ } => Ok(Task::Completer(Completer {
            disk: *disk,
            carried: PlainCarried::Empty,
        })),
        Kind::Keeper(keeper) => Ok(Task::Keeper(keeper_seen(alloc, keeper)?)),
    }
}

/// The tasks that were opened of a text in their order, as plain data, and the place of each by its slot.
///
/// # Errors
/// Where there is no memory.
pub fn tasks_seen(
    alloc: Global,
    tasks: &[opened::Task],
) -> Result<(Vec<Task>, Vec<u32>), AllocError>
    requires first { All HasNotBegun (states tasks.now) }
    requires rising { Rises 0 (states tasks.now) most_slots }
    ensures { IfOk result (λ seen. IsEntering seen.0.items seen.1.items (states tasks.now)) }
{
    let mut seen = Vec::with_capacity(alloc, tasks.len())?;
    let mut places = open_slots(alloc)?;
    'seeing: for i in 0..tasks.len() {
        let task = task_seen(alloc, &tasks[i])?;
        enter(&mut seen, &mut places, task)?;
    }
    Ok((seen, places))
}
