//! Tasks in their order, each found by its name.
ghost use Rattle.std.specs.Prelude.{◌≡◌, ◌<◌, ◌+◌, map, length, IfOk, OnOk};
ghost use Rattle.plain_core.specs.Cores.{most_slots, slot_of};
ghost use Rattle.run_machine.specs.Submissions.{rests};
ghost use Rattle.plain_core.specs.opening.Opening.{AreTasksEntered, EntersTask, task_slot};
ghost use Rattle.plain_core.specs.steps.Views.{submission_of_plain, task_of_plain};

use crate::objects::lists::Lists;
use crate::opening::{MOST_DEVICES, MOST_SLOTS, MOST_WRITERS};
use crate::steps::task::{PlainDoing, PlainSubmission, Task};
use std::alloc::{AllocError, Global};
use task_core::TaskId;

/// Where the place of a task is kept: writers come first, by their numbers, then all rescuers, by their devices, then all completers, by their disks,
/// and the keeper last.
pub fn slot_of(task: TaskId) -> u64
    ensures { result ≡ slot_of task }
{
    match task {
        TaskId::Writer(number) => u64::from(number),
        TaskId::Rescuer(dev) => u64::from(MOST_WRITERS) + u64::from(dev.0),
        TaskId::Completer(disk) => u64::from(MOST_WRITERS + MOST_DEVICES) + u64::from(disk.0),
        TaskId::Keeper => u64::from(MOST_SLOTS - 1),
    }
}

/// Puts a task behind the others.
///
/// # Errors
/// Where there is no memory.
pub fn enter(tasks: &mut Vec<Task>, places: &mut Vec<u32>, task: Task) -> Result<(), AllocError>
    requires small { task_slot task < most_slots }
    requires entered { AreTasksEntered (map task_of_plain tasks.old.items) places.old.items (task_slot task) }
    ensures { OnOk result (EntersTask tasks.old.items task tasks.new.items places.new.items) }
{
    let slot = slot_of(task.id());
    places[slot as usize] = tasks.len() as u32;
    tasks.push(task)?;
    Ok(())
}

/// A submission that has not begun.
pub fn resting(alloc: Global) -> PlainSubmission
    ensures { submission_of_plain result ≡ rests }
{
    PlainSubmission {
        doing: PlainDoing::Rests,
        lists: Lists::new(alloc),
    }
}

/// All slots, with the place 0 in each: who looks for a task compares the name of the task at that place.
///
/// # Errors
/// Where there is no memory.
pub fn open_slots(alloc: Global) -> Result<Vec<u32>, AllocError>
    ensures { IfOk result (λ places. length places.items ≡ most_slots) }
{
    let mut places = Vec::new(alloc);
    places.resize(MOST_SLOTS as usize, 0)?;
    Ok(places)
}
