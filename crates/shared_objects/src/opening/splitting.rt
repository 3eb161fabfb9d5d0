//! Tasks with their seats, which are split off from first ones.
ghost use Rattle.std.specs.Prelude.{◌≡◌, ◌+◌, ◌<◌, ◌≤◌, All, IfOk, OnOk, Some, length};
ghost use Rattle.shared_objects.specs.Holding.{LocksHold};
ghost use Rattle.shared_objects.specs.Opening.{AreFirst, AreNew, AreTasksAt, IsTaskAt, IsTaskFor};
ghost use Rattle.shared_objects.specs.Rans.{most_tasks};

use crate::locks::Locks;
use crate::ran::Ran;
use crate::rows::split_row;
use crate::seats::TaskSeats;
use std::alloc::{AllocError, Global};
use task_core::Task;

// The seats of the task of this number, which is one for each task before it. No call was made by them.
fn split_seats(
    alloc: Global,
    locks: &Locks,
    firsts: &mut TaskSeats,
    number: u32,
) -> Result<TaskSeats, AllocError>
    requires firsts { AreFirst number locks.now firsts.old }
    requires few { number < 65535 }
    ensures new_ones { IfOk result (AreNew number locks.now) }
    ensures firsts { OnOk result (AreFirst (number + 1) locks.now firsts.new) }
{
    let bios = split_row(alloc, &locks.bios, &mut firsts.bios)?;
    let records = split_row(alloc, &locks.records, &mut firsts.records)?;
    let lists = split_row(alloc, &locks.lists, &mut firsts.lists)?;
    let disks = split_row(alloc, &locks.disks, &mut firsts.disks)?;
    let books = split_row(alloc, &locks.books, &mut firsts.books)?;
    let vecs = locks.vecs.split(&mut firsts.vecs);
    let tally = locks.tally.split(&mut firsts.tally);
    let Some(first) = &mut firsts.pass else {
        unreachable!()
    };
    let pass = locks.common.clock().split(first);
    Ok(TaskSeats {
        number,
        pass: Some(pass),
        bios,
        vecs,
        records,
        lists,
        disks,
        books,
        tally,
    })
}

// The task of this number with its seats.
fn share_task(
    alloc: Global,
    locks: &Locks,
    firsts: &mut TaskSeats,
    task: Task,
    number: u32,
) -> Result<Ran, AllocError>
    requires locks { LocksHold locks.now }
    requires task { IsTaskFor locks.now task }
    requires firsts { AreFirst number locks.now firsts.old }
    requires few { number < 65535 }
    ensures ran { IfOk result (λ ran. IsTaskAt locks.now number task (Some ran)) }
    ensures firsts { OnOk result (AreFirst (number + 1) locks.now firsts.new) }
{
    let seats = split_seats(alloc, locks, firsts, number)?;
    Ok(Ran::new(alloc, task, seats, locks))
}

// All tasks with their seats, in their order.
pub(crate) fn share_tasks(
    alloc: Global,
    locks: &Locks,
    firsts: &mut TaskSeats,
    tasks: Vec<Task>,
) -> Result<Vec<Option<Ran>>, AllocError>
    requires locks { LocksHold locks.now }
    requires tasks { All (IsTaskFor locks.now) tasks.items }
    requires few { length tasks.items ≤ most_tasks }
    requires firsts { AreFirst 0 locks.now firsts.old }
    ensures tasks { IfOk result (λ slots. AreTasksAt locks.now tasks.items slots.items) }
    ensures firsts { OnOk result (AreFirst (length tasks.items) locks.now firsts.new) }
{
    let mut slots = Vec::with_capacity(alloc, tasks.len())?;
    let mut number = 0;
    'sharing: for task in tasks {
        let ran = share_task(alloc, locks, firsts, task, number)?;
        slots.push(Some(ran))?;
        number += 1;
    }
    Ok(slots)
}
