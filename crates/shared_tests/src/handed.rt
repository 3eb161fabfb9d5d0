//! The order in which tasks are handed out.
ghost use Rattle.shared_objects.specs.Shared.{SharedHolds};

use crate::opened::{TWO_DISKS, shared_of};
use shared_objects::Shared;
use std::alloc::Global;
use std::test::Fail;
use task_core::TaskId;
use task_tests::texts::{CA, CB, K, R2, W0, W1};

/// Texts, and their tasks.
const TASKS: &[(&str, &[TaskId])] = &[
    ("", &[]),
    ("disk a 64\nwrite 0 a 0 1 0\n", &[W0, CA]),
    (TWO_DISKS, &[W0, W1, CA, CB]),
    (
        "disk a 8\ndisk b 8\nmirror m a b\nwrite 0 m 0 1 0\nsync\nwrite 1 m 1 1 64\n",
        &[W0, W1, R2, CA, CB, K],
    ),
];

// The task that is handed out next.
fn next_name(shared: &mut Shared) -> Option<TaskId>
    requires { SharedHolds shared.old }
    ensures { SharedHolds shared.new }
{
    let ran = shared.take_task()?;
    Some(ran.id())
}

// Whether a task has this name.
fn is_named(found: Option<TaskId>, name: TaskId) -> bool {
    match (found, name) {
        (Some(TaskId::Writer(number)), TaskId::Writer(other)) => number == other,
        (Some(TaskId::Rescuer(dev)), TaskId::Rescuer(other)) => dev == other,
        (Some(TaskId::Completer(dev)), TaskId::Completer(other)) => dev == other,
        (Some(TaskId::Keeper), TaskId::Keeper) => true,
        _ => false,
    }
}

// Whether a text's tasks are handed out in this order, and then none.
fn hands_out(alloc: Global, text: &str, names: &[TaskId]) -> Result<bool, Fail> {
    let mut shared = shared_of(alloc, text)?;
    'naming: for name in names {
        if !is_named(next_name(&mut shared), *name) {
            return Ok(false);
        }
    }
    Ok(next_name(&mut shared).is_none())
}

// No clause of these calls says which tasks a text has: writers by number, rescuers by device, completers by disk, and the keeper.
#[test]
fn tasks_are_handed_out_in_their_order(rt: HostRuntime) -> Result<(), Fail> {
    for (text, names) in TASKS {
        assert!(rt; hands_out(rt.alloc(), text, names)?, "{text}");
    }
    Ok(())
}
