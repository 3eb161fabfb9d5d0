//! The event that an element of a closed node went back, and the pool that it went to.
ghost use Rattle.std.specs.Prelude.{◌≡◌};
ghost use Rattle.run_machine.specs.declared.event.TaskId.TheVariants as TaskId';
ghost use Rattle.run_machine.specs.declared.event.What.TheVariants as What';
ghost use Rattle.task_steps.specs.declared.step.Step.TheVariants as Step';
ghost use Rattle.run_machine.specs.Events.{pool_of};

use crate::step::Step;
use run_machine::{Event, TaskId, What};
use stack_base::{DevId, PoolId};

/// The pool of a number: 2d and 2d + 1 are the bios and the records of device d, 64 is the writers' vectors, and 65 their bios.
pub fn pool_of(number: u32) -> PoolId
    ensures { result ≡ pool_of number }
{
    if number == 65 {
        PoolId::FsBios
    } else if number == 64 {
        PoolId::FsVecs
    } else if number % 2 == 0 {
        PoolId::Bios(DevId(number / 2))
    } else {
        PoolId::Records(DevId(number / 2))
    }
}

/// The event that an element went back to its pool.
pub(crate) fn gives(disk: DevId, pool: PoolId) -> Step
    ensures { result ≡ Step'.Stepped (record { task = TaskId'.Completer disk; what = What'.Give pool }) }
{
    Step::Stepped(Event {
        task: TaskId::Completer(disk),
        what: What::Give { pool },
    })
}
