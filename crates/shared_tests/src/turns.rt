//! Tasks of shared objects that step in turn, each at its desk, on one thread.
ghost use Rattle.std.specs.Prelude.{◌≡◌, [], ◌∷◌, IfOk, OnOk};
ghost use Rattle.shared_objects.specs.Left.{HasClosed};
ghost use Rattle.shared_objects.specs.Rans.{ran_key};
ghost use Rattle.shared_objects.specs.Shared.{SharedHolds};
ghost use Rattle.shared_tests.specs.StillOut.{AreStillOut};

use shared_objects::laws::steps_keep_tasks;
use shared_objects::{Closed, Locks, Ran, Shared};
use std::alloc::{AllocError, Global};
use std::collections::VecDeque;
use std::sync::Wait;
use task_core::Oldest;

// Takes all tasks, in their order.
fn take_all(alloc: Global, shared: &mut Shared) -> Result<VecDeque<Ran>, AllocError>
    requires holds { SharedHolds shared.old }
    requires untaken { shared.old.next ≡ 0 }
    ensures { IfOk result (λ out. AreStillOut shared.old.told.value shared.new out.items) }
{
    let mut out = VecDeque::new(alloc);
    while let Some(ran) = shared.take_task() {
        out.push_back(ran)?;
    }
    Ok(out)
}

/// Steps a task once, at its desk.
pub(crate) fn stepped_at_desk<R: Wait>(rt: &R, locks: &Locks, ran: Ran) -> Ran
    requires { ran.home ≡ locks.now }
    ensures { ran_key result ≡ ran_key ran }
{
    let (mut task, seats, mut progress) = ran.parts();
    let mut desk = locks.desk(rt, seats);
    let step = desk.step(&mut task, &mut Oldest);
    progress.goes_on(step, desk.seen());
    let seats = desk.back();
    steps_keep_tasks();
    Ran::of(task, seats, progress)
}

// Steps a task once. It goes behind the others, or back where it has stopped.
fn turn<R: Wait>(
    rt: &R,
    shared: &mut Shared,
    ran: Ran,
    out: &mut VecDeque<Ran>,
) -> Result<(), AllocError>
    requires { AreStillOut shared.old.told.value shared.old (ran ∷ out.old.items) }
    ensures { OnOk result (AreStillOut shared.old.told.value shared.new out.new.items) }
{
    let ran = stepped_at_desk(rt, shared.locks(), ran);
    if ran.stopped() {
        shared.put_task(ran);
        return Ok(());
    }
    out.push_back(ran)?;
    Ok(())
}

// Steps tasks in turn until each of them is back.
fn turn_all<R: Wait>(rt: &R, shared: &mut Shared, out: VecDeque<Ran>) -> Result<(), AllocError>
    requires { AreStillOut shared.old.told.value shared.old out.items }
    ensures { OnOk result (AreStillOut shared.old.told.value shared.new []) }
{
    let mut out = out;
    for _ in rt.forever() {
        let Some(ran) = out.pop_front() else {
            return Ok(());
        };
        turn(rt, shared, ran, &mut out)?;
    }
    unreachable!()
}

/// Steps all tasks of shared objects in turn, on this thread, until each has ended or cannot go on, and closes the objects.
///
/// # Errors
///
/// Where there is no memory for a list of the tasks.
pub fn close_in_turn<R: Wait>(rt: &R, alloc: Global, shared: Shared) -> Result<Closed, AllocError>
    requires holds { SharedHolds shared }
    requires untaken { shared.next ≡ 0 }
    ensures closed { IfOk result HasClosed }
    ensures told { IfOk result (λ closed. closed.told.value ≡ shared.told.value) }
{
    let mut shared = shared;
    let out = take_all(alloc, &mut shared)?;
    turn_all(rt, &mut shared, out)?;
    Ok(shared.close())
}
