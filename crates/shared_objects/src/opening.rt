//! Opened objects behind locks.
ghost use Rattle.std.specs.Prelude.{◌≡◌, IfOk};
ghost use Rattle.task_core.specs.opened.OfOne.{IsOpened};
ghost use Rattle.shared_objects.specs.Shared.{SharedHolds};

mod guards;
mod locking;
mod rooms;
mod splitting;

use crate::opening::locking::lock_objects;
use crate::opening::rooms::room_for;
use crate::opening::splitting::share_tasks;
use crate::shared::Shared;
use object_things::Common;
use std::alloc::{AllocError, Global};
use std::snapshot::Snapshot;
use std::sync::Arc;
use task_core::Opened;
use tick_clock::Clock;

/// Puts opened objects behind locks, and gives each task seats of its own, and where a trace is wanted a list for its events. All memory that
/// the close of them wants is reserved here; the lists grow as the tasks go on.
///
/// It takes no runtime, since a desk hands the calls of a lock theirs. So it is proved to return.
///
/// # Errors
///
/// Where there is no memory for the locks, for the tasks or for what is left of them. All that was opened is dropped then.
pub fn share(alloc: Global, opened: Opened, trace: bool) -> Result<Shared, AllocError>
    requires opened { IsOpened opened }
    ensures shared { IfOk result SharedHolds }
    ensures told { IfOk result (λ shared. shared.told.value ≡ opened) }
    ensures untaken { IfOk result (λ shared. shared.next ≡ 0) }
    ensures trace { IfOk result (λ shared. shared.locks.trace ≡ trace) }
{
    let told = Snapshot::of(&opened);
    let (objects, tasks, ended) = opened.parts();
    let (clock, pass) = Clock::new(alloc)?;
    let common = Arc::new(alloc, Common::new(clock, Snapshot::of(&objects)))?;
    let (locks, mut firsts) = lock_objects(alloc, objects, common, pass, trace)?;
    let room = room_for(alloc, &locks, tasks.len(), ended)?;
    let tasks = share_tasks(alloc, &locks, &mut firsts, tasks)?;
    Ok(Shared {
        locks,
        firsts,
        tasks,
        next: 0,
        room,
        told,
    })
}
