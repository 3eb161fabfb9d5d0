//! Room for what is left of shared objects.
ghost use Rattle.std.specs.Prelude.{IfOk};
ghost use Rattle.shared_objects.specs.Opening.{IsRoomWith};
ghost use Rattle.shared_objects.specs.Shared.{IsRoomForTrace};

use crate::closed::Room;
use crate::locks::Locks;
use crate::noted::Noted;
use std::alloc::{AllocError, Global};
use task_core::Ended;

// Room for what is left of these locks, and of so many tasks. What the run leaves has its room already.
pub(crate) fn room_for(
    alloc: Global,
    locks: &Locks,
    tasks: usize,
    ended: Ended,
) -> Result<Room, AllocError>
    ensures { IfOk result (IsRoomWith locks.now tasks ended) }
{
    Ok(Room {
        bios: Vec::with_capacity(alloc, locks.bios.len())?,
        records: Vec::with_capacity(alloc, locks.records.len())?,
        lists: Vec::with_capacity(alloc, locks.lists.len())?,
        disks: Vec::with_capacity(alloc, locks.disks.len())?,
        books: Vec::with_capacity(alloc, locks.books.len())?,
        tasks: Vec::with_capacity(alloc, tasks)?,
        trace: room_for_trace(alloc, locks.trace, tasks)?,
        ended,
    })
}

// Room for what so many tasks note, where there is a trace.
fn room_for_trace(
    alloc: Global,
    trace: bool,
    tasks: usize,
) -> Result<Option<Vec<Noted>>, AllocError>
    ensures { IfOk result (IsRoomForTrace trace tasks) }
{
    if !trace {
        return Ok(None);
    }
    Ok(Some(Vec::with_capacity(alloc, tasks)?))
}
