//! What a run leaves whose objects were shared.
ghost use Rattle.std.specs.Prelude.{◌≡◌, IfOk, IsOk, false};
ghost use Rattle.std.specs.Option.{is_some};
ghost use Rattle.shared_objects.specs.Left.{HasClosed};
ghost use Rattle.run_merge.specs.Outcomes.{IsOutcomeOf};

use crate::left::{disks_of, events_of, pools_of, statuses_of};
use crate::trace::trace_of;
use run_machine::Event;
use shared_objects::{Closed, drop_rest};
use std::alloc::{AllocError, Global};
use task_core::Ended;

/// What the merge of closed objects comes to.
#[derive(Drop)]
pub struct Outcome {
    /// What the run leaves.
    pub ended: Ended,
    /// Its events in their order, where there is a trace.
    pub events: Option<Vec<Event>>,
}

/// What closed objects leave of their run: the merge of their histories is one that has ended. With a trace its events come with it.
///
/// Without a trace it takes no memory. No image is copied.
///
/// What a close answers (`HasClosed`) is asked for as a condition and not by the type: what is closed is handed on by its fields, and a reader sees
/// in the clause what this rests on.
///
/// # Errors
///
/// With a trace: where there was no memory for a task to note one of its events, or there is none to join what all tasks noted.
pub fn merge(alloc: Global, closed: Closed) -> Result<Outcome, AllocError>
    requires closed { HasClosed closed }
    ensures merged { IfOk result (IsOutcomeOf closed) }
    ensures untraced { is_some closed.trace ≡ false → IsOk result }
{
    let parts = closed.parts();
    let room = parts.room;
    let steps = events_of(&parts.tasks);
    drop_rest(
        parts.lists,
        parts.books,
        parts.told,
        parts.tasks,
        parts.pass,
    );
    let events = trace_of(alloc, parts.trace)?;
    let disks = disks_of(parts.disks, room.disks);
    let pools = pools_of(parts.bios, parts.vecs, parts.records, room.pools);
    let statuses = statuses_of(parts.tally);
    Ok(Outcome {
        ended: Ended {
            statuses,
            disks,
            pools,
            steps,
        },
        events,
    })
}
