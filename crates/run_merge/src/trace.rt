//! What tasks noted of their events, as the events of their run.
ghost use Rattle.std.specs.Prelude.{◌≡◌, All, IfOk, IsOk, false};
ghost use Rattle.std.specs.List.Sorted.{IsNonDecreasingBy};
ghost use Rattle.std.specs.Option.{is_some};
ghost use Rattle.run_merge.specs.Listing.{AreWholeLists, IsList, IsTrace, TraceRises, WholeRises};

use crate::joining::join_by_ticket;
use run_machine::Event;
use shared_objects::Noted;
use std::alloc::{AllocError, Global};

// The list of a task, where it is whole.
fn list_of(noted: Noted) -> Result<Vec<(u64, Event)>, AllocError>
    ensures { IfOk result (λ list. IsList noted list.items) }
{
    let Noted { events, whole } = noted;
    if whole { Ok(events) } else { Err(AllocError) }
}

// The lists of all tasks, where each is whole.
fn lists_of(alloc: Global, trace: Vec<Noted>) -> Result<Vec<Vec<(u64, Event)>>, AllocError>
    requires rising { All WholeRises trace.items }
    ensures lists { IfOk result (λ lists. AreWholeLists trace.items lists.items) }
    ensures rising { IfOk result (λ lists. All (λ list. IsNonDecreasingBy (λ e. e.0) list.items) lists.items) }
{
    let mut lists = Vec::with_capacity(alloc, trace.len())?;
    'listing: for noted in trace {
        let list = list_of(noted)?;
        lists.push(list)?;
    }
    Ok(lists)
}

/// The events that tasks noted, in the order of their tickets, where there is a trace.
///
/// # Errors
///
/// With a trace: where some task's list is not whole, or there is no memory to join the lists.
pub(crate) fn trace_of(
    alloc: Global,
    trace: Option<Vec<Noted>>,
) -> Result<Option<Vec<Event>>, AllocError>
    requires rising { TraceRises trace }
    ensures traced { IfOk result (IsTrace trace) }
    ensures untraced { is_some trace ≡ false → IsOk result }
{
    let Some(noted) = trace else {
        return Ok(None);
    };
    let lists = lists_of(alloc, noted)?;
    Ok(Some(join_by_ticket(alloc, lists)?))
}
