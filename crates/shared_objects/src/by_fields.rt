//! Values that are handed on, put together anew from their fields.
//!
//! A call's reply, and what a step came to, pass through many frames, which all stand in one function of the built program. There a field is held in
//! a register, but bytes that are only ever moved along with others, as those behind a last short field, are copied through the memory of each of
//! these frames. Where the last of them takes a value by its fields, the compiler holds all of it in registers from where it was made.
ghost use Rattle.std.specs.Prelude.{◌≡◌};

use bio_books::{ClosedNode, Dropped};
use elem_ledger::Element;
use model_disks::Done;
use run_machine::{Event, What};

/// The same event. A push has the most fields.
#[inline(always)] // so that its caller's frames have the fields
pub(crate) fn event_by_fields(event: Event) -> Event
    ensures { result ≡ event }
{
    let Event { task, what } = event;
    match what {
        What::Push { disk, at, len, leg } => Event {
            task,
            what: What::Push { disk, at, len, leg },
        },
        _ => event,
    }
}

// The same node.
#[inline(always)] // as `event_by_fields`
fn closed_by_fields(closed: ClosedNode) -> ClosedNode
    ensures { result ≡ closed }
{
    let ClosedNode {
        held,
        parent,
        write,
        status,
    } = closed;
    ClosedNode {
        held,
        parent,
        write,
        status,
    }
}

/// The same of what a drop came to.
#[inline(always)] // as `event_by_fields`
pub(crate) fn dropped_by_fields(dropped: Dropped) -> Dropped
    ensures { result ≡ dropped }
{
    match dropped {
        Dropped::Left => Dropped::Left,
        Dropped::Up(closed) => Dropped::Up(closed_by_fields(closed)),
        Dropped::Top(closed) => Dropped::Top(closed_by_fields(closed)),
        Dropped::Stray(part) => Dropped::Stray(part),
    }
}

/// The same of a bio that a disk is done with.
#[inline(always)] // as `event_by_fields`
pub(crate) fn done_by_fields(done: Done) -> Done
    ensures { result ≡ done }
{
    let Done { el, status } = done;
    let (body, share) = el.parts();
    Done {
        el: Element { body, share },
        status,
    }
}
