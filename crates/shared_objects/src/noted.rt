//! What a task notes of its events.
ghost use Rattle.std.specs.Prelude.{◌≡◌, Some};
ghost use Rattle.shared_objects.specs.Noting.{AddsNote, IsBlank};

use crate::by_fields::event_by_fields;
use run_machine::Event;
use std::alloc::Global;

/// The events that a task has noted, with their tickets, in the order in which it had them. The list grows as the task goes on.
#[derive(Drop)]
pub struct Noted {
    pub events: Vec<(u64, Event)>,
    /// Whether these are all events that the task has had. Where there was no memory for one, the list ends before it.
    pub whole: bool,
}

impl Noted {
    /// A list with no event. It takes no memory.
    pub fn new(alloc: Global) -> Noted
        ensures { IsBlank (Some result) }
    {
        Noted {
            events: Vec::new(alloc),
            whole: true,
        }
    }

    /// Notes an event with its ticket behind the others. Once there was no memory for one, it notes no more.
    pub(crate) fn note(&mut self, ticket: u64, event: Event)
        ensures { AddsNote (ticket, event) self.old self.new }
    {
        if self.whole {
            self.whole = self.events.push((ticket, event_by_fields(event))).is_ok();
        }
    }
}
