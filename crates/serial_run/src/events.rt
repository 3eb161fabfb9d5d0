//! What the events of a run are handed to.
ghost use Rattle.run_machine.specs.declared.event.Event.{Event as Told};

use task_core::Event;

/// What the events of a run are handed to, one by one, as they happen.
pub trait Events {
    /// What becomes of it: before, the event, and after.
    ghost happens: { Self → Told → Self → Type 0 };

    /// This has happened.
    fn event(&mut self, event: &Event)
        ensures { happens self.old event.now self.new };
}
