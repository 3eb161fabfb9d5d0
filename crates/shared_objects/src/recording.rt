//! What is kept of a step of a task.
ghost use Rattle.std.specs.Prelude.{◌≡◌};
ghost use Rattle.task_steps.specs.declared.step.Step.TheVariants.{Stepped};
ghost use Rattle.shared_objects.specs.Noting.{NotesStep};
ghost use Rattle.shared_objects.specs.Rans.{events_after, stopped_after};

use crate::noted::Noted;
use run_machine::Event;
use task_core::Step;

/// Records a step, behind which the task's pass had seen this ticket last: one more event, with its note where that is wanted, or that the task
/// has stopped. Of events 2^64 - 1 are counted at most.
#[inline(always)] // what a step came to is known where it was made
pub(crate) fn record_step(
    step: Step,
    seen: u64,
    events: &mut u64,
    stopped: &mut bool,
    noted: &mut Option<Noted>,
)
    ensures events { events.new ≡ events_after step events.old }
    ensures stopped { stopped.new ≡ stopped_after step stopped.old }
    ensures noted { NotesStep step seen noted.old noted.new }
{
    match step {
        Step::Stepped(event) => {
            *events = events.saturating_add(1);
            note_event(noted, seen, event);
        }
        Step::Ended | Step::Broken(_) => *stopped = true,
        Step::Blocked(_) | Step::Waiting => {}
    }
}

// Notes an event with its ticket, where that is wanted.
#[inline(always)] // as `record_step`
fn note_event(noted: &mut Option<Noted>, ticket: u64, event: Event)
    ensures { NotesStep (Stepped event) ticket noted.old noted.new }
{
    if let Some(list) = noted {
        list.note(ticket, event);
    }
}
