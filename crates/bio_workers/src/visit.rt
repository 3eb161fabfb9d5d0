//! A worker's visit of a task.
ghost use Rattle.std.specs.Prelude.{◌≡◌};
ghost use Rattle.bio_workers.specs.Visits.{IsVisit};
ghost use Rattle.bio_workers.specs.declared.work.WorkOutcome.TheVariants.{Over};

use crate::bell::Bell;
use crate::work::{Work, WorkOutcome};
use std::sync::Wait;

/// How often a visit steps a task at the most. With one step a visit, each event of a task would cost a look at each task that waits for it; and
/// without an end, the others would wait for a task that never does.
const MOST_STEPS: u32 = 64;

// Steps a task that has had an event until it meets none, or until the visit has had its steps.
fn step_on<T, R: Wait, W: Work<T>>(rt: &R, work: &W, bell: &Bell, task: &mut T)
    requires { W.can work.now (W.key task.old) }
    ensures { W.key task.new ≡ W.key task.old }
{
    for _ in 1..MOST_STEPS {
        if work.step(rt, task) != WorkOutcome::Happened {
            break;
        }
        bell.ring();
    }
}

/// Steps a task where it stands, and steps it on while that meets events, so often at most. Rings behind each of them. Answers what the first
/// step came to.
pub(crate) fn visit<T, R: Wait, W: Work<T>>(
    rt: &R,
    work: &W,
    bell: &Bell,
    task: &mut T,
) -> WorkOutcome
    requires { W.can work.now (W.key task.old) }
    ensures key { W.key task.new ≡ W.key task.old }
    ensures over { result ≡ Over → W.is_over task.new }
    ensures visit { IsVisit W.goes result task.old task.new }
{
    let came = work.step(rt, task);
    if came == WorkOutcome::Happened {
        bell.ring();
        step_on(rt, work, bell, task);
    }
    came
}
