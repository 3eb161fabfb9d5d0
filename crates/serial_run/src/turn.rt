//! Turns: the task that a word names is tried, and then those behind it, up to the first that has an event.
ghost use Rattle.std.specs.Prelude.{◌≡◌, ◌+◌, ◌%◌, ◌<◌, ◌≤◌, length};
ghost use Rattle.task_core.specs.opened.OfOne.{run_state, AreOfOne};
ghost use Rattle.task_core.specs.Plains.{stage_of};
ghost use Rattle.task_core.specs.PlainSteps.{scene_of_objects};
ghost use Rattle.run_machine.specs.Runs.{HasFree, unfinished};
ghost use Rattle.serial_run.specs.Turning.{GoesWell, HandsEvent, TriedOver, TurnHandsOnOver};

use crate::events::Events;
use crate::schedule::Schedule;
use task_core::{Plain, Step, Task};

// Hands on the event of a step, and answers whether there was one.
fn hand_on<V: Events>(step: Step, events: &mut V) -> bool
    ensures { HandsEvent V.happens step events.old result events.new }
{
    match step {
        Step::Stepped(event) => {
            events.event(&event);
            true
        }
        Step::Blocked(_) | Step::Waiting | Step::Ended | Step::Broken(_) => false,
    }
}

// Tries the task at a place, and answers whether it had an event, which is handed on.
fn attempt<V: Events>(
    objects: &mut Plain,
    tasks: &mut [Task],
    place: usize,
    schedule: &mut Schedule,
    events: &mut V,
) -> bool
    requires one { AreOfOne objects.old tasks.old }
    requires place { place < length tasks.old }
    requires well { GoesWell (scene_of_objects objects.old (length tasks.old)) (run_state objects.old tasks.old) }
    ensures tried { TriedOver V.happens objects.old tasks.old place schedule.old events.old result objects.new tasks.new schedule.new events.new }
    ensures one { AreOfOne objects.new tasks.new }
    ensures same { stage_of objects.new ≡ stage_of objects.old }
{
    let step = tasks[place].step(objects, schedule);
    hand_on(step, events)
}

// The place that a word names among so many. A turn knows its task only then, and a division takes long. By a number that is known here it is a
// product and a shift, and few runs have more tasks than these.
fn named(word: usize, count: usize) -> usize
    requires { 1 ≤ count }
    ensures { result ≡ word % count }
{
    match count {
        2 => word % 2,
        3 => word % 3,
        4 => word % 4,
        5 => word % 5,
        6 => word % 6,
        7 => word % 7,
        8 => word % 8,
        9 => word % 9,
        10 => word % 10,
        11 => word % 11,
        12 => word % 12,
        _ => word % count,
    }
}

// The place behind this one, with the first behind the last of so many.
fn following(place: usize, count: usize) -> usize
    requires { place < count }
    ensures { result ≡ (place + 1) % count }
{
    if place + 1 == count { 0 } else { place + 1 }
}

/// A turn: it takes a word and tries the task that this names, and then the following ones, up to the first that has an event. While a write is
/// unfinished one has.
pub(crate) fn turn<V: Events>(
    objects: &mut Plain,
    tasks: &mut [Task],
    schedule: &mut Schedule,
    events: &mut V,
)
    requires one { AreOfOne objects.old tasks.old }
    requires some { 1 ≤ unfinished (run_state objects.old tasks.old) }
    requires well { GoesWell (scene_of_objects objects.old (length tasks.old)) (run_state objects.old tasks.old) }
    requires free { HasFree (scene_of_objects objects.old (length tasks.old)) (run_state objects.old tasks.old) }
    ensures turned { TurnHandsOnOver V.happens objects.old tasks.old schedule.old events.old objects.new tasks.new schedule.new events.new }
    ensures one { AreOfOne objects.new tasks.new }
    ensures same { stage_of objects.new ≡ stage_of objects.old }
{
    let count = tasks.len();
    let mut place = named(schedule.word() as usize, count);
    'trying: for passed in 0..count {
        if attempt(objects, tasks, place, schedule, events) {
            return;
        }
        place = following(place, count);
    }
    unreachable!()
}
