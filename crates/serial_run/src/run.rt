//! The run of a scenario by one thread.
ghost use Rattle.task_core.specs.opened.OfOne.{IsOpened};
ghost use Rattle.serial_run.specs.Serial.{IsSerialRun};

use crate::events::Events;
use crate::left::leave;
use crate::schedule::Schedule;
use crate::turn::turn;
use task_core::{Ended, Opened, drop_tasks};

/// Runs a scenario to its end: turn by turn in the order of the schedule's words, until no write is unfinished. Each event is handed on as it
/// happens. It takes no memory but for ordinary elements, and where these are refused the run goes on with spares and misses.
///
/// It is what an accepted text was opened as.
pub fn run_serial<V: Events>(opened: Opened, schedule: &mut Schedule, events: &mut V) -> Ended
    requires opened { IsOpened opened }
    ensures ran { IsSerialRun V.happens opened schedule.old events.old schedule.new events.new result }
{
    let mut objects = opened.objects;
    let mut listed = opened.tasks;
    let tasks = listed.as_mut_slice();
    let room = opened.room;
    let mut steps = 0;
    'turns: while objects.tally.left() > 0 {
        turn(&mut objects, tasks, schedule, events);
        steps += 1;
    }
    let ended = leave(objects, tasks, room, steps);
    drop_tasks(listed);
    ended
}
