//! Calls of the objects that steps of several kinds make.
ghost use Rattle.std.specs.Prelude.{◌≡◌};
ghost use Rattle.stack_base.specs.declared.ids.SetId.TheVariants.{Of};
ghost use Rattle.task_steps.specs.declared.step.Step.TheVariants.{Blocked};
ghost use Rattle.run_machine.specs.Requests.{TakeBio, Link as LinkOf};
ghost use Rattle.run_machine.specs.Submissions.{after_miss};
ghost use Rattle.run_machine.specs.Events.{take_of, miss_of};
ghost use Rattle.task_steps.specs.Views.{opening_of, IsAskAlone};
ghost use Rattle.task_steps.specs.Turns.{named_node, step_by, idle_step};
ghost use Rattle.task_steps.specs.SubmissionViews.{want_of, IsWantAlone, IsAttemptAlone};
ghost use Rattle.task_steps.specs.Answers.{punt_request, AttemptDoes, PuntDoes, OpeningDoes, Ready};

use crate::objects::{Ask, Objects, Unmade};
use crate::routes::Routes;
use crate::step::Step;
use crate::submission::{HandedBack, Want};
use bio_books::Link;
use bio_lists::SubmissionLists;
use bio_records::TaskLists;
use mempool_core::Taken;
use run_machine::{Breach, Event, Got, TaskId, What};
use stack_base::{DevId, PoolId, SetId};

// What is told of an attempt.
fn take_of(waits: bool, pool: PoolId, got: Got) -> What
    ensures { result ≡ take_of waits pool got }
{
    if waits {
        What::Take { pool, got }
    } else {
        What::Try { pool, got }
    }
}

/// The step of an attempt that had an element.
pub(crate) fn had(task: TaskId, waits: bool, pool: PoolId, got: Got) -> Step
    ensures { result ≡ Step.Stepped (record { task = task; what = take_of waits pool got }) }
{
    Step::Stepped(Event {
        task,
        what: take_of(waits, pool, got),
    })
}

/// The step of one that missed: an attempt that waits and used up no entry of the pool's script is not told.
pub(crate) fn missed(task: TaskId, waits: bool, used: bool, pool: PoolId) -> Step
    ensures { result ≡ step_by task (miss_of waits used pool) (Blocked pool) }
{
    if waits && !used {
        return Step::Blocked(pool);
    }
    had(task, waits, pool, Got::Missed)
}

/// The step of a task that found nothing, where so many writes are unfinished.
pub(crate) fn idle(left: u32) -> Step
    ensures { result ≡ idle_step left }
{
    if left == 0 {
        Step::Ended
    } else {
        Step::Waiting
    }
}

// What is wanted behind a miss.
fn behind_miss(waits: bool) -> Want
    ensures want { want_of result ≡ after_miss waits }
    ensures alone { IsWantAlone result }
{
    if waits {
        Want::Takes { waits }
    } else {
        Want::Punts
    }
}

/// Takes a bio of a device's set, and answers what is wanted next.
pub(crate) fn attempt<O: Objects>(
    objects: &mut O,
    task: TaskId,
    dev: DevId,
    waits: bool,
) -> Result<(Want, Step), Unmade>
    requires ready { Ready O.Objects objects.old (TakeBio (Of dev) waits) }
    ensures does { AttemptDoes O.Objects task dev waits objects.old result objects.new }
    ensures alone { IsAttemptAlone result }
{
    let pool = PoolId::Bios(dev);
    match objects.take_bio(SetId::Of(dev), waits) {
        Ok(Taken::Ordinary(hand)) => Ok((
            Want::Links { hand },
            had(task, waits, pool, Got::Ordinary),
        )),
        Ok(Taken::Spare(hand)) => Ok((Want::Links { hand }, had(task, waits, pool, Got::Spare))),
        Ok(Taken::Miss { used }) => Ok((behind_miss(waits), missed(task, waits, used, pool))),
        Err(back) => Err(back),
    }
}

/// Hands the bios of a device's set to its rescuer (`punt_bios_to_rescuer`, `block/bio.c`). Where it can't, they are out of the lists all the
/// same, and come back.
pub(crate) fn punt_all<O: Objects>(
    objects: &mut O,
    task: TaskId,
    dev: DevId,
    lists: &mut TaskLists,
) -> Result<Step, Unmade>
    requires ready { Ready O.Objects objects.old (punt_request dev lists.old) }
    ensures does { PuntDoes O.Objects task dev lists.old objects.old result lists.new objects.new }
{
    let punted = lists.punt(SetId::Of(dev));
    let moved = punted.len();
    match objects.punt(dev, punted) {
        Ok(()) => Ok(Step::Stepped(Event {
            task,
            what: What::Punt { dev, moved },
        })),
        Err(back) => Err(back),
    }
}

// The node that is named where one is opened, if one is.
fn named(ask: &Ask) -> u32
    ensures { result ≡ named_node (opening_of ask.now) }
{
    match ask {
        Ask::Write { .. } => 0,
        Ask::Chain { parent } | Ask::Master { parent, .. } => *parent,
        Ask::Leg { master } => *master,
    }
}

/// Opens a node in the book of a writer, and answers its place, or why there is none with what came back.
#[inline(always)] // as `Task::step`
pub(crate) fn open_node<O: Objects>(
    objects: &mut O,
    routes: &Routes,
    writer: u32,
    ask: Ask,
) -> Result<u32, (Breach, HandedBack)>
    requires ready { Ready O.Objects objects.old (LinkOf writer (opening_of ask)) }
    requires alone { IsAskAlone ask }
    ensures does { OpeningDoes O.Objects routes.now writer (opening_of ask) objects.old result objects.new }
{
    let node = named(&ask);
    match objects.link(writer, ask) {
        Ok(Link::Made(place)) => Ok(place),
        Ok(Link::NoRoom(back)) => {
            let places = routes.places(writer);
            Err((
                Breach::NoRoom { writer, places },
                HandedBack::Unlinked(back),
            ))
        }
        Ok(Link::Stray(back)) => Err((Breach::Stray { writer, node }, HandedBack::Unlinked(back))),
        Err(back) => Err((Breach::Spent, HandedBack::Unmade(back))),
    }
}
