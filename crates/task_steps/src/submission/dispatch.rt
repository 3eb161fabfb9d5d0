//! Which driver a bio goes to, and which part of a submission its next step is (`__submit_bio_noacct`, `block/blk-core.c`).
ghost use Rattle.std.specs.Prelude.{◌≡◌, ◌<◌, length, true, None};
ghost use Rattle.bio_records.specs.Items.{item_of, IsAlone};
ghost use Rattle.run_machine.specs.Submissions.{Rests, Drives, goes_on, is_cut};
ghost use Rattle.task_steps.specs.declared.submission.Doing.TheVariants as doing';
ghost use Rattle.task_steps.specs.Within.{IsWithinDevice, ListsAreWithin, DoingFits, SubmissionIsWithin};
ghost use Rattle.task_steps.specs.Routed.{routing_setup, routed_tree};
ghost use Rattle.task_steps.specs.SubmissionViews.{asking, cutting, copying, attempt_of, ask_of, doing_of, submission_of, IsWantAlone, IsAskOfAlone, IsDoingAlone, is_asking};
ghost use Rattle.task_steps.specs.Answers.{AsksFirst, SubmissionReady};
ghost use Rattle.task_steps.specs.DriverSteps.{AskDoes, CutDoes, LegDoes, TurnDoes, routed_landing};

use crate::objects::Objects;
use crate::routes::Routes;
use crate::routes::driver::Manner;
use crate::step::Step;
use crate::submission::cut::{chain, punt_to_cut};
use crate::submission::mirror::{Copying, leg, master, punt_to_copy, take_record};
use crate::submission::push::push;
use crate::submission::{Doing, DriverAsk, Want, put};
use bio_lists::SubmissionLists;
use bio_records::{BioElement, TaskLists};
use run_machine::TaskId;
use stack_base::DevId;

// What the driver of a device does with a bio that has come to it.
fn asked(routes: &Routes, dev: DevId, lists: &TaskLists) -> DriverAsk
    requires { dev.0 < length routes.now.stack.devices.items }
    ensures asks { AsksFirst routes.now lists.now dev (ask_of result) }
    ensures alone { IsAskOfAlone result }
{
    match routes.manner(dev) {
        Manner::Keeps => DriverAsk::ToPush,
        Manner::Cuts => DriverAsk::ToCut(Want::Takes {
            waits: routes.waits_first(dev, lists),
        }),
        Manner::Copies => DriverAsk::ToRecord,
    }
}

// The bio goes to its driver, while these wait.
#[inline(always)] // as `Submission::becomes`
pub(crate) fn serve(routes: &Routes, mut bio: BioElement, at: &mut Doing, lists: &TaskLists)
    requires rests { at.old ≡ doing'.Rests }
    requires within { IsWithinDevice routes.now.stack (item_of bio).bio }
    requires alone { IsAlone bio }
    ensures submission { submission_of at.new lists.now ≡ routed_landing routes.now lists.now (item_of bio) }
    ensures alone { IsDoingAlone at.new }
{
    bio.body.bio = routes.land(bio.body.bio);
    let ask = asked(routes, bio.body.bio.dev, lists);
    put(at, Doing::Drives { bio, ask });
}

// The driver of a device has returned: the next bio goes to its driver, if one waits.
#[inline(always)] // as `Submission::becomes`
pub(crate) fn go_on(routes: &Routes, at: &mut Doing, lists: &mut TaskLists, served: DevId)
    requires rests { at.old ≡ doing'.Rests }
    requires lists { ListsAreWithin routes.now.stack lists.old }
    ensures submission { submission_of at.new lists.new ≡ goes_on (routing_setup routes.now) served lists.old }
    ensures alone { IsDoingAlone at.new }
{
    if let Some(bio) = lists.next(served) {
        serve(routes, bio, at, lists);
    }
}

// What a driver that cuts does next.
fn cut<O: Objects>(
    objects: &mut O,
    routes: &Routes,
    task: TaskId,
    bio: BioElement,
    want: Want,
    at: &mut Doing,
    lists: &mut TaskLists,
) -> Step
    requires ready { SubmissionReady O.Objects objects.old routes.now (cutting bio want) lists.old }
    requires alone { IsAlone bio × IsWantAlone want }
    requires rests { at.old ≡ doing'.Rests }
    requires no_attempt { attempt_of (cutting bio want) ≡ None }
    requires within { IsWithinDevice routes.now.stack (item_of bio).bio }
    requires cut { is_cut (routed_tree routes.now (item_of bio).bio.dev) (item_of bio).bio.range ≡ true }
    requires lists { ListsAreWithin routes.now.stack lists.old }
    ensures does { CutDoes O.Objects routes.now task bio want lists.old objects.old (at.new, result) lists.new objects.new }
    ensures alone { IsDoingAlone at.new }
{
    match want {
        Want::Takes { .. } => unreachable!(),
        Want::Punts => punt_to_cut(objects, task, bio, at, lists),
        Want::Links { hand } => chain(objects, routes, task, bio, hand, at, lists),
    }
}

// What the driver of the bio's device does next.
fn drive<O: Objects>(
    objects: &mut O,
    routes: &Routes,
    task: TaskId,
    bio: BioElement,
    ask: DriverAsk,
    at: &mut Doing,
    lists: &mut TaskLists,
) -> Step
    requires ready { SubmissionReady O.Objects objects.old routes.now (asking bio ask) lists.old }
    requires alone { IsAlone bio × IsAskOfAlone ask }
    requires rests { at.old ≡ doing'.Rests }
    requires no_attempt { attempt_of (asking bio ask) ≡ None }
    requires within { DoingFits routes.now.stack (asking bio ask) }
    requires lists { ListsAreWithin routes.now.stack lists.old }
    ensures does { AskDoes O.Objects routes.now task bio ask lists.old objects.old (at.new, result) lists.new objects.new }
    ensures alone { IsDoingAlone at.new }
{
    match ask {
        DriverAsk::ToPush => push(objects, routes, task, bio, at, lists),
        DriverAsk::ToCut(want) => cut(objects, routes, task, bio, want, at, lists),
        DriverAsk::ToRecord => take_record(objects, task, bio, at, lists),
        DriverAsk::ToMaster(slip) => master(objects, routes, task, bio, slip, at, lists),
    }
}

// What a mirror does next for a leg.
fn copy<O: Objects>(
    objects: &mut O,
    routes: &Routes,
    task: TaskId,
    run: Copying,
    want: Want,
    at: &mut Doing,
    lists: &mut TaskLists,
) -> Step
    requires ready { SubmissionReady O.Objects objects.old routes.now (copying run want) lists.old }
    requires alone { IsWantAlone want }
    requires rests { at.old ≡ doing'.Rests }
    requires no_attempt { attempt_of (copying run want) ≡ None }
    requires within { DoingFits routes.now.stack (copying run want) }
    requires lists { ListsAreWithin routes.now.stack lists.old }
    ensures does { LegDoes O.Objects routes.now task run want lists.old objects.old (at.new, result) lists.new objects.new }
    ensures alone { IsDoingAlone at.new }
{
    match want {
        Want::Takes { .. } => unreachable!(),
        Want::Punts => punt_to_copy(objects, task, run, at, lists),
        Want::Links { hand } => leg(objects, routes, task, run, hand, at, lists),
    }
}

// The next step of a submission that has something to ask for, which is no attempt at a bio for a piece or a leg.
pub(crate) fn turn<O: Objects>(
    objects: &mut O,
    routes: &Routes,
    task: TaskId,
    doing: Doing,
    at: &mut Doing,
    lists: &mut TaskLists,
) -> Step
    requires ready { SubmissionReady O.Objects objects.old routes.now (doing_of doing) lists.old }
    requires alone { IsDoingAlone doing }
    requires asks { is_asking (doing_of doing) ≡ true }
    requires rests { at.old ≡ doing'.Rests }
    requires no_attempt { attempt_of (doing_of doing) ≡ None }
    requires within { SubmissionIsWithin routes.now.stack (submission_of doing lists.old) }
    ensures does { TurnDoes O.Objects routes.now task doing lists.old objects.old (at.new, result) lists.new objects.new }
    ensures alone { IsDoingAlone at.new }
{
    match doing {
        Doing::Drives { bio, ask } => drive(objects, routes, task, bio, ask, at, lists),
        Doing::Copies {
            bio,
            master,
            leg,
            want,
        } => copy(
            objects,
            routes,
            task,
            Copying { bio, master, leg },
            want,
            at,
            lists,
        ),
        Doing::Rests | Doing::Breaks { .. } => unreachable!(),
    }
}
