//! Steps of submissions.
ghost use Rattle.std.specs.Prelude.{◌≡◌, ◌<◌, length, IfOk};
ghost use Rattle.run_machine.specs.Submissions.{goes_on};
ghost use Rattle.task_steps.specs.Answers.{AsksFirst};
ghost use Rattle.task_steps.specs.Routed.{routing_setup};
ghost use Rattle.task_steps.specs.DriverSteps.{routed_landing};
ghost use Rattle.task_steps.specs.Within.{IsWithinDevice, ListsAreWithin, DoingFits, SubmissionIsWithin};
ghost use Rattle.plain_core.specs.objects.Lists.{lists_of, ListsHaveCapacity};
ghost use Rattle.plain_core.specs.steps.Views.{ask_of_plain, doing_of_plain, submission_of_plain, want_of_plain};
ghost use Rattle.plain_core.specs.declared.steps.submission.Continuation.TheVariants as then;
ghost use Rattle.plain_core.specs.steps.Submissions.{PlainSubmissionMoves, CanTurn, turned_by, drives_for, DriveSteps, DoingSteps};

pub(crate) mod cut;
pub(crate) mod mirror;
pub(crate) mod take;

use crate::fault::CoreFault;
use crate::objects::Objects;
use crate::objects::lists::Lists;
use crate::objects::part::PlainBioElement;
use crate::steps::submission::cut::cut_step;
use crate::steps::submission::mirror::{begin_copy, copy_step};
use crate::steps::submission::take::take_slip;
use crate::steps::task::{DriverAsk, PlainDoing, PlainSubmission, PlainWant};
use bio_records::Bio;
use stack_base::DevId;
use task_core::{Manner, Routes, What};

/// What comes behind an answer to what a submission asked for. A step changes what the submission does in its place, as long as it goes on with
/// that, and answers this for `turn` to do.
#[derive(Drop)]
pub enum Continuation {
    /// It goes on with what it does.
    Stays,
    /// The driver of this device has returned.
    Returns(DevId),
    /// A mirror copies this bio, for the master at this place.
    Copies(Bio, u32),
}

// What the driver of a device does first with a bio.
fn first_ask(routes: &Routes, dev: DevId, lists: &Lists) -> DriverAsk
    requires { dev.0 < length routes.now.stack.devices.items }
    ensures { AsksFirst routes.now (lists_of lists.now) dev (ask_of_plain result) }
{
    match routes.manner(dev) {
        Manner::Keeps => DriverAsk::ToPush,
        Manner::Cuts => DriverAsk::ToCut(PlainWant::Takes(routes.waits_first(dev, lists))),
        Manner::Copies => DriverAsk::ToRecord,
    }
}

// A bio is served next.
pub fn drive(routes: &Routes, part: PlainBioElement, submission: &mut PlainSubmission)
    requires { IsWithinDevice routes.now.stack part.bio }
    ensures { submission_of_plain submission.new ≡ routed_landing routes.now (lists_of submission.old.lists) part }
{
    let at = routes.land(part.bio());
    let ask = first_ask(routes, at.dev, &submission.lists);
    submission.doing = PlainDoing::Drives(part.with(at, part.pad()), ask);
}

// The driver of this device has returned.
pub(crate) fn go_on(routes: &Routes, dev: DevId, submission: &mut PlainSubmission)
    requires room { ListsHaveCapacity 0 submission.old.lists }
    requires within { ListsAreWithin routes.now.stack (lists_of submission.old.lists) }
    ensures { submission_of_plain submission.new ≡ goes_on (routing_setup routes.now) dev (lists_of submission.old.lists) }
{
    match submission.lists.next(dev) {
        None => submission.doing = PlainDoing::Rests,
        Some(part) => drive(routes, part, submission),
    }
}

// A driver goes on with what it does, and wants this.
pub(crate) fn stay(want: &mut PlainWant, next: PlainWant) -> Continuation
    ensures want { want_of_plain want.new ≡ want_of_plain next }
    ensures stays { result ≡ then.Stays }
{
    *want = next;
    Continuation::Stays
}

// The driver of a bio's device goes on.
fn drive_step(
    routes: &Routes,
    objects: &mut Objects,
    part: &PlainBioElement,
    ask: &mut DriverAsk,
    lists: &mut Lists,
    what: &What,
) -> Result<Continuation, CoreFault>
    requires stack { objects.old.stack ≡ routes.now.stack }
    requires fits { DoingFits routes.now.stack (drives_for part.now (ask_of_plain ask.old)) }
    requires lists { ListsAreWithin routes.now.stack (lists_of lists.old) }
    ensures steps { DriveSteps routes.now objects.old part.now ask.old lists.old what.now result objects.new ask.new lists.new }
    ensures turns { IfOk result (CanTurn routes.now.stack lists.new) }
{
    routes.known();
    let bio = part.bio();
    match ask {
        DriverAsk::ToPush => match objects.push(part, lists, what) {
            Err(fault) => Err(fault),
            Ok(()) => Ok(Continuation::Returns(bio.dev)),
        },
        DriverAsk::ToCut(want) => cut_step(routes, objects, part, want, lists, what),
        DriverAsk::ToRecord => match take_slip(objects, bio.dev, what) {
            Err(fault) => Err(fault),
            Ok(None) => Ok(Continuation::Stays),
            Ok(Some(slip)) => {
                *ask = DriverAsk::ToMaster(slip);
                Ok(Continuation::Stays)
            }
        },
        DriverAsk::ToMaster(slip) => {
            match objects.open_master(part, slip, routes.legs(bio.dev), lists, what) {
                Err(fault) => Err(fault),
                Ok(node) => Ok(Continuation::Copies(bio, node)),
            }
        }
    }
}

// What comes behind an answer is done.
fn turn(routes: &Routes, next: Continuation, submission: &mut PlainSubmission)
    requires { CanTurn routes.now.stack submission.old.lists next }
    ensures { submission_of_plain submission.new ≡ turned_by routes.now submission.old next }
{
    match next {
        Continuation::Stays => {}
        Continuation::Returns(dev) => go_on(routes, dev, submission),
        Continuation::Copies(bio, master) => begin_copy(routes, bio, master, submission),
    }
}

// What a submission asks for is answered, and it is changed in its place where it goes on with what it does.
fn answer(
    routes: &Routes,
    objects: &mut Objects,
    doing: &mut PlainDoing,
    lists: &mut Lists,
    what: &What,
) -> Result<Continuation, CoreFault>
    requires stack { objects.old.stack ≡ routes.now.stack }
    requires fits { DoingFits routes.now.stack (doing_of_plain doing.old) }
    requires lists { ListsAreWithin routes.now.stack (lists_of lists.old) }
    ensures steps { DoingSteps routes.now objects.old doing.old lists.old what.now result objects.new doing.new lists.new }
    ensures turns { IfOk result (CanTurn routes.now.stack lists.new) }
{
    match doing {
        PlainDoing::Rests => Err(CoreFault::NotEnabled),
        PlainDoing::Drives(part, ask) => drive_step(routes, objects, part, ask, lists, what),
        PlainDoing::Copies(copying, want) => copy_step(routes, objects, copying, want, lists, what),
    }
}

/// A submission goes on with what the event tells, where its next request can be answered so.
///
/// # Errors
/// `NotEnabled` where no answer to its next request is what the event tells, and `Memory` where one is, but there is no memory to go on with it. Then
/// nothing is changed.
pub fn submission_step(
    routes: &Routes,
    objects: &mut Objects,
    submission: &mut PlainSubmission,
    what: &What,
) -> Result<(), CoreFault>
    requires stack { objects.old.stack ≡ routes.now.stack }
    requires fits { SubmissionIsWithin routes.now.stack (submission_of_plain submission.old) }
    ensures { PlainSubmissionMoves routes.now objects.old submission.old what.now result objects.new submission.new }
{
    match answer(
        routes,
        objects,
        &mut submission.doing,
        &mut submission.lists,
        what,
    ) {
        Err(fault) => Err(fault),
        Ok(next) => {
            turn(routes, next, submission);
            Ok(())
        }
    }
}
