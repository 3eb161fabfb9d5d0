//! A mirror's driver: it takes a record and opens a master, and then takes a bio of its set for each leg and submits it as a copy
//! (`raid1_write_request`, `drivers/md/raid1.c`).
ghost use Rattle.std.specs.Prelude.{◌≡◌, ◌<◌, ◌+◌, ◌-◌, true};
ghost use Rattle.bio_records.specs.Items.{item_of, IsAlone};
ghost use Rattle.run_machine.specs.Requests.{TakeSlip, Link as LinkOf, Master, Leg};
ghost use Rattle.run_machine.specs.Submissions.{legs_of, leg_at};
ghost use Rattle.task_steps.specs.declared.submission.Doing.TheVariants as doing';
ghost use Rattle.task_steps.specs.declared.submission.DriverAsk.TheVariants.{ToRecord, ToMaster};
ghost use Rattle.task_steps.specs.declared.submission.Want.TheVariants.{Punts};
ghost use Rattle.task_steps.specs.Within.{IsWithinDevice, ListsAreWithin};
ghost use Rattle.task_steps.specs.Routed.{routed_tree};
ghost use Rattle.task_steps.specs.SubmissionViews.{asking, submission_of, IsDoingAlone};
ghost use Rattle.task_steps.specs.Answers.{punt_request, Ready, SubmissionReady};
ghost use Rattle.task_steps.specs.DriverSteps.{AddsLeg, AskAlwaysDoes, FansOut, LegAlwaysDoes, routed_copies};

use crate::calls::{had, missed, open_node, punt_all};
use crate::objects::{Ask, Objects};
use crate::routes::Routes;
use crate::step::Step;
use crate::submission::dispatch::go_on;
use crate::submission::{Doing, DriverAsk, Kept, Want, break_off, put, spent};
use bio_lists::SubmissionLists;
use bio_records::{Bio, BioElement, SlipElement, TaskLists};
use bioset_pools::fill_bio;
use mempool_core::Taken;
use run_machine::{Event, Got, How, TaskId, What};
use stack_base::PoolId;

/// Takes a record for a bio that a mirror copies (`alloc_r1bio`, `drivers/md/raid1.c`).
pub(crate) fn take_record<O: Objects>(
    objects: &mut O,
    task: TaskId,
    bio: BioElement,
    at: &mut Doing,
    lists: &mut TaskLists,
) -> Step
    requires ready { Ready O.Objects objects.old (TakeSlip (item_of bio).bio.dev) }
    requires alone { IsAlone bio }
    requires rests { at.old ≡ doing'.Rests }
    ensures does { AskAlwaysDoes O.Objects task bio ToRecord lists.old objects.old (at.new, result) lists.new objects.new }
    ensures alone { IsDoingAlone at.new }
{
    let dev = bio.body.bio.dev;
    let pool = PoolId::Records(dev);
    match objects.take_slip(dev) {
        Ok(Taken::Ordinary(slip)) => {
            let ask = DriverAsk::ToMaster(slip);
            put(at, Doing::Drives { bio, ask });
            had(task, true, pool, Got::Ordinary)
        }
        Ok(Taken::Spare(slip)) => {
            let ask = DriverAsk::ToMaster(slip);
            put(at, Doing::Drives { bio, ask });
            had(task, true, pool, Got::Spare)
        }
        Ok(Taken::Miss { used }) => {
            let ask = DriverAsk::ToRecord;
            put(at, Doing::Drives { bio, ask });
            missed(task, true, used, pool)
        }
        Err(back) => spent(at, Some(bio), back),
    }
}

/// Opens the master of a bio that a mirror copies: it keeps the bio and the record until the last leg has ended
/// (`raid1_write_request`, `drivers/md/raid1.c`).
pub(crate) fn master<O: Objects>(
    objects: &mut O,
    routes: &Routes,
    task: TaskId,
    bio: BioElement,
    slip: SlipElement,
    at: &mut Doing,
    lists: &mut TaskLists,
) -> Step
    requires ready { SubmissionReady O.Objects objects.old routes.now (asking bio (ToMaster slip)) lists.old }
    requires alone { IsAlone bio }
    requires rests { at.old ≡ doing'.Rests }
    requires within { IsWithinDevice routes.now.stack (item_of bio).bio }
    requires lists { ListsAreWithin routes.now.stack lists.old }
    ensures does { FansOut O.Objects routes.now task bio slip lists.old objects.old (at.new, result) lists.new objects.new }
    ensures alone { IsDoingAlone at.new }
{
    let whole = bio.body.bio;
    let legs = routes.legs(whole.dev);
    let writer = whole.writer;
    let ask = Ask::Master {
        parent: whole.node,
        part: bio,
        slip,
        legs,
    };
    match open_node(objects, routes, writer, ask) {
        Ok(node) => {
            let how = How::Master;
            let what = What::Link { writer, how, node };
            let run = Copying {
                bio: whole,
                master: node,
                leg: 0,
            };
            copy_on(routes, run, legs, at, lists);
            Step::Stepped(Event { task, what })
        }
        Err((breach, back)) => {
            let kept = Kept {
                bio: None,
                hand: None,
                back,
            };
            break_off(at, breach, kept)
        }
    }
}

/// How far a mirror is with a bio that it copies.
#[derive(Clone, Copy)]
pub(crate) struct Copying {
    /// The bio, which waits with its parent.
    pub(crate) bio: Bio,
    /// The place of the master.
    pub(crate) master: u32,
    /// The leg that is made next.
    pub(crate) leg: u32,
}

/// The next leg is made, or the driver of the mirror returns behind the last of so many.
#[inline(always)] // as `go_on`
pub(crate) fn copy_on(
    routes: &Routes,
    run: Copying,
    legs: u32,
    at: &mut Doing,
    lists: &mut TaskLists,
)
    requires rests { at.old ≡ doing'.Rests }
    requires bio { IsWithinDevice routes.now.stack run.bio }
    requires legs { legs ≡ legs_of (routed_tree routes.now run.bio.dev) }
    requires lists { ListsAreWithin routes.now.stack lists.old }
    ensures submission { submission_of at.new lists.new ≡ routed_copies routes.now lists.old run.bio run.master run.leg }
    ensures alone { IsDoingAlone at.new }
{
    let Copying { bio, master, leg } = run;
    if leg == legs {
        go_on(routes, at, lists, bio.dev);
        return;
    }
    let waits = routes.waits_first(bio.dev, lists);
    let want = Want::Takes { waits };
    put(
        at,
        Doing::Copies {
            bio,
            master,
            leg,
            want,
        },
    );
}

/// Hands the bios of the mirror's set to its rescuer, and waits for one then.
pub(crate) fn punt_to_copy<O: Objects>(
    objects: &mut O,
    task: TaskId,
    run: Copying,
    at: &mut Doing,
    lists: &mut TaskLists,
) -> Step
    requires ready { Ready O.Objects objects.old (punt_request run.bio.dev lists.old) }
    requires rests { at.old ≡ doing'.Rests }
    ensures does { LegAlwaysDoes O.Objects task run Punts lists.old objects.old (at.new, result) lists.new objects.new }
    ensures alone { IsDoingAlone at.new }
{
    match punt_all(objects, task, run.bio.dev, lists) {
        Ok(step) => {
            let want = Want::Takes { waits: true };
            let Copying { bio, master, leg } = run;
            put(
                at,
                Doing::Copies {
                    bio,
                    master,
                    leg,
                    want,
                },
            );
            step
        }
        Err(back) => spent(at, None, back),
    }
}

// A leg of a bio, in an element at hand (`bio_alloc_clone`, `drivers/md/raid1.c`).
fn copy_of(routes: &Routes, bio: &Bio, leg: u32, node: u32, mut hand: BioElement) -> BioElement
    requires alone { IsAlone hand }
    requires within { IsWithinDevice routes.now.stack bio.now }
    requires leg { leg < legs_of (routed_tree routes.now bio.now.dev) }
    ensures copy { item_of result ≡ leg_at bio.now (item_of hand) leg node (routed_tree routes.now bio.now.dev) }
    ensures alone { IsAlone result }
    ensures within { IsWithinDevice routes.now.stack (item_of result).bio }
{
    let (copy, pad) = routes.leg(bio, leg, node);
    fill_bio(&mut hand, copy, pad);
    hand
}

/// Opens a node for a leg and submits the leg, in the element at hand. Behind the last leg the mirror's driver returns. Where no node can be opened,
/// or no ticket is left, the submission breaks off and keeps the element.
pub(crate) fn leg<O: Objects>(
    objects: &mut O,
    routes: &Routes,
    task: TaskId,
    run: Copying,
    hand: BioElement,
    at: &mut Doing,
    lists: &mut TaskLists,
) -> Step
    requires ready { Ready O.Objects objects.old (LinkOf run.bio.writer (Leg run.master)) }
    requires alone { IsAlone hand }
    requires rests { at.old ≡ doing'.Rests }
    requires within { IsWithinDevice routes.now.stack run.bio }
    requires leg { run.leg < legs_of (routed_tree routes.now run.bio.dev) }
    requires lists { ListsAreWithin routes.now.stack lists.old }
    ensures does { AddsLeg O.Objects routes.now task run hand lists.old objects.old (at.new, result) lists.new objects.new }
    ensures alone { IsDoingAlone at.new }
{
    let Copying { bio, master, leg } = run;
    let legs = routes.legs(bio.dev);
    let writer = bio.writer;
    match open_node(objects, routes, writer, Ask::Leg { master }) {
        Ok(node) => {
            let how = How::Leg;
            let what = What::Link { writer, how, node };
            lists.submit(copy_of(routes, &bio, leg, node, hand));
            let run = Copying {
                leg: leg + 1,
                ..run
            };
            copy_on(routes, run, legs, at, lists);
            Step::Stepped(Event { task, what })
        }
        Err((breach, back)) => {
            let kept = Kept {
                bio: None,
                hand: Some(hand),
                back,
            };
            break_off(at, breach, kept)
        }
    }
}
