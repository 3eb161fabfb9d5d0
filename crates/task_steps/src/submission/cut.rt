//! A driver that cuts: with a bio for the first piece it splits, and without one it hands the bios of its set to their rescuer.
ghost use Rattle.std.specs.Prelude.{◌≡◌, ◌<◌, ◌≤◌, ◌+◌, ◌-◌, ◌^◌, true};
ghost use Rattle.bio_records.specs.Items.{item_of, IsAlone};
ghost use Rattle.bio_split.specs.Split.{split_rest};
ghost use Rattle.run_machine.specs.Requests.{Link as LinkOf, Chain};
ghost use Rattle.task_steps.specs.declared.submission.Doing.TheVariants as doing';
ghost use Rattle.task_steps.specs.declared.submission.Want.TheVariants.{Punts};
ghost use Rattle.run_machine.specs.Submissions.{is_cut};
ghost use Rattle.task_steps.specs.Within.{IsWithinDevice, ListsAreWithin};
ghost use Rattle.task_steps.specs.Routed.{cut_front, routed_tree};
ghost use Rattle.task_steps.specs.SubmissionViews.{IsDoingAlone};
ghost use Rattle.task_steps.specs.Answers.{punt_request, Ready};
ghost use Rattle.task_steps.specs.DriverSteps.{CutAlwaysDoes, CutsOff};

use crate::calls::{open_node, punt_all};
use crate::objects::{Ask, Objects};
use crate::routes::{Cut, Routes};
use crate::step::Step;
use crate::submission::dispatch::go_on;
use crate::submission::{Doing, DriverAsk, Kept, Want, break_off, put, spent};
use bio_lists::SubmissionLists;
use bio_records::{BioElement, TaskLists};
use bio_split::split;
use run_machine::{Event, How, TaskId, What};
use stack_base::SetId;

/// Hands the bios of the device's set to its rescuer, and waits for one then.
pub(crate) fn punt_to_cut<O: Objects>(
    objects: &mut O,
    task: TaskId,
    bio: BioElement,
    at: &mut Doing,
    lists: &mut TaskLists,
) -> Step
    requires ready { Ready O.Objects objects.old (punt_request (item_of bio).bio.dev lists.old) }
    requires alone { IsAlone bio }
    requires rests { at.old ≡ doing'.Rests }
    ensures does { CutAlwaysDoes O.Objects task bio Punts lists.old objects.old (at.new, result) lists.new objects.new }
    ensures alone { IsDoingAlone at.new }
{
    match punt_all(objects, task, bio.body.bio.dev, lists) {
        Ok(step) => {
            let ask = DriverAsk::ToCut(Want::Takes { waits: true });
            put(at, Doing::Drives { bio, ask });
            step
        }
        Err(back) => spent(at, Some(bio), back),
    }
}

// Cuts the first piece off a bio, into an element at hand, as a bio at its member.
fn cut_off(bio: &mut BioElement, cut: Cut, hand: BioElement, node: u32) -> BioElement
    requires some { 1 ≤ cut.sectors }
    requires fewer { cut.sectors < (item_of bio.old).bio.range.len }
    requires small { (item_of bio.old).bio.range.start + (item_of bio.old).bio.range.len ≤ 2 ^ 64 - 1 }
    requires alone { IsAlone bio.old × IsAlone hand }
    ensures child { item_of result ≡ cut_front cut (item_of bio.old) (item_of hand) node }
    ensures rest { item_of bio.new ≡ split_rest (item_of bio.old) cut.sectors }
    ensures alone { IsAlone bio.new × IsAlone result }
{
    let set = SetId::Of(bio.body.bio.dev);
    let mut child = split(bio, cut.sectors, hand, set, node);
    child.body.bio.dev = cut.dev;
    child.body.bio.range.start = cut.start;
    child
}

/// Splits the bio: the first piece gets a node of its own and goes to its member, and the rest comes again (`bio_split` and `bio_chain`,
/// `block/bio.c`, and `submit_bio_noacct` of both).
pub(crate) fn chain<O: Objects>(
    objects: &mut O,
    routes: &Routes,
    task: TaskId,
    mut bio: BioElement,
    hand: BioElement,
    at: &mut Doing,
    lists: &mut TaskLists,
) -> Step
    requires ready { Ready O.Objects objects.old (LinkOf (item_of bio).bio.writer (Chain (item_of bio).bio.node)) }
    requires alone { IsAlone bio × IsAlone hand }
    requires rests { at.old ≡ doing'.Rests }
    requires within { IsWithinDevice routes.now.stack (item_of bio).bio }
    requires cut { is_cut (routed_tree routes.now (item_of bio).bio.dev) (item_of bio).bio.range ≡ true }
    requires lists { ListsAreWithin routes.now.stack lists.old }
    ensures does { CutsOff O.Objects routes.now task bio hand lists.old objects.old (at.new, result) lists.new objects.new }
    ensures alone { IsDoingAlone at.new }
{
    let whole = bio.body.bio;
    let cut = routes.cut(&whole);
    let writer = whole.writer;
    let ask = Ask::Chain { parent: whole.node };
    match open_node(objects, routes, writer, ask) {
        Ok(node) => {
            let how = How::Chain;
            let what = What::Link { writer, how, node };
            let child = cut_off(&mut bio, cut, hand, node);
            lists.submit(child);
            lists.submit(bio);
            go_on(routes, at, lists, whole.dev);
            Step::Stepped(Event { task, what })
        }
        Err((breach, back)) => {
            let kept = Kept {
                bio: Some(bio),
                hand: Some(hand),
                back,
            };
            break_off(at, breach, kept)
        }
    }
}
