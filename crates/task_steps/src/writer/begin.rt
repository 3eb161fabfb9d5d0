//! What a writer does for its next write: it takes a bio, and a vector where the write needs one, links the write, and submits the bio.
ghost use Rattle.std.specs.Prelude.{◌≡◌, true, false};
ghost use Rattle.stack_base.specs.declared.ids.SetId.TheVariants.{Fs};
ghost use Rattle.bio_records.specs.Items.{item_of, IsAlone};
ghost use Rattle.bio_books.specs.Views.{vector_of, holding_of};
ghost use Rattle.run_machine.specs.Kept.{holding_kept};
ghost use Rattle.run_machine.specs.Requests.{TakeBio, TakeVec, Link as LinkOf, Write as WriteOf};
ghost use Rattle.run_machine.specs.declared.event.TaskId.TheVariants as id;
ghost use Rattle.run_machine.specs.declared.event.How.TheVariants as how;
ghost use Rattle.run_machine.specs.declared.event.What.TheVariants as what;
ghost use Rattle.run_machine.specs.Submissions.{Rests, Breaks};
ghost use Rattle.run_machine.specs.Tasks.{needs_vector, filled, filled_short, filled_vector};
ghost use Rattle.task_steps.specs.declared.writer.begin.Gathered.TheVariants.{HasBio, HasBoth};
ghost use Rattle.task_steps.specs.WriterViews.{gathered_of, is_taken, IsGatheredAlone, IsAttemptAtBioAlone, IsNextAlone, OpensWrite, LinksWrite, TriesBio, TriesVector, WriteGoesOn, WriteReady};
ghost use Rattle.task_steps.specs.Answers.{Ready};

use crate::calls::{had, missed};
use crate::objects::{Ask, Objects};
use crate::routes::Routes;
use crate::step::Step;
use crate::submission::{HandedBack, Kept, Submission};
use crate::todo::Todo;
use crate::writer::first_bio::{filled, filled_short, filled_vector, needs_vector};
use bio_books::{Back, Link};
use bio_records::{BioElement, VecElement};
use layout_model::Write;
use mempool_core::Taken;
use run_machine::{Breach, Event, Got, How, TaskId, What};
use stack_base::{PoolId, SetId};

/// What a writer has taken for its next write.
#[derive(Drop)]
pub enum Gathered {
    NoBio,
    HasBio(BioElement),
    /// Also a vector, which has no segments yet.
    HasBoth(BioElement, VecElement),
}

// What becomes of a write that is to begin.
#[derive(Drop)]
pub(crate) enum Next {
    // Its bio is submitted.
    Begins,
    // It waits for more, or can't begin.
    Waits(Gathered),
}

// What came of an attempt at the bio of a write.
#[derive(Drop)]
pub(crate) enum Attempt {
    // There is one.
    Had(BioElement),
    // There is none yet.
    Missed,
    // There was no ticket for the call, which was handed nothing.
    NoTicket,
}

// Takes the bio of a write, and waits for it (`bio_alloc_bioset`, `block/bio.c`).
#[inline(always)] // as `Task::step`
pub(crate) fn take_bio<O: Objects>(objects: &mut O, number: u32) -> (Attempt, Step)
    requires ready { Ready O.Objects objects.old (TakeBio Fs true) }
    ensures does { TriesBio O.Objects number objects.old result objects.new }
    ensures alone { IsAttemptAtBioAlone result.0 }
{
    let task = TaskId::Writer(number);
    let pool = PoolId::FsBios;
    match objects.take_bio(SetId::Fs, true) {
        Ok(Taken::Ordinary(bio)) => (Attempt::Had(bio), had(task, true, pool, Got::Ordinary)),
        Ok(Taken::Spare(bio)) => (Attempt::Had(bio), had(task, true, pool, Got::Spare)),
        Ok(Taken::Miss { used }) => (Attempt::Missed, missed(task, true, used, pool)),
        Err(nothing) => {
            drop(nothing);
            (Attempt::NoTicket, Step::Broken(Breach::Spent))
        }
    }
}

// Takes the vector of a write that has more segments than its bio keeps, and waits for it (`bvec_alloc`, `block/bio.c`). Without a ticket the writer
// keeps its bio, and its submission breaks off with nothing.
fn take_vector<O: Objects>(
    objects: &mut O,
    number: u32,
    bio: BioElement,
    submission: &mut Submission,
) -> (Gathered, Step)
    requires ready { Ready O.Objects objects.old TakeVec }
    requires alone { IsAlone bio }
    requires rests { submission.old.doing ≡ Rests }
    ensures does { TriesVector O.Objects number (item_of bio) submission.old objects.old result submission.new objects.new }
    ensures alone { IsGatheredAlone result.0 }
{
    let task = TaskId::Writer(number);
    let pool = PoolId::FsVecs;
    match objects.take_vec() {
        Ok(Taken::Ordinary(vector)) => (
            Gathered::HasBoth(bio, vector),
            had(task, true, pool, Got::Ordinary),
        ),
        Ok(Taken::Spare(vector)) => (
            Gathered::HasBoth(bio, vector),
            had(task, true, pool, Got::Spare),
        ),
        Ok(Taken::Miss { used }) => (Gathered::HasBio(bio), missed(task, true, used, pool)),
        Err(nothing) => {
            drop(nothing);
            submission.breaks(Breach::Spent, Kept::nothing());
            (Gathered::HasBio(bio), Step::Broken(Breach::Spent))
        }
    }
}

// A writer was refused the node of a write, and keeps what it handed over for it.
fn unlinked(submission: &mut Submission, breach: Breach, back: Back) -> Step
    requires rests { submission.old.doing ≡ Rests }
    ensures submission { submission.new ≡ record submission.old { doing = Breaks breach (holding_kept (holding_of back)) } }
    ensures step { result ≡ Step.Broken breach }
{
    let kept = Kept {
        bio: None,
        hand: None,
        back: HandedBack::Unlinked(back),
    };
    submission.breaks(breach, kept);
    Step::Broken(breach)
}

// Opens the node of a write, and answers its place, or the step of a writer that can't go on.
#[inline(always)] // as `Task::step`
fn open_write<O: Objects>(
    objects: &mut O,
    routes: &Routes,
    writer: u32,
    write: u32,
    vector: Option<VecElement>,
    submission: &mut Submission,
) -> Result<u32, Step>
    requires ready { Ready O.Objects objects.old (LinkOf writer (WriteOf write (vector_of vector))) }
    requires rests { submission.old.doing ≡ Rests }
    ensures does { OpensWrite O.Objects routes.now writer write (vector_of vector) submission.old objects.old result submission.new objects.new }
{
    match objects.link(writer, Ask::Write { write, vector }) {
        Ok(Link::Made(node)) => Ok(node),
        Ok(Link::NoRoom(back)) => {
            let places = routes.places(writer);
            Err(unlinked(submission, Breach::NoRoom { writer, places }, back))
        }
        Ok(Link::Stray(back)) => Err(unlinked(submission, Breach::Stray { writer, node: 0 }, back)),
        Err(back) => {
            submission.breaks(Breach::Spent, Kept::unmade(None, back));
            Err(Step::Broken(Breach::Spent))
        }
    }
}

// The step of a write whose node was opened at this place.
fn opened(number: u32, node: u32) -> Step
    ensures { result ≡ Step.Stepped (record { task = id.Writer number; what = what.Link number how.Write node }) }
{
    let how = How::Write;
    let writer = number;
    Step::Stepped(Event {
        task: TaskId::Writer(number),
        what: What::Link { writer, how, node },
    })
}

// Links a write whose bio keeps its segments itself, and submits the bio.
fn link_short<O: Objects>(
    objects: &mut O,
    routes: &Routes,
    number: u32,
    todo: &Todo,
    bio: BioElement,
    submission: &mut Submission,
) -> (Next, Step)
    requires ready { WriteReady O.Objects objects.old number todo.now (HasBio bio) }
    requires routing { (O.stage objects.old).routing ≡ routes.now }
    requires alone { IsAlone bio }
    requires rests { submission.old.doing ≡ Rests }
    requires short { needs_vector todo.now.write ≡ false }
    ensures does { LinksWrite O.Objects routes.now number todo.now (HasBio bio) submission.old objects.old result submission.new objects.new }
    ensures alone { IsNextAlone result.0 }
{
    match open_write(objects, routes, number, todo.number, None, submission) {
        Ok(node) => {
            let bio = filled_short(number, todo, node, bio);
            submission.becomes(Submission::begin(routes, bio));
            (Next::Begins, opened(number, node))
        }
        Err(step) => (Next::Waits(Gathered::HasBio(bio)), step),
    }
}

// Links a write whose segments are in a vector, which its node keeps, and submits its bio.
fn link_long<O: Objects>(
    objects: &mut O,
    routes: &Routes,
    number: u32,
    todo: &Todo,
    bio: BioElement,
    vector: VecElement,
    submission: &mut Submission,
) -> (Next, Step)
    requires ready { WriteReady O.Objects objects.old number todo.now (HasBoth bio vector) }
    requires routing { (O.stage objects.old).routing ≡ routes.now }
    requires alone { IsAlone bio }
    requires rests { submission.old.doing ≡ Rests }
    ensures does { LinksWrite O.Objects routes.now number todo.now (HasBoth bio vector) submission.old objects.old result submission.new objects.new }
    ensures alone { IsNextAlone result.0 }
{
    let vector = Some(filled_vector(todo, vector));
    match open_write(objects, routes, number, todo.number, vector, submission) {
        Ok(node) => {
            let bio = filled(number, todo, node, bio);
            submission.becomes(Submission::begin(routes, bio));
            (Next::Begins, opened(number, node))
        }
        Err(step) => (Next::Waits(Gathered::HasBio(bio)), step),
    }
}

/// The next step of a writer that has taken the bio of the write that it is to begin.
pub(crate) fn go_on<O: Objects>(
    objects: &mut O,
    routes: &Routes,
    number: u32,
    todo: &Todo,
    taken: Gathered,
    submission: &mut Submission,
) -> (Next, Step)
    requires ready { WriteReady O.Objects objects.old number todo.now taken }
    requires routing { (O.stage objects.old).routing ≡ routes.now }
    requires alone { IsGatheredAlone taken }
    requires some { is_taken (gathered_of taken) ≡ true }
    requires rests { submission.old.doing ≡ Rests }
    ensures does { WriteGoesOn O.Objects routes.now number todo.now (gathered_of taken) submission.old objects.old result submission.new objects.new }
    ensures alone { IsNextAlone result.0 }
{
    match taken {
        Gathered::HasBio(bio) => {
            if !needs_vector(&todo.write) {
                return link_short(objects, routes, number, todo, bio, submission);
            }
            let (taken, step) = take_vector(objects, number, bio, submission);
            (Next::Waits(taken), step)
        }
        Gathered::HasBoth(bio, vector) => link_long(
            objects, routes, number, todo, bio, vector, submission,
        ),
        Gathered::NoBio => unreachable!(),
    }
}
