//! Steps of writers.
ghost use Rattle.std.specs.Prelude.{◌≡◌, ◌≢◌, [], ◌∷◌, true, false, drop, None};
ghost use Rattle.layout_model.specs.Writes.{IsWrite};
ghost use Rattle.run_machine.specs.Submissions.{settled, Rests as AtRest};
ghost use Rattle.task_steps.specs.Routed.{routing_setup};
ghost use Rattle.run_machine.specs.Tasks.{needs_vector, NoBio, HasBio, HasBoth};
ghost use Rattle.task_steps.specs.Within.{IsWithinDevice, TaskIsWithin};
ghost use Rattle.plain_core.specs.steps.Views.{submission_of_plain, doing_of_plain, gathered_of_plain, writer_of};
ghost use Rattle.plain_core.specs.steps.Moves.{NeedsVector, begun_with, WriterMoves, WriterMovesFor};
ghost use Rattle.plain_core.specs.steps.Takes.{TakesVector};

use crate::fault::CoreFault;
use crate::objects::Objects;
use crate::objects::part::{Data, Hand, PlainBioElement, Vector};
use crate::steps::asks;
use crate::steps::submission::take::take_part;
use crate::steps::submission::{drive, submission_step};
use crate::steps::task::{PlainGathered, PlainSubmission, Writer};
use bio_records::Pad;
use layout_model::Write;
use stack_base::{PoolId, SetId};
use task_core::{Got, Routes, Todo, What, first_bio, needs_vector};

// A bio is submitted, and its submission begins anew: what it had before is gone.
pub(crate) fn start(routes: &Routes, part: PlainBioElement, submission: &mut PlainSubmission)
    requires { IsWithinDevice routes.now.stack part.bio }
    ensures { submission_of_plain submission.new ≡ settled (routing_setup routes.now) (part ∷ []) }
{
    submission.lists.clear();
    drive(routes, part, submission);
}

// An attempt at a vector.
fn take_vector(objects: &mut Objects, what: &What) -> Result<Option<Vector>, CoreFault>
    ensures { TakesVector objects.old what.now result objects.new }
{
    match objects.take(PoolId::FsVecs, true, what) {
        Err(fault) => Err(fault),
        Ok(Got::Missed) => Ok(None),
        Ok(Got::Ordinary) => Ok(Some(Vector::clear(64))),
        Ok(Got::Spare) => Ok(Some(Vector::clear(64))),
    }
}

// The data of a write.
fn data_of(write: &Write) -> Data
    ensures { result ≡ record { first = write.now.tag; count = write.now.count } }
{
    Data {
        first: write.tag,
        count: write.count,
    }
}

// The top node of the next write is open: its bio is submitted, and it is begun.
fn begin(routes: &Routes, writer: &mut Writer, part: PlainBioElement)
    requires within { IsWithinDevice routes.now.stack part.bio }
    requires next { writer.old.todo ≢ [] }
    ensures { writer_of writer.new ≡ begun_with routes.now writer.old part }
{
    start(routes, part, &mut writer.submission);
    writer.taken = PlainGathered::NoBio;
    writer.todo.advance();
}

// A writer without a bio for its next write, which is of this round, takes one, where the round has come.
fn take_step(
    objects: &mut Objects,
    writer: &mut Writer,
    round: u32,
    what: &What,
) -> Result<(), CoreFault>
    requires rests { doing_of_plain writer.old.submission.doing ≡ AtRest }
    requires taken { gathered_of_plain writer.old.taken ≡ NoBio }
    ensures { WriterMovesFor (λ next. next.round ≡ round) objects.old writer.old what.now result objects.new writer.new }
{
    if objects.round() < round {
        return Err(CoreFault::NotEnabled);
    }
    match take_part(objects, SetId::Fs, true, what) {
        Err(fault) => Err(fault),
        Ok(None) => Ok(()),
        Ok(Some(hand)) => {
            writer.taken = PlainGathered::HasBio(hand);
            Ok(())
        }
    }
}

// A writer with a bio takes a vector.
fn vector_step(
    objects: &mut Objects,
    writer: &mut Writer,
    hand: &Hand,
    what: &What,
) -> Result<(), CoreFault>
    requires rests { doing_of_plain writer.old.submission.doing ≡ AtRest }
    requires taken { gathered_of_plain writer.old.taken ≡ HasBio hand.now }
    ensures { WriterMovesFor NeedsVector objects.old writer.old what.now result objects.new writer.new }
{
    match take_vector(objects, what) {
        Err(fault) => Err(fault),
        Ok(None) => Ok(()),
        Ok(Some(vector)) => {
            writer.taken = PlainGathered::HasBoth(hand.again(), vector);
            Ok(())
        }
    }
}

// A writer with a bio that needs no vector begins its next write.
fn step_with_bio(
    routes: &Routes,
    objects: &mut Objects,
    writer: &mut Writer,
    next: &Todo,
    hand: &Hand,
    what: &What,
) -> Result<(), CoreFault>
    requires rests { doing_of_plain writer.old.submission.doing ≡ AtRest }
    requires taken { gathered_of_plain writer.old.taken ≡ HasBio hand.now }
    requires next { writer.old.todo ≡ next.now ∷ drop 1 writer.old.todo }
    requires write { IsWrite routes.now.stack next.now.write }
    requires needs { needs_vector next.now.write ≡ false }
    ensures { WriterMoves routes.now objects.old writer.old what.now result objects.new writer.new }
{
    match asks::open_write(objects, writer.number, next.number, None, what) {
        Err(fault) => Err(fault),
        Ok(node) => {
            let bio = first_bio(writer.number, next, node);
            begin(routes, writer, hand.with_data(bio, data_of(&next.write)));
            Ok(())
        }
    }
}

// A writer with a bio and a vector begins its next write.
fn step_with_both(
    routes: &Routes,
    objects: &mut Objects,
    writer: &mut Writer,
    next: &Todo,
    hand: &Hand,
    vector: &Vector,
    what: &What,
) -> Result<(), CoreFault>
    requires rests { doing_of_plain writer.old.submission.doing ≡ AtRest }
    requires taken { gathered_of_plain writer.old.taken ≡ HasBoth hand.now vector.now }
    requires next { writer.old.todo ≡ next.now ∷ drop 1 writer.old.todo }
    requires write { IsWrite routes.now.stack next.now.write }
    ensures { WriterMoves routes.now objects.old writer.old what.now result objects.new writer.new }
{
    let full = vector.filled(data_of(&next.write));
    match asks::open_write(objects, writer.number, next.number, Some(full), what) {
        Err(fault) => Err(fault),
        Ok(node) => {
            let bio = first_bio(writer.number, next, node);
            begin(routes, writer, hand.with(bio, Pad { leg: 0 }));
            Ok(())
        }
    }
}

// A writer at rest goes on to its next write.
fn write_step(
    routes: &Routes,
    objects: &mut Objects,
    writer: &mut Writer,
    what: &What,
) -> Result<(), CoreFault>
    requires rests { doing_of_plain writer.old.submission.doing ≡ AtRest }
    requires fits { TaskIsWithin routes.now.stack (writer_of writer.old) }
    ensures { WriterMoves routes.now objects.old writer.old what.now result objects.new writer.new }
{
    let Some(next) = writer.todo.first() else {
        return Err(CoreFault::NotEnabled);
    };
    match writer.taken.again() {
        PlainGathered::NoBio => take_step(objects, writer, next.round, what),
        PlainGathered::HasBio(hand) => {
            if needs_vector(&next.write) {
                vector_step(objects, writer, &hand, what)
            } else {
                step_with_bio(routes, objects, writer, &next, &hand, what)
            }
        }
        PlainGathered::HasBoth(hand, vector) => {
            step_with_both(routes, objects, writer, &next, &hand, &vector, what)
        }
    }
}

/// A writer goes on with what the event tells.
///
/// # Errors
/// `NotEnabled` where the round of its next write has not come, or where no answer to its next request is what the event tells, and `Memory` where one
/// is, but there is no memory to go on with it. Then nothing is changed.
pub fn writer_step(
    routes: &Routes,
    objects: &mut Objects,
    writer: &mut Writer,
    what: &What,
) -> Result<(), CoreFault>
    requires stack { objects.old.stack ≡ routes.now.stack }
    requires fits { TaskIsWithin routes.now.stack (writer_of writer.old) }
    ensures { WriterMoves routes.now objects.old writer.old what.now result objects.new writer.new }
{
    if !writer.submission.rests() {
        return submission_step(routes, objects, &mut writer.submission, what);
    }
    write_step(routes, objects, writer, what)
}
