//! Requests of tasks to objects, a call each. The object does what the event tells, and the call answers with what came of it.
//!
//! # Errors
//! Each call answers `NotEnabled` where the event is none of this request or the object can't do so. The objects are as they were then. The
//! part that `tell` was handed and the vector that `open_write` was handed do not come back. No call here takes memory, so none answers
//! `Memory`.
ghost use Rattle.std.specs.Prelude.{◌<◌};
ghost use Rattle.run_machine.specs.Requests.{GiveBio, GiveVec, GiveSlip, Pop, Done, Resize, NextRound, Did, Popped, OutIs};
ghost use Rattle.stack_base.specs.PoolId.{pool_number};
ghost use Rattle.plain_core.specs.steps.Answers.{AnswersComplete, AnswersDrop, AnswersRequest, AnswersWrite};

use crate::fault::CoreFault;
use crate::objects::Objects;
use crate::objects::book::NodeOutcome;
use crate::objects::part::{PlainBioElement, Slip, Vector};
use stack_base::{DevId, PoolId, Status};
use task_core::What;

/// A bio goes back to its pool.
pub fn give_part(
    objects: &mut Objects,
    part: &PlainBioElement,
    what: &What,
) -> Result<(), CoreFault>
    ensures { AnswersRequest objects.old (GiveBio part.now) what.now (λ done. Did) result objects.new }
{
    objects.give(part.pool(), what)
}

/// A vector goes back to its pool.
pub fn give_vector(objects: &mut Objects, vector: &Vector, what: &What) -> Result<(), CoreFault>
    ensures { AnswersRequest objects.old (GiveVec vector.now) what.now (λ done. Did) result objects.new }
{
    objects.give(vector.pool(), what)
}

/// A record goes back to its pool.
pub fn give_slip(objects: &mut Objects, slip: &Slip, what: &What) -> Result<(), CoreFault>
    ensures { AnswersRequest objects.old (GiveSlip slip.now) what.now (λ done. Did) result objects.new }
{
    objects.give(slip.pool(), what)
}

/// A pool with nothing out gets another reserve (`mempool_resize`, `mm/mempool.c`). While an element of it is out, the request is no event.
pub fn resize(objects: &mut Objects, pool: PoolId, min: u32, what: &What) -> Result<(), CoreFault>
    requires { pool_number pool < 66 }
    ensures { AnswersRequest objects.old (Resize pool min) what.now (λ done. OutIs 0) result objects.new }
{
    objects.resize(pool, min, what)
}

/// The round of this number starts.
pub fn next_round(objects: &mut Objects, round: u32, what: &What) -> Result<(), CoreFault>
    ensures { AnswersRequest objects.old (NextRound round) what.now (λ done. Did) result objects.new }
{
    objects.next_round(round, what)
}

/// A rescuer takes a bio.
pub fn pop(objects: &mut Objects, dev: DevId, what: &What) -> Result<PlainBioElement, CoreFault>
    ensures { AnswersRequest objects.old (Pop dev) what.now Popped result objects.new }
{
    objects.pop(dev, what)
}

/// A disk ends a bio, where the event tells that this one does: the call answers its place among those that wait, the bio, and how it ends.
/// Else it answers `NotEnabled`, and nothing is changed.
pub fn complete(
    objects: &mut Objects,
    disk: DevId,
    what: &What,
) -> Result<(u64, PlainBioElement, Status), CoreFault>
    ensures { AnswersComplete objects.old disk what.now result objects.new }
{
    objects.complete(disk, what)
}

/// A node is told of an end.
pub fn tell(
    objects: &mut Objects,
    writer: u32,
    place: u32,
    status: Status,
    part: Option<PlainBioElement>,
    what: &What,
) -> Result<NodeOutcome, CoreFault>
    ensures { AnswersDrop objects.old writer place status part what.now result objects.new }
{
    objects.tell(writer, place, status, part, what)
}

/// A write is done, with this status, where the event tells so. Else the call answers `NotEnabled`, and nothing is changed.
pub fn done(objects: &mut Objects, write: u32, status: Status, what: &What) -> Result<(), CoreFault>
    ensures { AnswersRequest objects.old (Done write status) what.now (λ done. Did) result objects.new }
{
    objects.done(write, status, what)
}

/// A write's node is opened.
pub fn open_write(
    objects: &mut Objects,
    writer: u32,
    write: u32,
    vector: Option<Vector>,
    what: &What,
) -> Result<u32, CoreFault>
    ensures { AnswersWrite objects.old writer write vector what.now result objects.new }
{
    objects.open_write(writer, write, vector, what)
}
