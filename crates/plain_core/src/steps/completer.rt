//! Steps of completers.
ghost use Rattle.std.specs.Prelude.{◌≡◌, ℕ, ◌<◌, true, false, None};
ghost use Rattle.plain_core.specs.steps.Views.{carried_of_plain};
ghost use Rattle.run_machine.specs.Tasks.{after_drop};
ghost use Rattle.plain_core.specs.objects.Books.{ended_of_plain};
ghost use Rattle.plain_core.specs.steps.Moves.{CompleterMoves};
ghost use Rattle.plain_core.specs.steps.Closing.{CarriesOn, GivesFirst, GivesFirstHeld, PassesOn, ClosedMoves};

use crate::fault::CoreFault;
use crate::objects::Objects;
use crate::objects::book::NodeOutcome;
use crate::objects::node::{Closed, Holding};
use crate::objects::part::{PlainBioElement, Slip};
use crate::steps::asks;
use crate::steps::task::{Completer, PlainCarried};
use stack_base::DevId;
use task_core::What;

// What a completer carries when a node was told of an end.
fn after_drop(writer: u32, ended: NodeOutcome) -> PlainCarried
    ensures { (node : ℕ) → carried_of_plain result ≡ after_drop writer node (ended_of_plain ended) }
{
    match ended {
        NodeOutcome::Left => PlainCarried::Empty,
        NodeOutcome::Up(closed) => PlainCarried::Carries(writer, closed),
        NodeOutcome::Top(closed) => PlainCarried::Carries(writer, closed),
    }
}

// A closed node that holds nothing any more is told to its parent, or its write is done. What `closed` may still hold is not looked at.
fn pass_on(
    objects: &mut Objects,
    writer: u32,
    closed: &Closed,
    what: &What,
) -> Result<PlainCarried, CoreFault>
    ensures { PassesOn objects.old writer closed.now what.now result objects.new }
{
    match closed.parent {
        None => match asks::done(objects, closed.write, closed.status, what) {
            Err(fault) => Err(fault),
            Ok(()) => Ok(PlainCarried::Empty),
        },
        Some(parent) => match asks::tell(objects, writer, parent, closed.status, None, what) {
            Err(fault) => Err(fault),
            Ok(ended) => Ok(after_drop(writer, ended)),
        },
    }
}

// The record that a closed node holds goes back. It answers whether there was one.
fn give_slip(objects: &mut Objects, slip: &mut Option<Slip>, what: &What) -> Result<bool, CoreFault>
    ensures { GivesFirst objects.old None None slip.old what.now result objects.new None None slip.new }
{
    match slip {
        None => Ok(false),
        Some(held) => match asks::give_slip(objects, held, what) {
            Err(fault) => Err(fault),
            Ok(()) => {
                *slip = None;
                Ok(true)
            }
        },
    }
}

// The bio that a closed node holds goes back, or the record where there is none.
fn give_part(
    objects: &mut Objects,
    bio: &mut Option<PlainBioElement>,
    slip: &mut Option<Slip>,
    what: &What,
) -> Result<bool, CoreFault>
    ensures { GivesFirst objects.old None bio.old slip.old what.now result objects.new None bio.new slip.new }
{
    match bio {
        None => give_slip(objects, slip, what),
        Some(held) => match asks::give_part(objects, held, what) {
            Err(fault) => Err(fault),
            Ok(()) => {
                *bio = None;
                Ok(true)
            }
        },
    }
}

// The first of what a closed node holds goes back, vector, bio or record (`bio_free`, `block/bio.c`, and `free_r1bio`,
// `drivers/md/raid1.c`). It answers whether there was anything, and `NotEnabled` where the event is not that give: then nothing is changed.
fn give_first(objects: &mut Objects, held: &mut Holding, what: &What) -> Result<bool, CoreFault>
    ensures { GivesFirstHeld objects.old held.old what.now result objects.new held.new }
{
    match &held.vector {
        None => give_part(objects, &mut held.bio, &mut held.slip, what),
        Some(vector) => match asks::give_vector(objects, vector, what) {
            Err(fault) => Err(fault),
            Ok(()) => {
                held.vector = None;
                Ok(true)
            }
        },
    }
}

// A closed node gives what it holds, one element at a time, and is passed on once it holds nothing. It answers what is carried then, where
// it is no more the node.
fn close(
    objects: &mut Objects,
    writer: u32,
    closed: &mut Closed,
    what: &What,
) -> Result<Option<PlainCarried>, CoreFault>
    ensures { ClosedMoves objects.old writer closed.old what.now result objects.new closed.new }
{
    match give_first(objects, &mut closed.held, what) {
        Err(fault) => Err(fault),
        Ok(true) => Ok(None),
        Ok(false) => match pass_on(objects, writer, closed, what) {
            Err(fault) => Err(fault),
            Ok(after) => Ok(Some(after)),
        },
    }
}

// A completer goes on, whatever it carries: an empty one takes a bio out of its disk, one with an ended bio tells its node, and one with a closed
// node gives back what that held. It takes no memory.
fn carry(
    objects: &mut Objects,
    disk: DevId,
    carried: &mut PlainCarried,
    what: &What,
) -> Result<(), CoreFault>
    ensures { CarriesOn objects.old disk carried.old what.now result objects.new carried.new }
{
    match carried {
        PlainCarried::Empty => match asks::complete(objects, disk, what) {
            Err(fault) => Err(fault),
            Ok((_, part, status)) => {
                *carried = PlainCarried::Brings(part, status);
                Ok(())
            }
        },
        PlainCarried::Brings(part, status) => {
            let bio = part.bio();
            let told = Some(part.again());
            match asks::tell(objects, bio.writer, bio.node, *status, told, what) {
                Err(fault) => Err(fault),
                Ok(ended) => {
                    *carried = after_drop(bio.writer, ended);
                    Ok(())
                }
            }
        }
        PlainCarried::Carries(writer, closed) => match close(objects, *writer, closed, what) {
            Err(fault) => Err(fault),
            Ok(None) => Ok(()),
            Ok(Some(after)) => {
                *carried = after;
                Ok(())
            }
        },
    }
}

/// A completer goes on with what the event tells.
///
/// # Errors
/// `NotEnabled` where the event is no step of it. Then nothing is changed. It takes no memory.
pub fn completer_step(
    objects: &mut Objects,
    completer: &mut Completer,
    what: &What,
) -> Result<(), CoreFault>
    ensures { CompleterMoves objects.old completer.old what.now result objects.new completer.new }
{
    carry(objects, completer.disk, &mut completer.carried, what)
}
