//! Steps of the keeper of the rounds.
ghost use Rattle.plain_core.specs.steps.Views.{keeper_of};
ghost use Rattle.task_steps.specs.KeeperViews.{duty_of};
ghost use Rattle.plain_core.specs.steps.Moves.{AlwaysMoves, AnswersDuty};
ghost use Rattle.plain_core.specs.steps.Duties.{NamesStackPool};

use crate::fault::CoreFault;
use crate::objects::Objects;
use crate::steps::asks;
use crate::steps::task::Keeper;
use task_core::{Duty, What};

// The objects do the keeper's next duty, a change of a reserve or a round, where the event tells of it.
fn keep(objects: &mut Objects, duty: Duty, what: &What) -> Result<(), CoreFault>
    requires { NamesStackPool (duty_of duty) }
    ensures { AnswersDuty objects.old (duty_of duty) what.now result objects.new }
{
    match duty {
        Duty::Resizes { pool, min, .. } => asks::resize(objects, pool, min, what),
        Duty::Starts { round, .. } => asks::next_round(objects, round, what),
    }
}

/// The keeper goes on with what the event tells.
///
/// # Errors
/// `NotEnabled` where the event is no step of it, as while writes of its round are left. Then nothing is changed. It takes no memory.
pub fn keeper_step(objects: &mut Objects, keeper: &mut Keeper, what: &What) -> Result<(), CoreFault>
    ensures { AlwaysMoves objects.old (keeper_of keeper.old) what.now result objects.new (keeper_of keeper.new) }
{
    let Some(duty) = keeper.next() else {
        return Err(CoreFault::NotEnabled);
    };
    if !objects.has_left(duty.later()) {
        return Err(CoreFault::NotEnabled);
    }
    match keep(objects, duty, what) {
        Err(fault) => Err(fault),
        Ok(()) => {
            keeper.advance();
            Ok(())
        }
    }
}
