//! Attempts at bios and records.
ghost use Rattle.std.specs.Prelude.{◌≡◌, ◌<◌};
ghost use Rattle.stack_base.specs.PoolId.{pool_number};
ghost use Rattle.bioset_pools.specs.Sets.{bios_of};
ghost use Rattle.run_machine.specs.Submissions.{after_miss};
ghost use Rattle.plain_core.specs.steps.Views.{want_of_plain};
ghost use Rattle.plain_core.specs.steps.Takes.{TakesPart, TakesSlip, TakesWant};

use crate::fault::CoreFault;
use crate::objects::Objects;
use crate::objects::part::{Hand, Slip};
use crate::steps::task::PlainWant;
use bioset_pools::bios_of;
use stack_base::{DevId, PoolId, SetId};
use task_core::{Got, What};

/// An attempt at a bio of this set, as the event tells it: the bio, with nothing in it yet, or none where the event tells a miss.
///
/// # Errors
/// `NotEnabled` where the event is another one, or the pool can't do what it tells. Then nothing is changed. It takes no memory.
pub fn take_part(
    objects: &mut Objects,
    set: SetId,
    waits: bool,
    what: &What,
) -> Result<Option<Hand>, CoreFault>
    requires { pool_number (bios_of set) < 66 }
    ensures { TakesPart objects.old set waits what.now result objects.new }
{
    let pool = bios_of(set);
    match objects.take(pool, waits, what) {
        Err(fault) => Err(fault),
        Ok(Got::Missed) => Ok(None),
        Ok(Got::Ordinary) => Ok(Some(Hand::of(pool.no()))),
        Ok(Got::Spare) => Ok(Some(Hand::of(pool.no()))),
    }
}

// An attempt at a record of a mirror.
pub(crate) fn take_slip(
    objects: &mut Objects,
    dev: DevId,
    what: &What,
) -> Result<Option<Slip>, CoreFault>
    requires { dev.0 < 32 }
    ensures { TakesSlip objects.old dev what.now result objects.new }
{
    let pool = PoolId::Records(dev);
    match objects.take(pool, true, what) {
        Err(fault) => Err(fault),
        Ok(Got::Missed) => Ok(None),
        Ok(Got::Ordinary) => Ok(Some(Slip::clear(pool.no()))),
        Ok(Got::Spare) => Ok(Some(Slip::clear(pool.no()))),
    }
}

// Behind a miss: an attempt that waits is made again, and one that does not is followed by a punt.
fn after_miss(waits: bool) -> PlainWant
    ensures { want_of_plain result ≡ after_miss waits }
{
    if waits {
        PlainWant::Takes(true)
    } else {
        PlainWant::Punts
    }
}

// A driver's attempt at a bio of its device's set.
pub(crate) fn take_for(
    objects: &mut Objects,
    dev: DevId,
    waits: bool,
    what: &What,
) -> Result<PlainWant, CoreFault>
    requires { dev.0 < 32 }
    ensures { TakesWant objects.old dev waits what.now result objects.new }
{
    match take_part(objects, SetId::Of(dev), waits, what) {
        Err(fault) => Err(fault),
        Ok(None) => Ok(after_miss(waits)),
        Ok(Some(hand)) => Ok(PlainWant::Links(hand)),
    }
}
