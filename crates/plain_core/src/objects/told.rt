//! What an event tells, as what a request could have had.
ghost use Rattle.std.specs.Prelude.{◌≡◌, ◌<◌};
ghost use Rattle.run_machine.specs.declared.event.What.TheVariants as told;
ghost use Rattle.run_machine.specs.Events.{take_of};
ghost use Rattle.plain_core.specs.objects.Questions.{IsCompletionRead, IsDecisionOf, IsReadAs};

use stack_base::{DevId, PoolId, Status};
use task_core::{End, Got, How, What};

/// What a take of this pool had.
pub fn got_of(what: &What, pool: PoolId, waits: bool) -> Option<Got>
    ensures { IsReadAs (take_of waits pool) what.now result }
{
    if waits {
        match *what {
            What::Take { pool: named, got } if named == pool => Some(got),
            _ => None,
        }
    } else {
        match *what {
            What::Try { pool: named, got } if named == pool => Some(got),
            _ => None,
        }
    }
}

/// Whether an element went back to this pool.
pub fn gives(what: &What, pool: PoolId) -> bool
    ensures { IsDecisionOf result (what.now ≡ told.Give pool) }
{
    match *what {
        What::Give { pool: named } => named == pool,
        _ => false,
    }
}

/// Whether so many bios of this device's set were punted.
pub fn punts(what: &What, dev: DevId, moved: u64) -> bool
    ensures { IsDecisionOf result (what.now ≡ told.Punt dev moved) }
{
    match *what {
        What::Punt {
            dev: named,
            moved: many,
        } => named == dev && many == moved,
        _ => false,
    }
}

/// Whether the rescuer of this device's set took a bio.
pub fn pops(what: &What, dev: DevId) -> bool
    ensures { IsDecisionOf result (what.now ≡ told.Pop dev) }
{
    match *what {
        What::Pop { dev: named } => named == dev,
        _ => false,
    }
}

/// Whether these sectors came to this disk.
pub fn pushes(what: &What, dev: DevId, start: u64, sectors: u64, leg: u32) -> bool
    ensures { IsDecisionOf result (what.now ≡ told.Push dev start sectors leg) }
{
    match *what {
        What::Push {
            disk,
            at,
            len,
            leg: named,
        } => disk == dev && at == start && len == sectors && named == leg,
        _ => false,
    }
}

/// Which bio of this disk ended, by its place among those that wait there, and how, if the event tells of one.
pub fn completed_of(what: &What, disk: DevId) -> Option<(u64, Status)>
    ensures { IsCompletionRead disk what.now result }
{
    match *what {
        What::Complete {
            disk: named,
            index,
            status,
        } if named == disk => Some((index, status)),
        _ => None,
    }
}

// Whether two nodes were opened for the same.
fn is_for(how: How, other: How) -> bool
    ensures { IsDecisionOf result (how ≡ other) }
{
    match how {
        How::Write => matches!(other, How::Write),
        How::Chain => matches!(other, How::Chain),
        How::Master => matches!(other, How::Master),
        How::Leg => matches!(other, How::Leg),
    }
}

/// The place of this writer's book at which the event tells that a node was opened for this, if it tells of such a one.
pub fn linked_of(what: &What, writer: u32, how: How) -> Option<u32>
    ensures { IsReadAs (told.Link writer how) what.now result }
{
    match *what {
        What::Link {
            writer: named,
            how: opened,
            node,
        } => {
            if named == writer && is_for(opened, how) {
                Some(node)
            } else {
                None
            }
        }
        _ => None,
    }
}

/// What was left of the node at this place of the writer's book when it was told of this end, if the event tells of such a one.
pub fn dropped_of(what: &What, writer: u32, place: u32, ending: Status) -> Option<End>
    ensures { IsReadAs (told.Drop writer place ending) what.now result }
{
    match *what {
        What::Drop {
            writer: named,
            node,
            status,
            end,
        } => {
            if named == writer && node == place && status == ending {
                Some(end)
            } else {
                None
            }
        }
        _ => None,
    }
}

/// Whether the event tells that this write is done with this status.
pub fn is_done(what: &What, number: u32, ending: Status) -> bool
    ensures { IsDecisionOf result (what.now ≡ told.Done number ending) }
{
    match *what {
        What::Done { write, status } => write == number && status == ending,
        _ => false,
    }
}

/// Whether the pool got this reserve.
pub fn resizes(what: &What, pool: PoolId, reserve: u32) -> bool
    ensures { IsDecisionOf result (what.now ≡ told.Resize pool reserve) }
{
    match *what {
        What::Resize { pool: named, min } => named == pool && min == reserve,
        _ => false,
    }
}

/// Whether this round starts.
pub fn starts(what: &What, number: u32) -> bool
    ensures { IsDecisionOf result (what.now ≡ told.Round number) }
{
    match *what {
        What::Round { round } => round == number,
        _ => false,
    }
}
