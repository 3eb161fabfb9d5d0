//! The rounds of a text: how many writes each has, the tally, and what the keeper does between them.
ghost use Rattle.std.specs.Prelude.{◌≡◌, ◌+◌, ◌-◌, ◌<◌, ◌≤◌, ◌^◌, [], ◌∷◌, IfOk, OnOk, fold, length, map, max, sum};
ghost use Rattle.task_steps.specs.KeeperViews.{duty_of};
ghost use Rattle.task_core.specs.Plains.{tally_of};
ghost use Rattle.run_machine.specs.Opened.{left_in, rounds_in, new_tally};
ghost use Rattle.task_core.specs.opened.NewTasks.{all_duties, duties_at, keepers_in, resizes_at, AddsDuties, AddsTasks};

use crate::plain::tally::Tally;
use stack_base::Status;
use std::alloc::{AllocError, Global};
use task_steps::{Duty, Keeper, Kind};
use work_text::Resize;

// The greatest of these rounds, or the first one where there is none.
fn greatest(rounds: &[u32]) -> u32
    ensures { result ≡ fold max 0 rounds.now }
{
    let mut last = 0;
    'looking: for i in 0..rounds.len() {
        last = last.max(rounds[i]);
    }
    last
}

// How many writes each round has, where these are the rounds of writes.
pub(crate) fn left_of(alloc: Global, rounds: &[u32]) -> Result<Vec<u32>, AllocError>
    requires few { length rounds.now < 2 ^ 32 }
    ensures left { IfOk result (λ left. left.items ≡ left_in rounds.now) }
    ensures all { IfOk result (λ left. sum left.items ≡ length rounds.now) }
    ensures short { IfOk result (λ left. rounds_in rounds.now ≤ 2 ^ 32) }
{
    let mut left = vec![in alloc; 0; greatest(rounds) as usize + 1]?;
    'counting: for i in 0..rounds.len() {
        left[rounds[i] as usize] += 1;
    }
    Ok(left)
}

/// The tally in which all of so many writes are unfinished.
///
/// # Errors
/// Where there is no memory.
pub fn open_tally(alloc: Global, left: Vec<u32>, writes: usize) -> Result<Tally, AllocError>
    requires some { 0 < length left.items }
    requires few { length left.items ≤ 2 ^ 32 }
    requires unfinished { sum left.items < 2 ^ 32 }
    ensures { IfOk result (λ tally. tally_of tally ≡ new_tally left.items writes) }
{
    let statuses = vec![in alloc; Status::Ok; writes]?;
    Ok(Tally::new(left, statuses))
}

// Adds a change of a reserve, if it is before this round, of which and behind which there are so many writes.
fn add_change(
    duties: &mut Vec<Duty>,
    resize: &Resize,
    round: u32,
    later: u32,
) -> Result<(), AllocError>
    ensures { OnOk result (AddsDuties duties.old.items (resizes_at round later (resize.now ∷ [])) duties.new.items) }
{
    if resize.round == round {
        duties.push(Duty::Resizes {
            pool: resize.pool,
            min: resize.min,
            later,
        })?;
    }
    Ok(())
}

// Adds the changes of reserves before this round, and its start.
fn add_round(
    duties: &mut Vec<Duty>,
    resizes: &[Resize],
    round: u32,
    later: u32,
) -> Result<(), AllocError>
    ensures { OnOk result (AddsDuties duties.old.items (duties_at round later resizes.now) duties.new.items) }
{
    'changing: for i in 0..resizes.len() {
        add_change(duties, &resizes[i], round, later)?;
    }
    duties.push(Duty::Starts { round, later })?;
    Ok(())
}

// What is done between rounds, where this is how many writes each has.
fn duties_of(
    alloc: Global,
    rounds: &[u32],
    resizes: &[Resize],
    left: &[u32],
) -> Result<Vec<Duty>, AllocError>
    requires few { length rounds.now < 2 ^ 32 }
    requires short { rounds_in rounds.now ≤ 2 ^ 32 }
    requires left { left.now ≡ left_in rounds.now }
    ensures { IfOk result (λ duties. map duty_of duties.items ≡ all_duties rounds.now resizes.now) }
{
    let mut duties = Vec::new(alloc);
    let mut later = rounds.len() as u32;
    'passing: for passed in 0..left.len() - 1 {
        later -= left[passed];
        add_round(&mut duties, resizes, passed as u32 + 1, later)?;
    }
    Ok(duties)
}

// Adds the keeper, if there is something to do between rounds.
pub(crate) fn open_keeper(
    alloc: Global,
    rounds: &[u32],
    resizes: &[Resize],
    left: &[u32],
    kinds: &mut Vec<Kind>,
) -> Result<(), AllocError>
    requires few { length rounds.now < 2 ^ 32 }
    requires short { rounds_in rounds.now ≤ 2 ^ 32 }
    requires left { left.now ≡ left_in rounds.now }
    ensures { OnOk result (AddsTasks kinds.old.items (keepers_in rounds.now resizes.now) kinds.new.items) }
{
    let duties = duties_of(alloc, rounds, resizes, left)?;
    if !duties.is_empty() {
        kinds.push(Kind::Keeper(Keeper::new(duties)))?;
    }
    Ok(())
}
