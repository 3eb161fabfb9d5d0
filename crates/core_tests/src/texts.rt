//! States as a test writes them, as texts, and events as lines.
ghost use Rattle.std.specs.Prelude.{◌+◌, ◌<◌, ◌≤◌, ◌↔◌, All, IsTrue};
ghost use Rattle.fail_script.specs.Script.{Answers};
ghost use Rattle.stack_base.specs.Stack.{IsStack};
ghost use Rattle.stack_base.specs.PoolId.{IsOfStack};
ghost use Rattle.stack_base.specs.declared.ids.PoolId.{PoolId as Pools};
ghost use Rattle.layout_model.specs.declared.write.Write.{Write as Writes};
ghost use Rattle.layout_model.specs.Bound.{all_elements, most_elements};
ghost use Rattle.layout_model.specs.Writes.{IsWrite};
ghost use Rattle.work_text.specs.declared.Resize.{Resize as Resizes};
ghost use Rattle.plain_core.specs.opening.Opening.{CanOpen};

use decl_text::Accepted;
use fail_script::Script;
use layout_model::{Write, need};
use plain_core::Core;
use stack_base::{DevId, PoolId, Stack};
use task_core::TaskId;
use work_text::{Resize, Work};

// Whether a stack may have a pool.
fn is_of_stack(pool: PoolId) -> bool
    ensures { IsTrue result ↔ IsOfStack pool }
{
    match pool {
        PoolId::FsBios => true,
        PoolId::FsVecs => true,
        PoolId::Bios(dev) => dev.0 < 32,
        PoolId::Records(dev) => dev.0 < 32,
    }
}

// Whether a run ends within so many sectors.
fn ends_within(start: u64, len: u64, size: u64) -> bool
    ensures { IsTrue result ↔ (start + len ≤ size) }
{
    len <= size && start <= size - len
}

// Whether the stack serves a write.
fn is_write(stack: &Stack, write: &Write) -> bool
    requires { IsStack stack.now }
    ensures { IsTrue result ↔ IsWrite stack.now write.now }
{
    (write.dev.0 as usize) < stack.devices.len()
        && 1 <= write.count
        && ends_within(write.start, write.count, stack.size(write.dev))
}

// Whether a stack may have the pools of all scripts.
fn have_pools(scripts: &[(PoolId, Script)]) -> bool
    ensures { IsTrue result → All (λ (script : Pools × Answers). IsOfStack script.0) scripts.now }
{
    scripts.iter().all(|script| is_of_stack(script.0))
}

// Whether a stack may have the pools of all changes.
fn change_pools(resizes: &[Resize]) -> bool
    ensures { IsTrue result → All (λ (resize : Resizes). IsOfStack resize.pool) resizes.now }
{
    resizes.iter().all(|resize| is_of_stack(resize.pool))
}

// Whether the stack serves all writes.
fn are_writes(stack: &Stack, writes: &[Write]) -> bool
    requires { IsStack stack.now }
    ensures { IsTrue result → All (IsWrite stack.now) writes.now }
{
    writes.iter().all(|write| is_write(stack, write))
}

// Whether all writers have numbers up to 7.
fn have_writers(writes: &[Write]) -> bool
    ensures { IsTrue result → All (λ (write : Writes). write.task ≤ 7) writes.now }
{
    writes.iter().all(|write| write.task <= 7)
}

// Whether all rounds are behind 1,024 `sync` lines at most.
fn have_rounds(rounds: &[u32]) -> bool
    ensures { IsTrue result → All (λ round. round ≤ 1024) rounds.now }
{
    rounds.iter().all(|round| *round <= 1024)
}

// Whether all writes need no more elements than they may.
fn need_few(stack: &Stack, writes: &[Write]) -> bool
    requires stack { IsStack stack.now }
    requires served { All (IsWrite stack.now) writes.now }
    ensures { IsTrue result → all_elements stack.now writes.now ≤ most_elements }
{
    let mut total: u64 = 0;
    'adding: for write in writes {
        let needed = need(stack, write).elements;
        if needed > 1_048_576 - total {
            return false;
        }
        total += needed;
    }
    true
}

/// Whether a text may have such scripts and such work over a stack.
pub fn can_open(stack: &Stack, scripts: &[(PoolId, Script)], work: &Work) -> bool
    requires { IsStack stack.now }
    ensures { IsTrue result → CanOpen stack.now scripts.now work.now }
{
    have_pools(scripts)
        && change_pools(&work.resizes)
        && are_writes(stack, &work.writes)
        && have_writers(&work.writes)
        && need_few(stack, &work.writes)
        && work.rounds.len() == work.writes.len()
        && have_rounds(&work.rounds)
}

/// A text that was read, how many writes it has, and the state in which its runs begin.
#[derive(Drop)]
pub struct Opened {
    pub accepted: Accepted,
    pub writes: usize,
    pub core: Core,
}

/// Tasks of the tests.
pub const W0: Option<TaskId> = Some(TaskId::Writer(0));

pub const W1: Option<TaskId> = Some(TaskId::Writer(1));

pub const CA: Option<TaskId> = Some(TaskId::Completer(DevId(0)));

pub const CB: Option<TaskId> = Some(TaskId::Completer(DevId(1)));

pub const RM: Option<TaskId> = Some(TaskId::Rescuer(DevId(2)));

pub const K: Option<TaskId> = Some(TaskId::Keeper);
