//! The scripts of all pools, by falling number.
ghost use Rattle.std.specs.Prelude.{◌≡◌, ◌<◌, ◌≤◌, ◌++◌, All, IfOk, length, position};
ghost use Rattle.stack_base.specs.PoolId.{pool_number};
ghost use Rattle.decl_text.specs.Checks.{is_of_pool};
ghost use Rattle.decl_text.specs.Accepting.{device_pools, pools};
ghost use Rattle.stack_check.specs.Finish.{OthersKeepTheirs, script_among, shared_scripts};

use crate::placed::Placed;
use crate::scripts::Scripted;
use decl_text::What;
use fail_script::Script;
use stack_base::{DevId, PoolId};
use std::alloc::{AllocError, Global};

/// Each pool of these devices and of the writers with its script, by falling number. A pool without one has no entries and this tail.
pub(crate) fn share(
    alloc: Global,
    placed: &[Placed<'_>],
    mut given: Vec<Scripted>,
    tail: bool,
) -> Result<Vec<(PoolId, Script)>, AllocError>
    requires few { length placed.now ≤ 32 }
    requires small { All (λ s. pool_number s.pool ≤ 65) given.items }
    ensures { IfOk result (λ found. found.items ≡ shared_scripts placed.now given.items tail) }
{
    let pools = pools_of(alloc, placed)?;
    let mut shared = Vec::new(alloc);
    for pool in &pools {
        let script = take_script(alloc, &mut given, *pool, tail);
        shared.push((*pool, script))?;
    }
    Ok(shared)
}

/// All pools of these devices and of the writers, by falling number.
fn pools_of(alloc: Global, placed: &[Placed<'_>]) -> Result<Vec<PoolId>, AllocError>
    requires { length placed.now ≤ 32 }
    ensures { IfOk result (λ found. found.items ≡ pools placed.now) }
{
    let mut pools = Vec::new(alloc);
    pools.push(PoolId::FsBios)?;
    pools.push(PoolId::FsVecs)?;
    let mut number = placed.len();
    while number > 0 {
        number -= 1;
        let next = &placed[number];
        push_pools(&mut pools, number, next.what)?;
    }
    Ok(pools)
}

/// Appends the pools of the device of this number, by falling number.
fn push_pools(pools: &mut Vec<PoolId>, number: usize, what: What) -> Result<(), AllocError>
    requires { number < 32 }
    ensures { IfOk result (λ _. pools.new.items ≡ pools.old.items ++ device_pools number what) }
{
    let device = DevId(number as u32);
    match what {
        What::Disk { .. } => {}
        What::Mirror { .. } => {
            pools.push(PoolId::Records(device))?;
            pools.push(PoolId::Bios(device))?;
        }
        What::Linear | What::Stripe { .. } | What::Zoned { .. } | What::Limit { .. } => pools.push(
            PoolId::Bios(device),
        )?,
    }
    Ok(())
}

/// The script of the pool: the one given to it, which is taken away, or one without entries and with this tail.
fn take_script(alloc: Global, given: &mut Vec<Scripted>, pool: PoolId, tail: bool) -> Script
    requires pool { pool_number pool ≤ 65 }
    requires small { All (λ s. pool_number s.pool ≤ 65) given.old.items }
    ensures script { result ≡ script_among given.old.items tail pool }
    ensures others { OthersKeepTheirs pool given.old.items given.new.items }
    ensures small { All (λ s. pool_number s.pool ≤ 65) given.new.items }
{
    match place_of(given, pool) {
        Some(at) => given.remove(at).script,
        None => Script::new(Vec::new(alloc), tail),
    }
}

/// The place of the pool's script.
fn place_of(given: &[Scripted], pool: PoolId) -> Option<usize>
    requires pool { pool_number pool ≤ 65 }
    requires small { All (λ s. pool_number s.pool ≤ 65) given.now }
    ensures { result ≡ position (is_of_pool pool) given.now }
{
    let number = pool.no();
    given
        .iter()
        .position(|scripted| scripted.pool.no() == number)
}
