//! Opened objects as plain data.
ghost use Rattle.std.specs.Prelude.{◌≡◌, ◌<◌, IfOk, length};
ghost use Rattle.task_core.specs.opened.OfOne.{scenario_in, IsOpened};
ghost use Rattle.run_machine.specs.Opened.{objects as objects_at};
ghost use Rattle.task_core.specs.Plains.{stage_of, tally_of};
ghost use Rattle.task_steps.specs.Stage.{is_pool};
ghost use Rattle.plain_core.specs.opening.Opening.{all_disks, new_disk, new_pool, core_objects_of, core_pools_of};

use crate::objects::Objects;
use crate::objects::disk::Disk;
use crate::objects::pool::Pool;
use crate::opening::MOST_POOLS;
use crate::opening::objects::{open_books, open_rescues};
use fail_script::Script;
use stack_base::{DevId, PoolId};
use std::alloc::{AllocError, Global};
use task_core::{Opened, Routes, Tally, copy_of, is_mirror, keeps_data, pool_of};

// Whether a pool is one of the stack that was opened.
fn has_pool(opened: &Opened, routes: &Routes, pool: PoolId) -> bool
    requires { routes.now ≡ (stage_of opened.now.objects).routing }
    ensures { result ≡ is_pool (stage_of opened.now.objects) pool }
{
    match pool {
        PoolId::FsBios => true,
        PoolId::FsVecs => true,
        PoolId::Bios(dev) => dev.0 < routes.count() && !keeps_data(routes, dev),
        PoolId::Records(dev) => dev.0 < routes.count() && is_mirror(routes, dev),
    }
}

// The pool of a number. Where the stack has none of it, it is an empty one.
fn pool_seen(
    alloc: Global,
    opened: &Opened,
    routes: &Routes,
    number: u32,
) -> Result<Pool, AllocError>
    requires opened { IsOpened opened.now }
    requires routes { routes.now ≡ (stage_of opened.now.objects).routing }
    ensures { IfOk result (λ pool. pool ≡ new_pool (scenario_in opened.now).stack (scenario_in opened.now).scripts number) }
{
    let pool = pool_of(number);
    if !has_pool(opened, routes, pool) {
        return Ok(Pool::new(0, Script::new(Vec::new(alloc), true)));
    }
    let script = copy_of(alloc, opened.objects.script(pool))?;
    Ok(Pool::of(script, opened.objects.facts(pool)))
}

// All pools that a stack may have, by their numbers, each as a run begins with it: full.
fn pools_seen(alloc: Global, opened: &Opened, routes: &Routes) -> Result<Vec<Pool>, AllocError>
    requires opened { IsOpened opened.now }
    requires routes { routes.now ≡ (stage_of opened.now.objects).routing }
    ensures { IfOk result (λ pools. pools.items ≡ core_pools_of (scenario_in opened.now)) }
{
    let mut pools = Vec::with_capacity(alloc, MOST_POOLS as usize)?;
    'seeing: for number in 0..MOST_POOLS {
        pools.push(pool_seen(alloc, opened, routes, number)?)?;
    }
    Ok(pools)
}

// The disk that a device is, if it is one.
fn disk_seen(
    alloc: Global,
    opened: &Opened,
    routes: &Routes,
    dev: DevId,
) -> Result<Option<Disk>, AllocError>
    requires opened { IsOpened opened.now }
    requires routes { routes.now ≡ (stage_of opened.now.objects).routing }
    requires device { dev.0 < length (scenario_in opened.now).stack.devices.items }
    ensures { IfOk result (λ disk. disk ≡ new_disk (scenario_in opened.now).stack dev.0) }
{
    if !keeps_data(routes, dev) {
        return Ok(None);
    }
    let disk = opened.objects.disk(dev);
    Ok(Some(Disk::open(alloc, dev, disk.sectors(), disk.bad())?))
}

// All disks, by their devices.
fn disks_seen(
    alloc: Global,
    opened: &Opened,
    routes: &Routes,
) -> Result<Vec<Option<Disk>>, AllocError>
    requires opened { IsOpened opened.now }
    requires routes { routes.now ≡ (stage_of opened.now.objects).routing }
    ensures { IfOk result (λ disks. disks.items ≡ all_disks (scenario_in opened.now).stack) }
{
    let mut disks = Vec::with_capacity(alloc, routes.count() as usize)?;
    'seeing: for number in 0..routes.count() {
        disks.push(disk_seen(alloc, opened, routes, DevId(number))?)?;
    }
    Ok(disks)
}

// The tally, in which every write is unfinished.
fn tally_seen(alloc: Global, opened: &Opened) -> Result<Tally, AllocError>
    requires { IsOpened opened.now }
    ensures { IfOk result (λ tally. tally_of tally ≡ (objects_at (scenario_in opened.now)).tally) }
{
    let tally = &opened.objects.tally;
    tally.known();
    let left = Vec::from_slice(alloc, &tally.left)?;
    Ok(Tally::new(left, Vec::from_slice(alloc, &tally.statuses)?))
}

/// The objects that were opened of a text, as plain data.
///
/// # Errors
/// Where there is no memory.
pub fn objects_seen(alloc: Global, opened: &Opened, routes: &Routes) -> Result<Objects, AllocError>
    requires opened { IsOpened opened.now }
    requires routes { routes.now ≡ (stage_of opened.now.objects).routing }
    ensures { IfOk result (λ objects. objects ≡ core_objects_of (scenario_in opened.now) routes.now.places) }
{
    let pools = pools_seen(alloc, opened, routes)?;
    let rescues = open_rescues(alloc, routes.count() as usize)?;
    let disks = disks_seen(alloc, opened, routes)?;
    let books = open_books(alloc, routes)?;
    let tally = tally_seen(alloc, opened)?;
    Ok(Objects::new(routes, pools, rescues, disks, books, tally))
}
