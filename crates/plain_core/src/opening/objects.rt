//! The objects of a text, as runs begin with them, kind by kind.
ghost use Rattle.std.specs.Prelude.{◌≡◌, ◌<◌, ◌≤◌, ◌^◌, [], All, IfOk, length, replicate, sum};
ghost use Rattle.stack_base.specs.PoolId.{IsOfStack};
ghost use Rattle.stack_base.specs.Stack.{IsStack};
ghost use Rattle.stack_base.specs.declared.ids.PoolId.{PoolId as Pools};
ghost use Rattle.fail_script.specs.Script.{Answers};
ghost use Rattle.run_machine.specs.Opened.{reserve_of};
ghost use Rattle.plain_core.specs.opening.Opening.{all_books, all_disks, all_pools, begun_objects, new_disk};

use crate::objects::Objects;
use crate::objects::book::Book;
use crate::objects::disk::Disk;
use crate::objects::lists::Rescue;
use crate::objects::pool::Pool;
use crate::opening::{MOST_POOLS, MOST_WRITERS};
use fail_script::Script;
use stack_base::{DevId, PoolId, Stack};
use std::alloc::{AllocError, Global};
use task_core::{Routes, bads_of, keeps_data, open_tally, pool_of, records_of, script_of};

// The reserve of a pool, of which a device that the stack does not have has none.
fn reserve_of(stack: &Stack, pool: PoolId) -> u32
    requires { IsStack stack.now }
    ensures { result ≡ reserve_of stack.now pool }
{
    match pool {
        PoolId::FsBios => stack.fs_bios,
        PoolId::FsVecs => stack.fs_vecs,
        PoolId::Bios(dev) => match stack.devices.get(dev.0 as usize) {
            None => 0,
            Some(device) => device.reserve,
        },
        PoolId::Records(dev) => match stack.devices.get(dev.0 as usize) {
            None => 0,
            Some(_) => records_of(stack, dev),
        },
    }
}

// Opens the pools, by their numbers.
fn open_pools(
    alloc: Global,
    stack: &Stack,
    scripts: &[(PoolId, Script)],
) -> Result<Vec<Pool>, AllocError>
    requires stack { IsStack stack.now }
    requires scripts { All (λ (script : Pools × Answers). IsOfStack script.0) scripts.now }
    ensures { IfOk result (λ pools. pools.items ≡ all_pools stack.now scripts.now) }
{
    let mut pools = Vec::with_capacity(alloc, MOST_POOLS as usize)?;
    'opening: for number in 0..MOST_POOLS {
        let script = script_of(alloc, scripts, number)?;
        pools.push(Pool::new(reserve_of(stack, pool_of(number)), script))?;
    }
    Ok(pools)
}

/// Opens the lists of bios that wait for the rescuers of so many devices.
///
/// # Errors
/// Where there is no memory.
pub fn open_rescues(alloc: Global, count: usize) -> Result<Vec<Rescue>, AllocError>
    ensures { IfOk result (λ rescues. rescues.items ≡ replicate count []) }
{
    let mut rescues = Vec::with_capacity(alloc, count)?;
    'opening: for _ in 0..count {
        rescues.push(Rescue::new(alloc))?;
    }
    Ok(rescues)
}

// Opens the disk that a device is, if it is one.
fn open_disk(
    alloc: Global,
    stack: &Stack,
    routes: &Routes,
    dev: DevId,
) -> Result<Option<Disk>, AllocError>
    requires same { routes.now.stack ≡ stack.now }
    requires stack { IsStack stack.now }
    requires device { dev.0 < length stack.now.devices.items }
    ensures { IfOk result (λ disk. disk ≡ new_disk stack.now dev.0) }
{
    if !keeps_data(routes, dev) {
        return Ok(None);
    }
    Ok(Some(Disk::open(alloc, dev, stack.size(dev), bads_of(stack, dev))?))
}

// Opens the disks of a stack, by their devices.
fn open_disks(
    alloc: Global,
    stack: &Stack,
    routes: &Routes,
) -> Result<Vec<Option<Disk>>, AllocError>
    requires same { routes.now.stack ≡ stack.now }
    requires stack { IsStack stack.now }
    ensures { IfOk result (λ disks. disks.items ≡ all_disks stack.now) }
{
    let mut disks = Vec::with_capacity(alloc, stack.devices.len())?;
    'opening: for number in 0..stack.devices.len() {
        disks.push(open_disk(alloc, stack, routes, DevId(number as u32))?)?;
    }
    Ok(disks)
}

/// Opens the books of the writers, with the places that these routes have for each.
///
/// # Errors
/// Where there is no memory.
pub fn open_books(alloc: Global, routes: &Routes) -> Result<Vec<Book>, AllocError>
    ensures { IfOk result (λ books. books.items ≡ all_books routes.now.places) }
{
    let mut books = Vec::with_capacity(alloc, MOST_WRITERS as usize)?;
    'opening: for writer in 0..MOST_WRITERS {
        books.push(Book::open(alloc, writer, routes.places(writer))?)?;
    }
    Ok(books)
}

/// Opens the objects of a stack, where the books of writers have the places of its routes, each pool has its script of these, and so many
/// writes are left of each round, the writes of all rounds being `writes`.
///
/// # Errors
/// Where there is no memory.
pub fn open_objects(
    alloc: Global,
    stack: &Stack,
    routes: &Routes,
    scripts: &[(PoolId, Script)],
    left: Vec<u32>,
    writes: usize,
) -> Result<Objects, AllocError>
    requires same { routes.now.stack ≡ stack.now }
    requires stack { IsStack stack.now }
    requires scripts { All (λ (script : Pools × Answers). IsOfStack script.0) scripts.now }
    requires some { 0 < length left.items }
    requires few { length left.items ≤ 2 ^ 32 }
    requires unfinished { sum left.items < 2 ^ 32 }
    ensures { IfOk result (λ objects. objects ≡ begun_objects stack.now scripts.now routes.now.places left.items writes) }
{
    let pools = open_pools(alloc, stack, scripts)?;
    let rescues = open_rescues(alloc, stack.devices.len())?;
    let disks = open_disks(alloc, stack, routes)?;
    let books = open_books(alloc, routes)?;
    let tally = open_tally(alloc, left, writes)?;
    Ok(Objects::new(routes, pools, rescues, disks, books, tally))
}
