//! The pools of a scenario, as they are opened: those of bios, of vectors and of records.
ghost use Rattle.std.specs.Prelude.{◌≡◌, ◌+◌, ◌<◌, ◌≤◌, ◌^◌, ℕ, suc, true, false, All, IfOk, OnOk, length};
ghost use Rattle.stack_base.specs.Stack.{IsStack};
ghost use Rattle.stack_base.specs.Tree.{tree};
ghost use Rattle.stack_base.specs.PoolId.{pool_number};
ghost use Rattle.stack_base.specs.declared.ids.PoolId.TheVariants.{Bios, Records};
ghost use Rattle.run_machine.specs.Opened.{device_at, reserve_of, script_at};
ghost use Rattle.task_core.specs.opened.Openings.{device_count, widest, IsOpenPool, has_set_at, AreSets, NextSet, AreRecords, NextRecords};
ghost use Rattle.task_steps.specs.Stage.{has_mirror_in};
ghost use Rattle.task_steps.specs.Routed.{routing_setup};
ghost use Rattle.run_machine.specs.Scene.{is_mirror};

use crate::opening::objects::{enter, keeps_data};
use bio_records::{BioBody, Pad, Slip};
use elem_ledger::Fresh;
use fail_script::Script;
use mempool_core::Pool;
use model_disks::Disk;
use stack_base::{DevId, Kind, PoolId, SetId, Stack};
use std::alloc::{AllocError, Global};
use task_steps::{Manner, Routes};

/// The same script once more.
///
/// # Errors
/// Where there is no memory.
pub fn copy_of(alloc: Global, script: &Script) -> Result<Script, AllocError>
    ensures { IfOk result (λ copy. copy ≡ script.now) }
{
    let mut entries = Vec::with_capacity(alloc, script.entries() as usize)?;
    'copying: for pos in 0..script.entries() {
        entries.push(script.allows(pos))?;
    }
    Ok(Script::new(entries, script.tail()))
}

/// The script of the pool with this number. Where there is none, each take may have ordinary memory.
///
/// # Errors
/// Where there is no memory.
pub fn script_of(
    alloc: Global,
    scripts: &[(PoolId, Script)],
    number: u32,
) -> Result<Script, AllocError>
    requires { All (λ script. pool_number script.0 < 2 ^ 32) scripts.now }
    ensures { IfOk result (λ script. script ≡ script_at scripts.now number) }
{
    'looking: for i in 0..scripts.len() {
        if scripts[i].0.no() == number {
            return copy_of(alloc, &scripts[i].1);
        }
    }
    Ok(Script::new(Vec::new(alloc), true))
}

// The most elements that the pool with this number is to keep, which begins with so many.
fn widest(reserves: &[(PoolId, u32)], number: u32, min: u32) -> u32
    requires { All (λ reserve. pool_number reserve.0 < 2 ^ 32) reserves.now }
    ensures { result ≡ widest reserves.now number min }
{
    let mut most = min;
    'widening: for i in 0..reserves.len() {
        if reserves[i].0.no() == number {
            most = most.max(reserves[i].1);
        }
    }
    most
}

// Opens a pool that begins with so many elements.
pub(crate) fn open_pool<P: Fresh + Drop>(
    alloc: Global,
    id: PoolId,
    min: u32,
    scripts: &[(PoolId, Script)],
    reserves: &[(PoolId, u32)],
) -> Result<Pool<P>, AllocError>
    requires some { 1 ≤ min }
    requires number { pool_number id < 2 ^ 32 }
    requires scripts { All (λ script. pool_number script.0 < 2 ^ 32) scripts.now }
    requires reserves { All (λ reserve. pool_number reserve.0 < 2 ^ 32) reserves.now }
    ensures { IfOk result (IsOpenPool scripts.now reserves.now id min) }
{
    let script = script_of(alloc, scripts, id.no())?;
    let mut pool = Pool::open(alloc, id.no(), min, script)?;
    pool.widen(widest(reserves, id.no(), min))?;
    Ok(pool)
}

// Opens the pool of a device's bios, if its set has one, behind those of the devices before it.
fn open_set(
    alloc: Global,
    stack: &Stack,
    routes: &Routes,
    scripts: &[(PoolId, Script)],
    reserves: &[(PoolId, u32)],
    dev: DevId,
    bios: &mut Vec<(SetId, Pool<BioBody<Pad>>)>,
    table: &mut [u32; 66],
) -> Result<(), AllocError>
    requires same { routes.now.stack ≡ stack.now }
    requires stack { IsStack stack.now }
    requires device { dev.0 < length stack.now.devices.items }
    requires some { has_set_at routes.now (suc dev.0) ≡ true → 1 ≤ reserve_of stack.now (Bios dev) }
    requires scripts { All (λ script. pool_number script.0 < 2 ^ 32) scripts.now }
    requires reserves { All (λ reserve. pool_number reserve.0 < 2 ^ 32) reserves.now }
    requires few { length bios.old.items ≤ dev.0 + 1 }
    ensures { OnOk result (NextSet routes.now scripts.now reserves.now (suc dev.0) bios.old.items table.old bios.new.items table.new) }
{
    if !keeps_data(routes, dev) {
        let id = PoolId::Bios(dev);
        let pool = open_pool(alloc, id, stack.device(dev).reserve, scripts, reserves)?;
        enter(bios, table, id.no(), (SetId::Of(dev), pool))?;
    }
    Ok(())
}

// Opens the pools of bios: the writers' first, and then those of the devices' sets.
pub(crate) fn open_sets(
    alloc: Global,
    stack: &Stack,
    routes: &Routes,
    scripts: &[(PoolId, Script)],
    reserves: &[(PoolId, u32)],
    table: &mut [u32; 66],
) -> Result<Vec<(SetId, Pool<BioBody<Pad>>)>, AllocError>
    requires same { routes.now.stack ≡ stack.now }
    requires stack { IsStack stack.now }
    requires first { 1 ≤ stack.now.fs_bios }
    requires some { (dev : ℕ) → has_set_at routes.now (suc dev) ≡ true → 1 ≤ reserve_of stack.now (Bios (device_at dev)) }
    requires scripts { All (λ script. pool_number script.0 < 2 ^ 32) scripts.now }
    requires reserves { All (λ reserve. pool_number reserve.0 < 2 ^ 32) reserves.now }
    ensures { IfOk result (λ bios. AreSets routes.now scripts.now reserves.now (suc (device_count stack.now)) bios.items table.new) }
{
    let mut bios = Vec::with_capacity(alloc, stack.devices.len() + 1)?;
    let pool = open_pool(alloc, PoolId::FsBios, stack.fs_bios, scripts, reserves)?;
    enter(&mut bios, table, PoolId::FsBios.no(), (SetId::Fs, pool))?;
    'opening: for number in 0..stack.devices.len() {
        open_set(
            alloc,
            stack,
            routes,
            scripts,
            reserves,
            DevId(number as u32),
            &mut bios,
            table,
        )?;
    }
    Ok(bios)
}

/// Whether the device is a mirror.
pub fn is_mirror(routes: &Routes, dev: DevId) -> bool
    requires { dev.0 < length routes.now.stack.devices.items }
    ensures { result ≡ is_mirror ((routing_setup routes.now).tree dev.0) }
{
    match routes.manner(dev) {
        Manner::Keeps => false,
        Manner::Cuts => false,
        Manner::Copies => true,
    }
}

/// The reserve of the records of a mirror, which another device has none of.
pub fn records_of(stack: &Stack, dev: DevId) -> u32
    requires stack { IsStack stack.now }
    requires device { dev.0 < length stack.now.devices.items }
    ensures { result ≡ reserve_of stack.now (Records dev) }
{
    match stack.device(dev).kind {
        Kind::Disk { .. } => 0,
        Kind::Linear => 0,
        Kind::Stripe { .. } => 0,
        Kind::Zoned { .. } => 0,
        Kind::Limit { .. } => 0,
        Kind::Mirror { records } => records,
    }
}

// Opens the pool of a mirror's records, behind those of the devices before it.
fn open_slips(
    alloc: Global,
    stack: &Stack,
    routes: &Routes,
    scripts: &[(PoolId, Script)],
    reserves: &[(PoolId, u32)],
    dev: DevId,
    records: &mut Vec<(DevId, Pool<Slip>)>,
    table: &mut [u32; 66],
) -> Result<(), AllocError>
    requires same { routes.now.stack ≡ stack.now }
    requires stack { IsStack stack.now }
    requires device { dev.0 < length stack.now.devices.items }
    requires some { has_mirror_in routes.now dev.0 ≡ true → 1 ≤ reserve_of stack.now (Records dev) }
    requires scripts { All (λ script. pool_number script.0 < 2 ^ 32) scripts.now }
    requires reserves { All (λ reserve. pool_number reserve.0 < 2 ^ 32) reserves.now }
    requires few { length records.old.items ≤ dev.0 }
    ensures { OnOk result (NextRecords routes.now scripts.now reserves.now dev.0 records.old.items table.old records.new.items table.new) }
{
    if is_mirror(routes, dev) {
        let id = PoolId::Records(dev);
        let pool = open_pool(alloc, id, records_of(stack, dev), scripts, reserves)?;
        enter(records, table, id.no(), (dev, pool))?;
    }
    Ok(())
}

// Opens the pools of the records of all mirrors.
pub(crate) fn open_records(
    alloc: Global,
    stack: &Stack,
    routes: &Routes,
    scripts: &[(PoolId, Script)],
    reserves: &[(PoolId, u32)],
    table: &mut [u32; 66],
) -> Result<Vec<(DevId, Pool<Slip>)>, AllocError>
    requires same { routes.now.stack ≡ stack.now }
    requires stack { IsStack stack.now }
    requires some { (dev : ℕ) → has_mirror_in routes.now dev ≡ true → 1 ≤ reserve_of stack.now (Records (device_at dev)) }
    requires scripts { All (λ script. pool_number script.0 < 2 ^ 32) scripts.now }
    requires reserves { All (λ reserve. pool_number reserve.0 < 2 ^ 32) reserves.now }
    ensures { IfOk result (λ records. AreRecords routes.now scripts.now reserves.now (device_count stack.now) records.items table.new) }
{
    let mut records = Vec::with_capacity(alloc, stack.devices.len())?;
    'opening: for number in 0..stack.devices.len() {
        open_slips(
            alloc,
            stack,
            routes,
            scripts,
            reserves,
            DevId(number as u32),
            &mut records,
            table,
        )?;
    }
    Ok(records)
}
