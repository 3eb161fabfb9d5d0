//! What a run leaves.
ghost use Rattle.std.specs.Prelude.{◌≡◌, ◌<◌, ◌≤◌, [], ◌∷◌, IsTrue, length, vec_capacity};
ghost use Rattle.task_core.specs.Leaving.{IsReservedForRun, IsLeft};
ghost use Rattle.task_core.specs.opened.OfOne.{AreOfOne};
ghost use Rattle.task_core.specs.Plains.{objects_of, stage_of, Holds};
ghost use Rattle.task_steps.specs.Routed.{routed_tree};
ghost use Rattle.task_steps.specs.Stage.{is_pool};
ghost use Rattle.serial_run.specs.Pools.{stack_pools, pools_by, AddsFacts, HasRoomForFacts};

use mempool_core::Facts;
use stack_base::{DevId, PoolId};
use task_core::{Ended, Manner, Plain, Routes, Task};

// Adds a pool with its facts, for which there is room.
fn add(objects: &Plain, pool: PoolId, pools: &mut Vec<(PoolId, Facts)>)
    requires holds { Holds objects.now }
    requires pool { IsTrue (is_pool (stage_of objects.now) pool) }
    requires room { length pools.old.items < vec_capacity pools.old }
    ensures added { AddsFacts (objects_of objects.now) (pool ∷ []) pools.old pools.new }
    ensures room { vec_capacity pools.old ≤ vec_capacity pools.new }
{
    pools.push((pool, objects.facts(pool))).unwrap();
}

// Adds the pools of a device.
fn add_of(objects: &Plain, routes: &Routes, dev: DevId, pools: &mut Vec<(PoolId, Facts)>)
    requires holds { Holds objects.now }
    requires routing { routes.now ≡ (stage_of objects.now).routing }
    requires device { dev.0 < length routes.now.stack.devices.items }
    requires room { HasRoomForFacts (pools_by dev (routed_tree routes.now dev)) pools.old }
    ensures added { AddsFacts (objects_of objects.now) (pools_by dev (routed_tree routes.now dev)) pools.old pools.new }
    ensures room { vec_capacity pools.old ≤ vec_capacity pools.new }
{
    match routes.manner(dev) {
        Manner::Keeps => {}
        Manner::Cuts => add(objects, PoolId::Bios(dev), pools),
        Manner::Copies => {
            add(objects, PoolId::Records(dev), pools);
            add(objects, PoolId::Bios(dev), pools);
        }
    }
}

// Adds the pools of all devices, by falling number.
fn add_falling(objects: &Plain, routes: &Routes, pools: &mut Vec<(PoolId, Facts)>)
    requires holds { Holds objects.now }
    requires routing { routes.now ≡ (stage_of objects.now).routing }
    requires room { HasRoomForFacts (stack_pools routes.now.stack) pools.old }
    ensures { AddsFacts (objects_of objects.now) (stack_pools routes.now.stack) pools.old pools.new }
{
    'adding: for number in (0..routes.count()).rev() {
        add_of(objects, routes, DevId(number), pools);
    }
}

// Adds the pools of all devices, by falling number. A task knows the devices, and where there is none, there are no devices either.
fn add_all(objects: &Plain, tasks: &[Task], pools: &mut Vec<(PoolId, Facts)>)
    requires one { AreOfOne objects.now tasks.now }
    requires some { 1 ≤ length (stage_of objects.now).routing.stack.devices.items → 1 ≤ length tasks.now }
    requires room { HasRoomForFacts (stack_pools (stage_of objects.now).routing.stack) pools.old }
    ensures { AddsFacts (objects_of objects.now) (stack_pools (stage_of objects.now).routing.stack) pools.old pools.new }
{
    match tasks.first() {
        Some(task) => add_falling(objects, task.routes(), pools),
        None => {}
    }
}

/// What objects leave with which a run of so many events ended. Nothing is copied but the facts of pools, for which there is room.
pub(crate) fn leave(objects: Plain, tasks: &[Task], room: Ended, steps: u64) -> Ended
    requires one { AreOfOne objects tasks.now }
    requires some { 1 ≤ length (stage_of objects).routing.stack.devices.items → 1 ≤ length tasks.now }
    requires room { IsReservedForRun (stage_of objects).routing.stack (stage_of objects).writes room }
    ensures { IsLeft (stage_of objects).routing.stack (objects_of objects) steps result }
{
    let mut pools = room.pools;
    add(&objects, PoolId::FsBios, &mut pools);
    add(&objects, PoolId::FsVecs, &mut pools);
    add_all(&objects, tasks, &mut pools);
    let (statuses, disks) = objects.leaves();
    Ended {
        statuses,
        disks,
        pools,
        steps,
    }
}
