//! How far the pools of a run went.
ghost use Rattle.std.specs.Prelude.{◌≡◌, ◌++◌, ◌≤◌, [], ◌∷◌, length, map, IfOk};
ghost use Rattle.plain_core.specs.Cores.{state_of_core};
ghost use Rattle.trace_replay.specs.Walks.{extents_over, first_extents_at};
ghost use Rattle.trace_replay.specs.Replay.{extent_over, wider};

use plain_core::Core;
use stack_base::{DevId, Kind, PoolId, Stack};
use std::alloc::{AllocError, Global};

/// How far a pool went in a run.
#[derive(Clone, Copy, PartialEq, Eq)]
pub struct Extent {
    /// The pool.
    pub pool: PoolId,
    /// The fewest spares that it had.
    pub lowest: u64,
    /// The most elements of it that were out.
    pub most: u64,
}

// A pool, as it is at first.
fn first_extent(core: &Core, pool: PoolId) -> Extent
    ensures { result ≡ extent_over (state_of_core core.now ∷ []) pool }
{
    let has = core.facts(pool);
    Extent {
        pool,
        lowest: has.spares,
        most: has.out,
    }
}

// The pools of a device, behind those that are there.
fn push_pools(
    core: &Core,
    extents: &mut Vec<Extent>,
    number: u32,
    kind: &Kind,
) -> Result<(), AllocError>
    ensures { IfOk result (λ _. extents.new.items ≡ extents.old.items ++ first_extents_at core.now number kind.now) }
{
    let dev = DevId(number);
    match kind {
        Kind::Disk { .. } => {}
        Kind::Mirror { .. } => {
            extents.push(first_extent(core, PoolId::Records(dev)))?;
            extents.push(first_extent(core, PoolId::Bios(dev)))?;
        }
        Kind::Linear | Kind::Stripe { .. } | Kind::Zoned { .. } | Kind::Limit { .. } => {
            extents.push(first_extent(core, PoolId::Bios(dev)))?;
        }
    }
    Ok(())
}

/// The pools of a stack in the order of a report, as they are at first.
pub(crate) fn first_extents(
    alloc: Global,
    core: &Core,
    stack: &Stack,
) -> Result<Vec<Extent>, AllocError>
    requires { length stack.now.devices.items ≤ 32 }
    ensures { IfOk result (λ extents. extents.items ≡ extents_over stack.now (state_of_core core.now ∷ [])) }
{
    let mut extents = Vec::new(alloc);
    extents.push(first_extent(core, PoolId::FsBios))?;
    extents.push(first_extent(core, PoolId::FsVecs))?;
    'devices: for (number, device) in stack.devices.iter().enumerate() {
        push_pools(core, &mut extents, number as u32, &device.kind)?;
    }
    Ok(extents)
}

// A pool that has gone so far, and what it has now.
fn wider(core: &Core, extent: Extent) -> Extent
    ensures { result ≡ wider (state_of_core core.now) extent }
{
    let has = core.facts(extent.pool);
    Extent {
        pool: extent.pool,
        lowest: extent.lowest.min(has.spares),
        most: extent.most.max(has.out),
    }
}

/// What the pools have now is noted.
pub(crate) fn note(core: &Core, extents: &mut [Extent])
    ensures { extents.new ≡ map (wider (state_of_core core.now)) extents.old }
{
    'noting: for place in 0..extents.len() {
        extents[place] = wider(core, extents[place]);
    }
}
