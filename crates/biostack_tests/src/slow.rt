//! The layout by its definition, one sector at a time. It is slow, and there for tests to compare faster ways of finding fragments with.
//! Sizes, starts and places on a device count sectors.
ghost use Rattle.std.specs.Prelude.{◌≡◌, ◌↔◌, ◌<◌, ◌≤◌, ◌^◌, ◌++◌, sum, IsTrue, IfOk, OnOk, length, slice_get, Some};
ghost use Rattle.stack_base.specs.Mapping.{among, head, size_of, slot};
ghost use Rattle.stack_base.specs.Stack.{HasShape, IsStack};
ghost use Rattle.stack_base.specs.Tree.{Cuts, shape_of, size, tree};
ghost use Rattle.layout_model.specs.Way.{FitsWay, heads, place};
ghost use Rattle.biostack_tests.specs.Slow.{IsStep, IsWay};

use arrayvec::ArrayVec;
use stack_base::{DevId, Device, Kind, MapLaw, Stack};
use std::alloc::AllocError;
use zoned_map::Zoned;

/// A sector of a member of a device.
#[derive(Clone, Copy, Debug, PartialEq, Eq)]
pub struct Spot {
    /// The place of the member among the device's members.
    pub member: u64,
    /// The sector there.
    pub at: u64,
}

// Where a sector lies among members of these sizes that stand one behind the other. Each sector behind the last of them is the first one of
// a member that is not there.
fn among(sizes: &[u64], sector: u64) -> Spot
    ensures { among sizes.now sector ≡ record { member = result.member; at = result.at } }
{
    let mut at = sector;
    for (member, size) in sizes.iter().enumerate() {
        if at < *size {
            return Spot {
                member: member as u64,
                at,
            };
        }
        at -= *size;
    }
    Spot {
        member: sizes.len() as u64,
        at: 0,
    }
}

// Where a sector lies among members that chunks go round in zones: where a run of it alone goes.
fn zoned_spot(chunk: u64, sizes: &[u64], sector: u64) -> Spot
    requires shape { HasShape (Kind.Zoned chunk) (length sizes.now) }
    requires small { sum sizes.now < 2 ^ 32 }
    requires within { sector < size_of (Kind.Zoned chunk) sizes.now }
    ensures { slot (Kind.Zoned chunk) sizes.now sector ≡ record { member = result.member; at = result.at } }
{
    let mut all = ArrayVec::new();
    for size in sizes {
        all.push(*size);
    }
    let piece = Zoned::new(chunk, all).piece(sector, 1);
    Spot {
        member: u64::from(piece.member),
        at: piece.at,
    }
}

/// Where a sector of a device of this kind lies in its members, which have these sizes. At a mirror each member has it at the same sector,
/// and the first stands for all of them.
#[tactic(auto, unfolding(stack_base::specs::Mapping::slot))]
pub fn slot(kind: &Kind, sizes: &[u64], sector: u64) -> Spot
    requires shape { HasShape kind.now (length sizes.now) }
    requires small { sum sizes.now < 2 ^ 32 }
    requires within { sector < size_of kind.now sizes.now }
    ensures { slot kind.now sizes.now sector ≡ record { member = result.member; at = result.at } }
{
    match kind {
        Kind::Linear => among(sizes, sector),
        Kind::Stripe { chunk } => {
            let number = sector / *chunk;
            let members = sizes.len() as u64;
            Spot {
                member: number % members,
                at: number / members * *chunk + sector % *chunk,
            }
        }
        Kind::Zoned { chunk } => zoned_spot(*chunk, sizes, sector),
        Kind::Disk { .. } | Kind::Limit { .. } | Kind::Mirror { .. } => Spot {
            member: 0,
            at: sector,
        },
    }
}

/// The first sector of the piece that holds a sector, where a device of this kind over members of these sizes cuts a run that starts at
/// `start`. A disk and a mirror do not cut it.
#[tactic(auto, unfolding(stack_base::specs::Mapping::head))]
pub fn head(kind: &Kind, sizes: &[u64], start: u64, sector: u64) -> u64
    requires shape { HasShape kind.now (length sizes.now) }
    requires in_run { start ≤ sector }
    ensures { result ≡ head kind.now sizes.now start sector }
{
    match kind {
        Kind::Linear => start.max(sector - among(sizes, sector).at),
        Kind::Stripe { chunk } => start.max(sector - sector % *chunk),
        Kind::Zoned { chunk } => start.max(sector - sector % *chunk),
        Kind::Limit { max, chunk } => {
            let block = if *chunk == 0 {
                0
            } else {
                sector - sector % *chunk
            };
            let first = start.max(block);
            first + (sector - first) / *max * *max
        }
        Kind::Disk { .. } | Kind::Mirror { .. } => start,
    }
}

// A step down from a device that cuts runs.
#[derive(Clone, Copy, Debug)]
struct Step {
    // The first sector of the piece at the device.
    head: u64,
    // The member that the piece goes to, and the piece's first sector and the sector itself there.
    dev: DevId,
    start: u64,
    sector: u64,
}

// The step down of a sector in a run that starts at `start`.
fn step_down(stack: &Stack, device: &Device, dev: DevId, start: u64, sector: u64) -> Step
    requires stack { IsStack stack.now }
    requires found { slice_get stack.now.devices.items dev.0 ≡ Some device.now }
    requires cuts { shape_of device.now.kind ≡ Cuts }
    requires in_run { start ≤ sector }
    requires within { sector < size (tree stack.now dev.0) }
    ensures { IsStep stack.now dev.0 start sector result }
{
    let sizes = stack.member_sizes(dev);
    let first = head(&device.kind, &sizes, start, sector);
    let from = slot(&device.kind, &sizes, first);
    let to = slot(&device.kind, &sizes, sector);
    Step {
        head: first,
        dev: device.members[to.member as usize],
        start: from.at,
        sector: to.at,
    }
}

/// Whether `choices` lead a sector of a device down to a disk: one for each mirror on its way, each the place of a member.
#[cycle(fits)]
pub fn fits(stack: &Stack, dev: DevId, sector: u64, choices: &[u32]) -> bool
    requires stack { IsStack stack.now }
    requires device { dev.0 < length stack.now.devices.items }
    requires within { sector < size (tree stack.now dev.0) }
    ensures { IsTrue result ↔ FitsWay (tree stack.now dev.0) sector choices.now }
{
    let device = stack.device(dev);
    match device.kind {
        Kind::Disk { .. } => choices.is_empty(),
        Kind::Mirror { .. } => {
            if choices.is_empty() || device.members.len() <= choices[0] as usize {
                return false;
            }
            let member = device.members[choices[0] as usize];
            fits(stack, member, sector, &choices[1..])
        }
        Kind::Linear | Kind::Stripe { .. } | Kind::Zoned { .. } | Kind::Limit { .. } => {
            // Where the run starts changes no choice, so it starts here.
            let to = step_down(stack, device, dev, sector, sector);
            fits(stack, to.dev, to.sector, choices)
        }
    }
}

/// Whether the device is one of the stack and has such a sector, and the choices lead it down to a disk.
pub fn is_way(stack: &Stack, dev: DevId, sector: u64, choices: &[u32]) -> bool
    requires { IsStack stack.now }
    ensures known { IsTrue result → dev.0 < length stack.now.devices.items }
    ensures within { IsTrue result → sector < size (tree stack.now dev.0) }
    ensures fits { IsTrue result → FitsWay (tree stack.now dev.0) sector choices.now }
    ensures all { IsWay stack.now dev.0 sector choices.now → IsTrue result }
{
    (dev.0 as usize) < stack.devices.len()
        && sector < stack.size(dev)
        && fits(stack, dev, sector, choices)
}

/// Goes the way of a sector from a device down to a disk, in a run that starts at `start`: appends the first sector of the piece that holds
/// it at each device of the way to `into`, and answers the disk and the sector of it. At each mirror the next of `choices` names the member
/// to go on to, by its place.
///
/// # Errors
///
/// Where there is no memory for the heads.
#[cycle(walk)]
pub fn walk(
    stack: &Stack,
    dev: DevId,
    start: u64,
    sector: u64,
    choices: &[u32],
    into: &mut Vec<u64>,
) -> Result<(DevId, u64), AllocError>
    requires stack { IsStack stack.now }
    requires device { dev.0 < length stack.now.devices.items }
    requires in_run { start ≤ sector }
    requires within { sector < size (tree stack.now dev.0) }
    requires fits { FitsWay (tree stack.now dev.0) sector choices.now }
    ensures heads { OnOk result (into.new.items ≡ into.old.items ++ heads (tree stack.now dev.0) start sector choices.now) }
    ensures place { IfOk result (λ to. place (tree stack.now dev.0) sector choices.now ≡ record { disk = to.0.0; at = to.1 }) }
{
    let device = stack.device(dev);
    match device.kind {
        Kind::Disk { .. } => {
            into.push(start)?;
            Ok((dev, sector))
        }
        Kind::Mirror { .. } => {
            into.push(start)?;
            let member = device.members[choices[0] as usize];
            walk(stack, member, start, sector, &choices[1..], into)
        }
        Kind::Linear | Kind::Stripe { .. } | Kind::Zoned { .. } | Kind::Limit { .. } => {
            let to = step_down(stack, device, dev, start, sector);
            into.push(to.head)?;
            walk(stack, to.dev, to.start, to.sector, choices, into)
        }
    }
}
