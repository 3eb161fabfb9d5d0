//! The fragments of a write.
ghost use Rattle.std.specs.Prelude.{◌≡◌, ◌+◌, ◌-◌, ◌*◌, ◌<◌, ◌≤◌, length, IfOk, OnOk, slice_get, Some};
ghost use Rattle.stack_base.specs.Stack.{IsStack};
ghost use Rattle.stack_base.specs.Tree.{tree, size, shape_of, Cuts, Copies};
ghost use Rattle.layout_model.specs.Writes.{IsWrite};
ghost use Rattle.layout_model.specs.Plan.{AddsFragments};
ghost use Rattle.layout_model.specs.Fragments.{AreFragmentsOf, fragment_order};

use crate::Write;
use crate::piece::first_piece;
use stack_base::{DevId, Device, Kind, Stack};
use std::alloc::{AllocError, Global};

/// A part of a write that comes to a disk as one bio. Places and lengths count sectors.
///
/// By its definition it is an interval, with a law that no sector is left out, so that a class of sectors that were none could not go unseen. Its
/// order, by which fragments are sorted, is one number: its offset times 2^32 and its disk.
#[derive(Clone, Copy, Debug, PartialEq, Eq)]
pub struct Fragment {
    /// The number of the write.
    pub write: u32,
    /// The place of its first sector in the write.
    pub offset: u64,
    /// How many sectors it has.
    pub len: u64,
    /// The disk.
    pub disk: DevId,
    /// Its first sector there.
    pub at: u64,
}

// A run of a write: the place of its first sector in the write, its first sector at its device, and its length.
#[derive(Clone, Copy)]
struct Run {
    offset: u64,
    start: u64,
    len: u64,
}

// Appends the fragments of a run at a device.
#[cycle(cut)]
fn cut(
    stack: &Stack,
    write: u32,
    dev: DevId,
    run: Run,
    into: &mut Vec<Fragment>,
) -> Result<(), AllocError>
    requires stack { IsStack stack.now }
    requires device { dev.0 < length stack.now.devices.items }
    requires some { 1 ≤ run.len }
    requires within { run.start + run.len ≤ size (tree stack.now dev.0) }
    requires fits { run.offset + run.len ≤ 262144 }
    ensures { OnOk result (AddsFragments stack.now dev write run into.old.items into.new.items) }
{
    let device = stack.device(dev);
    match device.kind {
        Kind::Disk { .. } => {
            into.push(Fragment {
                write,
                offset: run.offset,
                len: run.len,
                disk: dev,
                at: run.start,
            })?;
            Ok(())
        }
        Kind::Mirror { .. } => copy_legs(stack, device, write, dev, run, into),
        Kind::Linear | Kind::Stripe { .. } | Kind::Zoned { .. } | Kind::Limit { .. } => {
            cut_pieces(stack, device, write, dev, run, into)
        }
    }
}

// Appends the fragments of a run at a device that cuts, piece by piece.
#[cycle(cut)]
fn cut_pieces(
    stack: &Stack,
    device: &Device,
    write: u32,
    dev: DevId,
    run: Run,
    into: &mut Vec<Fragment>,
) -> Result<(), AllocError>
    requires stack { IsStack stack.now }
    requires found { slice_get stack.now.devices.items dev.0 ≡ Some device.now }
    requires cuts { shape_of device.now.kind ≡ Cuts }
    requires within { run.start + run.len ≤ size (tree stack.now dev.0) }
    requires fits { run.offset + run.len ≤ 262144 }
    ensures { OnOk result (AddsFragments stack.now dev write run into.old.items into.new.items) }
{
    let mut rest = run;
    'cutting: while rest.len > 0 {
        let to = first_piece(stack, device, dev, rest.start, rest.len);
        let piece = Run {
            offset: rest.offset,
            start: to.at,
            len: to.len,
        };
        // The last piece is all that is left, so the way down a chain of devices leaves no frame behind.
        if to.len == rest.len {
            return cut(stack, write, to.dev, piece, into);
        }
        cut(stack, write, to.dev, piece, into)?;
        rest = Run {
            offset: rest.offset + to.len,
            start: rest.start + to.len,
            len: rest.len - to.len,
        };
    }
    Ok(())
}

// Appends the fragments of a run at a mirror: those of each member.
#[cycle(cut)]
#[inline(never)] // most runs meet no mirror
fn copy_legs(
    stack: &Stack,
    device: &Device,
    write: u32,
    dev: DevId,
    run: Run,
    into: &mut Vec<Fragment>,
) -> Result<(), AllocError>
    requires stack { IsStack stack.now }
    requires found { slice_get stack.now.devices.items dev.0 ≡ Some device.now }
    requires copies { shape_of device.now.kind ≡ Copies }
    requires some { 1 ≤ run.len }
    requires within { run.start + run.len ≤ size (tree stack.now dev.0) }
    requires fits { run.offset + run.len ≤ 262144 }
    ensures { OnOk result (AddsFragments stack.now dev write run into.old.items into.new.items) }
{
    'legs: for member in device.members.iter() {
        cut(stack, write, *member, run, into)?;
    }
    Ok(())
}

// Fragments stand by their offsets, and by their disks where these are the same.
fn fragment_order(fragment: &Fragment) -> u128
    ensures { result ≡ fragment_order fragment.now }
{
    let disk = fragment.disk.0;
    u128::from(fragment.offset) * (1 << 32) + u128::from(disk)
}

/// The fragments of a write: each part that comes to a disk as one bio, once, by offset in the write and then by disk.
///
/// `number` is the number that the fragments carry. The time is in proportion to the fragments, but for putting them in order.
///
/// # Errors
///
/// Where there is no memory for them.
pub fn fragments(
    alloc: Global,
    stack: &Stack,
    number: u32,
    write: &Write,
) -> Result<Vec<Fragment>, AllocError>
    requires stack { IsStack stack.now }
    requires write { IsWrite stack.now write.now }
    ensures { IfOk result (λ found. AreFragmentsOf stack.now number write.now found.items) }
{
    let mut found = Vec::new(alloc);
    let run = Run {
        offset: 0,
        start: write.start,
        len: write.count,
    };
    cut(stack, number, write.dev, run, &mut found)?;
    found.sort_by_key(|fragment| fragment_order(fragment))?;
    Ok(found)
}
