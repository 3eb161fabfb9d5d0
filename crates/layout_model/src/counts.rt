//! What a write needs, as counts. No memory is taken.
ghost use Rattle.std.specs.Prelude.{◌≡◌, ◌+◌, ◌<◌, ◌≤◌, length, slice_get};
ghost use Rattle.stack_base.specs.Stack.{IsStack};
ghost use Rattle.stack_base.specs.Tree.{Copies, Cuts, shape_of, size, tree};
ghost use Rattle.layout_model.specs.Need.{fragments_in_run, needed};
ghost use Rattle.layout_model.specs.NeedCounts.{IsNeeds};
ghost use Rattle.layout_model.specs.Pieces.{IsFirstRun};
ghost use Rattle.layout_model.specs.Writes.{IsWrite};

use crate::Write;
use crate::piece::{FirstRun, first_piece};
use stack_base::{DevId, Device, Kind, Stack};

/// The sectors of a segment.
const SEGMENT_SECTORS: u64 = 8;

/// How many segments a bio keeps itself.
const OWN_SEGMENTS: u64 = 4;

/// What a write needs, as counts.
///
/// It is a sum over the sectors of a run, each with what begins there: so need and number of fragments are sums without a list. The record that a
/// mirror takes counts where its run begins, once, and not once a leg or a piece below.
#[derive(Clone, Copy, PartialEq, Eq)]
pub struct Needs {
    /// The elements of pools: bios, vectors and records.
    pub elements: u64,
    /// The bios and records among them.
    pub nodes: u64,
    /// The parts in which it comes to the disks.
    pub fragments: u64,
}

/// What a run needs besides its own bio.
#[derive(Clone, Copy)]
struct Counts {
    /// The bios and records.
    needed: u64,
    /// The parts in which the run comes to the disks.
    fragments: u64,
}

/// What the write needs: its own bio, a vector where this bio has more segments than a bio keeps itself, and what its run needs below.
pub fn need(stack: &Stack, write: &Write) -> Needs
    requires stack { IsStack stack.now }
    requires write { IsWrite stack.now write.now }
    ensures { IsNeeds stack.now write.now result }
{
    let below = count(stack, write.dev, write.start, write.count);
    let vectors = u64::from(write.count.div_ceil(SEGMENT_SECTORS) > OWN_SEGMENTS);
    Needs {
        elements: 1 + vectors + below.needed,
        nodes: 1 + below.needed,
        fragments: below.fragments,
    }
}

/// What the run of `len` sectors from `start` on needs at a device.
#[cycle(counts)]
fn count(stack: &Stack, dev: DevId, start: u64, len: u64) -> Counts
    requires stack { IsStack stack.now }
    requires known { dev.0 < length stack.now.devices.items }
    requires some { 1 ≤ len }
    requires within { start + len ≤ size (tree stack.now dev.0) }
    ensures needed { result.needed ≡ needed (tree stack.now dev.0) start len }
    ensures fragments { result.fragments ≡ fragments_in_run (tree stack.now dev.0) start len }
{
    let device = stack.device(dev);
    match device.kind {
        Kind::Disk { .. } => Counts {
            needed: 0,
            fragments: 1,
        },
        Kind::Linear | Kind::Stripe { .. } | Kind::Zoned { .. } | Kind::Limit { .. } =>
            count_pieces(stack, device, dev, start, len),
        Kind::Mirror { .. } => count_legs(stack, dev, start, len),
    }
}

/// What the run needs at a device that cuts it: a bio for each piece but the last, and what the pieces need.
#[cycle(counts)]
fn count_pieces(stack: &Stack, device: &Device, dev: DevId, start: u64, len: u64) -> Counts
    requires stack { IsStack stack.now }
    requires found { slice_get stack.now.devices.items dev.0 ≡ Some device.now }
    requires cuts { shape_of device.now.kind ≡ Cuts }
    requires some { 1 ≤ len }
    requires within { start + len ≤ size (tree stack.now dev.0) }
    ensures needed { result.needed ≡ needed (tree stack.now dev.0) start len }
    ensures fragments { result.fragments ≡ fragments_in_run (tree stack.now dev.0) start len }
{
    let first = first_piece(stack, device, dev, start, len);
    // Most runs are one piece at most devices: they need what this piece needs, and the way down a chain leaves nothing behind.
    if first.len == len {
        return count(stack, first.dev, first.at, len);
    }
    count_split(stack, device, dev, start, len, first)
}

/// What the run needs at a device that cuts it after this first piece.
// Most runs are not cut: the way down pays for no registers of this loop, nor of that over a mirror's members.
#[cycle(counts)]
#[inline(never)]
fn count_split(
    stack: &Stack,
    device: &Device,
    dev: DevId,
    start: u64,
    len: u64,
    first: FirstRun,
) -> Counts
    requires stack { IsStack stack.now }
    requires found { slice_get stack.now.devices.items dev.0 ≡ Some device.now }
    requires cuts { shape_of device.now.kind ≡ Cuts }
    requires within { start + len ≤ size (tree stack.now dev.0) }
    requires first { IsFirstRun stack.now dev.0 start len first }
    requires split { first.len < len }
    ensures needed { result.needed ≡ needed (tree stack.now dev.0) start len }
    ensures fragments { result.fragments ≡ fragments_in_run (tree stack.now dev.0) start len }
{
    let mut piece = first;
    let mut needed = 0;
    let mut fragments = 0;
    let mut done = 0;
    loop {
        let below = count(stack, piece.dev, piece.at, piece.len);
        done += piece.len;
        needed += below.needed;
        fragments += below.fragments;
        // The last piece keeps the run's own bio.
        if done == len {
            return Counts { needed, fragments };
        }
        needed += 1;
        piece = first_piece(stack, device, dev, start + done, len - done);
    }
}

/// What the run needs at a mirror: a record, a bio for each member, and what the run needs at each of them.
#[cycle(counts)]
#[inline(never)] // as `count_split`
fn count_legs(stack: &Stack, dev: DevId, start: u64, len: u64) -> Counts
    requires stack { IsStack stack.now }
    requires known { dev.0 < length stack.now.devices.items }
    requires copies { (device : Device) → slice_get stack.now.devices.items dev.0 ≡ Some device → shape_of device.kind ≡ Copies }
    requires some { 1 ≤ len }
    requires within { start + len ≤ size (tree stack.now dev.0) }
    ensures needed { result.needed ≡ needed (tree stack.now dev.0) start len }
    ensures fragments { result.fragments ≡ fragments_in_run (tree stack.now dev.0) start len }
{
    let device = stack.device(dev);
    let mut needed = 1 + device.members.len() as u64;
    let mut fragments = 0;
    for member in device.members.iter() {
        let below = count(stack, *member, start, len);
        needed += below.needed;
        fragments += below.fragments;
    }
    Counts { needed, fragments }
}
