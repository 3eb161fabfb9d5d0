//! What a device shows of the disks below it.
ghost use Rattle.std.specs.Prelude.{◌≡◌, ◌+◌, ◌<◌, ◌≤◌, length, slice_get};
ghost use Rattle.stack_base.specs.Stack.{IsStack};
ghost use Rattle.stack_base.specs.Tree.{size, tree};
ghost use Rattle.layout_model.specs.Shown.{IsShownMember, IsStretch, ShowsFirst};

use crate::piece::{FirstRun, first_piece};
use stack_base::{DevId, Device, Kind, Stack};

// The member that a device shows, its first one.
fn shown_member(stack: &Stack, device: &Device, dev: DevId) -> DevId
    requires stack { IsStack stack.now }
    requires found { slice_get stack.now.devices.items dev.0 ≡ Some device.now }
    requires shows { ShowsFirst device.now.kind }
    ensures { IsShownMember stack.now dev.0 result }
{
    device.members[0]
}

/// Where the first sectors of a run are on a disk, as many as follow one another there. A mirror shows its first member; what Linux reads
/// of one may come from another member (`read_balance`, `drivers/md/raid1.c`).
#[cycle(first_stretch)]
pub fn first_stretch(stack: &Stack, dev: DevId, start: u64, len: u64) -> FirstRun
    requires stack { IsStack stack.now }
    requires device { dev.0 < length stack.now.devices.items }
    requires some { 1 ≤ len }
    requires within { start + len ≤ size (tree stack.now dev.0) }
    ensures { IsStretch stack.now dev.0 start len result }
{
    let device = stack.device(dev);
    match device.kind {
        Kind::Disk { .. } => FirstRun {
            dev,
            at: start,
            len,
        },
        // A limit cuts runs, but its sectors are those of its member.
        Kind::Mirror { .. } | Kind::Limit { .. } => {
            let member = shown_member(stack, device, dev);
            first_stretch(stack, member, start, len)
        }
        Kind::Linear | Kind::Stripe { .. } | Kind::Zoned { .. } => {
            let to = first_piece(stack, device, dev, start, len);
            first_stretch(stack, to.dev, to.at, to.len)
        }
    }
}
