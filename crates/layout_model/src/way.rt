//! Where one sector goes.
ghost use Rattle.std.specs.Prelude.{◌≡◌, ◌<◌, length, slice_get, Some};
ghost use Rattle.stack_base.specs.Stack.{IsStack};
ghost use Rattle.stack_base.specs.Tree.{Copies, shape_of, tree, size};
ghost use Rattle.layout_model.specs.Pieces.{IsChosen};
ghost use Rattle.layout_model.specs.Way.{FitsWay, place};

use crate::piece::first_piece;
use stack_base::{DevId, Device, Kind, Stack};

// The member of a mirror that the first choice names, and the other choices.
fn chosen<'a>(
    stack: &Stack,
    device: &Device,
    dev: DevId,
    sector: u64,
    choices: &'a [u32],
) -> (DevId, &'a [u32])
    requires stack { IsStack stack.now }
    requires found { slice_get stack.now.devices.items dev.0 ≡ Some device.now }
    requires copies { shape_of device.now.kind ≡ Copies }
    requires fits { FitsWay (tree stack.now dev.0) sector choices.now }
    ensures { IsChosen stack.now dev.0 sector choices.now result.0 result.1.now }
{
    (device.members[choices[0] as usize], &choices[1..])
}

/// The disk that a sector of a device is on, and which sector of the disk it is. At each mirror on the way the next of `choices` names the
/// member to go on to, by its place.
#[cycle(place)]
pub fn place(stack: &Stack, dev: DevId, sector: u64, choices: &[u32]) -> (DevId, u64)
    requires stack { IsStack stack.now }
    requires device { dev.0 < length stack.now.devices.items }
    requires within { sector < size (tree stack.now dev.0) }
    requires fits { FitsWay (tree stack.now dev.0) sector choices.now }
    ensures { place (tree stack.now dev.0) sector choices.now ≡ record { disk = result.0.0; at = result.1 } }
{
    let device = stack.device(dev);
    match device.kind {
        Kind::Disk { .. } => (dev, sector),
        Kind::Mirror { .. } => {
            let (member, others) = chosen(stack, device, dev, sector, choices);
            place(stack, member, sector, others)
        }
        Kind::Linear | Kind::Stripe { .. } | Kind::Zoned { .. } | Kind::Limit { .. } => {
            let to = first_piece(stack, device, dev, sector, 1);
            place(stack, to.dev, to.at, choices)
        }
    }
}
