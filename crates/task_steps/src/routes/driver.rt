//! The drivers of devices.
ghost use Rattle.std.specs.Prelude.{◌≡◌, ◌+◌, ◌<◌, ◌≤◌, length, slice_get, Some};
ghost use Rattle.stack_base.specs.Mapping.{smallest};
ghost use Rattle.stack_base.specs.Stack.{IsStack};
ghost use Rattle.task_steps.specs.Routed.{IsDriver, map_of, MapHas, IsFirstPiece, manner_by, legs_by, IsLegBy};

use arrayvec::ArrayVec;
use bio_records::{Bio, Pad};
use limit_split::Limit;
use linear_map::Linear;
use mirror_map::Mirror;
use stack_base::{DevId, Device, Kind, MapLaw, Piece, SetId, Stack};
use stripe_map::Stripe;
use zoned_map::Zoned;

/// The driver of a device.
#[derive(Drop)]
pub enum Driver {
    /// A disk's, which keeps the data.
    Disk,
    /// Of members one behind the other (`drivers/md/md-linear.c`).
    Linear(Linear),
    /// Of chunks that go round (`drivers/md/raid0.c`).
    Stripe(Stripe),
    /// Of chunks that go round members of any sizes, in zones (`drivers/md/raid0.c`).
    Zoned(Zoned),
    /// Of pieces of limited length (`block/blk-merge.c`).
    Limit(Limit),
    /// Of members that each have a copy (`drivers/md/raid1.c`).
    Mirror(Mirror),
}

impl Driver {
    // The first piece of the run of `len` sectors from `start` on, where the driver is one that cuts.
    pub(crate) fn piece(&self, start: u64, len: u64) -> Option<Piece>
        requires some { 1 ≤ len }
        requires within { MapHas (map_of self.now) (start + len) }
        ensures { IsFirstPiece (map_of self.now) start len result }
    {
        match self {
            Driver::Linear(map) => Some(map.piece(start, len)),
            Driver::Stripe(map) => Some(map.piece(start, len)),
            Driver::Zoned(map) => Some(map.piece(start, len)),
            Driver::Limit(map) => Some(map.piece(start, len)),
            Driver::Disk | Driver::Mirror(_) => None,
        }
    }

    // What it does with a bio that it does not hand on.
    pub(crate) fn manner(&self) -> Manner
        ensures { result ≡ manner_by self.now }
    {
        match self {
            Driver::Disk => Manner::Keeps,
            Driver::Mirror(_) => Manner::Copies,
            Driver::Linear(_) | Driver::Stripe(_) | Driver::Zoned(_) | Driver::Limit(_) =>
                Manner::Cuts,
        }
    }

    // How many legs a bio has.
    pub(crate) fn legs(&self) -> u32
        ensures { result ≡ legs_by self.now }
    {
        match self {
            Driver::Mirror(mirror) => mirror.legs(),
            Driver::Disk
            | Driver::Linear(_)
            | Driver::Stripe(_)
            | Driver::Zoned(_)
            | Driver::Limit(_) => 0,
        }
    }

    // A leg of a bio.
    pub(crate) fn leg(&self, bio: &Bio, leg: u32, node: u32) -> (Bio, Pad)
        requires { leg < legs_by self.now }
        ensures { IsLegBy self.now bio.now leg node result }
    {
        match self {
            Driver::Mirror(mirror) => mirror.clone_for(bio, leg, SetId::Of(bio.dev), node),
            Driver::Disk
            | Driver::Linear(_)
            | Driver::Stripe(_)
            | Driver::Zoned(_)
            | Driver::Limit(_) => unreachable!(),
        }
    }
}

/// What a device does with a bio that it does not hand on as it is.
#[derive(Clone, Copy)]
pub enum Manner {
    /// It keeps the data, as a disk does.
    Keeps,
    /// It cuts the bio in two (`bio_split`, `block/bio.c`).
    Cuts,
    /// It gives each member a copy (`raid1_write_request`, `drivers/md/raid1.c`).
    Copies,
}

// The smallest of some sizes.
#[tactic(auto, unfolding(stack_base::specs::Mapping::smallest))]
fn least(sizes: &[u64]) -> u64
    ensures { result ≡ smallest sizes.now }
{
    sizes.iter().copied().reduce(|a, b| a.min(b)).unwrap_or(0)
}

// A copy of a device's members: what is made of a stack borrows nothing of it.
pub(crate) fn members_of(device: &Device) -> ArrayVec<DevId, 8>
    ensures { result.items ≡ device.now.members.items }
{
    ArrayVec::try_from(device.members.as_slice()).unwrap()
}

// The driver of a device.
pub(crate) fn driver_of(stack: &Stack, dev: DevId) -> Driver
    requires stack { IsStack stack.now }
    requires device { dev.0 < length stack.now.devices.items }
    ensures { (device : _) → slice_get stack.now.devices.items dev.0 ≡ Some device → IsDriver stack.now device result }
{
    let device = stack.device(dev);
    match device.kind {
        Kind::Disk { .. } => Driver::Disk,
        Kind::Linear => Driver::Linear(Linear::new(stack.member_sizes(dev))),
        Kind::Stripe { chunk } => {
            let sizes = stack.member_sizes(dev);
            Driver::Stripe(Stripe::new(chunk, sizes.len() as u32, least(&sizes)))
        }
        Kind::Zoned { chunk } => Driver::Zoned(Zoned::new(chunk, stack.member_sizes(dev))),
        Kind::Limit { max, chunk } => Driver::Limit(Limit::new(max, chunk, stack.size(dev))),
        Kind::Mirror { .. } => Driver::Mirror(Mirror::new(members_of(device), stack.size(dev))),
    }
}
