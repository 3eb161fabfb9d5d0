//! A stack of devices, and how large each of them is.
ghost use Rattle.std.specs.Prelude.{◌≡◌, ◌<◌, length, slice_get};
ghost use Rattle.stack_base.specs.Mapping.{size_of};
ghost use Rattle.stack_base.specs.Stack.{AreMemberSizes, IsDevice, IsStack};
ghost use Rattle.stack_base.specs.Tree.{member_trees, over, size, sizes_at, tree};

use crate::{Bad, DevId};
use arrayvec::{ArrayString, ArrayVec};

/// What a device does with the bios that it serves, with the numbers of its declaration.
///
/// Wherever it is all that matters, a kind is treated by its shape: it keeps, cuts or copies a run (`shape_of`, `specs/Tree.antt`). So a new kind
/// that cuts is few cases.
#[derive(Drop)]
pub enum Kind {
    /// Keeps the data. `sectors` is its size, and writes to one of the ranges in `bad` fail.
    Disk { sectors: u64, bad: Vec<Bad> },
    /// Its members stand one behind the other (`drivers/md/md-linear.c`).
    Linear,
    /// Chunks of `chunk` sectors go round its members (`drivers/md/raid0.c`).
    Stripe { chunk: u64 },
    /// Chunks of `chunk` sectors go round members of any sizes, in zones: first round all members up to the end of the smallest, and
    /// then round those that have more (`create_strip_zones`, `drivers/md/raid0.c`).
    Zoned { chunk: u64 },
    /// Each sector is the same sector of its one member; a piece has at most `max` sectors and does not cross a multiple of `chunk`,
    /// where that is not 0 (`bio_split_rw`, `block/blk-merge.c`).
    Limit { max: u64, chunk: u64 },
    /// Each member has a copy (`drivers/md/raid1.c`). `records` is the reserve of its pool of records.
    Mirror { records: u32 },
}

/// A device of the stack.
#[derive(Drop)]
pub struct Device {
    /// Its name, of 1 to 16 characters.
    pub name: ArrayString<16>,
    pub kind: Kind,
    /// The devices below it, in their order. Each was declared before it.
    pub members: ArrayVec<DevId, 8>,
    /// The reserve of its pool of bios.
    pub reserve: u32,
    /// Whether its set has a rescuer (`BIOSET_NEED_RESCUER`).
    pub rescuer: bool,
}

/// A declaration of devices, and the reserves of the writers' set.
///
/// A valid one (`IsStack`) has two bounds of its own, on the sectors of a device and on what begins at one sector, so that no sum over a write can
/// pass 64 bits.
#[derive(Drop)]
pub struct Stack {
    /// The devices, each by its place in this list.
    pub devices: Vec<Device>,
    /// How many sectors each of them has, by the same places. A device's size goes by those of all that is below it, so it is reckoned
    /// once, where the device is declared and checked, and not where it is asked for: no caller goes down a tree, or hands a table on.
    pub sizes: ArrayVec<u64, 32>,
    /// The reserve of the writers' pool of bios.
    pub fs_bios: u32,
    /// The reserve of the writers' pool of vectors.
    pub fs_vecs: u32,
}

impl Stack {
    /// The device with this number. The definitions see it as a tree over its members (`specs/Tree.antt`), and its size goes by theirs. A node
    /// has the sizes of its members, so that slots and heads need no recursion.
    pub fn device(&self, d: DevId) -> &Device
        requires stack { IsStack self.now }
        requires device { d.0 < length self.now.devices.items }
        ensures found { slice_get self.now.devices.items d.0 ≡ Some result.now }
        ensures is_device { IsDevice self.now d.0 result.now }
        ensures over_members { tree self.now d.0 ≡ over d.0 result.now.kind (member_trees self.now result.now) }
        ensures sized { size (tree self.now d.0) ≡ size_of result.now.kind (sizes_at self.now result.now) }
    {
        &self.devices[d.0 as usize]
    }

    /// How many sectors the device has (`get_capacity`, `include/linux/blkdev.h`). A disk has its own number of them, and each other
    /// device as many as its members give it (`linear_size`, `drivers/md/md-linear.c`; `raid0_size`, `drivers/md/raid0.c`;
    /// `raid1_size`, `drivers/md/raid1.c`).
    pub fn size(&self, d: DevId) -> u64
        requires stack { IsStack self.now }
        requires device { d.0 < length self.now.devices.items }
        ensures { result ≡ size (tree self.now d.0) }
    {
        self.sizes[d.0 as usize]
    }

    /// The sizes of the device's members, in their order.
    pub fn member_sizes(&self, d: DevId) -> ArrayVec<u64, 8>
        requires stack { IsStack self.now }
        requires device { d.0 < length self.now.devices.items }
        ensures { AreMemberSizes self.now d.0 result.items }
    {
        let device = self.device(d);
        let mut sizes = ArrayVec::new();
        for member in device.members.iter() {
            sizes.push(self.size(*member));
        }
        sizes
    }
}
