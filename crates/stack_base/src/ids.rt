//! Names of devices, sets and pools, runs of sectors, and how a bio ended.
ghost use Rattle.std.specs.Prelude.{◌≡◌, ◌^◌, ◌<◌};
ghost use Rattle.stack_base.specs.PoolId.{pool_number};

/// A device, by its place in the declaration of the stack, from 0 to 31.
#[derive(Clone, Copy, Debug, Default, PartialEq, Eq, PartialOrd, Ord)]
pub struct DevId(pub u32);

/// A set of bios (`struct bio_set`).
#[derive(Clone, Copy, Debug, PartialEq, Eq)]
pub enum SetId {
    /// The writers' set, above all devices (`fs_bio_set`).
    Fs,
    /// The set of a device.
    Of(DevId),
}

/// A pool of elements that the stack serves writes from.
#[derive(Clone, Copy, Debug, PartialEq, Eq)]
pub enum PoolId {
    /// The bios of the writers above the stack (`bio_pool` of `fs_bio_set`, `block/bio.c`).
    FsBios,
    /// Their vectors of segments (`bvec_pool` of `fs_bio_set`).
    FsVecs,
    /// The bios that a device makes of those it is given (the `bio_set` of its driver).
    Bios(DevId),
    /// The records of a mirror, one for each bio that it copies (`r1bio_pool`, `drivers/md/raid1.c`).
    Records(DevId),
}

impl PoolId {
    /// The pool's number: from 0 to 65 in a stack of up to 32 devices, and no two pools have the same. A `DevId` is any number, so the
    /// answer has to be asked for below 2 ^ 32.
    pub fn no(&self) -> u32
        requires { pool_number self.now < 2 ^ 32 }
        ensures { result ≡ pool_number self.now }
    {
        match *self {
            PoolId::FsBios => 65,
            PoolId::FsVecs => 64,
            PoolId::Bios(DevId(place)) => 2 * place,
            PoolId::Records(DevId(place)) => 2 * place + 1,
        }
    }
}

/// A run of sectors.
#[derive(Clone, Copy, Debug, PartialEq, Eq)]
pub struct Range {
    /// The first sector.
    pub start: u64,
    /// How many sectors there are.
    pub len: u64,
}

/// How a bio ended (`blk_status_t`, `include/linux/blk_types.h`).
#[derive(Clone, Copy, Debug, PartialEq, Eq)]
pub enum Status {
    /// All of it was done (`BLK_STS_OK`).
    Ok,
    /// An error of the device, or of no kind that is told (`BLK_STS_IOERR`).
    Io,
    /// An error of the medium (`BLK_STS_MEDIUM`).
    Medium,
    /// There was no room for it (`BLK_STS_NOSPC`).
    NoSpace,
}

/// A range of a disk at which writes fail.
///
/// Of the ranges that a run touches the one that starts first decides how it ends, and of equal ones the earliest declared: that is a fold over the
/// lines, and that one decides and no two are laws. To touch is to share a sector, so a run of no sectors touches none, and no call has a
/// condition that a run has one.
#[derive(Clone, Copy, PartialEq, Eq)]
pub struct Bad {
    /// The sectors.
    pub range: Range,
    /// How a bio that touches one of them ends.
    pub kind: Status,
}
