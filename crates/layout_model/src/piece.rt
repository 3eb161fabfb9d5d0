//! The first piece of a run at a device that cuts runs, and the member that it goes to.
ghost use Rattle.std.specs.Prelude.{◌≡◌, ℕ, ◌+◌, ◌^◌, ◌<◌, ◌≤◌, All, List, length, sum, map, slice_get};
ghost use Rattle.stack_base.specs.Piece.{IsPiece};
ghost use Rattle.stack_base.specs.Mapping.{size_of};
ghost use Rattle.stack_base.specs.Stack.{AreMemberSizes, HasShape, IsStack};
ghost use Rattle.stack_base.specs.Tree.{Cuts, shape_of, size, tree};
ghost use Rattle.layout_model.specs.Pieces.{IsFirstRun};

use arrayvec::ArrayVec;
use stack_base::{DevId, Device, Kind, MapLaw, Piece, Stack};
use zoned_map::Zoned;

/// The first sectors of a run, and where they are below the device of the run. Places and lengths count sectors.
#[derive(Clone, Copy, PartialEq, Eq)]
pub struct FirstRun {
    /// The device that they are on.
    pub dev: DevId,
    /// The first of them there.
    pub at: u64,
    /// How many they are.
    pub len: u64,
}

/// The first piece at a device whose chunks go round its members: it ends with its chunk (`raid0_make_request`,
/// `drivers/md/raid0.c`).
pub fn stripe_piece(chunk: u64, members: u64, start: u64, len: u64) -> Piece
    requires chunk { 1 ≤ chunk }
    requires member { 1 ≤ members }
    requires few { members < 2 ^ 32 }
    requires some { 1 ≤ len }
    ensures { (sizes : List ℕ) → length sizes ≡ members → IsPiece (Kind.Stripe chunk) sizes start len result }
{
    let number = start / chunk;
    let within = start % chunk;
    Piece {
        len: (chunk - within).min(len),
        member: (number % members) as u32,
        at: number / members * chunk + within,
    }
}

/// The first piece at a device that limits the length of pieces and lets none cross a multiple of `chunk`, where that is not 0
/// (`bio_split_rw`, `block/blk-merge.c`).
pub fn limit_piece(max: u64, chunk: u64, start: u64, len: u64) -> Piece
    requires max { 1 ≤ max }
    requires some { 1 ≤ len }
    ensures { (sizes : List ℕ) → IsPiece (Kind.Limit max chunk) sizes start len result }
{
    let longest = if chunk == 0 {
        max
    } else {
        max.min(chunk - start % chunk)
    };
    Piece {
        len: longest.min(len),
        member: 0,
        at: start,
    }
}

/// The first piece at a device whose members stand one behind the other: it ends with its member (`linear_make_request`,
/// `drivers/md/md-linear.c`).
#[inline(always)] // as `first_piece`
pub fn linear_piece(stack: &Stack, members: &[DevId], start: u64, len: u64) -> Piece
    requires stack { IsStack stack.now }
    requires known { All (λ m. m.0 < length stack.now.devices.items) members.now }
    requires few { length members.now < 2 ^ 32 }
    requires some { 1 ≤ len }
    requires within { start < sum (map (λ m. size (tree stack.now m.0)) members.now) }
    ensures { IsPiece Kind.Linear (map (λ m. size (tree stack.now m.0)) members.now) start len result }
{
    let mut at = start;
    for (place, member) in members.iter().enumerate() {
        let size = stack.size(*member);
        if at < size {
            return Piece {
                len: (size - at).min(len),
                member: place as u32,
                at,
            };
        }
        at -= size;
    }
    unreachable!()
}

/// The first piece at a device whose chunks go round members of any sizes, as its driver finds it.
// The driver's zones are large, and a caller that has them among its locals pays for them at other kinds too.
#[inline(never)]
pub fn zoned_piece(chunk: u64, sizes: ArrayVec<u64, 8>, start: u64, len: u64) -> Piece
    requires shape { HasShape (Kind.Zoned chunk) (length sizes.items) }
    requires small { sum sizes.items < 2 ^ 32 }
    requires some { 1 ≤ len }
    requires within { start + len ≤ size_of (Kind.Zoned chunk) sizes.items }
    ensures { IsPiece (Kind.Zoned chunk) sizes.items start len result }
{
    Zoned::new(chunk, sizes).piece(start, len)
}

// The sizes of the device's members. They are large, and a caller that makes them itself pays for them at other kinds too.
#[inline(never)]
fn member_sizes(stack: &Stack, dev: DevId) -> ArrayVec<u64, 8>
    requires stack { IsStack stack.now }
    requires device { dev.0 < length stack.now.devices.items }
    ensures { AreMemberSizes stack.now dev.0 result.items }
{
    stack.member_sizes(dev)
}

/// The first piece of a run at a device that cuts. Only at linear and zoned devices does it go by the members' sizes.
#[inline(always)] // as `first_piece`
fn kind_piece(stack: &Stack, device: &Device, dev: DevId, start: u64, len: u64) -> Piece
    requires stack { IsStack stack.now }
    requires found { slice_get stack.now.devices.items dev.0 ≡ Some device.now }
    requires cuts { shape_of device.now.kind ≡ Cuts }
    requires some { 1 ≤ len }
    requires within { start + len ≤ size (tree stack.now dev.0) }
    ensures { IsPiece device.now.kind (map (λ m. size (tree stack.now m.0)) device.now.members.items) start len result }
{
    match device.kind {
        Kind::Stripe { chunk } => stripe_piece(chunk, device.members.len() as u64, start, len),
        Kind::Zoned { chunk } => zoned_piece(chunk, member_sizes(stack, dev), start, len),
        Kind::Limit { max, chunk } => limit_piece(max, chunk, start, len),
        Kind::Linear => linear_piece(stack, &device.members, start, len),
        Kind::Disk { .. } | Kind::Mirror { .. } => unreachable!(),
    }
}

/// Where a device that cuts sends the first piece of a run.
// Each step down a chain of devices takes one: it stands in its caller, so that the step is no call.
#[inline(always)]
pub fn first_piece(stack: &Stack, device: &Device, dev: DevId, start: u64, len: u64) -> FirstRun
    requires stack { IsStack stack.now }
    requires found { slice_get stack.now.devices.items dev.0 ≡ Some device.now }
    requires cuts { shape_of device.now.kind ≡ Cuts }
    requires some { 1 ≤ len }
    requires within { start + len ≤ size (tree stack.now dev.0) }
    ensures { IsFirstRun stack.now dev.0 start len result }
{
    let piece = kind_piece(stack, device, dev, start, len);
    FirstRun {
        dev: device.members[piece.member as usize],
        at: piece.at,
        len: piece.len,
    }
}
