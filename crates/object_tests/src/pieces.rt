//! Pieces of runs on devices that cut.
ghost use Rattle.std.specs.Prelude.{◌≡◌, ◌+◌, ◌≤◌, length};

use crate::asks::holds;
use arrayvec::ArrayVec;
use limit_split::Limit;
use linear_map::Linear;
use stack_base::{MapLaw, Piece};
use std::process::Abort;
use stripe_map::Stripe;
use zoned_map::Zoned;

/// Where a run starts and its length, and its first piece: the length, the member, and where on it.
type Case = (u64, u64, u64, u32, u64);

const OVER_THREE: &[Case] = &[
    (0, 14, 4, 0, 0),
    (0, 4, 4, 0, 0),
    (0, 1, 1, 0, 0),
    (3, 5, 1, 0, 3),
    (4, 10, 8, 1, 0),
    (6, 3, 3, 1, 2),
    (11, 3, 1, 1, 7),
    (12, 2, 2, 2, 0),
    (13, 1, 1, 2, 1),
];

// Members of 4, 8 and 2 sectors.
#[tactic(auto, unfolding(stack_base::specs::Mapping::size_of))]
fn over_three() -> Linear {
    let mut sizes = ArrayVec::new();
    sizes.push(4);
    sizes.push(8);
    sizes.push(2);
    Linear::new(sizes)
}

// Whether the first piece of a run that lies within a device is this one.
fn has_piece<D: MapLaw>(device: &D, (start, len, first, member, at): Case) -> bool {
    let size = device.size();
    let wanted = Piece {
        len: first,
        member,
        at,
    };
    len >= 1 && start <= size && len <= size - start && device.piece(start, len) == wanted
}

// How long the pieces of a run are, one after the other. Each is cut off what is left of the run.
fn lengths<D: MapLaw>(device: &D, start: u64, len: u64) -> ArrayVec<u64, 8> {
    let mut lengths = ArrayVec::new();
    let size = device.size();
    let mut done = 0;
    for _ in 0..8 {
        if done >= len || lengths.is_full() {
            return lengths;
        }
        let begins = start.saturating_add(done);
        if begins >= size || len - done > size - begins {
            return lengths;
        }
        let piece = device.piece(begins, len - done);
        lengths.push(piece.len);
        done += piece.len;
    }
    lengths
}

// A run on a device has to have pieces of these lengths.
fn are_long<D: MapLaw>(rt: &impl Abort, device: &D, (start, len): (u64, u64), wanted: &[u64]) {
    let found = lengths(device, start, len);
    holds(rt, found.as_slice() == wanted, "the lengths of pieces");
}

#[test]
#[tactic(auto, unfolding(stack_base::specs::Mapping::size_of, stack_base::specs::Mapping::smallest))]
fn devices_cut_at_members_and_chunks_and_by_length(rt: HostRuntime) {
    let linear = over_three();
    holds(&rt, linear.size() == 14, "the size of a linear device");
    for case in OVER_THREE {
        holds(&rt, has_piece(&linear, *case), "a piece of a linear device");
    }
    let stripe = Stripe::new(8, 2, 32);
    holds(&rt, stripe.size() == 64, "the size of a stripe");
    are_long(&rt, &stripe, (5, 20), &[3, 8, 8, 1]);
    are_long(&rt, &Limit::new(3, 8, 64), (6, 10), &[2, 3, 3, 2]);
    are_long(&rt, &Limit::new(3, 0, 64), (6, 10), &[3, 3, 3, 1]);
}

// A zoned device of chunks of 8 sectors over three members of these sizes.
fn zoned_over(first: u64, second: u64, third: u64) -> Zoned
    requires { first + second + third ≤ 1000 }
    ensures { length result.sizes ≡ 3 }
{
    let mut sizes = ArrayVec::new();
    sizes.push(first);
    sizes.push(second);
    sizes.push(third);
    Zoned::new(8, sizes)
}

// Whether a zoned device goes on round the members that have more.
fn goes_on() -> bool {
    let device = zoned_over(16, 32, 20);
    device.size() == 64
        && has_piece(&device, (40, 16, 8, 2, 8))
        && has_piece(&device, (48, 8, 8, 1, 16))
        && device.sector_of(2, 8) == Some(40)
        && device.sector_of(2, 16).is_none()
}

// Whether the chunks of a zone are counted from its first one.
fn counts_from_its_zone() -> bool {
    let device = zoned_over(8, 16, 16);
    device.size() == 40
        && has_piece(&device, (24, 16, 8, 1, 8))
        && has_piece(&device, (32, 8, 8, 2, 8))
}

#[test]
fn a_zoned_device_goes_on_round_its_members(rt: HostRuntime) {
    holds(&rt, goes_on(), "members that have more");
    holds(&rt, counts_from_its_zone(), "chunks of a zone");
}
