//! Legs of bios on mirrors.
ghost use Rattle.std.specs.Prelude.{◌≡◌, length};

use crate::asks::{Case, all_hold, holds};
use crate::bios::bio_of;
use arrayvec::ArrayVec;
use bio_records::{Bio, Iter, Pad};
use mirror_map::Mirror;
use stack_base::{DevId, Range, SetId};
use std::process::Abort;

// Of 40 sectors, over the devices 4, 0 and 9.
fn over_three() -> Mirror
    ensures { length result.members ≡ 3 }
{
    let mut members = ArrayVec::new();
    members.push(DevId(4));
    members.push(DevId(0));
    members.push(DevId(9));
    Mirror::new(members, 40)
}

/// The number of a leg, its member, and the node that it is for.
struct Leg(u32, u32, u32);

const LEGS: &[Leg] = &[Leg(0, 4, 30), Leg(1, 0, 31), Leg(2, 9, 32)];

impl Case for Leg {
    // Whether the leg of a bio is the bio itself but for its device, its set and its node.
    fn holds(&self, _rt: &(impl Abort + AllocGlobal)) -> bool {
        let Leg(leg, member, node) = *self;
        let set = SetId::Of(DevId(11));
        let bio = Bio {
            at: Iter {
                segment: 2,
                done: 3,
            },
            ..bio_of(7, Range { start: 10, len: 20 }, 5)
        };
        let wanted = Bio {
            node,
            dev: DevId(member),
            set,
            ..bio
        };
        leg < 3 && over_three().clone_for(&bio, leg, set, node) == (wanted, Pad { leg })
    }
}

#[test]
fn a_bio_has_a_leg_for_each_member(rt: HostRuntime) {
    let mirror = over_three();
    holds(&rt, mirror.legs() == 3 && mirror.size() == 40, "a mirror");
    all_hold(&rt, LEGS);
}
