//! Devices that have each of their sectors on every member, as `drivers/md/raid1.c` of Linux 6.1 has them. No call takes memory.
#![tactic(auto)]

ghost use Rattle.std.specs.Prelude.{◌≡◌, ◌<◌, ◌≤◌, length, slice_get, IsSomeAnd};
ghost use Rattle.mirror_map.specs.Legs.{clone_of};

pub mod laws;

use arrayvec::ArrayVec;
use bio_records::{Bio, Pad};
use stack_base::{DevId, SetId};
use std::marker::Model;

/// A device that has each of its sectors on every member, seen as its members in their order and its size in sectors (`struct r1conf`,
/// `drivers/md/raid1.h`).
#[derive(Drop)]
pub struct Mirror {
    members: ArrayVec<DevId, 8>,
    size: u64,
}

impl Model for Mirror {
    ghost use Rattle.mirror_map.specs.Legs.{MirrorState, AreMirrored};

    ghost Value = { MirrorState };

    ghost view = { λ m. record { members = m.members.items; size = m.size } };

    ghost invariant = { λ m. AreMirrored m.members.items };
}

impl Mirror {
    /// A mirror over these members, of which there are from 1 to 8, with the size in sectors of the smallest of them, as the stack that
    /// it stands in has it (`setup_conf`, `drivers/md/raid1.c`). It tells its size, though legs do not need it: of a leg only its number has
    /// to be one of a member.
    pub fn new(members: ArrayVec<DevId, 8>, size: u64) -> Mirror
        requires { 1 ≤ length members.items }
        ensures { result ≡ record { members = members.items; size = size } }
    {
        Mirror { members, size }
    }

    /// How many legs a bio has, one for each member (`raid_disks` of `struct r1conf`).
    pub fn legs(&self) -> u32
        ensures legs { result ≡ length self.now.members }
        ensures some { (1 ≤ result) × (result ≤ 8) }
    {
        self.members.len() as u32
    }

    /// How many sectors the mirror has (`raid1_size`).
    pub fn size(&self) -> u64
        ensures { result ≡ self.now.size }
    {
        self.size
    }

    /// The bio of one leg, counted from 0, and its padding, which tells the leg: the bio's own run and data, at the member of this place,
    /// taken from the set `set` and with the node `node` (`raid1_write_request` with `bio_alloc_clone`).
    pub fn clone_for(&self, bio: &Bio, leg: u32, set: SetId, node: u32) -> (Bio, Pad)
        requires { leg < length self.now.members }
        ensures { IsSomeAnd (slice_get self.now.members leg) (λ member. result ≡ clone_of bio.now member leg set node) }
    {
        let clone = Bio {
            dev: self.members[leg as usize],
            set,
            node,
            ..*bio
        };
        (clone, Pad { leg })
    }
}
