//! Devices whose chunks go round members of any sizes, in zones, as `drivers/md/raid0.c` of Linux 6.1 has them. No call takes memory.
#![tactic(auto)]

mod zone;

ghost use Rattle.std.specs.Prelude.{◌≡◌, ◌<◌, ◌≤◌, ◌^◌, length, sum};
ghost use Rattle.stack_base.specs.Mapping.{size_of, whole_chunks};
ghost use Rattle.stack_base.specs.Stack.{HasShape};
ghost use Rattle.zoned_map.specs.Members.{IsSectorOf};
ghost use Rattle.zoned_map.specs.Numbers.{chunk_number};

use crate::zone::{Zone, whole_chunks, zones_of};
use arrayvec::ArrayVec;
use stack_base::{Kind, MapLaw, Piece, kind_size};
use std::marker::Model;

/// A device whose chunks go round members of any sizes, seen as the sectors of a chunk and the members' sizes in sectors, in their order
/// (`struct r0conf`, `drivers/md/raid0.h`).
///
/// Past its last zone it has slots that stand for nothing, as a linear device has: the law of cutting holds there too, since a piece ends with its
/// chunk wherever chunks lie.
#[derive(Drop)]
pub struct Zoned {
    chunk: u64,
    sizes: ArrayVec<u64, 8>,
    // How many sectors the whole chunks of the members have together (`array_sectors`).
    sectors: u64,
    zones: ArrayVec<Zone, 8>,
}

impl Model for Zoned {
    ghost use Rattle.zoned_map.specs.Members.{Members, IsZoned};

    ghost Value = { Members };

    ghost view = { λ z. record { chunk = z.chunk; sizes = z.sizes.items } };

    ghost invariant = { λ z. IsZoned z.chunk z.sizes.items z.sectors z.zones.items };
}

impl Zoned {
    /// A zoned device of chunks of `chunk` sectors over members of these sizes in sectors, as an accepted stack has them: a chunk of 1 sector
    /// or more, and from 1 to 8 members, with fewer than 2^32 sectors together. First chunks go round all members up to the whole
    /// chunks of the smallest, then round those that have more, up to the next smallest, and so on (`create_strip_zones`,
    /// `drivers/md/raid0.c`). What a member has besides whole chunks is not used.
    ///
    /// The bound is 2^32 and not 262,144 sectors: a valid stack bounds a zoned device by its whole chunks, so what is left of its members is
    /// bounded only member by member.
    pub fn new(chunk: u64, sizes: ArrayVec<u64, 8>) -> Zoned
        requires shape { HasShape (Kind.Zoned chunk) (length sizes.items) }
        requires small { sum sizes.items < 2 ^ 32 }
        ensures kind { ⟦<Zoned as MapLaw>⟧.kind result ≡ Kind.Zoned chunk }
        ensures sizes { ⟦<Zoned as MapLaw>⟧.sizes result ≡ sizes.items }
    {
        let counts = whole_chunks(chunk, &sizes);
        let zones = zones_of(&counts);
        let sectors = kind_size(&Kind::Zoned { chunk }, &sizes);
        Zoned {
            chunk,
            sizes,
            sectors,
            zones,
        }
    }

    /// The sector of the device that this sector of a member is, by the member's place: `None` exactly where `at` is in none of the
    /// member's whole chunks. No two sectors of the device are the same one of a member. (The kernel maps from the device to its members alone.)
    pub fn sector_of(&self, member: u32, at: u64) -> Option<u64>
        requires { member < length self.now.sizes }
        ensures { IsSectorOf self.now.chunk self.now.sizes member at result }
    {
        let counts = whole_chunks(self.chunk, &self.sizes);
        let row = at / self.chunk;
        if row < counts[member as usize] {
            Some(chunk_number(&counts, u64::from(member), row) * self.chunk + at % self.chunk)
        } else {
            None
        }
    }
}

/// The number on the device of chunk `row` of a member. Before it stand the chunks before `row` of all members, and chunk `row` of each
/// member before this one that has it.
fn chunk_number(counts: &[u64], member: u64, row: u64) -> u64
    requires few { length counts.now ≤ 8 }
    requires small { sum counts.now < 2 ^ 32 }
    requires member { member < length counts.now }
    ensures { result ≡ chunk_number counts.now member row }
{
    let mut number = 0;
    for (place, count) in counts.iter().enumerate() {
        number += (*count).min(row);
        if (place as u64) < member && row < *count {
            number += 1;
        }
    }
    number
}

impl MapLaw for Zoned {
    ghost use Rattle.stack_base.specs.declared.stack.Kind.TheVariants.{Zoned as ZonedKind};

    ghost kind = { λ z. ZonedKind z.chunk };

    ghost sizes = { λ z. z.sizes };

    /// How many sectors the whole chunks of the members have together (`raid0_size`, `drivers/md/raid0.c`).
    fn size(&self) -> u64 {
        self.sectors
    }

    /// The first piece of a run is on the member of its zone whose turn the run's first chunk is, counted from the zone's first chunk, and
    /// ends with that chunk or with the run (`raid0_make_request`, `find_zone`, `drivers/md/raid0.c`).
    fn piece(&self, start: u64, len: u64) -> Piece {
        let within = start % self.chunk;
        let mut number = start / self.chunk;
        for zone in self.zones.iter() {
            if number < zone.chunks {
                let members = zone.members.len() as u64;
                return Piece {
                    len: (self.chunk - within).min(len),
                    member: zone.members[(number % members) as usize],
                    at: (zone.base + number / members) * self.chunk + within,
                };
            }
            number -= zone.chunks;
        }
        unreachable!()
    }
}
