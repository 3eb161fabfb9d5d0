//! The zones of members with so many chunks each.
ghost use Rattle.std.specs.Prelude.{◌≡◌, ◌<◌, ◌≤◌, ◌^◌, ◌*◌, ◌-◌, length, sum};
ghost use Rattle.std.specs.List.Sorted.{IsNonDecreasing, IsPermutation};
ghost use Rattle.stack_base.specs.Mapping.{reaching, whole_chunks as whole, zones};

use arrayvec::ArrayVec;
use std::marker::Model;

/// A zone: the members that it goes round, the chunk of each of them that it begins at, and how many chunks it has (`struct strip_zone`,
/// `drivers/md/raid0.h`). The definitions have zones by levels, the different numbers of chunks of the members: a filter over a range of numbers, so
/// that they rise and none is left out by their form. The code sorts; the definitions do not.
#[derive(Default, Drop)]
pub struct Zone {
    pub members: ArrayVec<u32, 8>,
    pub base: u64,
    pub chunks: u64,
}

impl Model for Zone {
    ghost Value = { Rattle.stack_base.specs.Mapping.Zone };

    ghost view = { λ z. record { members = z.members.items; base = z.base; chunks = z.chunks } };
}

impl Zone {
    /// The zone from chunk `base` of its members up to `level`, round the members that reach it.
    fn up_to(counts: &[u64], base: u64, level: u64) -> Zone
        requires few { length counts.now ≤ 8 }
        requires rises { base < level }
        requires small { level < 2 ^ 32 }
        ensures members { result.members ≡ reaching counts.now level }
        ensures base { result.base ≡ base }
        ensures chunks { result.chunks ≡ length (reaching counts.now level) * (level - base) }
    {
        let mut members = ArrayVec::new();
        for (member, count) in counts.iter().enumerate() {
            if level <= *count {
                members.push(member as u32);
            }
        }
        let chunks = (members.len() as u64) * (level - base);
        Zone {
            members,
            base,
            chunks,
        }
    }
}

/// How many whole chunks members of these sizes have.
pub fn whole_chunks(chunk: u64, sizes: &[u64]) -> ArrayVec<u64, 8>
    requires chunk { 1 ≤ chunk }
    requires few { length sizes.now ≤ 8 }
    ensures { result.items ≡ whole chunk sizes.now }
{
    let mut counts = ArrayVec::new();
    for size in sizes {
        counts.push(*size / chunk);
    }
    counts
}

/// The numbers of a list, rising.
fn sorted(counts: &[u64]) -> ArrayVec<u64, 8>
    requires { length counts.now ≤ 8 }
    ensures many { length result.items ≡ length counts.now }
    ensures same { IsPermutation counts.now result.items }
    ensures rising { IsNonDecreasing result.items }
{
    let mut rising = ArrayVec::new();
    for count in counts {
        rising.push(*count);
    }
    rising.sort_unstable();
    rising
}

/// The zones of members that have so many chunks, from the first on (`create_strip_zones`, `drivers/md/raid0.c`).
pub fn zones_of(counts: &[u64]) -> ArrayVec<Zone, 8>
    requires few { length counts.now ≤ 8 }
    requires small { sum counts.now < 2 ^ 32 }
    ensures { result.items ≡ zones counts.now }
{
    let rising = sorted(counts);
    let mut zones = ArrayVec::new();
    let mut base = 0;
    for level in rising.iter() {
        if base < *level {
            zones.push(Zone::up_to(counts, base, *level));
            base = *level;
        }
    }
    zones
}
