//! Bios, apart from the memory that they stand in.
ghost use Rattle.std.specs.Prelude.{◌≡◌, ◌+◌, ◌-◌, ◌^◌, ◌<◌, ◌≤◌};
ghost use Rattle.bio_records.specs.Runs.{advanced, fronted, place_at, place_number};

use stack_base::{DevId, Range, SetId};

/// A place in the segments of a write (`struct bvec_iter`): a segment, and how many of its sectors are behind.
#[derive(Clone, Copy, Debug, PartialEq, Eq)]
pub struct Iter {
    pub segment: u32,
    pub done: u32,
}

/// What a bio's set keeps ahead of it for its driver (`front_pad`): the leg of a mirror, or 0.
#[derive(Clone, Copy, Debug, PartialEq, Eq)]
pub struct Pad {
    pub leg: u32,
}

/// The record of a mirror for one bio that it serves (`struct r1bio`, `drivers/md/raid1.h`).
#[derive(Clone, Copy, PartialEq, Eq)]
pub struct Slip {
    /// How many legs the bio has, and 0 in a record that none has yet.
    pub legs: u32,
}

/// A part of a write on its way down (`struct bio`).
#[derive(Clone, Copy, Debug, PartialEq, Eq)]
pub struct Bio {
    /// The write, by its place in the text.
    pub write: u32,
    /// The writer, by its number.
    pub writer: u32,
    /// The key of its node in the writer's book.
    pub node: u32,
    /// The device that it is at (`bi_bdev`).
    pub dev: DevId,
    /// Its sectors there (`bi_iter.bi_sector`, `bi_iter.bi_size`).
    pub range: Range,
    /// The first word of its data.
    pub word: u64,
    /// Its place in the write's segments.
    pub at: Iter,
    /// The set that it was taken from (`bi_pool`).
    pub set: SetId,
}

/// How many places there are in the segments of a write: eight for each number of a segment.
const PLACES: u64 = 1 << 35;

impl Iter {
    /// The place as a number of sectors, counted from the write's first segment on.
    fn number(&self) -> u64
        ensures number { result ≡ place_number self.now }
        ensures small { result < 2 ^ 36 }
    {
        8 * u64::from(self.segment) + u64::from(self.done)
    }

    /// The place of this number.
    fn at(number: u64) -> Iter
        requires { number < 2 ^ 35 }
        ensures { result ≡ place_at number }
    {
        Iter {
            segment: (number / 8) as u32,
            done: (number % 8) as u32,
        }
    }
}

/// Moves a bio past its first `sectors` sectors, which are fewer than it has: its run begins behind them and is that much shorter, and so
/// are its data, of which a sector has 64 words, and its place in the write's segments. Words are counted modulo 2 ^ 64, and places
/// modulo 2 ^ 35 sectors. The last sector of the run has a number below 2 ^ 64 - 1 (`bio_advance_iter`, `include/linux/bio.h`).
pub fn advance(bio: &mut Bio, sectors: u64)
    requires some { sectors < bio.old.range.len }
    requires within { bio.old.range.start + bio.old.range.len ≤ 2 ^ 64 - 1 }
    ensures { bio.new ≡ advanced bio.old sectors }
{
    let place = bio.at.number() + sectors % PLACES;
    bio.range.start += sectors;
    bio.range.len -= sectors;
    bio.word = bio.word.wrapping_add(sectors.wrapping_mul(64));
    bio.at = Iter::at(place % PLACES);
}

/// The bio of the first `sectors` sectors of a bio, which has as many or more: all but its length is the bio's own (`bio_split`,
/// `block/bio.c`, which keeps the front in the clone). The rest, where there is one, is what `advance` makes.
pub fn front(bio: &Bio, sectors: u64) -> Bio
    requires some { 0 < sectors }
    requires within { sectors ≤ bio.now.range.len }
    ensures { result ≡ fronted bio.now sectors }
{
    Bio {
        range: Range {
            len: sectors,
            ..bio.range
        },
        ..*bio
    }
}
