//! Sectors of two disks, as many of each, that follow one another on both.
ghost use Rattle.std.specs.Prelude.{◌≡◌, ◌+◌, ◌<◌, ◌≤◌};
ghost use Rattle.std.specs.List.{count_by, range_with_len};
ghost use Rattle.mirror_scrub.specs.Stretches.{AreWordsFrom, IsFirstInStretch, IsFirstUpTo, LiesInDisks, differ_at};

use image_lanes::{count_unlike, first_sector, same};
use model_disks::Disk;

/// Sectors of two disks that follow one another on both.
#[derive(Drop)]
pub struct Stretch<'d> {
    /// The one disk.
    pub one: &'d Disk,
    /// The first of them there.
    pub at: u64,
    /// The other disk.
    pub other: &'d Disk,
    /// The first of them there.
    pub there: u64,
    /// How many there are on each.
    pub len: u64,
}

impl<'d> Stretch<'d> {
    /// Whether the words of the sectors at this place differ.
    pub fn differ_at(&self, place: u64) -> bool
        requires within { LiesInDisks self.now }
        requires here { place < self.now.len }
        ensures { result ≡ differ_at self.now place }
    {
        !same(
            self.one.sector(self.at + place),
            self.other.sector(self.there + place),
        )
    }

    // The words of the sectors from this place on that stand side by side on both disks, or none where one of them keeps no words.
    fn words(&self, place: u64) -> (&'d [u64], &'d [u64])
        requires within { LiesInDisks self.now }
        requires here { place < self.now.len }
        ensures { AreWordsFrom self.now place result.0.now result.1.now }
    {
        let one = self.one.rest(self.at + place);
        let other = self.other.rest(self.there + place);
        let size = one
            .len()
            .min(other.len())
            .min(64 * (self.len - place) as usize);
        (&one[..size], &other[..size])
    }

    // How many of the first sectors from this place on differ, and how many were looked at, at least one.
    fn count_some(&self, place: u64) -> (u64, u64)
        requires within { LiesInDisks self.now }
        requires here { place < self.now.len }
        ensures some { 1 ≤ result.1 }
        ensures count { result.0 ≡ count_by (differ_at self.now) (range_with_len place result.1) }
        ensures short { place + result.1 ≤ self.now.len }
    {
        let (one, other) = self.words(place);
        if one.is_empty() {
            return (u64::from(self.differ_at(place)), 1);
        }
        (count_unlike(one, other), (one.len() / 64) as u64)
    }

    /// How many sectors differ.
    pub fn count(&self) -> u64
        requires { LiesInDisks self.now }
        ensures { result ≡ count_by (differ_at self.now) (range_with_len 0 self.now.len) }
    {
        let mut count = 0;
        let mut place = 0;
        'counting: while place < self.len {
            let (more, len) = self.count_some(place);
            count += more;
            place += len;
        }
        count
    }

    // The first place at or behind this one that is so, among the sectors that stand side by side there, and where they end.
    fn first_some(&self, from: u64, differing: bool) -> (u64, u64)
        requires within { LiesInDisks self.now }
        requires here { from < self.now.len }
        ensures { IsFirstUpTo self.now from result.1 differing result.0 }
    {
        let (one, other) = self.words(from);
        if one.is_empty() {
            let is_so = self.differ_at(from) == differing;
            return (if is_so { from } else { from + 1 }, from + 1);
        }
        let place = first_sector(one, other, 0, differing);
        (from + place as u64, from + (one.len() / 64) as u64)
    }

    /// The place of the first sector, at or behind `from`, that differs, or of the first that does not, or the length where there is none.
    pub fn first(&self, from: u64, differing: bool) -> u64
        requires within { LiesInDisks self.now }
        requires from { from ≤ self.now.len }
        ensures { IsFirstInStretch self.now from differing result }
    {
        let mut start = from;
        'looking: while start < self.len {
            let (place, end) = self.first_some(start, differing);
            if place < end {
                return place;
            }
            start = end;
        }
        self.len
    }
}
