//! Two devices of a stack, side by side.
ghost use Rattle.std.specs.Prelude.{◌≡◌, ◌==◌, ◌+◌, ◌<◌, ◌≤◌, Bool, false, find, Some, IsSomeAnd};
ghost use Rattle.std.specs.List.{count_by};
ghost use Rattle.model_disks.specs.Disks.{DiskState};
ghost use Rattle.model_disks.specs.Runs.{IsApart, IsFirst};
ghost use Rattle.mirror_scrub.specs.Stretches.{IsFirstRunOf, IsPair, IsStretchOf, flags_in};

use crate::stretch::Stretch;
use layout_model::first_stretch;
use model_disks::Disk;
use stack_base::{DevId, Range, Stack};

/// The sectors of two devices of a stack, side by side.
#[derive(Drop)]
pub struct Pair<'d> {
    /// The stack.
    pub stack: &'d Stack,
    /// Its disks.
    pub disks: &'d [Disk],
    /// The one device.
    pub one: DevId,
    /// The other device.
    pub other: DevId,
    /// How many of their sectors are compared.
    pub size: u64,
}

// The disk with a number. There are few.
fn disk_of(disks: &[Disk], dev: DevId) -> &Disk
    requires { IsSomeAnd (find (λ (disk : DiskState). disk.dev.0 == dev.0) disks.now) (λ _. Unit {0}) }
    ensures { find (λ (disk : DiskState). disk.dev.0 == dev.0) disks.now ≡ Some result.now }
{
    'looking: for disk in disks {
        if disk.dev().0 == dev.0 {
            return disk;
        }
    }
    unreachable!()
}

impl<'d> Pair<'d> {
    // The first sectors from `start` on, as many as follow one another on a disk on both sides.
    fn stretch(&self, start: u64) -> Stretch<'d>
        requires pair { IsPair self.now }
        requires start { start < self.now.size }
        ensures { IsStretchOf self.now start result }
    {
        let here = first_stretch(self.stack, self.one, start, self.size - start);
        let there = first_stretch(self.stack, self.other, start, self.size - start);
        Stretch {
            one: disk_of(self.disks, here.dev),
            at: here.at,
            other: disk_of(self.disks, there.dev),
            there: there.at,
            len: here.len.min(there.len),
        }
    }

    /// How many sectors the devices show with different words.
    pub fn count(&self) -> u64
        requires { IsPair self.now }
        ensures { result ≡ count_by (λ (differing : Bool). differing) (flags_in self.now) }
    {
        let mut at = 0;
        let mut count = 0;
        while at < self.size {
            let stretch = self.stretch(at);
            count += stretch.count();
            at += stretch.len;
        }
        count
    }

    /// The first sector at or behind `from` that they show with different words, or with the same, or the size where
    /// there is none.
    pub fn first(&self, from: u64, differing: bool) -> u64
        requires pair { IsPair self.now }
        requires from { from ≤ self.now.size }
        ensures { IsFirst (flags_in self.now) from differing result }
    {
        let mut at = from;
        while at < self.size {
            let stretch = self.stretch(at);
            let place = stretch.first(0, differing);
            if place < stretch.len {
                return at + place;
            }
            at += stretch.len;
        }
        self.size
    }

    // The first sector at or behind `from` that they show with the same words, or the size where there is none. `from`
    // is in the stretch, which begins at `at`, or right behind it.
    #[inline(always)]
    fn end(&self, at: u64, stretch: &Stretch, from: u64) -> u64
        requires pair { IsPair self.now }
        requires stretch { IsStretchOf self.now at stretch.now }
        requires behind { at ≤ from }
        requires within { from ≤ at + stretch.now.len }
        ensures { IsFirst (flags_in self.now) from false result }
    {
        let place = stretch.first(from - at, false);
        if place < stretch.len {
            return at + place;
        }
        self.first(at + stretch.len, false)
    }

    // The first sectors at or behind `from`, as many as follow one another, that they show with different words.
    fn next_from(&self, from: u64) -> Option<Range>
        requires pair { IsPair self.now }
        requires from { from ≤ self.now.size }
        ensures { IsFirstRunOf (flags_in self.now) from result }
    {
        let start = self.first(from, true);
        if start == self.size {
            return None;
        }
        let end = self.first(start, false);
        Some(Range {
            start,
            len: end - start,
        })
    }

    // The same, where `from` is in the stretch, which begins at `at`, or right behind it.
    #[inline(always)]
    fn next_on(&self, at: u64, stretch: &Stretch, from: u64) -> Option<Range>
        requires pair { IsPair self.now }
        requires stretch { IsStretchOf self.now at stretch.now }
        requires behind { at ≤ from }
        requires within { from ≤ at + stretch.now.len }
        ensures { IsFirstRunOf (flags_in self.now) from result }
    {
        let place = stretch.first(from - at, true);
        if place == stretch.len {
            return self.next_from(at + stretch.len);
        }
        let start = at + place;
        let end = self.end(at, stretch, start + 1);
        Some(Range {
            start,
            len: end - start,
        })
    }

    /// The first sectors at or behind `from`, as many as follow one another, that they show with different words. `from` is not inside such a run, so
    /// behind a sector that differs it is one that does not, and is not read.
    pub fn next_differing(&self, from: u64) -> Option<Range>
        requires pair { IsPair self.now }
        requires from { from < self.now.size }
        requires apart { IsApart (flags_in self.now) from }
        ensures { IsFirstRunOf (flags_in self.now) from result }
    {
        let at = from.saturating_sub(1);
        let stretch = self.stretch(at);
        if from > 0 && stretch.len > 1 && stretch.differ_at(0) {
            return self.next_on(at, &stretch, from + 1);
        }
        self.next_on(at, &stretch, from)
    }
}
