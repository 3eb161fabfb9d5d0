//! The image of a disk.
ghost use Rattle.std.specs.Prelude.{◌≡◌, ◌*◌, ◌<◌, ◌≤◌, length, vec_capacity};
ghost use Rattle.image_lanes.specs.Lanes.{sum_mod};
ghost use Rattle.model_disks.specs.Disks.{sum_of_words};
ghost use Rattle.model_disks.specs.Paged.{FlagsAreRight, ArePagesKept, in_pages, sector_in_pages};

use crate::flags::{self, first_written};
use crate::pages::Pages;
use bio_records::Bio;
use image_lanes::sum_words;
use stack_base::Range;
use std::alloc::{AllocError, Global};
use std::marker::Model;

/// The sectors of a disk, one behind the other.
///
/// Contracts see the list of the sectors, each of 64 words, so that none divides a place by 64. Their words are kept by pages, and zeros are
/// set only in pages that are written, or where all words are asked for (`Pages`): then they stand one behind the other, and the image is lent
/// whole. Sums and runs go by a flag for each sector up to the last one that was ever written, and read no word of a sector that is not written.
pub struct Image {
    // How many sectors there are.
    count: u64,
    // The words of all of them, and zeros up to the end of the last page.
    pages: Pages,
    // For each sector, up to the last one that was written, whether it is, as one of its words is not 0.
    flags: Vec<bool>,
}

// By hand, as that of `Disk`.
impl Drop for Image {
    fn drop(self) {
        let Image {
            count: _,
            pages,
            flags,
        } = self;
        drop(pages);
        drop(flags);
    }
}

impl Model for Image {
    ghost use Rattle.std.specs.Prelude.{ℕ, List, vec_capacity};
    ghost use Rattle.model_disks.specs.Paged.{IsImageOf, in_pages};

    ghost Value = { List (List ℕ) };

    ghost view = { λ i. in_pages i.count i.pages };

    ghost invariant = { λ i. IsImageOf i.count (vec_capacity i.flags) i.pages i.flags.items };
}

// The sum of the words of one sector, modulo 2 ^ 64.
fn sum_of_sector(pages: &Pages, at: u64) -> u64
    requires paged { ArePagesKept pages.now }
    requires here { at < 16 * length pages.now.slots.items }
    ensures { result ≡ sum_mod (sector_in_pages pages.now at) }
{
    sum_words(pages.sector(at))
}

// The sum of the words of the sectors that have flags, modulo 2 ^ 64, which is that of those that are written.
fn sum_of_written(pages: &Pages, flags: &[bool]) -> u64
    requires paged { ArePagesKept pages.now }
    requires within { length flags.now ≤ 16 * length pages.now.slots.items }
    requires noted { FlagsAreRight pages.now.words.items pages.now.slots.items flags.now }
    ensures { result ≡ sum_of_words (in_pages (length flags.now) pages.now) }
{
    let mut all = 0u64;
    let mut place = 0;
    'adding: while place < flags.len() {
        if flags[place] {
            all = all.wrapping_add(sum_of_sector(pages, place as u64));
            place += 1;
        } else {
            place = first_written(flags, place);
        }
    }
    all
}

impl Image {
    ghost use Rattle.std.specs.Prelude.{◌≡◌, ◌+◌, ◌*◌, ◌-◌, ◌%◌, ◌<◌, ◌≤◌, [], length, map, replicate, slice_index_or, IfOk, MatchOption};
    ghost use Rattle.std.specs.Borrow.{sem};
    ghost use Rattle.std.specs.Io.BufRead.{Rests};
    ghost use Rattle.std.specs.List.{concat};
    ghost use Rattle.stack_base.specs.Words.{is_written, zero_sector};
    ghost use Rattle.model_disks.specs.Disks.{HasSectorsFrom, sum_of_words};
    ghost use Rattle.model_disks.specs.Moves.{written};
    ghost use Rattle.model_disks.specs.Runs.{EndsInWord, IsApart, IsNextRun};
    ghost use Rattle.model_disks.specs.contracts.image.Image.{the_row};

    /// An image of so many sectors of zeros. It takes the room for all of them, and touches none of it.
    ///
    /// # Errors
    ///
    /// Where there is no memory for it.
    pub fn zeros(alloc: Global, sectors: u64) -> Result<Image, AllocError>
        ensures { IfOk result (λ image. image ≡ replicate sectors zero_sector) }
    {
        Ok(Image {
            count: sectors,
            pages: Pages::zeros(alloc, sectors)?,
            flags: Vec::with_capacity(alloc, sectors as usize)?,
        })
    }

    /// How many sectors it has.
    #[tactic(auto, using(crate::proofs::PageWriteLemmas::length_paged))]
    pub fn sectors(&self) -> u64
        ensures { result ≡ length self.now }
    {
        self.count
    }

    /// The words of one sector.
    pub fn sector(&self, at: u64) -> &[u64]
        requires { at < length self.now }
        ensures { result.now ≡ slice_index_or self.now at [] }
    {
        self.pages.sector(at)
    }

    /// The words of the sectors from one on, as many as stand side by side, or none where the image keeps no words of that one.
    pub fn rest(&self, at: u64) -> &[u64]
        requires { at < length self.now }
        ensures sectors { HasSectorsFrom (λ x. slice_index_or self.now x []) at result.now }
        ensures whole { length result.now % 64 ≡ 0 }
        ensures within { 64 * at + length result.now ≤ 64 * length self.now }
        ensures zeros { length result.now ≡ 0 → slice_index_or self.now at [] ≡ zero_sector }
    {
        self.pages.rest(at, self.count - at)
    }

    /// The words of all sectors, one sector behind the other. Its pages come into their order, and the image stays as it is.
    pub fn words(&mut self) -> &[u64]
        ensures* same { sem 𝓛 (Rests the_row self.entry (λ image. image ≡ self.old)) }
        ensures words { result.now ≡ concat self.old }
    {
        self.pages.settle_all();
        self.pages.words(self.count)
    }

    /// Writes a bio's sectors, which end within the image.
    pub fn write(&mut self, bio: Bio)
        requires { bio.range.start + bio.range.len ≤ length self.old }
        ensures image { self.new ≡ written bio self.old }
        ensures size { length self.new ≡ length self.old }
    {
        self.pages.write(bio);
        flags::note(&mut self.flags, bio.range);
    }

    /// The sum of all words, modulo 2 ^ 64.
    pub fn sum(&self) -> u64
        ensures { result ≡ sum_of_words self.now }
    {
        sum_of_written(&self.pages, &self.flags)
    }

    /// The first run of written sectors that starts at or behind `from`, which is not inside a run.
    pub fn next_run(&self, from: u64) -> Option<Range>
        requires { IsApart (map is_written self.now) from }
        ensures runs { IsNextRun (map is_written self.now) from result }
        ensures place { MatchOption result (Unit {0}) (EndsInWord from (length self.now)) }
        ensures apart { MatchOption result (Unit {0}) (λ run. IsApart (map is_written self.now) (run.start + run.len)) }
    {
        flags::next_run(&self.flags, from)
    }
}
