//! A disk: its image, its bad ranges and the bios that wait in it.
use crate::fault::fault;
use crate::image::Image;
use crate::pending::Pending;
use crate::walk::Waiting;
use bio_records::{BioElement, Bios};
use stack_base::{Bad, DevId, Range, Status};
use std::alloc::{AllocError, Global};
use std::marker::Model;

/// A disk of the model (`struct gendisk`, `include/linux/blkdev.h`, with a driver that keeps its sectors in memory, as
/// `drivers/block/brd.c` does).
///
/// Contracts see its device, its bad ranges, its sectors and the bios that wait in it (`DiskState`).
pub struct Disk {
    dev: DevId,
    bad: Vec<Bad>,
    image: Image,
    pending: Pending,
}

// A drop by hand is proved here, once. A derived one every crate above would prove anew that drops a disk.
impl Drop for Disk {
    fn drop(self) {
        let Disk {
            dev: _,
            bad,
            image,
            pending,
        } = self;
        drop(bad);
        drop(image);
        drop(pending);
    }
}

impl Model for Disk {
    ghost use Rattle.std.specs.Prelude.{length};
    ghost use Rattle.model_disks.specs.Disks.{DiskState};
    ghost use Rattle.model_disks.specs.Kept.{IsSoundDisk};

    ghost Value = { DiskState };

    ghost view = { λ d. record { dev = d.dev; bad = d.bad.items; image = d.image; pending = d.pending } };

    ghost invariant = { λ d. IsSoundDisk (length d.image) d.bad.items d.pending };
}

/// A bio that a disk is done with. It is not dropped by hand, as a disk is: callers take it apart, and a type with a drop of its own is taken
/// apart in its own crate alone.
#[derive(Drop)]
pub struct Done {
    /// Its element, as it was pushed.
    pub el: BioElement,
    /// How it ended.
    pub status: Status,
}

impl Disk {
    ghost use Rattle.std.specs.Prelude.{◌≡◌, ◌+◌, ◌*◌, ◌%◌, ◌<◌, ◌≤◌, [], ◌++◌, length, map, reverse, slice_index_or, All, IfOk, MatchOption};
    ghost use Rattle.std.specs.Borrow.{sem};
    ghost use Rattle.std.specs.Io.BufRead.{Rests};
    ghost use Rattle.std.specs.List.{concat};
    ghost use Rattle.stack_base.specs.Words.{is_written, zero_sector};
    ghost use Rattle.bio_records.specs.Items.{item_of, plain_of, IsAlone};
    ghost use Rattle.model_disks.specs.Disks.{HasSectorsFrom, IsBadRange, sum_of_words, waiting_count};
    ghost use Rattle.model_disks.specs.Moves.{blank_disk, pushed, Completes};
    ghost use Rattle.model_disks.specs.Runs.{EndsInWord, IsApart, IsNextRun};
    ghost use Rattle.model_disks.specs.contracts.disk.Disk.{the_row};

    /// A disk of so many sectors, all zeros, in which no bio waits. Each of its bad ranges has a sector, ends within the disk, and is of a
    /// kind other than `Status::Ok`.
    ///
    /// # Errors
    ///
    /// Where there is no memory for the image, for the bad ranges or for the first bios that wait.
    pub fn open(alloc: Global, dev: DevId, sectors: u64, bad: &[Bad]) -> Result<Disk, AllocError>
        requires { All (IsBadRange sectors) bad.now }
        ensures { IfOk result (λ disk. disk ≡ blank_disk dev sectors bad.now) }
    {
        Ok(Disk {
            dev,
            bad: bad.to_vec(alloc)?,
            image: Image::zeros(alloc, sectors)?,
            pending: Pending::new(alloc, sectors)?,
        })
    }

    /// A bio, whose sectors end within the disk, becomes the last one that waits (`submit_bio`, `block/blk-core.c`, at a disk's driver).
    pub fn push(&mut self, el: BioElement)
        requires within { (item_of el).bio.range.start + (item_of el).bio.range.len ≤ length self.old.image }
        requires alone { IsAlone el }
        ensures { self.new ≡ pushed (item_of el) self.old }
    {
        self.pending.push(el);
    }

    /// The device that it is.
    pub fn dev(&self) -> DevId
        ensures { result ≡ self.now.dev }
    {
        self.dev
    }

    /// How many sectors it has.
    pub fn sectors(&self) -> u64
        ensures { result ≡ length self.now.image }
    {
        self.image.sectors()
    }

    /// Its bad ranges, in the order of their declaration.
    pub fn bad(&self) -> &[Bad]
        ensures { result.now ≡ self.now.bad }
    {
        &self.bad
    }

    /// The words of its sectors from one on, each of 64 words, one sector behind the other, as many as stand side by side, or none where it
    /// keeps no words of that one, which are all zeros.
    pub fn rest(&self, at: u64) -> &[u64]
        requires { at < length self.now.image }
        ensures sectors { HasSectorsFrom (λ x. slice_index_or self.now.image x []) at result.now }
        ensures whole { length result.now % 64 ≡ 0 }
        ensures within { 64 * at + length result.now ≤ 64 * length self.now.image }
        ensures zeros { length result.now ≡ 0 → slice_index_or self.now.image at [] ≡ zero_sector }
    {
        self.image.rest(at)
    }

    /// The words of one of its sectors, 64 of them.
    pub fn sector(&self, at: u64) -> &[u64]
        requires { at < length self.now.image }
        ensures { result.now ≡ slice_index_or self.now.image at [] }
    {
        self.image.sector(at)
    }

    /// The words of all its sectors, one sector behind the other, each of 64 words. The disk stays as it is. Its pages come
    /// into their order, in memory that was reserved when the disk was opened.
    pub fn image(&mut self) -> &[u64]
        ensures* same { sem 𝓛 (Rests the_row self.entry (λ disk. disk ≡ self.old)) }
        ensures image { result.now ≡ concat self.old.image }
    {
        self.image.words()
    }

    /// How many bios wait, or `u64::MAX` where there are more.
    pub fn pending(&self) -> u64
        ensures { result ≡ waiting_count self.now }
    {
        self.pending.len()
    }

    /// The bios that wait, to be looked at, in two parts as `BioList::walk` shows them: the first of them in order, and then the others
    /// with the last one first. It takes no memory. The bios are not asked for by their places, which would take time by the square of
    /// their number.
    pub fn waiting(&self) -> (Waiting<'_>, Bios<'_>)
        ensures { result.0 ++ reverse result.1 ≡ map plain_of self.now.pending }
    {
        self.pending.walk()
    }

    /// The bio at this place among those that wait is done, and the others keep their order (`bio_endio`, `block/bio.c`). Where it touches
    /// no bad range it ends well, and each of its sectors holds its data. Otherwise the bad range that decides says how it ends, and nothing
    /// is written: a request of Linux can fail in part, and one of the model does not.
    pub fn complete(&mut self, index: u64) -> Done
        requires { index < length self.old.pending }
        ensures completes { Completes self.old index (item_of result.el) result.status self.new }
        ensures within { (item_of result.el).bio.range.start + (item_of result.el).bio.range.len ≤ length self.old.image }
        ensures alone { IsAlone result.el }
    {
        let el = self.pending.take_at(index);
        let bio = el.body.bio;
        let status = fault(&self.bad, bio.range);
        if status == Status::Ok {
            self.image.write(bio);
        }
        Done { el, status }
    }

    /// The sum of all words of the disk, modulo 2 ^ 64.
    pub fn sum(&self) -> u64
        ensures { result ≡ sum_of_words self.now.image }
    {
        self.image.sum()
    }

    /// The first run of written sectors that starts at sector `from` or behind it, if there is one: sectors that are not all zeros, as many
    /// as follow one another. `from` is not inside a run, as sector 0 (`apart_at_start` of `proofs/WrittenLemmas.antt`), the end of a run and
    /// what is past the disk, where there is none, are not. From 0 on, and from the end of each run on, the calls list all written runs.
    pub fn next_run(&self, from: u64) -> Option<Range>
        requires apart { IsApart (map is_written self.now.image) from }
        ensures runs { IsNextRun (map is_written self.now.image) from result }
        ensures place { MatchOption result (Unit {0}) (EndsInWord from (length self.now.image)) }
        ensures apart { MatchOption result (Unit {0}) (λ run. IsApart (map is_written self.now.image) (run.start + run.len)) }
    {
        self.image.next_run(from)
    }
}
