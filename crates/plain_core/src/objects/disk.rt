//! Disks, with the first word of each sector in place of its data.
ghost use Rattle.std.specs.Prelude.{◌≡◌, ◌+◌, ◌*◌, ◌%◌, ◌^◌, ◌<◌, ◌≤◌, ◌↔◌, length, map, IsTrue, IfOk, OnOk, OnErr, None, Some, replicate, remove, slice_get};
ghost use Rattle.std.specs.List.{range_with_len};
ghost use Rattle.stack_base.specs.declared.ids.Status.TheVariants.{Ok};
ghost use Rattle.model_disks.specs.Disks.{DiskState};
ghost use Rattle.model_disks.specs.Moves.{blank_disk, pushed, written};
ghost use Rattle.plain_core.specs.objects.Disks.{firsts_after, sector_of, image_after, CompletesOrNot};

use crate::objects::part::PlainBioElement;
use bio_records::Bio;
use model_disks::fault::fault;
use stack_base::{Bad, DevId, Status};
use std::alloc::{AllocError, Global};
use std::collections::VecDeque;
use std::marker::Model;

// Writes sectors whose words count up from this one.
fn write_run(firsts: &mut [Option<u64>], word: u64)
    ensures { firsts.new ≡ map (λ j. Some ((word + 64 * j) % 2 ^ 64)) (range_with_len 0 (length firsts.old)) }
{
    for (place, first) in firsts.iter_mut().enumerate() {
        *first = Some(word.wrapping_add((place as u64).wrapping_mul(64)));
    }
}

// Writes the sectors of a bio.
fn write(firsts: &mut [Option<u64>], bio: Bio)
    requires { bio.range.start + bio.range.len ≤ length firsts.old }
    ensures written { firsts.new ≡ firsts_after bio.range.start bio.range.len bio.word firsts.old }
    ensures len { length firsts.new ≡ length firsts.old }
{
    let start = bio.range.start as usize;
    let end = start + bio.range.len as usize;
    write_run(&mut firsts[start..end], bio.word);
}

// The same in a vector.
#[tactic(auto, using(crate::proofs::object_lemmas::Sectors::kept_whole))]
fn write_all(firsts: &mut Vec<Option<u64>>, bio: Bio)
    requires { bio.range.start + bio.range.len ≤ length firsts.old.items }
    ensures written { firsts.new.items ≡ firsts_after bio.range.start bio.range.len bio.word firsts.old.items }
    ensures len { length firsts.new.items ≡ length firsts.old.items }
{
    write(firsts, bio);
}

// Writes the sectors of a bio that ends so, if it ends well.
#[tactic(auto, using(crate::proofs::object_lemmas::Sectors::written_is))]
fn end(firsts: &mut Vec<Option<u64>>, bio: Bio, status: Status)
    requires { bio.range.start + bio.range.len ≤ length firsts.old.items }
    ensures image { map sector_of firsts.new.items ≡ image_after status bio (map sector_of firsts.old.items) }
    ensures len { length firsts.new.items ≡ length firsts.old.items }
{
    if matches!(status, Status::Ok) {
        write_all(firsts, bio);
    }
}

// Takes the bio at a place out of those that wait. The side that has fewer of them moves.
fn take_at(pending: &mut VecDeque<PlainBioElement>, index: u64) -> PlainBioElement
    requires { index < length pending.old.items }
    ensures taken { slice_get pending.old.items index ≡ Some result }
    ensures rest { pending.new.items ≡ remove pending.old.items index }
{
    pending.remove(index as usize).unwrap()
}

// So many sectors, to none of which anything was written.
fn unwritten(alloc: Global, sectors: u64) -> Result<Vec<Option<u64>>, AllocError>
    ensures { IfOk result (λ firsts. firsts.items ≡ replicate sectors None) }
{
    let mut firsts = Vec::new(alloc);
    firsts.resize(sectors as usize, None)?;
    Ok(firsts)
}

/// A disk with its bad ranges, its sectors and the bios that wait in it.
#[derive(Drop)]
pub struct Disk {
    dev: DevId,
    bad: Vec<Bad>,
    // The first word of each sector that was written, from which its other words follow. What was not is all zeros, as no written sector is.
    firsts: Vec<Option<u64>>,
    pending: VecDeque<PlainBioElement>,
}

impl Model for Disk {
    ghost use Rattle.std.specs.Prelude.{map, length, All};
    ghost use Rattle.model_disks.specs.Disks.{DiskState};
    ghost use Rattle.model_disks.specs.Kept.{IsWithin};
    ghost use Rattle.plain_core.specs.objects.Disks.{sector_of};

    ghost Value = { DiskState };

    ghost view = { λ d. record { dev = d.dev; bad = d.bad.items; image = map sector_of d.firsts.items; pending = d.pending.items } };

    ghost invariant = { λ d. All (IsWithin (length d.firsts.items)) d.pending.items };
}

impl Disk {
    /// The disk of this device, of so many sectors and with these bad ranges. All its sectors are zeros, and no bio waits
    /// in it.
    ///
    /// # Errors
    /// Where there is no memory.
    #[tactic(auto, using(crate::proofs::object_lemmas::Sectors::zeros))]
    pub fn open(alloc: Global, dev: DevId, sectors: u64, bad: &[Bad]) -> Result<Disk, AllocError>
        ensures { IfOk result (λ disk. disk ≡ blank_disk dev sectors bad.now) }
    {
        let bad = Vec::from_slice(alloc, bad)?;
        Ok(Disk {
            dev,
            bad,
            firsts: unwritten(alloc, sectors)?,
            pending: VecDeque::new(alloc),
        })
    }

    /// Puts a bio behind those that wait, which ends within the disk.
    ///
    /// # Errors
    /// Where there is no memory. The disk is as it was before then.
    pub fn push(&mut self, part: PlainBioElement) -> Result<(), AllocError>
        requires { part.bio.range.start + part.bio.range.len ≤ length self.old.image }
        ensures ok { OnOk result (self.new ≡ pushed part self.old) }
        ensures err { OnErr result (self.new ≡ self.old) }
    {
        self.pending.push_back(part)?;
        Ok(())
    }

    /// Ends the bio at this place of those that wait, where one is there and ends so (`bio_endio`, `block/bio.c`).
    pub fn complete(&mut self, index: u64, status: Status) -> Option<PlainBioElement>
        ensures completes { CompletesOrNot self.old index status result self.new }
        ensures size { length self.new.image ≡ length self.old.image }
    {
        let bio = self.pending.get(index as usize)?.bio();
        if fault(&self.bad, bio.range) != status {
            return None;
        }
        end(&mut self.firsts, bio, status);
        Some(take_at(&mut self.pending, index))
    }

    /// Whether a bio waits.
    pub fn is_busy(&self) -> bool
        ensures { IsTrue result ↔ (0 < length self.now.pending) }
    {
        !self.pending.is_empty()
    }
}
