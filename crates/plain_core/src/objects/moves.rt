//! What events make of the objects: each call is handed the event, and refuses it where it is none that the object can do.
//!
//! # Errors
//! Each call answers `NotEnabled` where the event tells something else or the object cannot do it. `punt` and `push` alone take memory: they
//! answer `Memory` where the event tells of them and there is none. The objects, and the bios in a task's lists, are as they were in both
//! cases.
ghost use Rattle.std.specs.Prelude.{◌≡◌, ℕ, ◌+◌, ◌-◌, ◌<◌, ◌≤◌, ◌==◌, true, length, Option, None, Some, IsSomeAnd, OnOk, OnErr};
ghost use Rattle.stack_base.specs.PoolId.{pool_number};
ghost use Rattle.stack_base.specs.Tree.{tree};
ghost use Rattle.mempool_core.specs.Move.{gives, resizes};
ghost use Rattle.run_machine.specs.declared.event.What.TheVariants as told;
ghost use Rattle.run_machine.specs.Events.{pool_of};
ghost use Rattle.run_machine.specs.Scene.{keeps_data};
ghost use Rattle.task_steps.specs.Within.{IsWithinDevice, ListsAreWithin};
ghost use Rattle.plain_core.specs.objects.Lists.{lists_of, ListsHaveCapacity};
ghost use Rattle.plain_core.specs.objects.Plain.{HasSize};
ghost use Rattle.plain_core.specs.objects.Told.{Takes, MovesAs, Punts, Pops, Pushes, PushesIn, CompletesBio, CompletesInOrNot, Finishes, StartsRound};

use crate::fault::CoreFault;
use crate::objects::disk::Disk;
use crate::objects::lists::Lists;
use crate::objects::part::PlainBioElement;
use crate::objects::{Objects, told};
use stack_base::{DevId, PoolId, Status};
use std::alloc::AllocError;
use task_core::{Got, What, pool_of};

// A bio comes to a disk.
fn push_to(slot: &mut Option<Disk>, part: PlainBioElement) -> Result<(), AllocError>
    requires { IsSomeAnd slot.old (λ d. part.bio.range.start + part.bio.range.len ≤ length d.image) }
    ensures ok { OnOk result (PushesIn slot.old part slot.new) }
    ensures err { OnErr result (slot.new ≡ slot.old) }
{
    match slot {
        None => unreachable!(),
        Some(disk) => disk.push(part),
    }
}

// A disk, if it is one, ends a bio that waits in it.
fn complete_in(slot: &mut Option<Disk>, index: u64, status: Status) -> Option<PlainBioElement>
    ensures completes { CompletesInOrNot slot.old index status result slot.new }
    ensures size { (sectors : ℕ) → HasSize sectors slot.old → HasSize sectors slot.new }
{
    match slot {
        None => None,
        Some(disk) => disk.complete(index, status),
    }
}

impl Objects {
    /// A take of this pool, which waits or does not: what it had, as the event tells it (`mempool_alloc`, `mm/mempool.c`).
    pub fn take(&mut self, pool: PoolId, waits: bool, what: &What) -> Result<Got, CoreFault>
        requires { pool_number pool < 66 }
        ensures { Takes self.old (pool_number pool) pool waits what.now result self.new }
    {
        let number = pool.no() as usize;
        let Some(got) = told::got_of(what, pool, waits) else {
            return Err(CoreFault::NotEnabled);
        };
        if !self.pools[number].can_take(waits, got) {
            return Err(CoreFault::NotEnabled);
        }
        self.pools[number].take(got);
        Ok(got)
    }

    /// An element goes back to the pool of this number (`mempool_free`, `mm/mempool.c`).
    pub fn give(&mut self, number: u32, what: &What) -> Result<(), CoreFault>
        requires { number < 66 }
        ensures { MovesAs self.old number gives (told.Give (pool_of number)) what.now result self.new }
    {
        if !told::gives(what, pool_of(number)) || self.pools[number as usize].out() == 0 {
            return Err(CoreFault::NotEnabled);
        }
        self.pools[number as usize].give();
        Ok(())
    }

    /// A pool with nothing out gets another reserve (`mempool_resize`, `mm/mempool.c`).
    pub fn resize(&mut self, pool: PoolId, min: u32, what: &What) -> Result<(), CoreFault>
        requires { pool_number pool < 66 }
        ensures { MovesAs self.old (pool_number pool) (resizes min) (told.Resize pool min) what.now result self.new }
    {
        let number = pool.no() as usize;
        if !told::resizes(what, pool, min) || self.pools[number].out() != 0 {
            return Err(CoreFault::NotEnabled);
        }
        self.pools[number].resize(min);
        Ok(())
    }

    /// The bios of a device's set in a task's lists go to its rescuer (`punt_bios_to_rescuer`, `block/bio.c`).
    pub fn punt(&mut self, dev: DevId, lists: &mut Lists, what: &What) -> Result<(), CoreFault>
        requires device { dev.0 < length self.old.stack.devices.items }
        requires within { ListsAreWithin self.old.stack (lists_of lists.old) }
        ensures { Punts self.old (lists_of lists.old) dev what.now result self.new (lists_of lists.new) }
    {
        if !told::punts(what, dev, lists.count_of(dev)) {
            return Err(CoreFault::NotEnabled);
        }
        self.known();
        let Some(rescue) = self.rescues.get_mut(dev.0 as usize) else {
            unreachable!()
        };
        rescue.punt(dev, lists)?;
        Ok(())
    }

    /// Takes the first bio that waits for the rescuer of this device's set, where the event tells that (`bio_alloc_rescue`, `block/bio.c`).
    pub fn pop(&mut self, dev: DevId, what: &What) -> Result<PlainBioElement, CoreFault>
        ensures { Pops self.old dev what.now result self.new }
    {
        if !told::pops(what, dev) {
            return Err(CoreFault::NotEnabled);
        }
        let Some(rescue) = self.rescues.get_mut(dev.0 as usize) else {
            return Err(CoreFault::NotEnabled);
        };
        let Some(part) = rescue.pop() else {
            return Err(CoreFault::NotEnabled);
        };
        Ok(part)
    }

    /// A bio comes to the disk that it is at. Where it does, the lists have room for what comes next.
    pub fn push(
        &mut self,
        part: &PlainBioElement,
        lists: &mut Lists,
        what: &What,
    ) -> Result<(), CoreFault>
        requires within { IsWithinDevice self.old.stack part.now.bio }
        requires disk { keeps_data (tree self.old.stack part.now.bio.dev.0) ≡ true }
        ensures pushes { Pushes self.old part.now what.now result self.new }
        ensures same { lists_of lists.new ≡ lists_of lists.old }
        ensures room { OnOk result (ListsHaveCapacity 2 lists.new) }
    {
        let bio = part.bio();
        if !told::pushes(
            what,
            bio.dev,
            bio.range.start,
            bio.range.len,
            part.pad().leg,
        ) {
            return Err(CoreFault::NotEnabled);
        }
        lists.reserve()?;
        let Some(slot) = self.disks.get_mut(bio.dev.0 as usize) else {
            unreachable!()
        };
        push_to(slot, part.again())?;
        Ok(())
    }

    /// A disk ends a bio that waits in it: its place among them, the bio, and how it ended (`bio_endio`, `block/bio.c`).
    pub fn complete(
        &mut self,
        disk: DevId,
        what: &What,
    ) -> Result<(u64, PlainBioElement, Status), CoreFault>
        ensures { CompletesBio self.old disk what.now result self.new }
    {
        let Some((index, status)) = told::completed_of(what, disk) else {
            return Err(CoreFault::NotEnabled);
        };
        let Some(slot) = self.disks.get_mut(disk.0 as usize) else {
            return Err(CoreFault::NotEnabled);
        };
        match complete_in(slot, index, status) {
            None => Err(CoreFault::NotEnabled),
            Some(part) => Ok((index, part, status)),
        }
    }

    /// A write is done, with this status: the tally has it for the write, and one unfinished write less in the present round.
    pub fn done(&mut self, write: u32, status: Status, what: &What) -> Result<(), CoreFault>
        ensures { Finishes self.old write status what.now result self.new }
    {
        if !told::is_done(what, write, status) {
            return Err(CoreFault::NotEnabled);
        }
        self.tally.done(write, status);
        Ok(())
    }

    /// The round behind the present one starts, where there is one and the event tells of a round of this number. The tally does not see the number.
    pub fn next_round(&mut self, round: u32, what: &What) -> Result<(), CoreFault>
        ensures { StartsRound self.old round what.now result self.new }
    {
        if !told::starts(what, round) || !self.has_next() {
            return Err(CoreFault::NotEnabled);
        }
        self.tally.next_round();
        Ok(())
    }
}
