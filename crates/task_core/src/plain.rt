//! The objects of one thread.
ghost use Rattle.std.specs.Prelude.{◌≡◌, ◌^◌, ◌<◌};
ghost use Rattle.stack_base.specs.PoolId.{pool_number};
ghost use Rattle.bioset_pools.specs.Sets.{bios_of};

pub mod calls;
pub mod index;
mod pools;
pub(crate) mod tally;

use crate::plain::calls::{dev_of, link_in, resize_home};
use crate::plain::index::{ObjectIndex, place};
use crate::plain::tally::Tally;
use bio_books::{Book, Dropped, Link};
use bio_records::{
    BioBody, BioElement, BioList, Pad, RescueList, Slip, SlipElement, VecElement, Vector,
};
use bioset_pools::bios_of;
use mempool_core::{Pool, Taken};
use model_disks::{Disk, Done};
use stack_base::{DevId, PoolId, SetId, Status};
use std::snapshot::Snapshot;
use task_steps::{Ask, Chooser, Objects, Routes, Unmade};

/// The objects of a run, where one thread has them all. They always answer, and tell what they are.
///
/// Not every device has a pool, a list or a disk. So the objects of a kind stand in a row, each with its key but for the disks, and `index` says
/// where. A run's end moves the disks out as they are.
#[derive(Drop)]
pub struct Plain {
    /// The pools of bios, of the writers' set first and then of devices.
    pub bios: Vec<(SetId, Pool<BioBody<Pad>>)>,
    /// The pool of the writers' vectors.
    pub vecs: Pool<Vector>,
    /// The pools of the records of mirrors.
    pub records: Vec<(DevId, Pool<Slip>)>,
    /// The lists of the bios that wait for rescuers.
    pub lists: Vec<(DevId, RescueList)>,
    /// The disks, in the order of devices, so that what a run leaves is moved out and not sought.
    pub disks: Vec<Disk>,
    /// The books of writers.
    pub books: Vec<(u32, Book)>,
    /// The rounds, and the writes that are done.
    pub tally: Tally,
    pub(crate) index: ObjectIndex,
    // The stack that they are of, and the places of books. It has no bytes here.
    pub(crate) stage: Snapshot<Routes>,
}

// The number of the pool of a set's bios.
fn bios_number(set: SetId) -> u32
    requires { pool_number (bios_of set) < 2 ^ 32 }
    ensures { result ≡ pool_number (bios_of set) }
{
    bios_of(set).no()
}

impl Plain {
    ghost use Rattle.std.specs.Prelude.{IsTrue};
    ghost use Rattle.stack_base.specs.declared.ids.PoolId.TheVariants.{FsVecs, Records};
    ghost use Rattle.task_core.specs.Plains.{objects_of, stage_of, Holds, PlainServes};
    ghost use Rattle.run_machine.specs.Requests.{Resize, OutIs};
    ghost use Rattle.task_steps.specs.Stage.{has_disk, RequestFits};

    /// Where each object stands among those of its kind.
    pub fn index(&self) -> ObjectIndex
        ensures { result ≡ self.now.index }
    {
        self.index
    }

    // Sets the reserve of a set's pool of bios, where nothing of it is out. It answers how much is.
    fn resize_bios(&mut self, set: SetId, min: u32) -> u64
        requires holds { Holds self.old }
        requires fits { RequestFits (stage_of self.old) (Resize (bios_of set) min) }
        ensures serves { PlainServes self.old (Resize (bios_of set) min) (OutIs result) self.new }
        ensures kept { Holds self.new × (stage_of self.new ≡ stage_of self.old) }
    {
        let at = place(&self.index.bios, bios_number(set));
        resize_home(&mut self.bios[at].1, min)
    }

    // The same of the pool of vectors.
    fn resize_vecs(&mut self, min: u32) -> u64
        requires holds { Holds self.old }
        requires fits { RequestFits (stage_of self.old) (Resize FsVecs min) }
        ensures serves { PlainServes self.old (Resize FsVecs min) (OutIs result) self.new }
        ensures kept { Holds self.new × (stage_of self.new ≡ stage_of self.old) }
    {
        resize_home(&mut self.vecs, min)
    }

    // The same of the pool of a mirror's records.
    fn resize_records(&mut self, dev: DevId, min: u32) -> u64
        requires holds { Holds self.old }
        requires fits { RequestFits (stage_of self.old) (Resize (Records dev) min) }
        ensures serves { PlainServes self.old (Resize (Records dev) min) (OutIs result) self.new }
        ensures kept { Holds self.new × (stage_of self.new ≡ stage_of self.old) }
    {
        let at = place(&self.index.records, PoolId::Records(dev).no());
        resize_home(&mut self.records[at].1, min)
    }

    /// A disk of the stack.
    pub fn disk(&self, dev: DevId) -> &Disk
        requires holds { Holds self.now }
        requires disk { IsTrue (has_disk (stage_of self.now) dev) }
        ensures { result.now ≡ (objects_of self.now).disk dev.0 }
    {
        &self.disks[place(&self.index.disks, dev.0)]
    }
}

impl Objects for Plain {
    ghost use Rattle.task_core.specs.Plains.{stage_of, Holds, PlainServes, PlainPicks, PlainFinds};

    ghost stage = { stage_of };

    ghost holds = { Holds };

    ghost serves = { PlainServes };

    ghost picks = { PlainPicks };

    ghost finds = { PlainFinds };

    #[inline(always)] // as `Pool::take`
    fn take_bio(&mut self, set: SetId, waits: bool) -> Result<Taken<BioBody<Pad>>, Unmade> {
        let at = place(&self.index.bios, bios_number(set));
        Ok(self.bios[at].1.take())
    }

    fn take_vec(&mut self) -> Result<Taken<Vector>, Unmade> {
        Ok(self.vecs.take())
    }

    fn take_slip(&mut self, dev: DevId) -> Result<Taken<Slip>, Unmade> {
        let at = place(&self.index.records, PoolId::Records(dev).no());
        Ok(self.records[at].1.take())
    }

    fn give_bio(&mut self, el: BioElement) -> Result<(), Unmade> {
        let at = place(&self.index.bios, el.no());
        self.bios[at].1.give(el);
        Ok(())
    }

    fn give_vec(&mut self, el: VecElement) -> Result<(), Unmade> {
        self.vecs.give(el);
        Ok(())
    }

    fn give_slip(&mut self, el: SlipElement) -> Result<(), Unmade> {
        let at = place(&self.index.records, el.no());
        self.records[at].1.give(el);
        Ok(())
    }

    fn punt(&mut self, dev: DevId, moved: BioList) -> Result<(), Unmade> {
        let at = place(&self.index.lists, dev.0);
        self.lists[at].1.add(moved);
        Ok(())
    }

    #[inline(always)] // its reply is made where it is used
    fn pop(&mut self, dev: DevId) -> Result<Option<BioElement>, Unmade> {
        let at = place(&self.index.lists, dev.0);
        Ok(self.lists[at].1.pop())
    }

    fn push(&mut self, el: BioElement) -> Result<(), Unmade> {
        let at = place(&self.index.disks, dev_of(&el).0);
        self.disks[at].push(el);
        Ok(())
    }

    #[inline(always)] // its reply is made where it is used
    fn complete<C: Chooser>(
        &mut self,
        disk: DevId,
        chooser: &mut C,
    ) -> Result<Option<(u64, Done)>, Unmade> {
        let at = place(&self.index.disks, disk.0);
        let pending = self.disks[at].pending();
        if pending == 0 {
            return Ok(None);
        }
        let index = chooser.choose(pending);
        Ok(Some((index, self.disks[at].complete(index))))
    }

    #[inline(always)] // its reply is made where it is used
    fn link(&mut self, writer: u32, ask: Ask) -> Result<Link, Unmade> {
        let at = place(&self.index.books, writer);
        Ok(link_in(&mut self.books[at].1, ask))
    }

    #[inline(always)] // its reply is made where it is used
    fn drop_one(
        &mut self,
        writer: u32,
        node: u32,
        status: Status,
        part: Option<BioElement>,
    ) -> Result<Dropped, Unmade> {
        let at = place(&self.index.books, writer);
        Ok(self.books[at].1.drop_one(node, status, part))
    }

    fn done(&mut self, write: u32, status: Status) -> Result<(), Unmade> {
        self.tally.done(write, status);
        Ok(())
    }

    fn resize(&mut self, pool: PoolId, min: u32) -> Result<u64, Unmade> {
        match pool {
            PoolId::FsBios => Ok(self.resize_bios(SetId::Fs, min)),
            PoolId::FsVecs => Ok(self.resize_vecs(min)),
            PoolId::Bios(dev) => Ok(self.resize_bios(SetId::Of(dev), min)),
            PoolId::Records(dev) => Ok(self.resize_records(dev, min)),
        }
    }

    fn next_round(&mut self) -> Result<(), Unmade> {
        self.tally.next_round();
        Ok(())
    }

    fn left(&mut self) -> u32 {
        self.tally.left()
    }

    fn round(&mut self) -> u32 {
        self.tally.round
    }
}
