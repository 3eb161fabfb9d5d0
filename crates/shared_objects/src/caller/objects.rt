//! Who calls, as the objects of its task.
ghost use Rattle.std.specs.Prelude.{◌≡◌, IfErr};
ghost use Rattle.stack_base.specs.declared.ids.PoolId.TheVariants.{FsVecs, Records};
ghost use Rattle.bioset_pools.specs.Sets.{bios_of};
ghost use Rattle.run_machine.specs.Requests.{Complete, LeftOver, Resize};
ghost use Rattle.task_steps.specs.declared.objects.Unmade.TheVariants as unmade;
ghost use Rattle.task_steps.specs.Stage.{RequestFits};
ghost use Rattle.task_steps.specs.Views.{resized_reply};
ghost use Rattle.object_things.specs.declared.disk.DiskAsk.TheVariants as asks;
ghost use Rattle.object_things.specs.declared.disk.DiskSaid.TheVariants as says;
ghost use Rattle.object_things.specs.Disks.{DiskSays};
ghost use Rattle.shared_objects.specs.Callers.{CallerHasAskedDisk, CallerHasCalled};
ghost use Rattle.shared_objects.specs.Holding.{DeskHolds, stage_at};

use crate::by_fields::{done_by_fields, dropped_by_fields};
use crate::caller::Caller;
use crate::calls::or_unmade;
use bio_books::{Dropped, Link};
use bio_records::{BioBody, BioElement, BioList, Pad, Slip, SlipElement, VecElement, Vector};
use bioset_pools::bios_of;
use mempool_core::Taken;
use model_disks::Done;
use object_things::{
    BookAsk, BookSaid, DiskAsk, DiskSaid, ListAsk, ListSaid, NoTicket, PoolAsk, PoolSaid, TallyAsk,
    TallySaid,
};
use stack_base::{DevId, PoolId, SetId, Status};
use std::sync::Wait;
use task_core::dev_of;
use task_steps::{Ask, Chooser, Objects, Unmade};

impl<'a, R: Wait> Caller<'a, R> {
    // How many bios wait in a disk.
    #[inline(always)] // what it came to then has no bytes of its own, and the frame of its caller serves
    fn look_at(&mut self, disk: DevId) -> u64
        requires holds { DeskHolds self.old.locks.now self.old.seats.now }
        requires fits { RequestFits (stage_at self.old.locks.now) (Complete disk) }
        ensures called { CallerHasCalled self.old (Complete disk) (LeftOver result) self.new }
    {
        match self.ask_disk(disk, DiskAsk::Look { disk }) {
            DiskSaid::Waiting(count) => count,
            DiskSaid::Pushed(_) | DiskSaid::Completed(_) => unreachable!(),
        }
    }

    // Completes the bio at this place of those that wait, or the last one where there are fewer by now.
    #[inline(always)] // as `look_at`
    fn complete_at(&mut self, disk: DevId, index: u64) -> Result<Option<(u64, Done)>, NoTicket>
        requires holds { DeskHolds self.old.locks.now self.old.seats.now }
        requires fits { RequestFits (stage_at self.old.locks.now) (Complete disk) }
        ensures called { CallerHasAskedDisk self.old (asks.Complete disk index) (says.Completed result) self.new }
        ensures says { DiskSays (stage_at self.old.locks.now) (asks.Complete disk index) (says.Completed result) }
    {
        match self.ask_disk(disk, DiskAsk::Complete { disk, index }) {
            DiskSaid::Completed(Ok(Some((at, done)))) => Ok(Some((at, done_by_fields(done)))),
            DiskSaid::Completed(Ok(None)) => Ok(None),
            DiskSaid::Completed(Err(refused)) => Err(refused),
            DiskSaid::Pushed(_) | DiskSaid::Waiting(_) => unreachable!(),
        }
    }

    // Sets the reserve of a set's pool of bios, where nothing of it is out.
    #[tactic(auto, using(crate::proofs::asking::PoolReplies::set_has_pool))]
    fn resize_bios(&mut self, set: SetId, min: u32) -> Result<u64, Unmade>
        requires holds { DeskHolds self.old.locks.now self.old.seats.now }
        requires fits { RequestFits (stage_at self.old.locks.now) (Resize (bios_of set) min) }
        ensures called { CallerHasCalled self.old (Resize (bios_of set) min) (resized_reply result) self.new }
        ensures back { IfErr result (λ back. back ≡ unmade.Nothing) }
    {
        let pool = bios_of(set);
        match self.ask_bios(pool.no(), PoolAsk::Resize { pool, min }) {
            PoolSaid::Resized(result) => or_unmade(result),
            PoolSaid::Took { .. } | PoolSaid::Gave(_) => unreachable!(),
        }
    }

    // The same of the pool of vectors.
    fn resize_vecs(&mut self, min: u32) -> Result<u64, Unmade>
        requires holds { DeskHolds self.old.locks.now self.old.seats.now }
        requires fits { RequestFits (stage_at self.old.locks.now) (Resize FsVecs min) }
        ensures called { CallerHasCalled self.old (Resize FsVecs min) (resized_reply result) self.new }
        ensures back { IfErr result (λ back. back ≡ unmade.Nothing) }
    {
        let pool = PoolId::FsVecs;
        match self.ask_vecs(PoolAsk::Resize { pool, min }) {
            PoolSaid::Resized(result) => or_unmade(result),
            PoolSaid::Took { .. } | PoolSaid::Gave(_) => unreachable!(),
        }
    }

    // The same of the pool of a mirror's records.
    #[tactic(auto, using(crate::proofs::asking::PoolReplies::mirror_is_pool))]
    fn resize_records(&mut self, dev: DevId, min: u32) -> Result<u64, Unmade>
        requires holds { DeskHolds self.old.locks.now self.old.seats.now }
        requires fits { RequestFits (stage_at self.old.locks.now) (Resize (Records dev) min) }
        ensures called { CallerHasCalled self.old (Resize (Records dev) min) (resized_reply result) self.new }
        ensures back { IfErr result (λ back. back ≡ unmade.Nothing) }
    {
        let pool = PoolId::Records(dev);
        match self.ask_records(pool.no(), PoolAsk::Resize { pool, min }) {
            PoolSaid::Resized(result) => or_unmade(result),
            PoolSaid::Took { .. } | PoolSaid::Gave(_) => unreachable!(),
        }
    }
}

impl<'a, R: Wait> Objects for Caller<'a, R> {
    ghost use Rattle.shared_objects.specs.Callers.{CallerServes};
    ghost use Rattle.shared_objects.specs.Desks.{DeskFinds, DeskPicks};
    ghost use Rattle.shared_objects.specs.Holding.{DeskHolds, desk_of, stage_at};

    ghost stage = { λ caller. stage_at caller.locks.now };

    ghost holds = { λ caller. DeskHolds caller.locks.now caller.seats.now };

    ghost serves = { CallerServes };

    ghost picks = { λ old new. DeskPicks (desk_of old.seats.now) (desk_of new.seats.now) };

    ghost finds = { λ old new. DeskFinds (desk_of old.seats.now) (desk_of new.seats.now) };

    #[tactic(auto, using(crate::proofs::asking::PoolReplies::take_named, crate::proofs::asking::PoolReplies::bios_waits, crate::proofs::asking::PoolReplies::set_is_pool, crate::proofs::asking::PoolReplies::bio_served, crate::proofs::asking::PoolReplies::bio_owed, crate::proofs::asking::PoolReplies::bio_clear, crate::proofs::asking::PoolReplies::back_none, crate::proofs::asking::PoolReplies::desk_numbered))]
    #[inline(always)] // as `look_at`
    fn take_bio(&mut self, set: SetId, waits: bool) -> Result<Taken<BioBody<Pad>>, Unmade> {
        let pool = bios_of(set);
        match self.ask_bios(pool.no(), PoolAsk::Take { pool, waits }) {
            PoolSaid::Took { pool: _, result } => or_unmade(result),
            PoolSaid::Gave(_) | PoolSaid::Resized(_) => unreachable!(),
        }
    }

    #[tactic(auto, using(crate::proofs::asking::PoolReplies::vec_served, crate::proofs::asking::PoolReplies::vec_owed, crate::proofs::asking::PoolReplies::back_none, crate::proofs::asking::PoolReplies::desk_numbered))]
    fn take_vec(&mut self) -> Result<Taken<Vector>, Unmade> {
        let pool = PoolId::FsVecs;
        match self.ask_vecs(PoolAsk::Take { pool, waits: true }) {
            PoolSaid::Took { pool: _, result } => or_unmade(result),
            PoolSaid::Gave(_) | PoolSaid::Resized(_) => unreachable!(),
        }
    }

    #[tactic(auto, using(crate::proofs::asking::PoolReplies::mirror_is_pool, crate::proofs::asking::PoolReplies::slip_served, crate::proofs::asking::PoolReplies::slip_owed, crate::proofs::asking::PoolReplies::back_none, crate::proofs::asking::PoolReplies::desk_numbered))]
    #[inline(always)] // as `look_at`
    fn take_slip(&mut self, dev: DevId) -> Result<Taken<Slip>, Unmade> {
        let pool = PoolId::Records(dev);
        match self.ask_records(pool.no(), PoolAsk::Take { pool, waits: true }) {
            PoolSaid::Took { pool: _, result } => or_unmade(result),
            PoolSaid::Gave(_) | PoolSaid::Resized(_) => unreachable!(),
        }
    }

    #[inline(always)] // as `look_at`
    fn give_bio(&mut self, el: BioElement) -> Result<(), Unmade> {
        // The element knows its pool. The name says only that it is one of bios, as all of a pool's history does.
        let pool = PoolId::FsBios;
        match self.ask_bios(el.no(), PoolAsk::Give { pool, el }) {
            PoolSaid::Gave(Ok(())) => Ok(()),
            PoolSaid::Gave(Err(el)) => Err(Unmade::Bio(el)),
            PoolSaid::Took { .. } | PoolSaid::Resized(_) => unreachable!(),
        }
    }

    #[inline(always)] // as `look_at`
    fn give_vec(&mut self, el: VecElement) -> Result<(), Unmade> {
        let pool = PoolId::FsVecs;
        match self.ask_vecs(PoolAsk::Give { pool, el }) {
            PoolSaid::Gave(Ok(())) => Ok(()),
            PoolSaid::Gave(Err(el)) => Err(Unmade::Vec(el)),
            PoolSaid::Took { .. } | PoolSaid::Resized(_) => unreachable!(),
        }
    }

    #[inline(always)] // as `look_at`
    fn give_slip(&mut self, el: SlipElement) -> Result<(), Unmade> {
        let number = el.no();
        // The pools of records have odd numbers.
        let pool = PoolId::Records(DevId(number / 2));
        match self.ask_records(number, PoolAsk::Give { pool, el }) {
            PoolSaid::Gave(Ok(())) => Ok(()),
            PoolSaid::Gave(Err(el)) => Err(Unmade::Slip(el)),
            PoolSaid::Took { .. } | PoolSaid::Resized(_) => unreachable!(),
        }
    }

    #[inline(always)] // as `look_at`
    fn punt(&mut self, dev: DevId, moved: BioList) -> Result<(), Unmade> {
        match self.ask_list(dev, ListAsk::Punt { dev, moved }) {
            ListSaid::Punted(Ok(())) => Ok(()),
            ListSaid::Punted(Err(moved)) => Err(Unmade::List(moved)),
            ListSaid::Popped(_) => unreachable!(),
        }
    }

    #[inline(always)] // as `look_at`
    fn pop(&mut self, dev: DevId) -> Result<Option<BioElement>, Unmade> {
        match self.ask_list(dev, ListAsk::Pop { dev }) {
            ListSaid::Popped(result) => or_unmade(result),
            ListSaid::Punted(_) => unreachable!(),
        }
    }

    #[inline(always)] // as `look_at`
    fn push(&mut self, el: BioElement) -> Result<(), Unmade> {
        let disk = dev_of(&el);
        match self.ask_disk(disk, DiskAsk::Push { el }) {
            DiskSaid::Pushed(Ok(())) => Ok(()),
            DiskSaid::Pushed(Err(el)) => Err(Unmade::Bio(el)),
            DiskSaid::Waiting(_) | DiskSaid::Completed(_) => unreachable!(),
        }
    }

    fn complete<C: Chooser>(
        &mut self,
        disk: DevId,
        chooser: &mut C,
    ) -> Result<Option<(u64, Done)>, Unmade> {
        let pending = self.look_at(disk);
        if pending == 0 {
            return Ok(None);
        }
        let index = chooser.choose(pending);
        or_unmade(self.complete_at(disk, index))
    }

    #[inline(always)] // as `look_at`
    fn link(&mut self, writer: u32, ask: Ask) -> Result<Link, Unmade> {
        match self.ask_book(writer, BookAsk::Link { writer, ask }) {
            BookSaid::Linked(result) => result,
            BookSaid::Dropped(_) => unreachable!(),
        }
    }

    #[inline(never)] // two callers, and its reply is large: in both of them an event took more
    fn drop_one(
        &mut self,
        writer: u32,
        node: u32,
        status: Status,
        part: Option<BioElement>,
    ) -> Result<Dropped, Unmade> {
        let ask = BookAsk::Drop {
            writer,
            node,
            status,
            part,
        };
        match self.ask_book(writer, ask) {
            BookSaid::Dropped(Ok(dropped)) => Ok(dropped_by_fields(dropped)),
            BookSaid::Dropped(Err(back)) => Err(back),
            BookSaid::Linked(_) => unreachable!(),
        }
    }

    fn done(&mut self, write: u32, status: Status) -> Result<(), Unmade> {
        match self.ask_tally(TallyAsk::Done { write, status }) {
            TallySaid::Did(result) => or_unmade(result),
            TallySaid::Round(_) | TallySaid::Left(_) => unreachable!(),
        }
    }

    fn resize(&mut self, pool: PoolId, min: u32) -> Result<u64, Unmade> {
        match pool {
            PoolId::FsBios => self.resize_bios(SetId::Fs, min),
            PoolId::FsVecs => self.resize_vecs(min),
            PoolId::Bios(dev) => self.resize_bios(SetId::Of(dev), min),
            PoolId::Records(dev) => self.resize_records(dev, min),
        }
    }

    fn next_round(&mut self) -> Result<(), Unmade> {
        match self.ask_tally(TallyAsk::Next) {
            TallySaid::Did(result) => or_unmade(result),
            TallySaid::Round(_) | TallySaid::Left(_) => unreachable!(),
        }
    }

    #[inline(always)] // as `look_at`
    fn left(&mut self) -> u32 {
        match self.ask_tally(TallyAsk::Left) {
            TallySaid::Left(count) => count,
            TallySaid::Did(_) | TallySaid::Round(_) => unreachable!(),
        }
    }

    #[inline(always)] // as `look_at`
    fn round(&mut self) -> u32 {
        match self.ask_tally(TallyAsk::Round) {
            TallySaid::Round(round) => round,
            TallySaid::Did(_) | TallySaid::Left(_) => unreachable!(),
        }
    }
}
