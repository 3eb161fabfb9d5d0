//! The objects, as one task asks them by seats that it lends.
ghost use Rattle.std.specs.Prelude.{◌≡◌, IsTrue};
ghost use Rattle.bio_records.specs.Clear.{IsClearBody, IsClearSlip, IsClearVector};
ghost use Rattle.run_machine.specs.Laws.{OfPool, OfRescuer, OfDisk, OfBook, OfTally, object_of};
ghost use Rattle.task_steps.specs.Stage.{RequestFits, Owes, has_book, has_disk, has_rescuer, is_bios, is_slips};
ghost use Rattle.object_things.specs.Books.{BookAskAlone, BookSays, book_asked, book_replied};
ghost use Rattle.object_things.specs.Disks.{DiskAskAlone, DiskSays, disk_asked};
ghost use Rattle.object_things.specs.Lists.{ListSays, list_asked, list_replied};
ghost use Rattle.object_things.specs.Pools.{PoolAskFits, PoolSays, pool_asked, pool_replied};
ghost use Rattle.object_things.specs.Tallies.{TallySays, tally_asked, tally_replied};
ghost use Rattle.shared_objects.specs.Callers.{CallerHasAskedDisk, CallerHasCalled};
ghost use Rattle.shared_objects.specs.Holding.{DeskHolds, stage_at};

pub mod objects;
pub mod steps;

use crate::calls::{call, call_at};
use crate::locks::Locks;
use crate::seats::TaskSeats;
use bio_records::{BioBody, Pad, Slip, Vector};
use object_things::{
    BookAsk, BookSaid, DiskAsk, DiskSaid, ListAsk, ListSaid, PoolAsk, PoolSaid, TallyAsk, TallySaid,
};
use stack_base::DevId;
use std::sync::Wait;
use task_core::place;

/// The objects, as one task asks them: by its seats, which stay where they are, each call in a turn of its own. An event gets a ticket, or is
/// told that there is none.
#[derive(Drop)]
pub(crate) struct Caller<'a, R: Wait> {
    pub(crate) rt: &'a R,
    pub(crate) locks: &'a Locks,
    pub(crate) seats: &'a mut TaskSeats,
}

impl<'a, R: Wait> Caller<'a, R> {
    // Asks the pool of bios of this number.
    #[inline(always)] // its reply is made where it is used
    fn ask_bios(&mut self, number: u32, ask: PoolAsk<BioBody<Pad>>) -> PoolSaid<BioBody<Pad>>
        requires holds { DeskHolds self.old.locks.now self.old.seats.now }
        requires pool { IsTrue (is_bios (stage_at self.old.locks.now) number) }
        requires named { object_of (pool_asked ask) ≡ OfPool number }
        requires fits { PoolAskFits (stage_at self.old.locks.now) ask }
        ensures called { CallerHasCalled self.old (pool_asked ask) (pool_replied result) self.new }
        ensures says { PoolSays IsClearBody ((stage_at self.old.locks.now).ledger number) ask result }
    {
        let locks = self.locks;
        let seats = &mut *self.seats;
        let at = place(&locks.index.bios, number);
        call_at(
            self.rt,
            &locks.bios,
            &mut seats.bios,
            &mut seats.pass,
            at,
            ask,
        )
    }

    // Asks the pool of vectors.
    #[inline(always)] // as `ask_bios`
    fn ask_vecs(&mut self, ask: PoolAsk<Vector>) -> PoolSaid<Vector>
        requires holds { DeskHolds self.old.locks.now self.old.seats.now }
        requires named { object_of (pool_asked ask) ≡ OfPool 64 }
        requires fits { PoolAskFits (stage_at self.old.locks.now) ask }
        ensures called { CallerHasCalled self.old (pool_asked ask) (pool_replied result) self.new }
        ensures says { PoolSays IsClearVector ((stage_at self.old.locks.now).ledger 64) ask result }
    {
        let seats = &mut *self.seats;
        call(
            self.rt,
            &self.locks.vecs,
            &mut seats.vecs,
            &mut seats.pass,
            ask,
        )
    }

    // Asks the pool of records of this number.
    #[inline(always)] // as `ask_bios`
    fn ask_records(&mut self, number: u32, ask: PoolAsk<Slip>) -> PoolSaid<Slip>
        requires holds { DeskHolds self.old.locks.now self.old.seats.now }
        requires pool { IsTrue (is_slips (stage_at self.old.locks.now) number) }
        requires named { object_of (pool_asked ask) ≡ OfPool number }
        requires fits { PoolAskFits (stage_at self.old.locks.now) ask }
        ensures called { CallerHasCalled self.old (pool_asked ask) (pool_replied result) self.new }
        ensures says { PoolSays IsClearSlip ((stage_at self.old.locks.now).ledger number) ask result }
    {
        let locks = self.locks;
        let seats = &mut *self.seats;
        let at = place(&locks.index.records, number);
        call_at(
            self.rt,
            &locks.records,
            &mut seats.records,
            &mut seats.pass,
            at,
            ask,
        )
    }

    // Asks the list of a device's rescuer.
    #[inline(always)] // as `ask_bios`
    fn ask_list(&mut self, dev: DevId, ask: ListAsk) -> ListSaid
        requires holds { DeskHolds self.old.locks.now self.old.seats.now }
        requires rescuer { IsTrue (has_rescuer (stage_at self.old.locks.now) dev) }
        requires named { object_of (list_asked ask) ≡ OfRescuer dev.0 }
        requires fits { RequestFits (stage_at self.old.locks.now) (list_asked ask) }
        ensures called { CallerHasCalled self.old (list_asked ask) (list_replied result) self.new }
        ensures owed { Owes (stage_at self.old.locks.now) (list_asked ask) (list_replied result) }
        ensures says { ListSays ask result }
    {
        let locks = self.locks;
        let seats = &mut *self.seats;
        let at = place(&locks.index.lists, dev.0);
        call_at(
            self.rt,
            &locks.lists,
            &mut seats.lists,
            &mut seats.pass,
            at,
            ask,
        )
    }

    // Asks a disk.
    #[inline(always)] // as `ask_bios`
    fn ask_disk(&mut self, disk: DevId, ask: DiskAsk) -> DiskSaid
        requires holds { DeskHolds self.old.locks.now self.old.seats.now }
        requires disk { IsTrue (has_disk (stage_at self.old.locks.now) disk) }
        requires named { object_of (disk_asked ask) ≡ OfDisk disk.0 }
        requires fits { RequestFits (stage_at self.old.locks.now) (disk_asked ask) }
        requires alone { DiskAskAlone ask }
        ensures called { CallerHasAskedDisk self.old ask result self.new }
        ensures says { DiskSays (stage_at self.old.locks.now) ask result }
    {
        let locks = self.locks;
        let seats = &mut *self.seats;
        let at = place(&locks.index.disks, disk.0);
        call_at(
            self.rt,
            &locks.disks,
            &mut seats.disks,
            &mut seats.pass,
            at,
            ask,
        )
    }

    // Asks the book of a writer.
    #[inline(always)] // as `ask_bios`
    fn ask_book(&mut self, writer: u32, ask: BookAsk) -> BookSaid
        requires holds { DeskHolds self.old.locks.now self.old.seats.now }
        requires book { IsTrue (has_book (stage_at self.old.locks.now) writer) }
        requires named { object_of (book_asked ask) ≡ OfBook writer }
        requires fits { RequestFits (stage_at self.old.locks.now) (book_asked ask) }
        requires alone { BookAskAlone ask }
        ensures called { CallerHasCalled self.old (book_asked ask) (book_replied result) self.new }
        ensures owed { Owes (stage_at self.old.locks.now) (book_asked ask) (book_replied result) }
        ensures says { BookSays ask result }
    {
        let locks = self.locks;
        let seats = &mut *self.seats;
        let at = place(&locks.index.books, writer);
        call_at(
            self.rt,
            &locks.books,
            &mut seats.books,
            &mut seats.pass,
            at,
            ask,
        )
    }

    // Asks the tally.
    #[inline(always)] // as `ask_bios`
    fn ask_tally(&mut self, ask: TallyAsk) -> TallySaid
        requires holds { DeskHolds self.old.locks.now self.old.seats.now }
        requires named { object_of (tally_asked ask) ≡ OfTally }
        requires fits { RequestFits (stage_at self.old.locks.now) (tally_asked ask) }
        ensures called { CallerHasCalled self.old (tally_asked ask) (tally_replied result) self.new }
        ensures owed { Owes (stage_at self.old.locks.now) (tally_asked ask) (tally_replied result) }
        ensures says { TallySays ask result }
    {
        let seats = &mut *self.seats;
        call(
            self.rt,
            &self.locks.tally,
            &mut seats.tally,
            &mut seats.pass,
            ask,
        )
    }
}
