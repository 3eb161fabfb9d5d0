//! Objects behind locks, with the first seats of these.
ghost use Rattle.std.specs.Prelude.{◌≡◌, All, IfOk};
ghost use Rattle.object_things.specs.Pools.{IsPoolOf};
ghost use Rattle.object_things.specs.Stamps.{stage_in};
ghost use Rattle.task_core.specs.ObjectsOf.{IsBookOf, IsDiskOf};
ghost use Rattle.task_steps.specs.Stage.{AreServed};
ghost use Rattle.tick_clock.specs.Tickets.{first_pass};
ghost use Rattle.shared_objects.specs.Guards.{guarded};
ghost use Rattle.shared_objects.specs.Holding.{LocksHold};
ghost use Rattle.shared_objects.specs.Opening.{AreFirst, CanShare, IsFirstAt};
ghost use Rattle.shared_objects.specs.Rows.{Abreast};
ghost use Rattle.shared_objects.specs.Sharing.{AreOfOpened, AreAround, disks_by_device};

use crate::locks::Locks;
use crate::opening::guards::{
    guard_books, guard_disks, guard_lists, guard_pool, guard_pools, stamp_of,
};
use crate::rows::{lock_one, open_row};
use crate::seats::TaskSeats;
use bio_books::Book;
use bio_records::RescueList;
use mempool_core::{Fresh, Pool};
use model_disks::Disk;
use object_things::{BookThing, Common, DiskThing, ListThing, PoolThing, TallyThing};
use seat_lock::{Seat, SeatLock, Thing};
use stack_base::DevId;
use std::alloc::{AllocError, Global};
use std::sync::Arc;
use task_core::Plain;
use tick_clock::Pass;

// Locks round things, with their first seats.
fn lock_row<K: Copy + Drop, T: Thing + Drop>(
    alloc: Global,
    things: Vec<(K, T)>,
) -> Result<(Vec<(K, SeatLock<T>)>, Vec<(K, Seat<T>)>), AllocError>
    ensures round { IfOk result (λ made. AreAround (λ thing. thing) things.items made.0.items) }
    ensures firsts { IfOk result (λ made. Abreast (IsFirstAt 0) made.0.items made.1.items) }
{
    open_row(alloc, things)
}

// Locks round pools, with their first seats.
fn lock_pools<K: Copy + Drop, P: Fresh + Drop>(
    alloc: Global,
    pools: Vec<(K, Pool<P>)>,
    common: &Arc<Common, Global>,
) -> Result<
    (
        Vec<(K, SeatLock<PoolThing<P>>)>,
        Vec<(K, Seat<PoolThing<P>>)>,
    ),
    AllocError,
>
    requires { All (λ entry. IsPoolOf (stage_in common.now.value) entry.1) pools.items }
    ensures round { IfOk result (λ made. AreAround (guarded common.now.value) pools.items made.0.items) }
    ensures firsts { IfOk result (λ made. Abreast (IsFirstAt 0) made.0.items made.1.items) }
{
    let things = guard_pools(alloc, pools, common)?;
    lock_row(alloc, things)
}

// Locks round the lists of rescuers, with their first seats.
fn lock_lists(
    alloc: Global,
    lists: Vec<(DevId, RescueList)>,
    common: &Arc<Common, Global>,
) -> Result<
    (
        Vec<(DevId, SeatLock<ListThing>)>,
        Vec<(DevId, Seat<ListThing>)>,
    ),
    AllocError,
>
    requires { All (λ entry. AreServed (stage_in common.now.value) entry.1.bios) lists.items }
    ensures round { IfOk result (λ made. AreAround (guarded common.now.value) lists.items made.0.items) }
    ensures firsts { IfOk result (λ made. Abreast (IsFirstAt 0) made.0.items made.1.items) }
{
    let things = guard_lists(alloc, lists, common)?;
    lock_row(alloc, things)
}

// Locks round disks, with their first seats.
fn lock_disks(
    alloc: Global,
    disks: Vec<Disk>,
    common: &Arc<Common, Global>,
) -> Result<
    (
        Vec<(DevId, SeatLock<DiskThing>)>,
        Vec<(DevId, Seat<DiskThing>)>,
    ),
    AllocError,
>
    requires { All (λ disk. IsDiskOf (stage_in common.now.value) disk.dev.0 disk) disks.items }
    ensures round { IfOk result (λ made. AreAround (guarded common.now.value) (disks_by_device disks.items) made.0.items) }
    ensures firsts { IfOk result (λ made. Abreast (IsFirstAt 0) made.0.items made.1.items) }
{
    let things = guard_disks(alloc, disks, common)?;
    lock_row(alloc, things)
}

// Locks round books, with their first seats.
fn lock_books(
    alloc: Global,
    books: Vec<(u32, Book)>,
    common: &Arc<Common, Global>,
) -> Result<(Vec<(u32, SeatLock<BookThing>)>, Vec<(u32, Seat<BookThing>)>), AllocError>
    requires { All (λ entry. IsBookOf (stage_in common.now.value) entry.1.writer entry.1) books.items }
    ensures round { IfOk result (λ made. AreAround (guarded common.now.value) books.items made.0.items) }
    ensures firsts { IfOk result (λ made. Abreast (IsFirstAt 0) made.0.items made.1.items) }
{
    let things = guard_books(alloc, books, common)?;
    lock_row(alloc, things)
}

// Locks round all objects, with their first seats and the first pass of their clock, and whether each task is to note its events.
pub(crate) fn lock_objects(
    alloc: Global,
    objects: Plain,
    common: Arc<Common, Global>,
    pass: Pass,
    trace: bool,
) -> Result<(Locks, TaskSeats), AllocError>
    requires can { CanShare objects }
    requires opened { common.value.opened ≡ objects }
    requires pass { pass ≡ first_pass common.value.clock }
    ensures round { IfOk result (λ made. AreOfOpened objects made.0) }
    ensures firsts { IfOk result (λ made. AreFirst 0 made.0 made.1) }
    ensures trace { IfOk result (λ made. made.0.trace ≡ trace) }
{
    let index = objects.index();
    let (vecs, first_vecs) = lock_one(alloc, guard_pool(objects.vecs, &common)?)?;
    let tally = TallyThing::new(objects.tally, stamp_of(&common)?);
    let (tally, first_tally) = lock_one(alloc, tally)?;
    let (bios, first_bios) = lock_pools(alloc, objects.bios, &common)?;
    let (records, first_records) = lock_pools(alloc, objects.records, &common)?;
    let (lists, first_lists) = lock_lists(alloc, objects.lists, &common)?;
    let (disks, first_disks) = lock_disks(alloc, objects.disks, &common)?;
    let (books, first_books) = lock_books(alloc, objects.books, &common)?;
    let locks = Locks {
        common,
        index,
        bios,
        vecs,
        records,
        lists,
        disks,
        books,
        tally,
        trace,
    };
    let firsts = TaskSeats {
        number: 0,
        pass: Some(pass),
        bios: first_bios,
        vecs: first_vecs,
        records: first_records,
        lists: first_lists,
        disks: first_disks,
        books: first_books,
        tally: first_tally,
    };
    Ok((locks, firsts))
}
