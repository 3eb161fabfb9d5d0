//! Objects as things, which locks can guard.
ghost use Rattle.std.specs.Prelude.{◌≡◌, All, IfOk};
ghost use Rattle.object_things.specs.Pools.{IsPoolOf};
ghost use Rattle.object_things.specs.Stamps.{stage_in};
ghost use Rattle.task_core.specs.ObjectsOf.{IsBookOf, IsDiskOf};
ghost use Rattle.task_steps.specs.Stage.{AreServed};
ghost use Rattle.shared_objects.specs.Guards.{guarded, unused};
ghost use Rattle.shared_objects.specs.Opening.{guarded_row};
ghost use Rattle.shared_objects.specs.Sharing.{disks_by_device};

use bio_books::Book;
use bio_records::RescueList;
use mempool_core::{Fresh, Pool};
use model_disks::Disk;
use object_things::{BookThing, Common, DiskThing, ListThing, PoolThing, Stamp};
use stack_base::DevId;
use std::alloc::{AllocError, Global};
use std::sync::Arc;

// The stamp of an object of which nothing was asked.
pub(crate) fn stamp_of(common: &Arc<Common, Global>) -> Result<Stamp, AllocError>
    ensures { IfOk result (λ stamp. stamp ≡ unused common.now.value) }
{
    Ok(Stamp::new(common.clone()?))
}

// A pool as a thing.
pub(crate) fn guard_pool<P: Fresh + Drop>(
    pool: Pool<P>,
    common: &Arc<Common, Global>,
) -> Result<PoolThing<P>, AllocError>
    requires { IsPoolOf (stage_in common.now.value) pool }
    ensures { IfOk result (λ thing. thing ≡ guarded common.now.value pool) }
{
    Ok(PoolThing::new(pool, stamp_of(common)?))
}

// Pools as things, each with its key.
pub(crate) fn guard_pools<K: Copy + Drop, P: Fresh + Drop>(
    alloc: Global,
    pools: Vec<(K, Pool<P>)>,
    common: &Arc<Common, Global>,
) -> Result<Vec<(K, PoolThing<P>)>, AllocError>
    requires { All (λ entry. IsPoolOf (stage_in common.now.value) entry.1) pools.items }
    ensures { IfOk result (λ things. things.items ≡ guarded_row common.now.value pools.items) }
{
    let mut things = Vec::with_capacity(alloc, pools.len())?;
    'guarding: for entry in pools {
        let (key, pool) = entry;
        let thing = guard_pool(pool, common)?;
        things.push((key, thing))?;
    }
    Ok(things)
}

// The list of a rescuer as a thing.
fn guard_list(list: RescueList, common: &Arc<Common, Global>) -> Result<ListThing, AllocError>
    requires { AreServed (stage_in common.now.value) list.bios }
    ensures { IfOk result (λ thing. thing ≡ guarded common.now.value list) }
{
    Ok(ListThing::new(list, stamp_of(common)?))
}

// Lists of rescuers as things, each with its device.
pub(crate) fn guard_lists(
    alloc: Global,
    lists: Vec<(DevId, RescueList)>,
    common: &Arc<Common, Global>,
) -> Result<Vec<(DevId, ListThing)>, AllocError>
    requires { All (λ entry. AreServed (stage_in common.now.value) entry.1.bios) lists.items }
    ensures { IfOk result (λ things. things.items ≡ guarded_row common.now.value lists.items) }
{
    let mut things = Vec::with_capacity(alloc, lists.len())?;
    'guarding: for entry in lists {
        let (dev, list) = entry;
        let thing = guard_list(list, common)?;
        things.push((dev, thing))?;
    }
    Ok(things)
}

// A disk as a thing.
fn guard_disk(disk: Disk, common: &Arc<Common, Global>) -> Result<DiskThing, AllocError>
    requires { IsDiskOf (stage_in common.now.value) disk.dev.0 disk }
    ensures { IfOk result (λ thing. thing ≡ guarded common.now.value disk) }
{
    Ok(DiskThing::new(disk, stamp_of(common)?))
}

// Disks as things, each with its device.
pub(crate) fn guard_disks(
    alloc: Global,
    disks: Vec<Disk>,
    common: &Arc<Common, Global>,
) -> Result<Vec<(DevId, DiskThing)>, AllocError>
    requires { All (λ disk. IsDiskOf (stage_in common.now.value) disk.dev.0 disk) disks.items }
    ensures { IfOk result (λ things. things.items ≡ guarded_row common.now.value (disks_by_device disks.items)) }
{
    let mut things = Vec::with_capacity(alloc, disks.len())?;
    'guarding: for disk in disks {
        let dev = disk.dev();
        let thing = guard_disk(disk, common)?;
        things.push((dev, thing))?;
    }
    Ok(things)
}

// A book as a thing.
fn guard_book(book: Book, common: &Arc<Common, Global>) -> Result<BookThing, AllocError>
    requires { IsBookOf (stage_in common.now.value) book.writer book }
    ensures { IfOk result (λ thing. thing ≡ guarded common.now.value book) }
{
    Ok(BookThing::new(book, stamp_of(common)?))
}

// Books as things, each with its writer.
pub(crate) fn guard_books(
    alloc: Global,
    books: Vec<(u32, Book)>,
    common: &Arc<Common, Global>,
) -> Result<Vec<(u32, BookThing)>, AllocError>
    requires { All (λ entry. IsBookOf (stage_in common.now.value) entry.1.writer entry.1) books.items }
    ensures { IfOk result (λ things. things.items ≡ guarded_row common.now.value books.items) }
{
    let mut things = Vec::with_capacity(alloc, books.len())?;
    'guarding: for entry in books {
        let (writer, book) = entry;
        let thing = guard_book(book, common)?;
        things.push((writer, thing))?;
    }
    Ok(things)
}
