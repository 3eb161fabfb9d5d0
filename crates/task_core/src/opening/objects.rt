//! The objects of a scenario, as they are opened, kind by kind.
ghost use Rattle.std.specs.Prelude.{◌≡◌, ◌<◌, ◌≤◌, ◌^◌, ℕ, suc, true, false, All, IfOk, OnOk, length};
ghost use Rattle.stack_base.specs.Stack.{IsStack};
ghost use Rattle.stack_base.specs.Tree.{size, tree};
ghost use Rattle.layout_model.specs.May.{bads_of};
ghost use Rattle.model_disks.specs.Disks.{IsBadRange};
ghost use Rattle.stack_base.specs.PoolId.{pool_number};
ghost use Rattle.stack_base.specs.declared.ids.PoolId.TheVariants.{Bios, Records};
ghost use Rattle.run_machine.specs.Opened.{device_at, reserve_of, script_at};
ghost use Rattle.fail_script.specs.Script.{only_tail};
ghost use Rattle.task_core.specs.Plains.{tally_of};
ghost use Rattle.task_core.specs.opened.Filled.{IsEntered};
ghost use Rattle.task_core.specs.opened.Openings.{has_pool, AreOpened, has_set_at, AreDisks, NextDisk, AreLists, NextList, AreBooks, NextBook};
ghost use Rattle.task_steps.specs.Stage.{has_mirror_in};
ghost use Rattle.task_steps.specs.Routed.{routing_setup};
ghost use Rattle.run_machine.specs.Scene.{keeps_data};

use crate::opening::pools::{open_pool, open_records, open_sets};
use crate::plain::Plain;
use crate::plain::index::ObjectIndex;
use crate::plain::tally::Tally;
use bio_books::Book;
use bio_records::RescueList;
use fail_script::Script;
use model_disks::Disk;
use stack_base::{Bad, DevId, Kind, PoolId, Stack};
use std::alloc::{AllocError, Global};
use std::snapshot::Snapshot;
use task_steps::{Manner, Routes};

// Puts an entry behind the others, and its place into the table.
pub(crate) fn enter<T: Drop>(
    entries: &mut Vec<T>,
    table: &mut [u32],
    number: u32,
    entry: T,
) -> Result<(), AllocError>
    requires inside { number < length table.old }
    requires few { length entries.old.items < 2 ^ 32 }
    ensures { OnOk result (IsEntered entries.old.items table.old number entry entries.new.items table.new) }
{
    table[number as usize] = entries.len() as u32;
    entries.push(entry)?;
    Ok(())
}

/// Whether the device keeps data itself.
pub fn keeps_data(routes: &Routes, dev: DevId) -> bool
    requires { dev.0 < length routes.now.stack.devices.items }
    ensures { result ≡ keeps_data ((routing_setup routes.now).tree dev.0) }
{
    match routes.manner(dev) {
        Manner::Keeps => true,
        Manner::Cuts => false,
        Manner::Copies => false,
    }
}

/// The bad ranges of a device, which a disk alone has.
pub fn bads_of(stack: &Stack, dev: DevId) -> &[Bad]
    requires stack { IsStack stack.now }
    requires device { dev.0 < length stack.now.devices.items }
    ensures { result.now ≡ bads_of stack.now dev.0 }
{
    match &stack.device(dev).kind {
        Kind::Disk { sectors: _, bad } => bad,
        Kind::Linear => &[],
        Kind::Stripe { chunk: _ } => &[],
        Kind::Zoned { chunk: _ } => &[],
        Kind::Limit { max: _, chunk: _ } => &[],
        Kind::Mirror { records: _ } => &[],
    }
}

// Opens the disk of a device, if it is one, behind those of the devices before it.
fn open_disk(
    alloc: Global,
    stack: &Stack,
    routes: &Routes,
    dev: DevId,
    disks: &mut Vec<Disk>,
    table: &mut [u32; 32],
) -> Result<(), AllocError>
    requires same { routes.now.stack ≡ stack.now }
    requires stack { IsStack stack.now }
    requires device { dev.0 < length stack.now.devices.items }
    requires bads { All (IsBadRange (size (tree stack.now dev.0))) (bads_of stack.now dev.0) }
    requires few { length disks.old.items ≤ dev.0 }
    ensures { OnOk result (NextDisk routes.now dev.0 disks.old.items table.old disks.new.items table.new) }
{
    if keeps_data(routes, dev) {
        let disk = Disk::open(alloc, dev, stack.size(dev), bads_of(stack, dev))?;
        enter(disks, table, dev.0, disk)?;
    }
    Ok(())
}

// Opens the disks of a stack.
pub(crate) fn open_disks(
    alloc: Global,
    stack: &Stack,
    routes: &Routes,
    table: &mut [u32; 32],
) -> Result<Vec<Disk>, AllocError>
    requires same { routes.now.stack ≡ stack.now }
    requires stack { IsStack stack.now }
    requires bads { (dev : ℕ) → All (IsBadRange (size (tree stack.now dev))) (bads_of stack.now dev) }
    ensures { IfOk result (λ disks. AreDisks routes.now (length stack.now.devices.items) disks.items table.new) }
{
    let mut disks = Vec::with_capacity(alloc, stack.devices.len())?;
    'opening: for number in 0..stack.devices.len() {
        open_disk(
            alloc,
            stack,
            routes,
            DevId(number as u32),
            &mut disks,
            table,
        )?;
    }
    Ok(disks)
}

// Opens the list of a device's rescuer, if its set has one.
fn open_list(
    routes: &Routes,
    dev: DevId,
    lists: &mut Vec<(DevId, RescueList)>,
    table: &mut [u32; 32],
) -> Result<(), AllocError>
    requires device { dev.0 < length routes.now.stack.devices.items }
    requires small { dev.0 < 32 }
    requires few { length lists.old.items ≤ dev.0 }
    ensures { OnOk result (NextList routes.now dev.0 lists.old.items table.old lists.new.items table.new) }
{
    if routes.rescuer(dev) {
        enter(lists, table, dev.0, (dev, RescueList::new(dev)))?;
    }
    Ok(())
}

// Opens the lists of the rescuers of a stack.
pub(crate) fn open_lists(
    alloc: Global,
    stack: &Stack,
    routes: &Routes,
    table: &mut [u32; 32],
) -> Result<Vec<(DevId, RescueList)>, AllocError>
    requires same { routes.now.stack ≡ stack.now }
    requires stack { IsStack stack.now }
    ensures { IfOk result (λ lists. AreLists routes.now (length stack.now.devices.items) lists.items table.new) }
{
    let mut lists = Vec::with_capacity(alloc, stack.devices.len())?;
    'opening: for number in 0..stack.devices.len() {
        open_list(routes, DevId(number as u32), &mut lists, table)?;
    }
    Ok(lists)
}

// Opens the book of a writer, if there is such a writer.
fn open_book(
    alloc: Global,
    routes: &Routes,
    writer: u32,
    books: &mut Vec<(u32, Book)>,
    table: &mut [u32; 8],
) -> Result<(), AllocError>
    requires writer { writer < 8 }
    requires few { length books.old.items ≤ writer }
    ensures { OnOk result (NextBook routes.now writer books.old.items table.old books.new.items table.new) }
{
    let places = routes.places(writer);
    if places > 0 {
        let book = Book::open(alloc, writer, places)?;
        enter(books, table, writer, (writer, book))?;
    }
    Ok(())
}

// Opens the books of all writers.
pub(crate) fn open_books(
    alloc: Global,
    routes: &Routes,
    table: &mut [u32; 8],
) -> Result<Vec<(u32, Book)>, AllocError>
    ensures { IfOk result (λ books. AreBooks routes.now 8 books.items table.new) }
{
    let mut books = Vec::with_capacity(alloc, 8)?;
    'opening: for writer in 0..8 {
        open_book(alloc, routes, writer, &mut books, table)?;
    }
    Ok(books)
}

/// The objects of a scenario, as they are opened: pools are full, and as wide as the largest reserve that they get; disks are zeros, no bio
/// waits and no node is open. The books have the places that the routes say.
///
/// # Errors
/// Where there is no memory for all of them.
pub fn open_objects(
    alloc: Global,
    stack: &Stack,
    routes: &Routes,
    scripts: &[(PoolId, Script)],
    reserves: &[(PoolId, u32)],
    tally: Tally,
) -> Result<Plain, AllocError>
    requires same { routes.now.stack ≡ stack.now }
    requires stack { IsStack stack.now }
    requires bios { 1 ≤ stack.now.fs_bios }
    requires vecs { 1 ≤ stack.now.fs_vecs }
    requires sets { (dev : ℕ) → has_set_at routes.now (suc dev) ≡ true → 1 ≤ reserve_of stack.now (Bios (device_at dev)) }
    requires records { (dev : ℕ) → has_mirror_in routes.now dev ≡ true → 1 ≤ reserve_of stack.now (Records (device_at dev)) }
    requires bads { (dev : ℕ) → All (IsBadRange (size (tree stack.now dev))) (bads_of stack.now dev) }
    requires scripts { All (λ script. pool_number script.0 < 2 ^ 32) scripts.now }
    requires reserves { All (λ reserve. pool_number reserve.0 < 2 ^ 32) reserves.now }
    requires no_other { (number : ℕ) → has_pool routes.now number ≡ false → script_at scripts.now number ≡ only_tail true }
    requires places { length routes.now.places ≡ 8 }
    ensures { IfOk result (AreOpened routes.now scripts.now reserves.now (tally_of tally)) }
{
    tally.known();
    let mut index = ObjectIndex {
        bios: [0; 66],
        records: [0; 66],
        lists: [0; 32],
        disks: [0; 32],
        books: [0; 8],
    };
    let bios = open_sets(alloc, stack, routes, scripts, reserves, &mut index.bios)?;
    let vecs = open_pool(alloc, PoolId::FsVecs, stack.fs_vecs, scripts, reserves)?;
    let records = open_records(alloc, stack, routes, scripts, reserves, &mut index.records)?;
    let lists = open_lists(alloc, stack, routes, &mut index.lists)?;
    let disks = open_disks(alloc, stack, routes, &mut index.disks)?;
    let books = open_books(alloc, routes, &mut index.books)?;
    Ok(Plain {
        bios,
        vecs,
        records,
        lists,
        disks,
        books,
        tally,
        index,
        stage: Snapshot::of(routes),
    })
}
