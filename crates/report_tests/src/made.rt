//! A stack and what a run over it has left, made by hand.
ghost use Rattle.std.specs.Prelude.{◌≡◌, IfOk};
ghost use Rattle.bio_records.specs.Items.{IsAlone, item_of};
ghost use Rattle.report_text.specs.Views.{IsEndedOfStack};

use arrayvec::{ArrayString, ArrayVec};
use bio_records::{Bio, BioBody, BioElement, Iter, Pad};
use bioset_pools::fill_bio;
use fail_script::Script;
use mempool_core::{Facts, Pool, Taken};
use model_disks::Disk;
use stack_base::{Bad, DevId, Device, Kind, PoolId, Range, SetId, Stack, Status};
use std::process::Abort;
use std::test::Fail;
use task_core::Ended;

// A bio of a write to this run of a disk, whose data begin with this word.
fn bio_of(range: Range, word: u64) -> Bio
    ensures { result.range ≡ range }
{
    Bio {
        write: 0,
        writer: 0,
        node: 0,
        dev: DevId(0),
        range,
        word,
        at: Iter {
            segment: 0,
            done: 0,
        },
        set: SetId::Fs,
    }
}

// An element of the pool that holds this bio.
fn take(pool: &mut Pool<BioBody<Pad>>, bio: Bio) -> Result<BioElement, Fail>
    ensures bio { IfOk result (λ element. (item_of element).bio ≡ bio) }
    ensures alone { IfOk result IsAlone }
{
    let (Taken::Ordinary(mut element) | Taken::Spare(mut element)) = pool.take() else {
        return Err(Fail::from("no bio"));
    };
    fill_bio(&mut element, bio, Pad { leg: 0 });
    Ok(element)
}

// The bio that waits longest in the disk is done.
fn complete(rt: &impl Abort, disk: &mut Disk)
    ensures { disk.new.dev ≡ disk.old.dev }
{
    assert!(rt; disk.pending() > 0);
    let _done = disk.complete(0);
}

// A disk of 16 sectors of which sectors 1 and 2 hold the words from 5 on, and sector 5 those from 0 on.
fn written_disk(rt: &(impl Abort + AllocGlobal)) -> Result<Disk, Fail>
    ensures { IfOk result (λ disk. disk.dev ≡ record { 0 = 0 }) }
{
    let alloc = rt.alloc();
    let mut pool = Pool::open(alloc, 65, 2, Script::new(Vec::new(alloc), true))?;
    let mut disk = Disk::open(alloc, DevId(0), 16, &[])?;
    disk.push(take(&mut pool, bio_of(Range { start: 1, len: 2 }, 5))?);
    disk.push(take(&mut pool, bio_of(Range { start: 5, len: 1 }, 0))?);
    complete(rt, &mut disk);
    complete(rt, &mut disk);
    Ok(disk)
}

fn device(name: &str, kind: Kind) -> Result<Device, Fail>
    ensures { IfOk result (λ device. device.kind ≡ kind) }
{
    let Ok(name) = ArrayString::from(name) else {
        return Err(Fail::from("a name of more than 16 characters"));
    };
    Ok(Device {
        name,
        kind,
        members: ArrayVec::new(),
        reserve: 2,
        rescuer: true,
    })
}

// The sizes of four devices of 16 sectors.
fn sizes() -> ArrayVec<u64, 32> {
    let mut sizes = ArrayVec::new();
    sizes.push(16);
    sizes.push(16);
    sizes.push(16);
    sizes.push(16);
    sizes
}

// A disk of 16 sectors with these bad ranges.
fn disk(name: &str, bad: Vec<Bad>) -> Result<Device, Fail>
    ensures { IfOk result (λ device. device.kind ≡ Kind.Disk 16 bad) }
{
    device(name, Kind::Disk { sectors: 16, bad })
}

// The facts of a pool of this reserve that served so many takes from ordinary memory and so many with spares.
fn facts(min: u64, ordinary: u64, spare: u64) -> Facts {
    Facts {
        min,
        spares: min,
        out: 0,
        live: 0,
        pos: 0,
        ordinary,
        spare,
    }
}

/// The disks `a` and `b`, the mirror `m` of them and the limit `l` over that, with the disks, the pools and the steps that a run has left, and
/// the statuses of two writes.
pub fn made(rt: &(impl Abort + AllocGlobal)) -> Result<(Stack, Ended), Fail>
    ensures { IfOk result (λ made. IsEndedOfStack made.0 made.1) }
{
    let alloc = rt.alloc();
    let a = disk("a", Vec::new(alloc))?;
    let b = disk("b", Vec::new(alloc))?;
    let m = device("m", Kind::Mirror { records: 7 })?;
    let l = device("l", Kind::Limit { max: 4, chunk: 0 })?;
    let stack = Stack {
        devices: vec![in alloc; a, b, m, l]?,
        sizes: sizes(),
        fs_bios: 2,
        fs_vecs: 5,
    };
    let written = written_disk(rt)?;
    let zeros = Disk::open(alloc, DevId(1), 16, &[])?;
    let disks = vec![in alloc; written, zeros]?;
    let pools = vec![in alloc;
        (PoolId::FsBios, facts(2, 3, 4)),
        (PoolId::FsVecs, facts(5, 0, 6)),
        (PoolId::Bios(DevId(3)), facts(13, 14, 15)),
        (PoolId::Records(DevId(2)), facts(7, 8, 9)),
        (PoolId::Bios(DevId(2)), facts(10, 11, 12)),
    ]?;
    let ended = Ended {
        statuses: vec![in alloc; Status::Ok, Status::Medium]?,
        disks,
        pools,
        steps: 29,
    };
    Ok((stack, ended))
}
