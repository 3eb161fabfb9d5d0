//! What closed objects leave.
ghost use Rattle.std.specs.Prelude.{◌≡◌, ◌+◌, ◌-◌, ◌^◌, ◌<◌, ◌≤◌, ◌++◌, ◌∷◌, [], length, map, min, sum_by, vec_capacity};
ghost use Rattle.run_merge.specs.Falling.{AreAllFalling, facts_left};

use crate::rows::{add_falling, facts_of};
use bio_records::{BioBody, Pad, Slip, Vector};
use mempool_core::Facts;
use model_disks::Disk;
use object_things::{DiskThing, PoolThing, TallyThing};
use seat_lock::Shut;
use shared_objects::ClosedTask;
use stack_base::{DevId, PoolId, SetId, Status};

/// How many events these tasks had together; 2^64 - 1 where there are more.
pub(crate) fn events_of(tasks: &[ClosedTask]) -> u64
    ensures { result ≡ min (sum_by (λ task. task.events) tasks.now) (2 ^ 64 - 1) }
{
    let mut sum = 0u64;
    'adding: for place in 0..tasks.len() {
        sum = sum.saturating_add(tasks[place].events());
    }
    sum
}

/// How the writes ended.
pub(crate) fn statuses_of(tally: Shut<TallyThing>) -> Vec<Status>
    ensures { result.items ≡ tally.thing.object.statuses }
{
    let (tally, _) = tally.thing.parts();
    tally.statuses
}

// Adds a disk, for which there is room.
fn add_disk(shut: Shut<DiskThing>, disks: &mut Vec<Disk>)
    requires room { length disks.old.items < vec_capacity disks.old }
    ensures added { disks.new.items ≡ disks.old.items ++ shut.thing.object ∷ [] }
    ensures room { vec_capacity disks.old ≤ vec_capacity disks.new }
{
    let (disk, _) = shut.thing.parts();
    disks.push(disk).unwrap();
}

/// The disks, in their order, in a list that has room for them.
pub(crate) fn disks_of(shut: Vec<Shut<DiskThing>>, room: Vec<Disk>) -> Vec<Disk>
    requires none { room.items ≡ [] }
    requires room { length shut.items ≤ vec_capacity room }
    ensures { result.items ≡ map (λ disk. disk.thing.object) shut.items }
{
    let mut disks = room;
    'adding: for disk in shut {
        add_disk(disk, &mut disks);
    }
    disks
}

/// The facts of all pools by falling number, in a list that has room for them: those of the writers, whose bios are the first of their row, and
/// those of devices.
pub(crate) fn pools_of(
    mut bios: Vec<(SetId, Shut<PoolThing<BioBody<Pad>>>)>,
    vecs: Shut<PoolThing<Vector>>,
    records: Vec<(DevId, Shut<PoolThing<Slip>>)>,
    room: Vec<(PoolId, Facts)>,
) -> Vec<(PoolId, Facts)>
    requires none { room.items ≡ [] }
    requires some { 0 < length bios.items }
    requires room { length bios.items + length records.items + 1 ≤ vec_capacity room }
    ensures { AreAllFalling facts_left facts_left bios.items (facts_left vecs) records.items result.items }
{
    let mut pools = room;
    let (_, writers) = bios.remove(0);
    pools.push((PoolId::FsBios, facts_of(writers))).unwrap();
    pools.push((PoolId::FsVecs, facts_of(vecs))).unwrap();
    add_falling(bios, records, &mut pools);
    pools
}
