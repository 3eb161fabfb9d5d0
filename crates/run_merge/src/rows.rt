//! Rows of pools that were closed.
ghost use Rattle.std.specs.Prelude.{◌≡◌, ◌+◌, ◌<◌, ◌≤◌, ◌↔◌, IsTrue, length, vec_capacity};
ghost use Rattle.stack_base.specs.declared.ids.PoolId.TheVariants.{Bios, Records};
ghost use Rattle.stack_base.specs.declared.ids.SetId.TheVariants.{Of};
ghost use Rattle.run_merge.specs.Falling.{AddsFalling, MovesIf, MovesLast, facts_left};

use bio_records::{BioBody, Pad, Slip};
use elem_ledger::Fresh;
use mempool_core::Facts;
use object_things::PoolThing;
use seat_lock::Shut;
use stack_base::{DevId, PoolId, SetId};

/// The facts of a pool, of which nothing else is kept.
pub(crate) fn facts_of<P: Fresh + Drop>(shut: Shut<PoolThing<P>>) -> Facts
    ensures { result ≡ facts_left shut }
{
    let (pool, _) = shut.thing.parts();
    pool.facts()
}

// The last of a row, which has one, leaves it, and its facts stand behind others.
fn add_last<K: Copy + Drop, P: Fresh + Drop>(
    pool: PoolId,
    row: &mut Vec<(K, Shut<PoolThing<P>>)>,
    pools: &mut Vec<(PoolId, Facts)>,
)
    requires some { 0 < length row.old.items }
    requires room { length pools.old.items < vec_capacity pools.old }
    ensures moved { MovesLast facts_left pool row.old.items pools.old.items row.new.items pools.new.items }
    ensures room { vec_capacity pools.old ≤ vec_capacity pools.new }
{
    let Some((_, shut)) = row.pop() else {
        unreachable!()
    };
    pools.push((pool, facts_of(shut))).unwrap();
}

// Whether a set is that of this device.
fn is_of(set: SetId, dev: DevId) -> bool
    ensures { IsTrue result ↔ (set ≡ Of dev) }
{
    match set {
        SetId::Fs => false,
        SetId::Of(other) => other == dev,
    }
}

// The pool of bios of a device, where it is the last of its row.
fn add_bios(
    dev: DevId,
    bios: &mut Vec<(SetId, Shut<PoolThing<BioBody<Pad>>>)>,
    pools: &mut Vec<(PoolId, Facts)>,
)
    requires room { length pools.old.items + length bios.old.items ≤ vec_capacity pools.old }
    ensures moved { MovesIf facts_left (Of dev) (Bios dev) bios.old.items pools.old.items bios.new.items pools.new.items }
    ensures room { vec_capacity pools.old ≤ vec_capacity pools.new }
{
    let Some(last) = bios.last() else {
        return;
    };
    if is_of(last.0, dev) {
        add_last(PoolId::Bios(dev), bios, pools);
    }
}

// The pool of records of a device, where it is the last of its row.
fn add_records(
    dev: DevId,
    records: &mut Vec<(DevId, Shut<PoolThing<Slip>>)>,
    pools: &mut Vec<(PoolId, Facts)>,
)
    requires room { length pools.old.items + length records.old.items ≤ vec_capacity pools.old }
    ensures moved { MovesIf facts_left dev (Records dev) records.old.items pools.old.items records.new.items pools.new.items }
    ensures room { vec_capacity pools.old ≤ vec_capacity pools.new }
{
    let Some(last) = records.last() else {
        return;
    };
    if last.0 == dev {
        add_last(PoolId::Records(dev), records, pools);
    }
}

/// Adds the facts of the pools of devices by falling number, from rows in the order of the devices. A stack has at most 32 of these.
pub(crate) fn add_falling(
    mut bios: Vec<(SetId, Shut<PoolThing<BioBody<Pad>>>)>,
    mut records: Vec<(DevId, Shut<PoolThing<Slip>>)>,
    pools: &mut Vec<(PoolId, Facts)>,
)
    requires room { length pools.old.items + (length bios.items + length records.items) ≤ vec_capacity pools.old }
    ensures { AddsFalling facts_left facts_left bios.items records.items pools.old.items pools.new.items }
{
    'adding: for number in (0..32).rev() {
        let dev = DevId(number);
        add_records(dev, &mut records, pools);
        add_bios(dev, &mut bios, pools);
    }
}
