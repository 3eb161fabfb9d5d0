//! What a task has of the locks.
use bio_records::{BioBody, Pad, Slip, Vector};
use object_things::{BookThing, DiskThing, ListThing, PoolThing, TallyThing};
use seat_lock::Seat;
use stack_base::{DevId, SetId};
use tick_clock::Pass;

/// What a task has of the locks: a seat of each, in their order, and a pass of the clock.
#[derive(Drop)]
pub struct TaskSeats {
    // Which task's they are, from 0 on.
    pub(crate) number: u32,
    // The pass, which is away while an object is asked.
    pub(crate) pass: Option<Pass>,
    // Of the pools of bios.
    pub(crate) bios: Vec<(SetId, Seat<PoolThing<BioBody<Pad>>>)>,
    // Of the pool of vectors.
    pub(crate) vecs: Seat<PoolThing<Vector>>,
    // Of the pools of records.
    pub(crate) records: Vec<(DevId, Seat<PoolThing<Slip>>)>,
    // Of the lists of rescuers.
    pub(crate) lists: Vec<(DevId, Seat<ListThing>)>,
    // Of the disks.
    pub(crate) disks: Vec<(DevId, Seat<DiskThing>)>,
    // Of the books.
    pub(crate) books: Vec<(u32, Seat<BookThing>)>,
    // Of the tally.
    pub(crate) tally: Seat<TallyThing>,
}
