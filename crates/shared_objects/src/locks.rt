//! The locks of the objects of a run.
ghost use Rattle.std.specs.Prelude.{◌≡◌};
ghost use Rattle.shared_objects.specs.Holding.{DeskHolds};

use crate::desk::Desk;
use crate::seats::TaskSeats;
use bio_records::{BioBody, Pad, Slip, Vector};
use object_things::{BookThing, Common, DiskThing, ListThing, PoolThing, TallyThing};
use seat_lock::SeatLock;
use stack_base::{DevId, SetId};
use std::alloc::Global;
use std::sync::{Arc, Wait};
use task_core::ObjectIndex;

/// The locks of the objects of a run, one round each. Threads share them by reference: what only one thread may have at a time, as seats, stands
/// beside them.
#[derive(Drop)]
pub struct Locks {
    /// What all objects have in common.
    pub common: Arc<Common, Global>,
    /// Where each object stands among those of its kind, as it did before it came behind a lock.
    pub index: ObjectIndex,
    /// The pools of bios, of the writers' set first and then of devices.
    pub bios: Vec<(SetId, SeatLock<PoolThing<BioBody<Pad>>>)>,
    /// The pool of the writers' vectors.
    pub vecs: SeatLock<PoolThing<Vector>>,
    /// The pools of the records of mirrors.
    pub records: Vec<(DevId, SeatLock<PoolThing<Slip>>)>,
    /// The lists of the bios that wait for rescuers.
    pub lists: Vec<(DevId, SeatLock<ListThing>)>,
    /// The disks, in the order of devices.
    pub disks: Vec<(DevId, SeatLock<DiskThing>)>,
    /// The books of writers.
    pub books: Vec<(u32, SeatLock<BookThing>)>,
    /// The rounds: how many writes of each are left, and how each write that is done ended.
    pub tally: SeatLock<TallyThing>,
    /// Whether each task is to note its events.
    pub trace: bool,
}

impl Locks {
    /// The desk of the task that has these seats of the locks. It is made of the locks, since these are what threads share.
    pub fn desk<'a, R: Wait>(&'a self, rt: &'a R, seats: TaskSeats) -> Desk<'a, R>
        requires { DeskHolds self.now seats }
        ensures { (result.locks.now ≡ self.now) × (result.seats ≡ seats) }
    {
        Desk::new(rt, self, seats)
    }
}
