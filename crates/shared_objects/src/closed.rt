//! What is left of shared objects.
ghost use Rattle.std.specs.Prelude.{◌≡◌};

use crate::noted::Noted;
use crate::seats::TaskSeats;
use bio_records::{BioBody, Pad, Slip, Vector};
use object_things::{BookThing, DiskThing, ListThing, PoolThing, TallyThing};
use seat_lock::Shut;
use stack_base::{DevId, SetId};
use std::snapshot::Snapshot;
use task_core::{Ended, Opened, Task};
use tick_clock::Pass;

/// A task that was put back.
#[derive(Drop)]
pub struct ClosedTask {
    pub task: Task,
    /// The task as it was opened.
    pub first: Snapshot<Task>,
    /// Its seats as they were before they were joined into the first ones. What they have seen is its own calls, among those of others.
    pub seats: Snapshot<TaskSeats>,
    // How many events it has had; 2^64 - 1 where there are more.
    pub(crate) events: u64,
}

impl ClosedTask {
    /// How many events it has had; 2^64 - 1 where there are more.
    pub fn events(&self) -> u64
        ensures { result ≡ self.now.events }
    {
        self.events
    }
}

/// What is left of each object: the thing as all calls have left it, and the first seat, which has seen its whole history.
pub struct Closed {
    /// The pools of bios, of the writers' set first and then of devices.
    pub bios: Vec<(SetId, Shut<PoolThing<BioBody<Pad>>>)>,
    /// The pool of the writers' vectors.
    pub vecs: Shut<PoolThing<Vector>>,
    /// The pools of the records of mirrors.
    pub records: Vec<(DevId, Shut<PoolThing<Slip>>)>,
    /// The lists of the bios that waited for rescuers.
    pub lists: Vec<(DevId, Shut<ListThing>)>,
    /// The disks, in the order of devices.
    pub disks: Vec<Shut<DiskThing>>,
    /// The books of writers.
    pub books: Vec<(u32, Shut<BookThing>)>,
    /// The rounds: how many writes of each are left, and how each write that is done ended.
    pub tally: Shut<TallyThing>,
    /// What was shared. It has no bytes here.
    pub told: Snapshot<Opened>,
    pub(crate) tasks: Vec<ClosedTask>,
    // What each task noted, in their order, where there is a trace.
    pub(crate) trace: Option<Vec<Noted>>,
    // The first pass of the clock, into which all others were joined.
    pub(crate) pass: Snapshot<Pass>,
    pub(crate) room: Ended,
}

/// What is left of shared objects, each part by itself. A crate above cannot take a `Closed` apart, since some of its fields are of this crate.
#[derive(Drop)]
pub struct ClosedParts {
    pub bios: Vec<(SetId, Shut<PoolThing<BioBody<Pad>>>)>,
    pub vecs: Shut<PoolThing<Vector>>,
    pub records: Vec<(DevId, Shut<PoolThing<Slip>>)>,
    pub lists: Vec<(DevId, Shut<ListThing>)>,
    pub disks: Vec<Shut<DiskThing>>,
    pub books: Vec<(u32, Shut<BookThing>)>,
    pub tally: Shut<TallyThing>,
    pub told: Snapshot<Opened>,
    /// The tasks, in their order.
    pub tasks: Vec<ClosedTask>,
    /// What each of them noted of its events, in the same order, where there is a trace.
    pub trace: Option<Vec<Noted>>,
    /// The first pass of the clock, into which all others were joined.
    pub pass: Snapshot<Pass>,
    /// Room for what the run leaves.
    pub room: Ended,
}

// By hand, as that of `Shared`.
impl Drop for Closed {
    fn drop(self) {
        let Closed {
            bios,
            vecs,
            records,
            lists,
            disks,
            books,
            tally,
            told,
            tasks,
            trace,
            pass,
            room,
        } = self;
        drop(bios);
        drop(vecs);
        drop(records);
        drop(disks);
        drop(tally);
        drop(trace);
        drop(room);
        drop_rest(lists, books, told, tasks, pass);
    }
}

/// Drops what a merge has no use for. In a crate above this would be dear to prove.
pub fn drop_rest(
    lists: Vec<(DevId, Shut<ListThing>)>,
    books: Vec<(u32, Shut<BookThing>)>,
    told: Snapshot<Opened>,
    tasks: Vec<ClosedTask>,
    pass: Snapshot<Pass>,
) {
    drop(lists);
    drop(books);
    drop(told);
    drop(tasks);
    drop(pass);
}

impl Closed {
    ghost use Rattle.shared_objects.specs.Parted.{ArePartsOf};

    /// Each part by itself.
    pub fn parts(self) -> ClosedParts
        ensures { ArePartsOf self result }
    {
        let Closed {
            bios,
            vecs,
            records,
            lists,
            disks,
            books,
            tally,
            told,
            tasks,
            trace,
            pass,
            room,
        } = self;
        ClosedParts {
            bios,
            vecs,
            records,
            lists,
            disks,
            books,
            tally,
            told,
            tasks,
            trace,
            pass,
            room,
        }
    }
}

/// Room for what is left of shared objects, reserved as they are shared.
#[derive(Drop)]
pub(crate) struct Room {
    pub(crate) bios: Vec<(SetId, Shut<PoolThing<BioBody<Pad>>>)>,
    pub(crate) records: Vec<(DevId, Shut<PoolThing<Slip>>)>,
    pub(crate) lists: Vec<(DevId, Shut<ListThing>)>,
    pub(crate) disks: Vec<Shut<DiskThing>>,
    pub(crate) books: Vec<(u32, Shut<BookThing>)>,
    pub(crate) tasks: Vec<ClosedTask>,
    // For what the tasks note, where there is a trace.
    pub(crate) trace: Option<Vec<Noted>>,
    pub(crate) ended: Ended,
}
