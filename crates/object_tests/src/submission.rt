//! The order in which a task serves what its drivers submit, and bios that are split.
ghost use Rattle.bio_records.specs.Items.{IsAlone};

use crate::asks::{Case, all_hold, holds};
use crate::bios::{bio_of, bio_of_write, element_of, write_of};
use crate::punts::PUNTS;
use bio_lists::{SubmissionLists, TaskLists, Waits};
use bio_records::{Bio, BioElement, Iter};
use bio_split::split;
use stack_base::{DevId, Range, SetId};
use std::process::Abort;

// The bio of a write of this number, for this device.
fn bio_for(rt: &(impl Abort + AllocGlobal), write: u32, dev: u32) -> BioElement
    ensures { IsAlone result }
{
    element_of(
        rt,
        Bio {
            dev: DevId(dev),
            ..bio_of_write(write)
        },
    )
}

/// A step of a task, by writes and devices.
#[derive(Clone, Copy)]
enum Step {
    /// Bios of the writes from this one on are submitted, for these devices.
    Submits(u32, &'static [u32]),
    /// The driver of this device has returned, and the bios of these writes are served next, one after the other.
    Serves(u32, &'static [u32]),
    /// No bio is left, for the driver of this device.
    Rests(u32),
}

/// The writes whose bios wait at first, and the steps of the task.
struct Steps(&'static [u32], &'static [Step]);

const CASES: &[Steps] = &[
    // Lower devices are served first, and then what was submitted for the same one.
    Steps(&[], &[Step::Submits(0, &[]), Step::Rests(1)]),
    Steps(
        &[],
        &[
            Step::Submits(0, &[0]),
            Step::Serves(1, &[0]),
            Step::Rests(1),
        ],
    ),
    Steps(
        &[],
        &[
            Step::Submits(0, &[1]),
            Step::Serves(1, &[0]),
            Step::Rests(1),
        ],
    ),
    Steps(&[10, 11], &[Step::Serves(1, &[10, 11]), Step::Rests(1)]),
    Steps(
        &[],
        &[
            Step::Submits(0, &[1, 0]),
            Step::Serves(1, &[1, 0]),
            Step::Rests(1),
        ],
    ),
    Steps(
        &[10],
        &[
            Step::Submits(0, &[0, 1]),
            Step::Serves(1, &[0, 1, 10]),
            Step::Rests(1),
        ],
    ),
    Steps(
        &[10, 11],
        &[
            Step::Submits(0, &[1, 0, 1, 2]),
            Step::Serves(1, &[1, 3, 0, 2, 10, 11]),
            Step::Rests(1),
        ],
    ),
    Steps(
        &[10],
        &[
            Step::Submits(0, &[0, 0, 0]),
            Step::Serves(1, &[0, 1, 2, 10]),
            Step::Rests(1),
        ],
    ),
    Steps(
        &[10],
        &[
            Step::Submits(0, &[1, 1, 1]),
            Step::Serves(1, &[0, 1, 2, 10]),
            Step::Rests(1),
        ],
    ),
    // What waits is served in its order, whatever is submitted later.
    Steps(
        &[],
        &[
            Step::Submits(0, &[0, 1, 1]),
            Step::Serves(1, &[0]),
            Step::Submits(3, &[0, 2]),
            Step::Serves(0, &[4, 3, 1, 2]),
        ],
    ),
];

// Submits bios for these devices, of the writes from the first one on.
fn submit(
    rt: &(impl Abort + AllocGlobal),
    lists: &mut TaskLists,
    first: u32,
    devices: &[u32],
) -> () {
    let mut write = first;
    for dev in devices {
        lists.submit(bio_for(rt, write, *dev));
        write = write.wrapping_add(1);
    }
}

// Whether the bios of these writes are served next, the first one when the driver of this device has returned.
fn serves(lists: &mut TaskLists, served: u32, writes: &[u32]) -> bool {
    for write in writes {
        if write_of(lists.next(DevId(served))) != Some(*write) {
            return false;
        }
    }
    true
}

// Takes a step of a task: whether it goes as it says.
fn goes(rt: &(impl Abort + AllocGlobal), lists: &mut TaskLists, step: Step) -> bool {
    match step {
        Step::Submits(first, devices) => {
            submit(rt, lists, first, devices);
            true
        }
        Step::Serves(served, writes) => serves(lists, served, writes),
        Step::Rests(served) => write_of(lists.next(DevId(served))).is_none() && !lists.busy(),
    }
}

// Takes the steps of a task: whether they go as they say.
fn go(rt: &(impl Abort + AllocGlobal), lists: &mut TaskLists, steps: &[Step]) -> bool {
    for step in steps {
        if !goes(rt, lists, *step) {
            return false;
        }
    }
    true
}

// Has bios of these writes wait for a task.
fn wait(rt: &(impl Abort + AllocGlobal), lists: &mut TaskLists, writes: &[u32]) {
    for write in writes {
        lists.list1.push(bio_for(rt, *write, 3));
    }
}

impl Case for Steps {
    // Whether bios are served in the order of a task.
    fn holds(&self, rt: &(impl Abort + AllocGlobal)) -> bool {
        let mut lists = TaskLists::new();
        wait(rt, &mut lists, self.0);
        go(rt, &mut lists, self.1)
    }
}

// Whether a bio is split into its front and the rest.
fn splits(rt: &(impl Abort + AllocGlobal)) -> bool {
    let whole = bio_of(7, Range { start: 10, len: 20 }, 5);
    let mut bio = element_of(rt, whole);
    let into = element_of(rt, bio_of_write(0));
    let first = split(&mut bio, 11, into, SetId::Of(DevId(2)), 6);
    let front = Bio {
        range: Range { start: 10, len: 11 },
        set: SetId::Of(DevId(2)),
        node: 6,
        ..whole
    };
    let rest = Bio {
        range: Range { start: 21, len: 9 },
        word: 709,
        at: Iter {
            segment: 1,
            done: 3,
        },
        ..whole
    };
    (first.body.bio, bio.body.bio, first.body.pad.leg) == (front, rest, 0)
}

#[test]
fn bios_are_served_punted_and_split(rt: HostRuntime) {
    all_hold(&rt, CASES);
    all_hold(&rt, PUNTS);
    holds(&rt, splits(&rt), "a bio is split");
}
