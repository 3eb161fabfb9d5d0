//! The lists of tasks: that of a rescuer, and the two of a task that is busy while one of them has a bio.
use crate::asks::{Case, all_hold};
use crate::bios::{list_of, shows, write_of};
use bio_lists::Waits;
use bio_records::{RescueList, TaskLists};
use stack_base::DevId;
use std::process::Abort;

/// A call of a rescuer's list, by the writes of bios: those that are added, the next one, or all that wait, in their order.
#[derive(Clone, Copy)]
enum Rescue {
    Add(&'static [u32]),
    Pop(Option<u32>),
    Waits(&'static [u32]),
}

/// The calls of a rescuer's list.
struct Rescues(&'static [Rescue]);

const RESCUES: &[Rescues] = &[
    Rescues(&[
        Rescue::Pop(None),
        Rescue::Add(&[1, 2]),
        Rescue::Add(&[]),
        Rescue::Pop(Some(1)),
        Rescue::Add(&[3, 4, 5]),
        Rescue::Pop(Some(2)),
        Rescue::Pop(Some(3)),
        Rescue::Pop(Some(4)),
        Rescue::Pop(Some(5)),
        Rescue::Pop(None),
    ]),
    Rescues(&[
        Rescue::Waits(&[]),
        Rescue::Add(&[1, 2, 3]),
        Rescue::Pop(Some(1)),
        Rescue::Add(&[4, 5]),
        Rescue::Waits(&[2, 3, 4, 5]),
    ]),
];

// Makes a call of a rescuer's list: whether it answers as it says.
fn answers(rt: &(impl Abort + AllocGlobal), waiting: &mut RescueList, call: Rescue) -> bool {
    match call {
        Rescue::Add(writes) => waiting.add(list_of(rt, writes)),
        Rescue::Pop(write) => return write_of(waiting.pop()) == write,
        Rescue::Waits(writes) => {
            return waiting.len() == writes.len() as u64
                && waiting.is_empty() == writes.is_empty()
                && shows(waiting.walk(), writes);
        }
    }
    true
}

// Makes calls of a rescuer's list: whether they answer as they say.
fn answer_all(rt: &(impl Abort + AllocGlobal), waiting: &mut RescueList, calls: &[Rescue]) -> bool {
    for call in calls {
        if !answers(rt, waiting, *call) {
            return false;
        }
    }
    waiting.dev() == DevId(3)
}

impl Case for Rescues {
    // Whether a rescuer's list keeps the order and shows it.
    fn holds(&self, rt: &(impl Abort + AllocGlobal)) -> bool {
        answer_all(rt, &mut RescueList::new(DevId(3)), self.0)
    }
}

/// The writes of a task's two lists, and whether the task is busy before and after each list was popped once.
struct Busy(&'static [u32], &'static [u32], bool, bool);

const BUSY: &[Busy] = &[
    Busy(&[], &[], false, false),
    Busy(&[1], &[], true, false),
    Busy(&[], &[2], true, false),
    Busy(&[1], &[2], true, false),
    Busy(&[1, 3], &[2], true, true),
    Busy(&[1], &[2, 4], true, true),
];

/// A task's lists, with the bios of these writes.
pub fn lists_with(rt: &(impl Abort + AllocGlobal), zero: &[u32], one: &[u32]) -> TaskLists {
    TaskLists {
        list0: list_of(rt, zero),
        list1: list_of(rt, one),
    }
}

impl Case for Busy {
    fn holds(&self, rt: &(impl Abort + AllocGlobal)) -> bool {
        let mut lists = lists_with(rt, self.0, self.1);
        let before = lists.busy();
        drop(lists.list0.pop());
        drop(lists.list1.pop());
        (before, lists.busy()) == (self.2, self.3)
    }
}

#[test]
fn lists_of_tasks_keep_the_order_of_their_bios(rt: HostRuntime) {
    all_hold(&rt, RESCUES);
    // A task is busy while one of its lists has a bio.
    all_hold(&rt, BUSY);
}
