//! Bios that a task hands to a rescuer: those of one set, out of both of its lists.
use crate::asks::Case;
use crate::bios::{bio_of_write, element_of, has};
use bio_lists::{SubmissionLists, TaskLists};
use bio_records::{Bio, BioList};
use stack_base::{DevId, SetId};
use std::process::Abort;

// The set of this number: the writers', or that of a device.
fn set_of(number: u32) -> SetId {
    match number {
        0 => SetId::Fs,
        _ => SetId::Of(DevId(number)),
    }
}

// A list of bios of the sets of these numbers, of writes from the first one on.
fn list_by_sets(rt: &(impl Abort + AllocGlobal), first: u32, sets: &[u32]) -> BioList {
    let mut list = BioList::new();
    let mut write = first;
    for number in sets {
        let bio = Bio {
            set: set_of(*number),
            ..bio_of_write(write)
        };
        list.push(element_of(rt, bio));
        write = write.wrapping_add(1);
    }
    list
}

/// The sets of the bios of writes 0 and up in list 0, and of writes 10 and up in list 1; the set that is punted; the writes whose bios are
/// moved, and those of the bios that wait on in each list.
pub(crate) struct Punt {
    zero: &'static [u32],
    one: &'static [u32],
    set: u32,
    moved: &'static [u32],
    left0: &'static [u32],
    left1: &'static [u32],
}

pub(crate) const PUNTS: &[Punt] = &[
    Punt {
        zero: &[],
        one: &[],
        set: 2,
        moved: &[],
        left0: &[],
        left1: &[],
    },
    Punt {
        zero: &[1, 3],
        one: &[1],
        set: 2,
        moved: &[],
        left0: &[0, 1],
        left1: &[10],
    },
    Punt {
        zero: &[2, 2],
        one: &[2],
        set: 2,
        moved: &[0, 1, 10],
        left0: &[],
        left1: &[],
    },
    Punt {
        zero: &[2, 1, 2, 3],
        one: &[3, 2, 1, 2],
        set: 2,
        moved: &[0, 2, 11, 13],
        left0: &[1, 3],
        left1: &[10, 12],
    },
    Punt {
        zero: &[],
        one: &[2, 0],
        set: 2,
        moved: &[10],
        left0: &[],
        left1: &[11],
    },
    Punt {
        zero: &[0, 2, 0],
        one: &[2, 0],
        set: 0,
        moved: &[0, 2, 11],
        left0: &[1],
        left1: &[10],
    },
];

impl Case for Punt {
    // Whether a punt moves the bios of its set, and leaves the others.
    fn holds(&self, rt: &(impl Abort + AllocGlobal)) -> bool {
        let mut lists = TaskLists {
            list0: list_by_sets(rt, 0, self.zero),
            list1: list_by_sets(rt, 10, self.one),
        };
        let are_moved = has(lists.punt(set_of(self.set)), self.moved);
        let are_left = has(lists.list0, self.left0) & has(lists.list1, self.left1);
        are_moved && are_left
    }
}
