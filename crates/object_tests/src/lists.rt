//! Lists of bios.
use crate::asks::{Case, all_hold, holds};
use crate::bios::{bio_of_write, element_of, has, list_of, open_bios, write_of};
use bio_records::{BioList, Pad};
use bioset_pools::fill_bio;
use mempool_core::Taken;
use std::process::Abort;

/// A call of a list of bios, and what it answers. Numbers are those of writes.
#[derive(Clone, Copy)]
enum Call {
    Push(u32),
    Pop(Option<u32>),
    /// A list of these bios is merged, each of which was pushed.
    Merge(&'static [u32]),
    /// The same with a list in which bios stand on both sides: the first one was put there before, and popped.
    MergeParted(&'static [u32]),
    /// The place of a bio that is taken out, and its write.
    TakeAt(u64, u32),
    /// How many bios the list has.
    Len(u64),
}

/// Calls of an empty list, and the writes whose bios it has behind them.
struct Calls(&'static [Call], &'static [u32]);

const CASES: &[Calls] = &[
    Calls(&[Call::Len(0), Call::Pop(None)], &[]),
    Calls(
        &[
            Call::Push(3),
            Call::Push(1),
            Call::Push(4),
            Call::Len(3),
            Call::Pop(Some(3)),
            Call::Push(5),
        ],
        &[1, 4, 5],
    ),
    // A list that is merged stands behind.
    Calls(&[Call::Merge(&[]), Call::Merge(&[])], &[]),
    Calls(&[Call::Merge(&[]), Call::Merge(&[1, 2])], &[1, 2]),
    Calls(&[Call::Merge(&[1, 2]), Call::Merge(&[])], &[1, 2]),
    Calls(&[Call::Merge(&[1, 2]), Call::Merge(&[3, 4])], &[1, 2, 3, 4]),
    Calls(
        &[Call::Merge(&[1]), Call::Merge(&[2, 3, 4, 5])],
        &[1, 2, 3, 4, 5],
    ),
    Calls(
        &[Call::Merge(&[1, 2, 3, 4]), Call::Merge(&[5])],
        &[1, 2, 3, 4, 5],
    ),
    Calls(&[Call::MergeParted(&[]), Call::MergeParted(&[])], &[]),
    Calls(
        &[Call::MergeParted(&[]), Call::MergeParted(&[1, 2])],
        &[1, 2],
    ),
    Calls(
        &[Call::MergeParted(&[1, 2]), Call::MergeParted(&[])],
        &[1, 2],
    ),
    Calls(
        &[Call::MergeParted(&[1, 2]), Call::MergeParted(&[3, 4])],
        &[1, 2, 3, 4],
    ),
    Calls(
        &[Call::MergeParted(&[1]), Call::MergeParted(&[2, 3, 4, 5])],
        &[1, 2, 3, 4, 5],
    ),
    Calls(
        &[Call::MergeParted(&[1, 2, 3, 4]), Call::MergeParted(&[5])],
        &[1, 2, 3, 4, 5],
    ),
    // A bio is taken out at any place.
    Calls(
        &[Call::MergeParted(&[1, 2, 3, 4, 5]), Call::TakeAt(0, 1)],
        &[2, 3, 4, 5],
    ),
    Calls(
        &[Call::MergeParted(&[1, 2, 3, 4, 5]), Call::TakeAt(1, 2)],
        &[1, 3, 4, 5],
    ),
    Calls(
        &[Call::MergeParted(&[1, 2, 3, 4, 5]), Call::TakeAt(2, 3)],
        &[1, 2, 4, 5],
    ),
    Calls(
        &[Call::MergeParted(&[1, 2, 3, 4, 5]), Call::TakeAt(4, 5)],
        &[1, 2, 3, 4],
    ),
];

// The list of these bios, with its bios on both sides: the first one was put there before, and popped.
fn parted(rt: &(impl Abort + AllocGlobal), writes: &[u32]) -> BioList {
    let (behind, before) = writes.split_at(writes.len() / 2);
    let mut list = list_of(rt, &[0]);
    list.merge(list_of(rt, behind));
    drop(list.pop());
    list.merge(list_of(rt, before));
    list
}

// Whether the bio at a place of a list is that of this write. It is taken out.
fn takes(list: &mut BioList, index: u64, write: u32) -> bool {
    index < list.len() && list.take_at(index).body.bio.write == write
}

// Makes a call of a list: whether it answers as it says.
fn make(rt: &(impl Abort + AllocGlobal), list: &mut BioList, call: Call) -> bool {
    match call {
        Call::Push(write) => list.push(element_of(rt, bio_of_write(write))),
        Call::Pop(write) => return write_of(list.pop()) == write,
        Call::Merge(writes) => list.merge(list_of(rt, writes)),
        Call::MergeParted(writes) => list.merge(parted(rt, writes)),
        Call::TakeAt(index, write) => return takes(list, index, write),
        Call::Len(len) => return list.len() == len && list.is_empty() == (len == 0),
    }
    true
}

// Makes calls of a list: whether they answer as they say.
fn make_all(rt: &(impl Abort + AllocGlobal), list: &mut BioList, calls: &[Call]) -> bool {
    for call in calls {
        if !make(rt, list, *call) {
            return false;
        }
    }
    true
}

impl Case for Calls {
    // Whether bios leave a list in the order in which they came.
    fn holds(&self, rt: &(impl Abort + AllocGlobal)) -> bool {
        let mut list = BioList::new();
        let do_answer = make_all(rt, &mut list, self.0);
        has(list, self.1) && do_answer
    }
}

/// So many bios that one drop inside the other, for each of them, would want more stack than there is.
const MANY: u32 = 1_000_000;

// Many bios in one list, in which none was popped.
fn many(rt: &(impl Abort + AllocGlobal)) -> BioList {
    let mut pool = open_bios(rt);
    let mut list = BioList::new();
    for write in 0..MANY {
        if let Taken::Ordinary(mut element) | Taken::Spare(mut element) = pool.take() {
            fill_bio(&mut element, bio_of_write(write), Pad { leg: 0 });
            list.push(element);
        }
    }
    list
}

// Takes bios from the front of a long list and out of its midst: whether they are those.
fn turns_round(list: &mut BioList) -> bool {
    list.len() == u64::from(MANY)
        && write_of(list.pop()) == Some(0)
        && takes(list, 900_000, 900_001)
        && write_of(list.pop()) == Some(1)
        && list.len() == 999_997
}

#[test]
fn lists_keep_the_order_of_their_bios(rt: HostRuntime) {
    all_hold(&rt, CASES);
}

#[test]
fn a_long_list_is_dropped_as_it_was_pushed(rt: HostRuntime) {
    drop(many(&rt));
}

#[test]
fn a_long_list_is_dropped_turned_round(rt: HostRuntime) {
    let mut list = many(&rt);
    holds(&rt, turns_round(&mut list), "a long list");
}
