//! What `sync` and `resize` lines mean, worked out by hand from the rules.
use crate::asks::{Case, all_hold};
use crate::scenes::scene_of;
use stack_base::PoolId;
use std::process::Abort;
use work_text::Resize;

/// A text, the rounds of its writes, its `resize` lines that are kept as round, pool and number, and what it counts beside elements.
struct Rounds(
    &'static str,
    &'static [u32],
    &'static [(u32, PoolId, u32)],
    u64,
);

const MEANINGS: &[Rounds] = &[
    Rounds(
        "disk a 8\nwrite 0 a 0 2 0\nsync\nwrite 1 a 1 2 1000\n",
        &[0, 1],
        &[],
        1,
    ),
    Rounds("disk a 8\nwrite 0 a 0 1 0\nsync\n", &[0], &[], 0),
    Rounds("disk a 8\nsync\nsync\n", &[], &[], 0),
    Rounds("sync\nresize fs.bios 7\n", &[], &[], 0),
    // Empty rounds count.
    Rounds("disk a 8\nsync\nsync\nwrite 0 a 0 1 0\n", &[2], &[], 2),
    Rounds(
        "disk a 8\nwrite 0 a 0 1 0\nsync\nresize fs.bios 1024\nresize fs.vecs 1\nwrite 0 a 0 1 0\nsync\nresize fs.bios 3\n",
        &[0, 1],
        &[(1, PoolId::FsBios, 1024), (1, PoolId::FsVecs, 1)],
        3,
    ),
    Rounds(
        "disk a 8\nscript fs.bios +- +\nsync\nresize fs.bios 5\nsync\nresize fs.bios 6\nwrite 0 a 0 1 0\n",
        &[2],
        &[(1, PoolId::FsBios, 5), (2, PoolId::FsBios, 6)],
        6,
    ),
];

// Whether these `resize` lines are kept.
fn are_kept(found: &[Resize], told: &[(u32, PoolId, u32)]) -> bool {
    for (resize, told) in found.iter().zip(told) {
        if (resize.round, resize.pool, resize.min) != *told {
            return false;
        }
    }
    found.len() == told.len()
}

impl Case for Rounds {
    fn holds(&self, rt: &(impl Abort + AllocGlobal)) -> bool {
        let work = scene_of(rt, self.0).work;
        work.rounds.as_slice() == self.1
            && are_kept(&work.resizes, self.2)
            && work.bound.z == self.3
    }
}

#[test]
fn rounds_and_reserves_are_read(rt: HostRuntime) {
    all_hold(&rt, MEANINGS);
}
