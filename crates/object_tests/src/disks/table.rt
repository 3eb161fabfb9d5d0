//! Disks with what is pushed to them, and what is left.
use stack_base::{Bad, Range, Status};

/// The first two runs of written sectors.
pub(super) type Runs = (Option<Range>, Option<Range>);

/// A disk, what is pushed to it, and what it answers.
pub(super) struct Row {
    pub(super) sectors: u64,
    pub(super) bad: Option<Bad>,
    /// The sectors of the bios of writes 0 and up, and their first words.
    pub(super) pushed: &'static [(Range, u64)],
    /// Where a bio waits that is completed, its write, and how it ends.
    pub(super) done: &'static [(u64, u32, Status)],
    /// The sum of all words then.
    pub(super) sum: u64,
    /// The first two runs of written sectors then.
    pub(super) runs: Runs,
}

/// Two sectors of three.
const MEDIUM: Option<Bad> = Some(Bad {
    range: Range { start: 1, len: 2 },
    kind: Status::Medium,
});

/// The last two sectors of eight.
const AT_ITS_END: Option<Bad> = Some(Bad {
    range: Range { start: 6, len: 2 },
    kind: Status::Io,
});

/// The first and the last sector of 1,000.
pub(super) const ENDS: &[(Range, u64)] = &[
    (Range { start: 0, len: 1 }, 1),
    (Range { start: 999, len: 1 }, 5),
];

/// One sector each: 0, 1 and 3.
pub(super) const THREE: &[(Range, u64)] = &[
    (Range { start: 0, len: 1 }, 1),
    (Range { start: 1, len: 1 }, 2),
    (Range { start: 3, len: 1 }, 3),
];

pub(super) const CASES: &[Row] = &[
    // The sum of 5 to 132.
    Row {
        sectors: 8,
        bad: None,
        pushed: &[(Range { start: 3, len: 2 }, 5)],
        done: &[(0, 0, Status::Ok)],
        sum: 8768,
        runs: (Some(Range { start: 3, len: 2 }), None),
    },
    // A bio of no sectors ends well.
    Row {
        sectors: 4,
        bad: MEDIUM,
        pushed: &[(Range { start: 2, len: 0 }, 5)],
        done: &[(0, 0, Status::Ok)],
        sum: 0,
        runs: (None, None),
    },
    // The last sector. The sum of 5 to 68.
    Row {
        sectors: 4,
        bad: None,
        pushed: &[(Range { start: 3, len: 1 }, 5)],
        done: &[(0, 0, Status::Ok)],
        sum: 2336,
        runs: (Some(Range { start: 3, len: 1 }), None),
    },
    // Any order. The sums of 1 to 64, of 2 to 65 and of 3 to 66.
    Row {
        sectors: 4,
        bad: None,
        pushed: THREE,
        done: &[(1, 1, Status::Ok), (1, 2, Status::Ok), (0, 0, Status::Ok)],
        sum: 2080 + 2144 + 2208,
        runs: (
            Some(Range { start: 0, len: 2 }),
            Some(Range { start: 3, len: 1 }),
        ),
    },
    // One that touches a bad range writes nothing.
    Row {
        sectors: 4,
        bad: MEDIUM,
        pushed: THREE,
        done: &[
            (1, 1, Status::Medium),
            (0, 0, Status::Ok),
            (0, 2, Status::Ok),
        ],
        sum: 2080 + 2208,
        runs: (
            Some(Range { start: 0, len: 1 }),
            Some(Range { start: 3, len: 1 }),
        ),
    },
    // A disk with a bad range that no bio touches. The sum of 5 to 132.
    Row {
        sectors: 8,
        bad: AT_ITS_END,
        pushed: &[(Range { start: 3, len: 2 }, 5)],
        done: &[(0, 0, Status::Ok)],
        sum: 8768,
        runs: (Some(Range { start: 3, len: 2 }), None),
    },
    // Both ends of a disk. The sums of 1 to 64 and of 5 to 68.
    Row {
        sectors: 1000,
        bad: None,
        pushed: ENDS,
        done: &[(0, 0, Status::Ok), (0, 1, Status::Ok)],
        sum: 2080 + 2336,
        runs: (
            Some(Range { start: 0, len: 1 }),
            Some(Range { start: 999, len: 1 }),
        ),
    },
];
