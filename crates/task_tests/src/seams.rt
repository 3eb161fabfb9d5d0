//! Runs of writes over the seam of two members that stand one behind the other.
use crate::runs::Answer::{Ended, Event, Waiting};
use crate::runs::{Left, Turn, run};
use crate::texts::{CA, CB, R2, W0};
use stack_base::Status;
use std::test::Fail;

/// Members one behind the other, one bio for them, no ordinary memory, and a write over the seam.
const SEAM: &str = "disk a 8\ndisk b 8\nlinear n a b reserve=1\nmemory none\nwrite 0 n 6 4 0\n";

/// The front has the bio of the linear device, and the rest that of the write.
const OVER: &[Turn] = &[
    (W0, Event("event w0 take fs.bios spare")),
    (W0, Event("event w0 link 0 write 0")),
    (W0, Event("event w0 take n.bios spare")),
    (W0, Event("event w0 link 0 chain 1")),
    (W0, Event("event w0 push a 6 2 leg 0")),
    (W0, Event("event w0 push b 0 2 leg 0")),
    (W0, Ended),
];

/// The front ends first.
const FORWARDS: &[Turn] = &[
    (CA, Event("event c:a complete a 0 ok")),
    (CA, Event("event c:a drop 0 1 ok up")),
    (CA, Event("event c:a give n.bios")),
    (CA, Event("event c:a drop 0 0 ok left")),
    (CA, Waiting),
    (CB, Event("event c:b complete b 0 ok")),
    (CB, Event("event c:b drop 0 0 ok top")),
    (CB, Event("event c:b give fs.bios")),
    (CB, Event("event c:b done 0 ok")),
];

/// What both ways to its end leave.
const SEAM_LEFT: Left = Left {
    steps: 14,
    statuses: &[Status::Ok],
    disks: &[(0x1fc0, Some((6, 2))), (0x5fc0, Some((0, 2)))],
};

#[test]
fn a_write_over_a_seam_has_two_pieces(rt: HostRuntime) -> Result<(), Fail> {
    run(&rt, SEAM, &[(0, OVER), (0, FORWARDS)], &SEAM_LEFT)
}

/// The same with a rescuer, which has nothing to do.
const RESCUED: &str =
    "disk a 8\ndisk b 8\nlinear n a b reserve=1 rescuer=yes\nmemory none\nwrite 0 n 6 4 0\n";

/// The rest ends first.
const LAST_FIRST: &[Turn] = &[
    (R2, Waiting),
    (CB, Event("event c:b complete b 0 ok")),
    (CB, Event("event c:b drop 0 0 ok left")),
    (R2, Waiting),
    (CA, Event("event c:a complete a 0 ok")),
    (CA, Event("event c:a drop 0 1 ok up")),
    (CA, Event("event c:a give n.bios")),
    (CA, Event("event c:a drop 0 0 ok top")),
    (CA, Event("event c:a give fs.bios")),
    (R2, Waiting),
    (CA, Event("event c:a done 0 ok")),
    (R2, Ended),
];

#[test]
fn a_take_waits_where_nothing_is_in_the_lists(rt: HostRuntime) -> Result<(), Fail> {
    run(&rt, RESCUED, &[(0, OVER), (0, LAST_FIRST)], &SEAM_LEFT)
}

/// A bad sector on each side of the seam.
const FAILS: &str =
    "disk a 8\ndisk b 8\nbad a 6 1 medium\nbad b 0 1 nospace\nlinear n a b\nwrite 0 n 6 4 0\n";

/// Both pieces come to their disks.
const PUSHED: &[Turn] = &[
    (W0, Event("event w0 take fs.bios ordinary")),
    (W0, Event("event w0 link 0 write 0")),
    (W0, Event("event w0 take n.bios ordinary")),
    (W0, Event("event w0 link 0 chain 1")),
    (W0, Event("event w0 push a 6 2 leg 0")),
    (W0, Event("event w0 push b 0 2 leg 0")),
    (W0, Ended),
];

/// The front fails first.
const MEDIUM: &[Turn] = &[
    (CA, Event("event c:a complete a 0 medium")),
    (CA, Event("event c:a drop 0 1 medium up")),
    (CA, Event("event c:a give n.bios")),
    (CA, Event("event c:a drop 0 0 medium left")),
    (CB, Event("event c:b complete b 0 nospace")),
    (CB, Event("event c:b drop 0 0 nospace top")),
    (CB, Event("event c:b give fs.bios")),
    (CB, Event("event c:b done 0 medium")),
];

/// The rest fails first.
const NO_SPACE: &[Turn] = &[
    (CB, Event("event c:b complete b 0 nospace")),
    (CB, Event("event c:b drop 0 0 nospace left")),
    (CA, Event("event c:a complete a 0 medium")),
    (CA, Event("event c:a drop 0 1 medium up")),
    (CA, Event("event c:a give n.bios")),
    (CA, Event("event c:a drop 0 0 medium top")),
    (CA, Event("event c:a give fs.bios")),
    (CA, Event("event c:a done 0 nospace")),
];

/// What it leaves.
const MEDIUM_LEFT: Left = Left {
    steps: 14,
    statuses: &[Status::Medium],
    disks: &[(0, None), (0, None)],
};

/// What it leaves.
const NO_SPACE_LEFT: Left = Left {
    steps: 14,
    statuses: &[Status::NoSpace],
    disks: &[(0, None), (0, None)],
};

#[test]
fn a_write_ends_as_its_first_failure(rt: HostRuntime) -> Result<(), Fail> {
    run(&rt, FAILS, &[(0, PUSHED), (0, MEDIUM)], &MEDIUM_LEFT)?;
    run(&rt, FAILS, &[(0, PUSHED), (0, NO_SPACE)], &NO_SPACE_LEFT)
}
