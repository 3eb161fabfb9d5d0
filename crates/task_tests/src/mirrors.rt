//! Runs of mirrors.
use crate::runs::Answer::{Blocked, Ended, Event, Waiting};
use crate::runs::{Left, Turn, run};
use crate::texts::{CA, CB, CC, R2, R3, W0};
use stack_base::{DevId, PoolId, Status};
use std::test::Fail;

/// Two disks, a mirror with one bio and one record, no ordinary memory, and a write of one sector.
const MIRROR: &str =
    "disk a 8\ndisk b 8\nmirror m a b reserve=1 records=1\nmemory none\nwrite 0 m 0 1 0\n";

/// The bios of the mirror.
const M: PoolId = PoolId::Bios(DevId(2));

/// The writer hands the first leg to the rescuer, and waits for its bio.
const PUNTS: &[Turn] = &[
    (W0, Event("event w0 take fs.bios spare")),
    (W0, Event("event w0 link 0 write 0")),
    (W0, Event("event w0 take m.records spare")),
    (W0, Event("event w0 link 0 master 1")),
    (W0, Event("event w0 take m.bios spare")),
    (W0, Event("event w0 link 0 leg 2")),
    (W0, Event("event w0 try m.bios missed")),
    (R2, Waiting),
    (W0, Event("event w0 punt m 1")),
    (W0, Blocked(M)),
    (W0, Blocked(M)),
    (CA, Waiting),
    (R2, Event("event r:m pop m")),
    (CA, Waiting),
    (R2, Event("event r:m push a 0 1 leg 0")),
    (R2, Waiting),
];

/// The first leg ends before the writer goes on.
const HALF: &[Turn] = &[
    (CA, Event("event c:a complete a 0 ok")),
    (CA, Event("event c:a drop 0 2 ok up")),
    (W0, Blocked(M)),
    (CA, Event("event c:a give m.bios")),
    (CA, Event("event c:a drop 0 1 ok left")),
    (CA, Waiting),
    (W0, Event("event w0 take m.bios spare")),
    (W0, Event("event w0 link 0 leg 2")),
    (CB, Waiting),
    (W0, Event("event w0 push b 0 1 leg 1")),
    (W0, Ended),
];

/// The second leg ends, and with it the record, the write's bio and the write.
const OTHER: &[Turn] = &[
    (CB, Event("event c:b complete b 0 ok")),
    (CB, Event("event c:b drop 0 2 ok up")),
    (CB, Event("event c:b give m.bios")),
    (CB, Event("event c:b drop 0 1 ok up")),
    (CB, Event("event c:b give m.records")),
    (CB, Event("event c:b drop 0 0 ok top")),
    (CB, Event("event c:b give fs.bios")),
    (CA, Waiting),
    (R2, Waiting),
    (CB, Event("event c:b done 0 ok")),
    (CB, Ended),
];

/// What each run of it leaves.
const MIRROR_LEFT: Left = Left {
    steps: 25,
    statuses: &[Status::Ok],
    disks: &[(0x7e0, Some((0, 1))), (0x7e0, Some((0, 1)))],
};

#[test]
fn a_rescuer_submits_what_a_writer_punts(rt: HostRuntime) -> Result<(), Fail> {
    run(
        &rt,
        MIRROR,
        &[(0, PUNTS), (0, HALF), (0, OTHER)],
        &MIRROR_LEFT,
    )
}

/// All tasks have a turn each, one after the other, up to the writer's first wait.
const MAKES: &[Turn] = &[
    (W0, Event("event w0 take fs.bios spare")),
    (R2, Waiting),
    (CA, Waiting),
    (CB, Waiting),
    (W0, Event("event w0 link 0 write 0")),
    (R2, Waiting),
    (CA, Waiting),
    (CB, Waiting),
    (W0, Event("event w0 take m.records spare")),
    (R2, Waiting),
    (CA, Waiting),
    (CB, Waiting),
    (W0, Event("event w0 link 0 master 1")),
    (R2, Waiting),
    (CA, Waiting),
    (CB, Waiting),
    (W0, Event("event w0 take m.bios spare")),
    (R2, Waiting),
    (CA, Waiting),
    (CB, Waiting),
    (W0, Event("event w0 link 0 leg 2")),
    (R2, Waiting),
    (CA, Waiting),
    (CB, Waiting),
    (W0, Event("event w0 try m.bios missed")),
    (R2, Waiting),
    (CA, Waiting),
    (CB, Waiting),
    (W0, Event("event w0 punt m 1")),
    (R2, Event("event r:m pop m")),
    (CA, Waiting),
    (CB, Waiting),
];

/// The writer has the bio before the master is told of the leg that had it.
const MEETS: &[Turn] = &[
    (W0, Blocked(M)),
    (R2, Event("event r:m push a 0 1 leg 0")),
    (CA, Event("event c:a complete a 0 ok")),
    (CB, Waiting),
    (W0, Blocked(M)),
    (R2, Waiting),
    (CA, Event("event c:a drop 0 2 ok up")),
    (CB, Waiting),
    (W0, Blocked(M)),
    (R2, Waiting),
    (CA, Event("event c:a give m.bios")),
    (CB, Waiting),
    (W0, Event("event w0 take m.bios spare")),
    (R2, Waiting),
    (CA, Event("event c:a drop 0 1 ok left")),
    (CB, Waiting),
    (W0, Event("event w0 link 0 leg 3")),
    (R2, Waiting),
    (CA, Waiting),
    (CB, Waiting),
    (W0, Event("event w0 push b 0 1 leg 1")),
    (R2, Waiting),
    (CA, Waiting),
    (CB, Event("event c:b complete b 0 ok")),
    (W0, Ended),
    (R2, Waiting),
    (CA, Waiting),
    (CB, Event("event c:b drop 0 3 ok up")),
    (CB, Event("event c:b give m.bios")),
    (CB, Event("event c:b drop 0 1 ok up")),
    (CB, Event("event c:b give m.records")),
    (CB, Event("event c:b drop 0 0 ok top")),
    (CB, Event("event c:b give fs.bios")),
    (CB, Event("event c:b done 0 ok")),
];

#[test]
fn a_writer_waits_for_the_bio_of_its_other_leg(rt: HostRuntime) -> Result<(), Fail> {
    run(&rt, MIRROR, &[(0, MAKES), (0, MEETS)], &MIRROR_LEFT)
}

/// A mirror of which one member fails.
const ONE: &str = "disk a 8\ndisk b 8\nbad a 0 1 medium\nmirror m a b\nwrite 0 m 0 1 0\n";

/// Both legs come to their disks: the second attempt does not wait, since the first leg is in a list.
const LEGS: &[Turn] = &[
    (W0, Event("event w0 take fs.bios ordinary")),
    (W0, Event("event w0 link 0 write 0")),
    (W0, Event("event w0 take m.records ordinary")),
    (W0, Event("event w0 link 0 master 1")),
    (W0, Event("event w0 take m.bios ordinary")),
    (W0, Event("event w0 link 0 leg 2")),
    (W0, Event("event w0 try m.bios ordinary")),
    (W0, Event("event w0 link 0 leg 3")),
    (W0, Event("event w0 push a 0 1 leg 0")),
    (W0, Event("event w0 push b 0 1 leg 1")),
    (W0, Ended),
];

/// The first leg fails, and the write does not.
const SERVED: &[Turn] = &[
    (CA, Event("event c:a complete a 0 medium")),
    (CA, Event("event c:a drop 0 2 medium up")),
    (CA, Event("event c:a give m.bios")),
    (CA, Event("event c:a drop 0 1 medium left")),
    (CB, Event("event c:b complete b 0 ok")),
    (CB, Event("event c:b drop 0 3 ok up")),
    (CB, Event("event c:b give m.bios")),
    (CB, Event("event c:b drop 0 1 ok up")),
    (CB, Event("event c:b give m.records")),
    (CB, Event("event c:b drop 0 0 ok top")),
    (R2, Waiting),
    (CB, Event("event c:b give fs.bios")),
    (CB, Event("event c:b done 0 ok")),
    (R2, Ended),
];

/// What it leaves.
const ONE_LEFT: Left = Left {
    steps: 22,
    statuses: &[Status::Ok],
    disks: &[(0, None), (0x7e0, Some((0, 1)))],
};

#[test]
fn one_leg_may_fail(rt: HostRuntime) -> Result<(), Fail> {
    run(&rt, ONE, &[(0, LEGS), (0, SERVED)], &ONE_LEFT)
}

/// A mirror of which both members fail.
const NONE: &str =
    "disk a 8\ndisk b 8\nbad a 0 1 medium\nbad b 0 1 nospace\nmirror m a b\nwrite 0 m 0 1 0\n";

/// Both legs fail, the second one first, and the write ends as a mirror does that no leg serves.
const FAILED: &[Turn] = &[
    (CB, Event("event c:b complete b 0 nospace")),
    (CB, Event("event c:b drop 0 3 nospace up")),
    (CB, Event("event c:b give m.bios")),
    (CB, Event("event c:b drop 0 1 nospace left")),
    (CA, Event("event c:a complete a 0 medium")),
    (CA, Event("event c:a drop 0 2 medium up")),
    (CA, Event("event c:a give m.bios")),
    (CA, Event("event c:a drop 0 1 medium up")),
    (CA, Event("event c:a give m.records")),
    (CA, Event("event c:a drop 0 0 io top")),
    (CA, Event("event c:a give fs.bios")),
    (CA, Event("event c:a done 0 io")),
];

/// What it leaves.
const NONE_LEFT: Left = Left {
    steps: 22,
    statuses: &[Status::Io],
    disks: &[(0, None), (0, None)],
};

#[test]
fn not_all_legs_may_fail(rt: HostRuntime) -> Result<(), Fail> {
    run(&rt, NONE, &[(0, LEGS), (0, FAILED)], &NONE_LEFT)
}

/// A mirror of three members, of which the first one fails.
const THREE: &str = "disk a 8\ndisk b 8\ndisk c 8\nbad a 0 1 io\nmirror m a b c\nwrite 0 m 0 8 0\n";

/// Three legs, of which the last one ends first.
const ALL: &[Turn] = &[
    (W0, Event("event w0 take fs.bios ordinary")),
    (W0, Event("event w0 link 0 write 0")),
    (W0, Event("event w0 take m.records ordinary")),
    (W0, Event("event w0 link 0 master 1")),
    (W0, Event("event w0 take m.bios ordinary")),
    (W0, Event("event w0 link 0 leg 2")),
    (W0, Event("event w0 try m.bios ordinary")),
    (W0, Event("event w0 link 0 leg 3")),
    (W0, Event("event w0 try m.bios ordinary")),
    (W0, Event("event w0 link 0 leg 4")),
    (W0, Event("event w0 push a 0 8 leg 0")),
    (W0, Event("event w0 push b 0 8 leg 1")),
    (W0, Event("event w0 push c 0 8 leg 2")),
    (W0, Ended),
    (CC, Event("event c:c complete c 0 ok")),
    (CC, Event("event c:c drop 0 4 ok up")),
    (CC, Event("event c:c give m.bios")),
    (CC, Event("event c:c drop 0 1 ok left")),
    (CA, Event("event c:a complete a 0 io")),
    (CA, Event("event c:a drop 0 2 io up")),
    (CA, Event("event c:a give m.bios")),
    (CA, Event("event c:a drop 0 1 io left")),
    (CB, Event("event c:b complete b 0 ok")),
    (CB, Event("event c:b drop 0 3 ok up")),
    (CB, Event("event c:b give m.bios")),
    (CB, Event("event c:b drop 0 1 ok up")),
    (CB, Event("event c:b give m.records")),
    (CB, Event("event c:b drop 0 0 ok top")),
    (CB, Event("event c:b give fs.bios")),
    (R3, Waiting),
    (CB, Event("event c:b done 0 ok")),
    (R3, Ended),
];

/// What it leaves.
const THREE_LEFT: Left = Left {
    steps: 29,
    statuses: &[Status::Ok],
    disks: &[(0, None), (0x1ff00, Some((0, 8))), (0x1ff00, Some((0, 8)))],
};

#[test]
fn a_mirror_has_a_leg_for_each_member(rt: HostRuntime) -> Result<(), Fail> {
    run(&rt, THREE, &[(0, ALL)], &THREE_LEFT)
}
