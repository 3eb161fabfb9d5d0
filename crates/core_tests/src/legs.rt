//! Runs of mirrors whose legs fail, and of one with three members.
use crate::states::{State, run};
use crate::texts::{CA, CB, W0};
use stack_base::DevId;
use std::test::Fail;
use task_core::TaskId;

/// A mirror of which one member fails.
const ONE: &str = "disk a 8\ndisk b 8\nbad b 0 1 medium\nmirror m a b\nwrite 0 m 0 1 0\n";

/// Both legs come to their disks.
const LEGS: &[State] = &[
    (W0, &[], "event w0 take fs.bios ordinary"),
    (W0, &[], "event w0 link 0 write 0"),
    (W0, &[], "event w0 take m.records ordinary"),
    (W0, &[], "event w0 link 0 master 1"),
    (
        W0,
        &["event w0 try m.bios ordinary"],
        "event w0 take m.bios ordinary",
    ),
    (W0, &[], "event w0 link 0 leg 2"),
    (
        W0,
        &["event w0 take m.bios ordinary"],
        "event w0 try m.bios ordinary",
    ),
    (
        W0,
        &["event w0 link 0 leg 2", "event w0 link 0 chain 3"],
        "event w0 link 0 leg 3",
    ),
    (
        W0,
        &["event w0 push b 0 1 leg 1"],
        "event w0 push a 0 1 leg 0",
    ),
    (
        W0,
        &["event w0 push b 0 1 leg 0"],
        "event w0 push b 0 1 leg 1",
    ),
];

/// The second leg fails: the write does not.
const HALF: &[State] = &[
    (
        CA,
        &["event c:a complete a 0 medium"],
        "event c:a complete a 0 ok",
    ),
    (CA, &[], "event c:a drop 0 2 ok up"),
    (CA, &[], "event c:a give m.bios"),
    (
        CA,
        &["event c:a drop 0 1 ok up"],
        "event c:a drop 0 1 ok left",
    ),
    (
        CB,
        &["event c:b complete b 0 ok", "event c:b complete b 0 io"],
        "event c:b complete b 0 medium",
    ),
    (
        CB,
        &["event c:b drop 0 3 ok up"],
        "event c:b drop 0 3 medium up",
    ),
    (CB, &[], "event c:b give m.bios"),
    (
        CB,
        &["event c:b drop 0 1 ok up", "event c:b drop 0 1 io up"],
        "event c:b drop 0 1 medium up",
    ),
    (CB, &[], "event c:b give m.records"),
    (
        CB,
        &["event c:b drop 0 0 medium top", "event c:b drop 0 0 io top"],
        "event c:b drop 0 0 ok top",
    ),
    (CB, &[], "event c:b give fs.bios"),
    (
        CB,
        &["event c:b done 0 medium", "event c:b done 0 io"],
        "event c:b done 0 ok",
    ),
];

/// A mirror of which both members fail.
const BOTH: &str =
    "disk a 8\ndisk b 8\nbad a 0 8 nospace\nbad b 0 1 medium\nmirror m a b\nwrite 0 m 0 1 0\n";

/// Both legs fail, each in its way: the write ends as a mirror does of which no leg ended well.
const NONE: &[State] = &[
    (
        CA,
        &["event c:b complete b 0 nospace"],
        "event c:b complete b 0 medium",
    ),
    (CA, &[], "event c:b drop 0 3 medium up"),
    (CA, &[], "event c:b give m.bios"),
    (
        CA,
        &["event c:b drop 0 1 medium up"],
        "event c:b drop 0 1 medium left",
    ),
    (
        CA,
        &["event c:a complete a 0 ok", "event c:a complete a 0 medium"],
        "event c:a complete a 0 nospace",
    ),
    (CA, &[], "event c:a drop 0 2 nospace up"),
    (CA, &[], "event c:a give m.bios"),
    (
        CA,
        &[
            "event c:a drop 0 1 io up",
            "event c:a drop 0 1 nospace left",
        ],
        "event c:a drop 0 1 nospace up",
    ),
    (CA, &[], "event c:a give m.records"),
    (
        CA,
        &[
            "event c:a drop 0 0 nospace top",
            "event c:a drop 0 0 medium top",
            "event c:a drop 0 0 ok top",
        ],
        "event c:a drop 0 0 io top",
    ),
    (CA, &[], "event c:a give fs.bios"),
    (
        CA,
        &["event c:a done 0 medium", "event c:a done 0 nospace"],
        "event c:a done 0 io",
    ),
];

/// A mirror of three members with bios for two legs, and no ordinary memory.
const THREE: &str = "disk a 8\ndisk b 8\ndisk c 8\nmirror m a b c\nmemory none\nwrite 0 m 0 1 0\n";

/// The completer of the third disk, and the rescuer of the mirror's set.
const CC: Option<TaskId> = Some(TaskId::Completer(DevId(2)));

const RESCUER: Option<TaskId> = Some(TaskId::Rescuer(DevId(3)));

/// The writer has no bio for the third leg, and hands both others to the rescuer.
const PUNTED: &[State] = &[
    (W0, &[], "event w0 take fs.bios spare"),
    (W0, &[], "event w0 link 0 write 0"),
    (W0, &[], "event w0 take m.records spare"),
    (W0, &[], "event w0 link 0 master 1"),
    (W0, &[], "event w0 take m.bios spare"),
    (W0, &[], "event w0 link 0 leg 2"),
    (
        W0,
        &["event w0 try m.bios ordinary"],
        "event w0 try m.bios spare",
    ),
    (W0, &[], "event w0 link 0 leg 3"),
    (
        W0,
        &["event w0 try m.bios spare", "event w0 take m.bios missed"],
        "event w0 try m.bios missed",
    ),
    (
        W0,
        &[
            "event w0 punt m 0",
            "event w0 punt m 1",
            "event w0 punt m 3",
        ],
        "event w0 punt m 2",
    ),
];

/// The rescuer takes them one after the other, in their order.
const POPPED: &[State] = &[
    (
        RESCUER,
        &["event w0 take m.bios spare", "event r:m push a 0 1 leg 0"],
        "event r:m pop m",
    ),
    (
        RESCUER,
        &["event r:m pop m", "event r:m push b 0 1 leg 1"],
        "event r:m push a 0 1 leg 0",
    ),
    (RESCUER, &["event r:m push b 0 1 leg 1"], "event r:m pop m"),
    (
        RESCUER,
        &["event r:m push a 0 1 leg 0"],
        "event r:m push b 0 1 leg 1",
    ),
    (
        CA,
        &["event r:m pop m", "event w0 take m.bios spare"],
        "event c:a complete a 0 ok",
    ),
    (CA, &[], "event c:a drop 0 2 ok up"),
    (CA, &["event w0 take m.bios spare"], "event c:a give m.bios"),
    (
        W0,
        &["event w0 try m.bios spare"],
        "event w0 take m.bios spare",
    ),
    (
        W0,
        &[
            "event w0 link 0 leg 1",
            "event w0 link 0 leg 3",
            "event w0 link 0 leg 5",
        ],
        "event w0 link 0 leg 2",
    ),
    (
        W0,
        &["event w0 push c 0 1 leg 0"],
        "event w0 push c 0 1 leg 2",
    ),
    (
        CA,
        &["event c:a drop 0 1 ok up"],
        "event c:a drop 0 1 ok left",
    ),
];

/// All three end, and with the third the record.
const COPIED: &[State] = &[
    (CB, &[], "event c:b complete b 0 ok"),
    (CB, &[], "event c:b drop 0 3 ok up"),
    (CB, &[], "event c:b give m.bios"),
    (
        CB,
        &["event c:b drop 0 1 ok up"],
        "event c:b drop 0 1 ok left",
    ),
    (CC, &[], "event c:c complete c 0 ok"),
    (CC, &[], "event c:c drop 0 2 ok up"),
    (CC, &[], "event c:c give m.bios"),
    (CC, &[], "event c:c drop 0 1 ok up"),
    (CC, &[], "event c:c give m.records"),
    (CC, &[], "event c:c drop 0 0 ok top"),
    (CC, &[], "event c:c give fs.bios"),
    (CC, &[], "event c:c done 0 ok"),
];

#[test]
fn one_leg_is_enough(rt: HostRuntime) -> Result<(), Fail> {
    run(&rt, ONE, &[LEGS, HALF])
}

#[test]
fn a_mirror_without_a_leg_that_ended_well_fails(rt: HostRuntime) -> Result<(), Fail> {
    run(&rt, BOTH, &[LEGS, NONE])
}

#[test]
fn a_rescuer_takes_bios_in_their_order(rt: HostRuntime) -> Result<(), Fail> {
    run(&rt, THREE, &[PUNTED, POPPED, COPIED])
}
