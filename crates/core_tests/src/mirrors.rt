//! The run of a mirror.
use crate::states::{State, run};
use crate::texts::{CA, CB, RM, W0};
use std::test::Fail;

/// Two disks, a mirror with one bio and one record, no ordinary memory, and a write of one sector.
pub const MIRROR: &str =
    "disk a 8\ndisk b 8\nmirror m a b reserve=1 records=1\nmemory none\nwrite 0 m 0 1 0\n";

/// The writer makes the first leg, tries to make the second, and hands the first one to the rescuer.
const PUNTS: &[State] = &[
    (
        W0,
        &[
            "event w0 take fs.bios ordinary",
            "event w0 take fs.bios missed",
            "event w0 try fs.bios spare",
            "event w0 take m.bios spare",
            "event w0 link 0 write 0",
            "event w1 take fs.bios spare",
            "event r:m take fs.bios spare",
            "event r:m pop m",
            "event c:a complete a 0 ok",
            "event c:a done 0 ok",
            "event k round 1",
        ],
        "event w0 take fs.bios spare",
    ),
    (
        W0,
        &[
            "event w0 take fs.bios spare",
            "event w0 take fs.vecs spare",
            "event w0 link 0 write 4",
            "event w0 link 1 write 0",
            "event w0 link 0 chain 0",
        ],
        "event w0 link 0 write 0",
    ),
    (
        W0,
        &[
            "event w0 link 0 write 1",
            "event w0 take m.bios spare",
            "event w0 push a 0 1 leg 0",
            "event w0 try m.records spare",
        ],
        "event w0 take m.records spare",
    ),
    (
        W0,
        &[
            "event w0 link 0 master 0",
            "event w0 link 0 leg 1",
            "event w0 take m.records spare",
        ],
        "event w0 link 0 master 1",
    ),
    (
        W0,
        &["event w0 try m.bios spare", "event w0 take m.bios missed"],
        "event w0 take m.bios spare",
    ),
    (
        W0,
        &["event w0 link 0 leg 1", "event w0 link 0 leg 4"],
        "event w0 link 0 leg 2",
    ),
    (
        W0,
        &[
            "event w0 take m.bios spare",
            "event w0 take m.bios missed",
            "event w0 try m.bios spare",
            "event w0 try m.bios ordinary",
            "event w0 push a 0 1 leg 0",
            "event w0 punt m 1",
        ],
        "event w0 try m.bios missed",
    ),
    (
        W0,
        &[
            "event w0 punt m 0",
            "event w0 punt m 2",
            "event w0 punt a 1",
            "event r:m punt m 1",
            "event w0 try m.bios missed",
        ],
        "event w0 punt m 1",
    ),
];

/// The rescuer takes the first leg to its disk, which ends it, and the writer has its bio for the second one.
const RESCUES: &[State] = &[
    (
        RM,
        &[
            "event w0 take m.bios spare",
            "event w0 take m.bios missed",
            "event r:m pop a",
            "event r:m push a 0 1 leg 0",
            "event c:a complete a 0 ok",
        ],
        "event r:m pop m",
    ),
    (
        RM,
        &[
            "event r:m pop m",
            "event r:m push b 0 1 leg 0",
            "event r:m push a 1 1 leg 0",
            "event r:m push a 0 2 leg 0",
            "event r:m push a 0 1 leg 1",
            "event w0 push a 0 1 leg 0",
        ],
        "event r:m push a 0 1 leg 0",
    ),
    (
        CA,
        &[
            "event r:m pop m",
            "event c:a complete a 1 ok",
            "event c:a complete a 0 io",
            "event c:a complete b 0 ok",
            "event c:b complete a 0 ok",
        ],
        "event c:a complete a 0 ok",
    ),
    (
        CA,
        &[
            "event c:a complete a 0 ok",
            "event c:a give m.bios",
            "event c:a drop 0 2 io up",
            "event c:a drop 0 2 ok left",
            "event c:a drop 0 2 ok top",
            "event c:a drop 0 1 ok left",
        ],
        "event c:a drop 0 2 ok up",
    ),
    (
        CA,
        &[
            "event w0 take m.bios spare",
            "event c:a give fs.bios",
            "event c:a give m.records",
            "event c:a drop 0 1 ok left",
        ],
        "event c:a give m.bios",
    ),
    (
        W0,
        &["event c:a give m.bios", "event c:a drop 0 1 ok up"],
        "event c:a drop 0 1 ok left",
    ),
    (
        W0,
        &[
            "event c:a drop 0 1 ok left",
            "event c:a complete a 0 ok",
            "event w0 take m.bios ordinary",
        ],
        "event w0 take m.bios spare",
    ),
    (
        W0,
        &["event w0 link 0 leg 0", "event w0 link 0 leg 1"],
        "event w0 link 0 leg 2",
    ),
    (
        W0,
        &["event w0 push a 0 1 leg 1", "event w0 push b 0 1 leg 0"],
        "event w0 push b 0 1 leg 1",
    ),
];

/// The second leg ends, and with it the record, the write's bio and the write.
const ENDS: &[State] = &[
    (
        CB,
        &["event w0 take fs.bios spare", "event c:a complete a 0 ok"],
        "event c:b complete b 0 ok",
    ),
    (
        CB,
        &["event c:b drop 0 2 ok left", "event c:a drop 0 2 ok up"],
        "event c:b drop 0 2 ok up",
    ),
    (CB, &["event c:b drop 0 1 ok up"], "event c:b give m.bios"),
    (
        CB,
        &["event c:b drop 0 1 ok left", "event c:b drop 0 1 io up"],
        "event c:b drop 0 1 ok up",
    ),
    (
        CB,
        &["event c:b give m.bios", "event c:b drop 0 0 ok top"],
        "event c:b give m.records",
    ),
    (
        CB,
        &["event c:b drop 0 0 ok up", "event c:b drop 0 0 medium top"],
        "event c:b drop 0 0 ok top",
    ),
    (
        CB,
        &["event c:b done 0 ok", "event c:b give m.records"],
        "event c:b give fs.bios",
    ),
    (
        CB,
        &[
            "event c:b done 0 io",
            "event c:b done 1 ok",
            "event c:a done 0 ok",
        ],
        "event c:b done 0 ok",
    ),
];

#[test]
fn the_run_of_a_mirror_is_applied_event_by_event(rt: HostRuntime) -> Result<(), Fail> {
    assert_eq!(rt; PUNTS.len() + RESCUES.len() + ENDS.len(), 25);
    run(&rt, MIRROR, &[PUNTS, RESCUES, ENDS])
}
