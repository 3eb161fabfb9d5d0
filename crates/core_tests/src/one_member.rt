//! The run of a mirror of one member, which is a mirror.
use crate::states::{State, run};
use crate::texts::{CA, W0};
use std::test::Fail;

/// A mirror of one member, which is a mirror.
const NESTED: &str = "disk a 8\ndisk b 8\nmirror p a b\nmirror m p\nwrite 0 m 0 1 0\n";

/// The writer makes the leg of the upper mirror and both legs of the lower one.
const DOWN: &[State] = &[
    (W0, &[], "event w0 take fs.bios ordinary"),
    (W0, &[], "event w0 link 0 write 0"),
    (
        W0,
        &["event w0 take p.records spare"],
        "event w0 take m.records ordinary",
    ),
    (W0, &[], "event w0 link 0 master 1"),
    (
        W0,
        &["event w0 try m.bios ordinary"],
        "event w0 take m.bios ordinary",
    ),
    (W0, &[], "event w0 link 0 leg 2"),
    (
        W0,
        &["event w0 take m.bios ordinary"],
        "event w0 take p.records spare",
    ),
    (
        W0,
        &["event w0 link 0 master 2"],
        "event w0 link 0 master 3",
    ),
    (
        W0,
        &["event w0 try p.bios ordinary"],
        "event w0 take p.bios ordinary",
    ),
    (W0, &[], "event w0 link 0 leg 4"),
    (
        W0,
        &["event w0 take p.bios ordinary"],
        "event w0 try p.bios ordinary",
    ),
    (W0, &["event w0 link 0 leg 6"], "event w0 link 0 leg 5"),
    (
        W0,
        &["event w0 push b 0 1 leg 1"],
        "event w0 push a 0 1 leg 0",
    ),
    (W0, &[], "event w0 push b 0 1 leg 1"),
];

/// Both end, and then one node above the other.
const UP: &[State] = &[
    (CA, &[], "event c:b complete b 0 ok"),
    (
        CA,
        &["event c:b drop 0 4 ok up"],
        "event c:b drop 0 5 ok up",
    ),
    (CA, &["event c:b give m.bios"], "event c:b give p.bios"),
    (
        CA,
        &["event c:b drop 0 3 ok up"],
        "event c:b drop 0 3 ok left",
    ),
    (CA, &[], "event c:a complete a 0 ok"),
    (CA, &[], "event c:a drop 0 4 ok up"),
    (CA, &[], "event c:a give p.bios"),
    (
        CA,
        &["event c:a drop 0 3 ok left"],
        "event c:a drop 0 3 ok up",
    ),
    (
        CA,
        &["event c:a give m.records"],
        "event c:a give p.records",
    ),
    (
        CA,
        &["event c:a drop 0 1 ok up"],
        "event c:a drop 0 2 ok up",
    ),
    (CA, &["event c:a give p.bios"], "event c:a give m.bios"),
    (
        CA,
        &["event c:a drop 0 0 ok top"],
        "event c:a drop 0 1 ok up",
    ),
    (CA, &[], "event c:a give m.records"),
    (CA, &[], "event c:a drop 0 0 ok top"),
    (CA, &["event c:a give fs.vecs"], "event c:a give fs.bios"),
    (CA, &[], "event c:a done 0 ok"),
];

#[test]
fn the_run_of_a_mirror_of_a_mirror_is_applied(rt: HostRuntime) -> Result<(), Fail> {
    run(&rt, NESTED, &[DOWN, UP])
}
