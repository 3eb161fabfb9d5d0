//! The run of a mirror of two mirrors.
use crate::states::{State, run};
use crate::texts::{CA, CB, W0};
use std::test::Fail;

/// A mirror of two mirrors, each of two disks.
const FOUR: &str =
    "disk a 8\ndisk b 8\ndisk c 8\ndisk d 8\nmirror p a b\nmirror q c d\nmirror m p q\nwrite 0 m 0 1 0\n";

/// The writer makes both legs of the upper mirror before the first of them comes to its own mirror.
const UPPER: &[State] = &[
    (W0, &[], "event w0 take fs.bios spare"),
    (W0, &[], "event w0 link 0 write 0"),
    (
        W0,
        &[
            "event w0 take p.records spare",
            "event w0 take q.records spare",
            "event w0 try m.records spare",
        ],
        "event w0 take m.records spare",
    ),
    (W0, &[], "event w0 link 0 master 1"),
    (
        W0,
        &["event w0 try m.bios spare", "event w0 take p.bios spare"],
        "event w0 take m.bios spare",
    ),
    (W0, &[], "event w0 link 0 leg 2"),
    (
        W0,
        &[
            "event w0 take m.bios spare",
            "event w0 take p.records spare",
        ],
        "event w0 try m.bios ordinary",
    ),
    (W0, &["event w0 link 0 leg 2"], "event w0 link 0 leg 3"),
];

/// The legs of the first lower mirror come to their disks while the second leg of the upper one waits: an attempt beside it does not wait.
const FIRST: &[State] = &[
    (
        W0,
        &[
            "event w0 take q.records spare",
            "event w0 take m.bios spare",
            "event w0 push a 0 1 leg 0",
        ],
        "event w0 take p.records ordinary",
    ),
    (
        W0,
        &["event w0 link 0 leg 4", "event w0 link 0 master 3"],
        "event w0 link 0 master 4",
    ),
    (
        W0,
        &["event w0 take p.bios spare", "event w0 try m.bios ordinary"],
        "event w0 try p.bios spare",
    ),
    (W0, &[], "event w0 link 0 leg 5"),
    (
        W0,
        &["event w0 take p.bios spare"],
        "event w0 try p.bios spare",
    ),
    (W0, &[], "event w0 link 0 leg 6"),
    (
        W0,
        &[
            "event w0 push b 0 1 leg 1",
            "event w0 take q.records spare",
            "event w0 try p.bios ordinary",
        ],
        "event w0 push a 0 1 leg 0",
    ),
    (
        W0,
        &["event w0 push b 0 1 leg 0", "event w0 take q.records spare"],
        "event w0 push b 0 1 leg 1",
    ),
];

/// The second lower mirror's first attempt waits, since nothing is left in the lists. Its last node has the last place of the book.
const OTHER: &[State] = &[
    (
        W0,
        &["event w0 push c 0 1 leg 0"],
        "event w0 take q.records spare",
    ),
    (W0, &[], "event w0 link 0 master 7"),
    (
        W0,
        &["event w0 try q.bios spare"],
        "event w0 take q.bios spare",
    ),
    (W0, &[], "event w0 link 0 leg 8"),
    (
        W0,
        &["event w0 take q.bios spare"],
        "event w0 try q.bios spare",
    ),
    (
        W0,
        &["event w0 link 0 leg 8", "event w0 link 0 leg 10"],
        "event w0 link 0 leg 9",
    ),
    (
        W0,
        &["event w0 push c 0 1 leg 1"],
        "event w0 push c 0 1 leg 0",
    ),
    (
        W0,
        &["event w0 push d 0 1 leg 0"],
        "event w0 push d 0 1 leg 1",
    ),
];

/// One disk below each lower mirror ends: both masters wait for the other one.
const ONE_EACH: &[State] = &[
    (
        CA,
        &["event w0 take fs.bios spare"],
        "event c:d complete d 0 ok",
    ),
    (
        CA,
        &["event c:d drop 0 8 ok up"],
        "event c:d drop 0 9 ok up",
    ),
    (
        CA,
        &["event c:d give p.bios", "event c:d give m.bios"],
        "event c:d give q.bios",
    ),
    (
        CA,
        &["event c:d drop 0 7 ok up"],
        "event c:d drop 0 7 ok left",
    ),
    (
        CA,
        &["event c:d complete d 0 ok"],
        "event c:a complete a 0 ok",
    ),
    (CA, &[], "event c:a drop 0 5 ok up"),
    (CA, &["event c:a give q.bios"], "event c:a give p.bios"),
    (
        CA,
        &["event c:a drop 0 4 ok up", "event c:a drop 0 2 ok up"],
        "event c:a drop 0 4 ok left",
    ),
];

/// The second lower mirror ends, and with it the second leg of the upper one.
const SECOND: &[State] = &[
    (
        CB,
        &["event c:a complete a 0 ok"],
        "event c:c complete c 0 ok",
    ),
    (CB, &[], "event c:c drop 0 8 ok up"),
    (CB, &[], "event c:c give q.bios"),
    (
        CB,
        &["event c:c drop 0 7 ok left"],
        "event c:c drop 0 7 ok up",
    ),
    (
        CB,
        &[
            "event c:c give p.records",
            "event c:c give m.records",
            "event c:c drop 0 3 ok up",
        ],
        "event c:c give q.records",
    ),
    (
        CB,
        &["event c:c drop 0 2 ok up", "event c:c drop 0 3 ok left"],
        "event c:c drop 0 3 ok up",
    ),
    (CB, &["event c:c give q.bios"], "event c:c give m.bios"),
    (
        CB,
        &["event c:c drop 0 1 ok up"],
        "event c:c drop 0 1 ok left",
    ),
];

/// The first one ends, and with it the upper mirror and the write.
const LAST: &[State] = &[
    (
        CB,
        &["event c:c drop 0 1 ok up", "event c:c done 0 ok"],
        "event c:b complete b 0 ok",
    ),
    (CB, &[], "event c:b drop 0 6 ok up"),
    (CB, &[], "event c:b give p.bios"),
    (
        CB,
        &["event c:b drop 0 4 ok left"],
        "event c:b drop 0 4 ok up",
    ),
    (CB, &[], "event c:b give p.records"),
    (
        CB,
        &["event c:b drop 0 3 ok up"],
        "event c:b drop 0 2 ok up",
    ),
    (CB, &[], "event c:b give m.bios"),
    (
        CB,
        &["event c:b drop 0 1 ok left"],
        "event c:b drop 0 1 ok up",
    ),
    (CB, &[], "event c:b give m.records"),
    (
        CB,
        &["event c:b drop 0 0 ok up"],
        "event c:b drop 0 0 ok top",
    ),
    (CB, &["event c:b give fs.vecs"], "event c:b give fs.bios"),
    (CB, &["event c:b done 0 io"], "event c:b done 0 ok"),
];

#[test]
fn the_run_of_a_mirror_of_two_mirrors_is_applied(rt: HostRuntime) -> Result<(), Fail> {
    run(&rt, FOUR, &[UPPER, FIRST, OTHER, ONE_EACH, SECOND, LAST])
}
