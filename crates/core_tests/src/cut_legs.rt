//! A run in which one leg of a mirror under a stripe is cut, and fails by one of its pieces.
use crate::states::{State, run};
use crate::texts::{CA, CB, W0};
use std::test::Fail;

/// A stripe over a mirror and a disk. The mirror's second leg is cut by a limit, and the second of its pieces fails.
const RAGGED: &str =
    "disk a 8\ndisk b 8\ndisk c 8\nbad a 3 1 medium\nlimit l max=1 a\nmirror m b l\nstripe s chunk=4 m c\nwrite 0 s 2 4 0\n";

/// The stripe cuts, and the mirror copies the front while the rest waits.
const COPIES: &[State] = &[
    (W0, &[], "event w0 take fs.bios ordinary"),
    (W0, &[], "event w0 link 0 write 0"),
    (
        W0,
        &[
            "event w0 try s.bios spare",
            "event w0 take m.records spare",
            "event w0 push c 0 2 leg 0",
        ],
        "event w0 take s.bios spare",
    ),
    (
        W0,
        &["event w0 link 0 leg 1", "event w0 link 0 master 1"],
        "event w0 link 0 chain 1",
    ),
    (
        W0,
        &["event w0 push c 0 2 leg 0", "event w0 take m.bios spare"],
        "event w0 take m.records ordinary",
    ),
    (W0, &[], "event w0 link 0 master 2"),
    (
        W0,
        &["event w0 take m.bios spare"],
        "event w0 try m.bios spare",
    ),
    (W0, &["event w0 link 0 chain 3"], "event w0 link 0 leg 3"),
    (
        W0,
        &["event w0 take l.bios spare", "event w0 push b 2 2 leg 0"],
        "event w0 try m.bios spare",
    ),
    (W0, &[], "event w0 link 0 leg 4"),
];

/// The first leg comes to its disk whole. The second is cut in two: the front is no leg, and the rest still is. Last comes the rest of the
/// write.
const PIECES: &[State] = &[
    (
        W0,
        &[
            "event w0 take l.bios spare",
            "event w0 push b 2 2 leg 1",
            "event w0 push c 0 2 leg 0",
        ],
        "event w0 push b 2 2 leg 0",
    ),
    (
        W0,
        &[
            "event w0 try l.bios spare",
            "event w0 push a 2 2 leg 1",
            "event w0 push c 0 2 leg 0",
        ],
        "event w0 take l.bios spare",
    ),
    (
        W0,
        &["event w0 link 0 chain 4", "event w0 link 0 leg 5"],
        "event w0 link 0 chain 5",
    ),
    (
        W0,
        &[
            "event w0 push a 2 1 leg 1",
            "event w0 push a 3 1 leg 1",
            "event w0 push a 2 2 leg 0",
        ],
        "event w0 push a 2 1 leg 0",
    ),
    (
        W0,
        &[
            "event w0 push a 3 1 leg 0",
            "event w0 push c 0 2 leg 0",
            "event w0 take l.bios spare",
        ],
        "event w0 push a 3 1 leg 1",
    ),
    (
        W0,
        &[
            "event w0 push c 4 2 leg 0",
            "event w0 push c 0 2 leg 1",
            "event w0 take s.bios spare",
        ],
        "event w0 push c 0 2 leg 0",
    ),
];

/// The second leg fails by the piece that comes to the bad range. The master waits for the first one.
const FAILS: &[State] = &[
    (
        CA,
        &["event c:a complete a 1 ok", "event c:a complete a 0 medium"],
        "event c:a complete a 1 medium",
    ),
    (
        CA,
        &[
            "event c:a drop 0 4 ok left",
            "event c:a drop 0 4 medium up",
            "event c:a drop 0 5 medium up",
        ],
        "event c:a drop 0 4 medium left",
    ),
    (
        CA,
        &[
            "event c:a give m.bios",
            "event c:a complete a 0 medium",
            "event c:a complete a 1 ok",
        ],
        "event c:a complete a 0 ok",
    ),
    (CA, &[], "event c:a drop 0 5 ok up"),
    (CA, &["event c:a give m.bios"], "event c:a give l.bios"),
    (
        CA,
        &["event c:a drop 0 4 medium up", "event c:a drop 0 4 ok left"],
        "event c:a drop 0 4 ok up",
    ),
    (CA, &["event c:a give l.bios"], "event c:a give m.bios"),
    (
        CA,
        &[
            "event c:a drop 0 2 ok left",
            "event c:a drop 0 2 medium up",
            "event c:a drop 0 1 medium up",
        ],
        "event c:a drop 0 2 medium left",
    ),
];

/// The rest ends, and then the first leg, and with it the mirror and the write, which do not fail.
const HOLDS: &[State] = &[
    (
        CB,
        &["event c:c complete c 0 medium"],
        "event c:c complete c 0 ok",
    ),
    (
        CB,
        &["event c:c drop 0 0 ok top"],
        "event c:c drop 0 0 ok left",
    ),
    (
        CB,
        &["event c:c give fs.bios", "event c:b complete b 0 medium"],
        "event c:b complete b 0 ok",
    ),
    (CB, &[], "event c:b drop 0 3 ok up"),
    (CB, &[], "event c:b give m.bios"),
    (
        CB,
        &["event c:b drop 0 2 ok left"],
        "event c:b drop 0 2 ok up",
    ),
    (CB, &["event c:b give s.bios"], "event c:b give m.records"),
    (
        CB,
        &["event c:b drop 0 1 medium up", "event c:b drop 0 1 io up"],
        "event c:b drop 0 1 ok up",
    ),
    (CB, &["event c:b give m.bios"], "event c:b give s.bios"),
    (
        CB,
        &[
            "event c:b drop 0 0 ok left",
            "event c:b drop 0 0 medium top",
        ],
        "event c:b drop 0 0 ok top",
    ),
    (CB, &[], "event c:b give fs.bios"),
    (
        CB,
        &["event c:b done 0 medium", "event c:b done 0 io"],
        "event c:b done 0 ok",
    ),
];

#[test]
fn a_leg_that_was_cut_fails_and_the_write_does_not(rt: HostRuntime) -> Result<(), Fail> {
    run(&rt, RAGGED, &[COPIES, PIECES, FAILS, HOLDS])
}
