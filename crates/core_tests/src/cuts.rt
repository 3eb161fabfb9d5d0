//! Runs over devices that cut: each of them ends.
use crate::states::{State, run};
use crate::texts::{CA, CB, W0};
use std::test::Fail;

/// Members one behind the other, and a write over the seam.
const LINEAR: &str = "disk a 8\ndisk b 8\nlinear l a b\nwrite 0 l 6 4 0\n";

/// The front goes to the first member, and the rest as one piece to the second.
const SEAM: &[State] = &[
    (W0, &[], "event w0 take fs.bios ordinary"),
    (
        W0,
        &["event w0 take l.bios ordinary"],
        "event w0 link 0 write 0",
    ),
    (
        W0,
        &["event w0 try l.bios ordinary", "event w0 push a 6 2 leg 0"],
        "event w0 take l.bios ordinary",
    ),
    (
        W0,
        &[
            "event w0 link 0 chain 0",
            "event w0 link 0 chain 2",
            "event w0 link 0 leg 1",
        ],
        "event w0 link 0 chain 1",
    ),
    (
        W0,
        &["event w0 push a 6 4 leg 0", "event w0 push b 0 2 leg 0"],
        "event w0 push a 6 2 leg 0",
    ),
    (
        W0,
        &["event w0 take l.bios spare"],
        "event w0 push b 0 2 leg 0",
    ),
    (
        CA,
        &["event c:a complete a 1 ok"],
        "event c:a complete a 0 ok",
    ),
    (
        CA,
        &["event c:a drop 0 1 ok left"],
        "event c:a drop 0 1 ok up",
    ),
    (CA, &[], "event c:a give l.bios"),
    (
        CA,
        &["event c:a drop 0 0 ok top"],
        "event c:a drop 0 0 ok left",
    ),
    (
        CB,
        &["event c:a complete a 0 ok"],
        "event c:b complete b 0 ok",
    ),
    (CB, &[], "event c:b drop 0 0 ok top"),
    (CB, &["event c:b give l.bios"], "event c:b give fs.bios"),
    (CB, &[], "event c:b done 0 ok"),
];

/// Members of one and two chunks, and a write from the first zone into the second.
const ZONED: &str = "disk a 2\ndisk b 4\nzoned z chunk=2 a b\nwrite 0 z 2 4 0\n";

/// Both chunks lie on the second member, which ends the later one first.
const ZONES: &[State] = &[
    (W0, &[], "event w0 take fs.bios ordinary"),
    (W0, &[], "event w0 link 0 write 0"),
    (W0, &[], "event w0 take z.bios ordinary"),
    (W0, &[], "event w0 link 0 chain 1"),
    (
        W0,
        &["event w0 push a 0 2 leg 0", "event w0 push b 0 4 leg 0"],
        "event w0 push b 0 2 leg 0",
    ),
    (
        W0,
        &["event w0 push a 0 2 leg 0"],
        "event w0 push b 2 2 leg 0",
    ),
    (
        CB,
        &["event c:a complete a 0 ok"],
        "event c:b complete b 1 ok",
    ),
    (
        CB,
        &["event c:b drop 0 1 ok up"],
        "event c:b drop 0 0 ok left",
    ),
    (
        CB,
        &["event c:b complete b 1 ok"],
        "event c:b complete b 0 ok",
    ),
    (CB, &[], "event c:b drop 0 1 ok up"),
    (CB, &[], "event c:b give z.bios"),
    (CB, &[], "event c:b drop 0 0 ok top"),
    (CB, &[], "event c:b give fs.bios"),
    (CB, &[], "event c:b done 0 ok"),
];

/// A write that is one piece.
const WHOLE: &str = "disk a 8\nlimit l max=4 a\nwrite 0 l 0 4 0\n";

/// It is handed on as it is.
const PASSED: &[State] = &[
    (W0, &[], "event w0 take fs.bios spare"),
    (W0, &["event w0 link 0 write 1"], "event w0 link 0 write 0"),
    (
        W0,
        &["event w0 take l.bios spare"],
        "event w0 push a 0 4 leg 0",
    ),
    (CA, &[], "event c:a complete a 0 ok"),
    (
        CA,
        &["event c:a drop 0 0 ok up"],
        "event c:a drop 0 0 ok top",
    ),
    (CA, &["event c:a give l.bios"], "event c:a give fs.bios"),
    (CA, &[], "event c:a done 0 ok"),
];

/// Pieces of three sectors, none of which crosses a multiple of four.
const BOUND: &str = "disk a 16\nlimit l max=3 chunk=4 a\nwrite 0 l 2 7 0\n";

/// Two sectors up to the first multiple, three and one up to the second, and the last one: the third bio is of ordinary memory.
const CUT: &[State] = &[
    (W0, &[], "event w0 take fs.bios ordinary"),
    (W0, &[], "event w0 link 0 write 0"),
    (W0, &[], "event w0 take l.bios spare"),
    (W0, &[], "event w0 link 0 chain 1"),
    (
        W0,
        &["event w0 push a 2 3 leg 0"],
        "event w0 push a 2 2 leg 0",
    ),
    (W0, &[], "event w0 take l.bios spare"),
    (W0, &["event w0 link 0 chain 1"], "event w0 link 0 chain 2"),
    (
        W0,
        &["event w0 push a 4 4 leg 0"],
        "event w0 push a 4 3 leg 0",
    ),
    (
        CA,
        &["event w0 take l.bios spare", "event w0 take l.bios missed"],
        "event w0 take l.bios ordinary",
    ),
    (W0, &[], "event w0 link 0 chain 3"),
    (
        W0,
        &["event w0 push a 7 2 leg 0"],
        "event w0 push a 7 1 leg 0",
    ),
    (W0, &[], "event w0 push a 8 1 leg 0"),
];

/// The bios end one after the other, and with the last the write.
const JOINED: &[State] = &[
    (CA, &[], "event c:a complete a 0 ok"),
    (CA, &[], "event c:a drop 0 1 ok up"),
    (CA, &[], "event c:a give l.bios"),
    (CA, &[], "event c:a drop 0 0 ok left"),
    (CA, &[], "event c:a complete a 0 ok"),
    (CA, &[], "event c:a drop 0 2 ok up"),
    (CA, &[], "event c:a give l.bios"),
    (CA, &[], "event c:a drop 0 0 ok left"),
    (CA, &[], "event c:a complete a 0 ok"),
    (CA, &[], "event c:a drop 0 3 ok up"),
    (CA, &[], "event c:a give l.bios"),
    (
        CA,
        &["event c:a drop 0 0 ok top"],
        "event c:a drop 0 0 ok left",
    ),
    (CA, &[], "event c:a complete a 0 ok"),
    (CA, &[], "event c:a drop 0 0 ok top"),
    (CA, &[], "event c:a give fs.bios"),
    (CA, &[], "event c:a done 0 ok"),
];

#[test]
fn a_write_over_a_seam_has_two_pieces(rt: HostRuntime) -> Result<(), Fail> {
    run(&rt, LINEAR, &[SEAM])
}

#[test]
fn zones_go_round_the_members_that_have_a_chunk(rt: HostRuntime) -> Result<(), Fail> {
    run(&rt, ZONED, &[ZONES])
}

#[test]
fn a_single_piece_needs_no_bio_of_the_limit(rt: HostRuntime) -> Result<(), Fail> {
    run(&rt, WHOLE, &[PASSED])
}

#[test]
fn no_piece_crosses_a_boundary(rt: HostRuntime) -> Result<(), Fail> {
    run(&rt, BOUND, &[CUT, JOINED])
}
