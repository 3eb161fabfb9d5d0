//! Runs of two rounds, with reserves that change between them.
use crate::states::{State, run};
use crate::texts::{CA, K, W0, W1};
use std::test::Fail;

/// A write in each of two rounds, before the second of which a pool gets one element more.
const ROUNDS: &str =
    "disk a 8\nlimit l max=1 reserve=1 a\nwrite 0 l 0 1 0\nsync\nresize l.bios 2\nwrite 0 l 0 2 64\n";

/// The first round: the second write and the keeper wait for its end.
const FIRST: &[State] = &[
    (
        W0,
        &["event k resize l.bios 2", "event k round 1"],
        "event w0 take fs.bios spare",
    ),
    (W0, &["event w0 link 0 write 3"], "event w0 link 0 write 0"),
    (W0, &[], "event w0 push a 0 1 leg 0"),
    (
        CA,
        &[
            "event w0 take fs.bios spare",
            "event w0 take fs.bios ordinary",
            "event k resize l.bios 2",
        ],
        "event c:a complete a 0 ok",
    ),
    (CA, &[], "event c:a drop 0 0 ok top"),
    (CA, &[], "event c:a give fs.bios"),
    (
        CA,
        &["event k resize l.bios 2", "event k round 1"],
        "event c:a done 0 ok",
    ),
];

/// Between them: the change, and then the round.
const BETWEEN: &[State] = &[
    (
        K,
        &[
            "event w0 take fs.bios spare",
            "event k round 1",
            "event k resize l.bios 3",
            "event k resize fs.bios 2",
            "event w0 resize l.bios 2",
        ],
        "event k resize l.bios 2",
    ),
    (
        K,
        &[
            "event w0 take fs.bios spare",
            "event k resize l.bios 2",
            "event k round 2",
            "event k round 0",
        ],
        "event k round 1",
    ),
];

/// The second round.
const SECOND: &[State] = &[
    (
        W0,
        &["event k round 1", "event k round 2"],
        "event w0 take fs.bios ordinary",
    ),
    (W0, &[], "event w0 link 0 write 1"),
    (W0, &[], "event w0 take l.bios spare"),
    (W0, &[], "event w0 link 0 chain 2"),
    (W0, &[], "event w0 push a 0 1 leg 0"),
    (W0, &[], "event w0 push a 1 1 leg 0"),
    (CA, &[], "event c:a complete a 1 ok"),
    (CA, &[], "event c:a drop 0 1 ok left"),
    (CA, &[], "event c:a complete a 0 ok"),
    (CA, &[], "event c:a drop 0 2 ok up"),
    (CA, &[], "event c:a give l.bios"),
    (CA, &[], "event c:a drop 0 1 ok top"),
    (CA, &[], "event c:a give fs.bios"),
    (CA, &["event c:a done 0 ok"], "event c:a done 1 ok"),
];

#[test]
fn a_reserve_changes_between_rounds(rt: HostRuntime) -> Result<(), Fail> {
    run(&rt, ROUNDS, &[FIRST, BETWEEN, SECOND])
}

/// A round without a write, and one with a write.
const EMPTY: &str = "disk a 8\nsync\nwrite 0 a 0 1 0\n";

/// The keeper starts the second round at once.
const STARTED: &[State] = &[
    (
        K,
        &[
            "event w0 take fs.bios spare",
            "event k round 0",
            "event k round 2",
        ],
        "event k round 1",
    ),
    (
        W0,
        &["event k round 1", "event k round 2"],
        "event w0 take fs.bios spare",
    ),
    (W0, &[], "event w0 link 0 write 0"),
    (W0, &[], "event w0 push a 0 1 leg 0"),
    (CA, &[], "event c:a complete a 0 ok"),
    (CA, &[], "event c:a drop 0 0 ok top"),
    (CA, &[], "event c:a give fs.bios"),
    (CA, &[], "event c:a done 0 ok"),
];

#[test]
fn an_empty_round_is_over_at_once(rt: HostRuntime) -> Result<(), Fail> {
    run(&rt, EMPTY, &[STARTED])
}

/// A reserve that falls, and two writers in the round behind it.
const FALLS: &str =
    "disk a 8\nmemory none\nwrite 0 a 0 1 0\nsync\nresize fs.bios 1\nwrite 0 a 1 1 64\nwrite 1 a 2 1 128\n";

/// With the smaller reserve one of them waits for the other.
const FALLEN: &[State] = &[
    (
        W0,
        &["event w1 take fs.bios spare"],
        "event w0 take fs.bios spare",
    ),
    (W0, &[], "event w0 link 0 write 0"),
    (W0, &[], "event w0 push a 0 1 leg 0"),
    (
        CA,
        &["event k resize fs.bios 1"],
        "event c:a complete a 0 ok",
    ),
    (CA, &[], "event c:a drop 0 0 ok top"),
    (CA, &["event k resize fs.bios 1"], "event c:a give fs.bios"),
    (CA, &["event k resize fs.bios 1"], "event c:a done 0 ok"),
    (
        K,
        &[
            "event k round 1",
            "event k resize fs.bios 2",
            "event w1 take fs.bios spare",
        ],
        "event k resize fs.bios 1",
    ),
    (K, &["event k resize fs.bios 1"], "event k round 1"),
    (W0, &[], "event w1 take fs.bios spare"),
    (
        W1,
        &[
            "event w0 take fs.bios spare",
            "event w0 take fs.bios missed",
        ],
        "event w1 link 1 write 0",
    ),
    (W1, &[], "event w1 push a 2 1 leg 0"),
    (
        CA,
        &["event w0 take fs.bios spare"],
        "event c:a complete a 0 ok",
    ),
    (CA, &[], "event c:a drop 1 0 ok top"),
    (CA, &[], "event c:a give fs.bios"),
    (W0, &[], "event w0 take fs.bios spare"),
    (W0, &["event c:a done 1 ok"], "event c:a done 2 ok"),
    (W0, &[], "event w0 link 0 write 1"),
    (W0, &[], "event w0 push a 1 1 leg 0"),
    (CA, &[], "event c:a complete a 0 ok"),
    (CA, &[], "event c:a drop 0 1 ok top"),
    (CA, &[], "event c:a give fs.bios"),
    (CA, &[], "event c:a done 1 ok"),
];

#[test]
fn a_reserve_falls_between_rounds(rt: HostRuntime) -> Result<(), Fail> {
    run(&rt, FALLS, &[FALLEN])
}
