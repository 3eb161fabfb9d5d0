//! Runs of two rounds.
use crate::runs::Answer::{Blocked, Ended, Event, Waiting};
use crate::runs::{Left, Turn, run};
use crate::texts::{CA, CB, K, R2, W0, W1};
use stack_base::{DevId, PoolId, Status};
use std::test::Fail;

/// A write in each of two rounds, which share a sector.
const SYNC: &str = "disk a 8\nwrite 0 a 0 2 0\nsync\nwrite 1 a 1 2 1000\n";

/// The second write begins when the first one is done.
const ROUNDS: &[Turn] = &[
    (W1, Waiting),
    (K, Waiting),
    (W0, Event("event w0 take fs.bios ordinary")),
    (W0, Event("event w0 link 0 write 0")),
    (W0, Event("event w0 push a 0 2 leg 0")),
    (W0, Ended),
    (W1, Waiting),
    (CA, Event("event c:a complete a 0 ok")),
    (CA, Event("event c:a drop 0 0 ok top")),
    (CA, Event("event c:a give fs.bios")),
    (W1, Waiting),
    (K, Waiting),
    (CA, Event("event c:a done 0 ok")),
    (CA, Waiting),
    (W1, Waiting),
    (K, Event("event k round 1")),
    (K, Ended),
    (W1, Event("event w1 take fs.bios ordinary")),
    (W1, Event("event w1 link 1 write 0")),
    (W1, Event("event w1 push a 1 2 leg 0")),
    (W1, Ended),
    (CA, Event("event c:a complete a 0 ok")),
    (CA, Event("event c:a drop 1 0 ok top")),
    (CA, Event("event c:a give fs.bios")),
    (K, Ended),
    (CA, Event("event c:a done 1 ok")),
    (CA, Ended),
];

/// What it leaves.
const SYNC_LEFT: Left = Left {
    steps: 15,
    statuses: &[Status::Ok, Status::Ok],
    disks: &[(0x21ba0, Some((0, 3)))],
};

#[test]
fn a_writer_of_a_later_round_waits(rt: HostRuntime) -> Result<(), Fail> {
    run(&rt, SYNC, &[(0, ROUNDS)], &SYNC_LEFT)
}

/// A write of a mirror that has one bio, and in the next round one of it with two.
const RESIZE: &str =
    "disk a 8\ndisk b 8\nmirror m a b reserve=1 records=1\nmemory none\nwrite 0 m 0 1 0\nsync\nresize m.bios 2\nwrite 0 m 0 1 64\n";

/// The bios of the mirror.
const M: PoolId = PoolId::Bios(DevId(2));

/// With one bio, the writer hands the first leg over.
const NARROW: &[Turn] = &[
    (W0, Event("event w0 take fs.bios spare")),
    (W0, Event("event w0 link 0 write 0")),
    (W0, Event("event w0 take m.records spare")),
    (W0, Event("event w0 link 0 master 1")),
    (W0, Event("event w0 take m.bios spare")),
    (W0, Event("event w0 link 0 leg 2")),
    (W0, Event("event w0 try m.bios missed")),
    (W0, Event("event w0 punt m 1")),
    (W0, Blocked(M)),
    (K, Waiting),
    (R2, Event("event r:m pop m")),
    (R2, Event("event r:m push a 0 1 leg 0")),
    (CA, Event("event c:a complete a 0 ok")),
    (CA, Event("event c:a drop 0 2 ok up")),
    (CA, Event("event c:a give m.bios")),
    (CA, Event("event c:a drop 0 1 ok left")),
    (W0, Event("event w0 take m.bios spare")),
    (W0, Event("event w0 link 0 leg 2")),
    (W0, Event("event w0 push b 0 1 leg 1")),
    (W0, Waiting),
    (CB, Event("event c:b complete b 0 ok")),
    (CB, Event("event c:b drop 0 2 ok up")),
    (CB, Event("event c:b give m.bios")),
    (CB, Event("event c:b drop 0 1 ok up")),
    (CB, Event("event c:b give m.records")),
    (CB, Event("event c:b drop 0 0 ok top")),
    (CB, Event("event c:b give fs.bios")),
    (K, Waiting),
    (CB, Event("event c:b done 0 ok")),
    (W0, Waiting),
];

/// The keeper changes the reserve, and then starts the round.
const BETWEEN: &[Turn] = &[
    (K, Event("event k resize m.bios 2")),
    (W0, Waiting),
    (R2, Waiting),
    (K, Event("event k round 1")),
    (K, Ended),
];

/// With two bios, each leg has its own.
const WIDE: &[Turn] = &[
    (W0, Event("event w0 take fs.bios spare")),
    (W0, Event("event w0 link 0 write 0")),
    (W0, Event("event w0 take m.records spare")),
    (W0, Event("event w0 link 0 master 1")),
    (W0, Event("event w0 take m.bios spare")),
    (W0, Event("event w0 link 0 leg 2")),
    (W0, Event("event w0 try m.bios spare")),
    (W0, Event("event w0 link 0 leg 3")),
    (W0, Event("event w0 push a 0 1 leg 0")),
    (W0, Event("event w0 push b 0 1 leg 1")),
    (W0, Ended),
    (CB, Event("event c:b complete b 0 ok")),
    (CB, Event("event c:b drop 0 3 ok up")),
    (CB, Event("event c:b give m.bios")),
    (CB, Event("event c:b drop 0 1 ok left")),
    (CA, Event("event c:a complete a 0 ok")),
    (CA, Event("event c:a drop 0 2 ok up")),
    (CA, Event("event c:a give m.bios")),
    (CA, Event("event c:a drop 0 1 ok up")),
    (CA, Event("event c:a give m.records")),
    (CA, Event("event c:a drop 0 0 ok top")),
    (CA, Event("event c:a give fs.bios")),
    (CA, Event("event c:a done 1 ok")),
    (R2, Ended),
];

/// What it leaves.
const RESIZE_LEFT: Left = Left {
    steps: 49,
    statuses: &[Status::Ok, Status::Ok],
    disks: &[(0x17e0, Some((0, 1))), (0x17e0, Some((0, 1)))],
};

#[test]
fn a_reserve_rises_between_rounds(rt: HostRuntime) -> Result<(), Fail> {
    run(
        &rt,
        RESIZE,
        &[(0, NARROW), (0, BETWEEN), (0, WIDE)],
        &RESIZE_LEFT,
    )
}

/// A round without a write, and one with a write.
const EMPTY: &str = "disk a 8\nsync\nwrite 0 a 0 1 0\n";

/// The first round is over at once.
const STARTED: &[Turn] = &[
    (W0, Waiting),
    (W0, Waiting),
    (CA, Waiting),
    (K, Event("event k round 1")),
    (K, Ended),
    (W0, Event("event w0 take fs.bios ordinary")),
    (W0, Event("event w0 link 0 write 0")),
    (W0, Event("event w0 push a 0 1 leg 0")),
    (W0, Ended),
    (CA, Event("event c:a complete a 0 ok")),
    (CA, Event("event c:a drop 0 0 ok top")),
    (CA, Event("event c:a give fs.bios")),
    (CA, Event("event c:a done 0 ok")),
];

/// What it leaves.
const EMPTY_LEFT: Left = Left {
    steps: 8,
    statuses: &[Status::Ok],
    disks: &[(0x7e0, Some((0, 1)))],
};

#[test]
fn an_empty_round_is_over_at_once(rt: HostRuntime) -> Result<(), Fail> {
    run(&rt, EMPTY, &[(0, STARTED)], &EMPTY_LEFT)
}
