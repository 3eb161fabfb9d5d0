//! Tasks that wait, and tasks that have ended.
use crate::runs::Answer::{Blocked, Ended, Event, Waiting};
use crate::runs::{Left, Turn, run};
use crate::texts::{CA, CB, R2, W0, W1};
use stack_base::{DevId, PoolId, Status};
use std::test::Fail;

/// What two writes of one sector to one disk leave.
const TWO_LEFT: Left = Left {
    steps: 14,
    statuses: &[Status::Ok, Status::Ok],
    disks: &[(0x1fc0, Some((0, 2)))],
};

/// Two writers at one disk.
const TWO: &str = "disk a 8\nwrite 0 a 0 1 0\nwrite 1 a 1 1 64\n";

/// Both go on side by side, and the later write ends first.
const BESIDE: &[Turn] = &[
    (CA, Waiting),
    (CA, Waiting),
    (W0, Event("event w0 take fs.bios ordinary")),
    (W1, Event("event w1 take fs.bios ordinary")),
    (CA, Waiting),
    (W0, Event("event w0 link 0 write 0")),
    (W1, Event("event w1 link 1 write 0")),
    (CA, Waiting),
    (W0, Event("event w0 push a 0 1 leg 0")),
    (W1, Event("event w1 push a 1 1 leg 0")),
    (CA, Event("event c:a complete a 1 ok")),
    (W0, Ended),
    (W1, Ended),
    (CA, Event("event c:a drop 1 0 ok top")),
    (CA, Event("event c:a give fs.bios")),
    (CA, Event("event c:a done 1 ok")),
    (CA, Event("event c:a complete a 0 ok")),
    (CA, Event("event c:a drop 0 0 ok top")),
    (CA, Event("event c:a give fs.bios")),
    (CA, Event("event c:a done 0 ok")),
    (CA, Ended),
    (CA, Ended),
];

#[test]
fn two_writers_go_side_by_side(rt: HostRuntime) -> Result<(), Fail> {
    run(&rt, TWO, &[(1, BESIDE)], &TWO_LEFT)
}

/// Two writers, one bio, and no ordinary memory.
const BIO: &str = "fs bios=1\ndisk a 8\nmemory none\nwrite 0 a 0 1 0\nwrite 1 a 1 1 64\n";

/// The second writer waits until the first one's bio has come back.
const BIOS: &[Turn] = &[
    (W0, Event("event w0 take fs.bios spare")),
    (W1, Blocked(PoolId::FsBios)),
    (W1, Blocked(PoolId::FsBios)),
    (W0, Event("event w0 link 0 write 0")),
    (W0, Event("event w0 push a 0 1 leg 0")),
    (W0, Ended),
    (W1, Blocked(PoolId::FsBios)),
    (CA, Event("event c:a complete a 0 ok")),
    (CA, Event("event c:a drop 0 0 ok top")),
    (W1, Blocked(PoolId::FsBios)),
    (CA, Event("event c:a give fs.bios")),
    (W1, Event("event w1 take fs.bios spare")),
    (W1, Event("event w1 link 1 write 0")),
    (W1, Event("event w1 push a 1 1 leg 0")),
    (CA, Event("event c:a done 0 ok")),
    (CA, Event("event c:a complete a 0 ok")),
    (CA, Event("event c:a drop 1 0 ok top")),
    (CA, Event("event c:a give fs.bios")),
    (CA, Event("event c:a done 1 ok")),
];

#[test]
fn a_writer_waits_for_a_bio(rt: HostRuntime) -> Result<(), Fail> {
    run(&rt, BIO, &[(0, BIOS)], &TWO_LEFT)
}

/// Two writers, one bio, and a script of three entries.
const ENTRY: &str =
    "fs bios=1\ndisk a 8\nscript fs.bios --- -\nwrite 0 a 0 1 0\nwrite 1 a 1 1 64\n";

/// An attempt that misses is an event while it uses up an entry.
const ENTRIES: &[Turn] = &[
    (W0, Event("event w0 take fs.bios spare")),
    (W1, Event("event w1 take fs.bios missed")),
    (W1, Event("event w1 take fs.bios missed")),
    (W1, Blocked(PoolId::FsBios)),
    (W1, Blocked(PoolId::FsBios)),
    (W0, Event("event w0 link 0 write 0")),
    (W0, Event("event w0 push a 0 1 leg 0")),
    (CA, Event("event c:a complete a 0 ok")),
    (CA, Event("event c:a drop 0 0 ok top")),
    (CA, Event("event c:a give fs.bios")),
    (CA, Event("event c:a done 0 ok")),
    (CA, Waiting),
    (W1, Event("event w1 take fs.bios spare")),
    (W1, Event("event w1 link 1 write 0")),
    (W1, Event("event w1 push a 1 1 leg 0")),
    (CA, Event("event c:a complete a 0 ok")),
    (CA, Event("event c:a drop 1 0 ok top")),
    (CA, Event("event c:a give fs.bios")),
    (CA, Event("event c:a done 1 ok")),
];

/// What it leaves.
const ENTRY_LEFT: Left = Left {
    steps: 16,
    ..TWO_LEFT
};

#[test]
fn a_miss_is_an_event_while_it_uses_an_entry(rt: HostRuntime) -> Result<(), Fail> {
    run(&rt, ENTRY, &[(0, ENTRIES)], &ENTRY_LEFT)
}

/// Two writers that each need the one vector.
const VECTOR: &str = "fs vecs=1\ndisk a 128\nmemory none\nwrite 0 a 0 33 0\nwrite 1 a 33 33 2112\n";

/// The second one waits with its bio in hand.
const VECTORS: &[Turn] = &[
    (W0, Event("event w0 take fs.bios spare")),
    (W1, Event("event w1 take fs.bios spare")),
    (W0, Event("event w0 take fs.vecs spare")),
    (W1, Blocked(PoolId::FsVecs)),
    (W1, Blocked(PoolId::FsVecs)),
    (W0, Event("event w0 link 0 write 0")),
    (W0, Event("event w0 push a 0 33 leg 0")),
    (W0, Ended),
    (CA, Event("event c:a complete a 0 ok")),
    (CA, Event("event c:a drop 0 0 ok top")),
    (W1, Blocked(PoolId::FsVecs)),
    (CA, Event("event c:a give fs.vecs")),
    (W1, Event("event w1 take fs.vecs spare")),
    (CA, Event("event c:a give fs.bios")),
    (W1, Event("event w1 link 1 write 0")),
    (W1, Event("event w1 push a 33 33 leg 0")),
    (CA, Event("event c:a done 0 ok")),
    (CA, Event("event c:a complete a 0 ok")),
    (CA, Event("event c:a drop 1 0 ok top")),
    (CA, Event("event c:a give fs.vecs")),
    (CA, Event("event c:a give fs.bios")),
    (CA, Event("event c:a done 1 ok")),
];

/// What it leaves.
const VECTOR_LEFT: Left = Left {
    steps: 18,
    statuses: &[Status::Ok, Status::Ok],
    disks: &[(0x8817c0, Some((0, 66)))],
};

#[test]
fn a_writer_waits_for_a_vector(rt: HostRuntime) -> Result<(), Fail> {
    run(&rt, VECTOR, &[(0, VECTORS)], &VECTOR_LEFT)
}

/// Two writers, and a mirror of one member with one record.
const RECORD: &str =
    "disk a 8\nmirror m a records=1\nmemory none\nwrite 0 m 0 1 0\nwrite 1 m 1 1 64\n";

/// The records of the mirror.
const RECORDS: PoolId = PoolId::Records(DevId(1));

/// The second writer waits until the first one's record has come back.
const MASTERS: &[Turn] = &[
    (W0, Event("event w0 take fs.bios spare")),
    (W1, Event("event w1 take fs.bios spare")),
    (W0, Event("event w0 link 0 write 0")),
    (W1, Event("event w1 link 1 write 0")),
    (W0, Event("event w0 take m.records spare")),
    (W1, Blocked(RECORDS)),
    (W1, Blocked(RECORDS)),
    (W0, Event("event w0 link 0 master 1")),
    (W0, Event("event w0 take m.bios spare")),
    (W0, Event("event w0 link 0 leg 2")),
    (W0, Event("event w0 push a 0 1 leg 0")),
    (W0, Ended),
    (CA, Event("event c:a complete a 0 ok")),
    (CA, Event("event c:a drop 0 2 ok up")),
    (CA, Event("event c:a give m.bios")),
    (CA, Event("event c:a drop 0 1 ok up")),
    (W1, Blocked(RECORDS)),
    (CA, Event("event c:a give m.records")),
    (W1, Event("event w1 take m.records spare")),
    (CA, Event("event c:a drop 0 0 ok top")),
    (W1, Event("event w1 link 1 master 1")),
    (CA, Event("event c:a give fs.bios")),
    (W1, Event("event w1 take m.bios spare")),
    (CA, Event("event c:a done 0 ok")),
    (W1, Event("event w1 link 1 leg 2")),
    (W1, Event("event w1 push a 1 1 leg 0")),
    (CA, Event("event c:a complete a 0 ok")),
    (CA, Event("event c:a drop 1 2 ok up")),
    (CA, Event("event c:a give m.bios")),
    (CA, Event("event c:a drop 1 1 ok up")),
    (CA, Event("event c:a give m.records")),
    (CA, Event("event c:a drop 1 0 ok top")),
    (CA, Event("event c:a give fs.bios")),
    (CA, Event("event c:a done 1 ok")),
];

/// What it leaves.
const RECORD_LEFT: Left = Left {
    steps: 30,
    ..TWO_LEFT
};

#[test]
fn a_writer_waits_for_a_record(rt: HostRuntime) -> Result<(), Fail> {
    run(&rt, RECORD, &[(0, MASTERS)], &RECORD_LEFT)
}

/// No writes.
const NOTHING: &str = "disk a 8\ndisk b 8\nmirror m a b\n";

/// All tasks have ended at once.
const AT_ONCE: &[Turn] = &[(R2, Ended), (CA, Ended), (CB, Ended), (R2, Ended)];

/// What it leaves.
const NOTHING_LEFT: Left = Left {
    steps: 0,
    statuses: &[],
    disks: &[(0, None), (0, None)],
};

#[test]
fn tasks_without_writes_have_ended(rt: HostRuntime) -> Result<(), Fail> {
    run(&rt, NOTHING, &[(0, AT_ONCE)], &NOTHING_LEFT)
}
