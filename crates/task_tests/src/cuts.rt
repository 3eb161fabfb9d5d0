//! Runs over stripes and limits, which cut.
use crate::runs::Answer::{Blocked, Ended, Event, Waiting};
use crate::runs::{Left, Turn, run};
use crate::texts::{CA, CB, W0};
use stack_base::{DevId, PoolId, Status};
use std::test::Fail;

/// Two disks under a stripe, and a write of pieces of 3, 8, 8 and 1 sectors.
const STRIPE: &str = "disk a 64\ndisk b 64\nstripe s chunk=8 a b\nwrite 0 s 5 20 0\n";

/// The writer goes as far as it can.
const PIECES: &[Turn] = &[
    (W0, Event("event w0 take fs.bios ordinary")),
    (W0, Event("event w0 link 0 write 0")),
    (W0, Event("event w0 take s.bios ordinary")),
    (W0, Event("event w0 link 0 chain 1")),
    (W0, Event("event w0 push a 5 3 leg 0")),
    (W0, Event("event w0 take s.bios ordinary")),
    (W0, Event("event w0 link 0 chain 2")),
    (W0, Event("event w0 push b 0 8 leg 0")),
    (W0, Event("event w0 take s.bios ordinary")),
    (W0, Event("event w0 link 0 chain 3")),
    (W0, Event("event w0 push a 8 8 leg 0")),
    (W0, Event("event w0 push b 8 1 leg 0")),
    (W0, Ended),
    (W0, Ended),
];

/// The second disk ends what came to it.
const SECOND: &[Turn] = &[
    (CB, Event("event c:b complete b 0 ok")),
    (CB, Event("event c:b drop 0 2 ok up")),
    (CB, Event("event c:b give s.bios")),
    (CB, Event("event c:b drop 0 0 ok left")),
    (CB, Event("event c:b complete b 0 ok")),
    (CB, Event("event c:b drop 0 0 ok left")),
    (CB, Waiting),
    (CB, Waiting),
];

/// The first disk ends the later one of its pieces first.
const FIRST: &[Turn] = &[
    (CA, Event("event c:a complete a 1 ok")),
    (CA, Event("event c:a drop 0 3 ok up")),
    (CA, Event("event c:a give s.bios")),
    (CA, Event("event c:a drop 0 0 ok left")),
    (CA, Event("event c:a complete a 0 ok")),
    (CA, Event("event c:a drop 0 1 ok up")),
    (CA, Event("event c:a give s.bios")),
    (CA, Event("event c:a drop 0 0 ok top")),
    (CA, Event("event c:a give fs.bios")),
    (CB, Waiting),
    (CA, Event("event c:a done 0 ok")),
    (CA, Ended),
];

/// What it leaves.
const STRIPE_LEFT: Left = Left {
    steps: 28,
    statuses: &[Status::Ok],
    disks: &[(0x7c6a0, Some((5, 11))), (0x4b6e0, Some((0, 9)))],
};

#[test]
fn a_stripe_cuts_at_its_chunks(rt: HostRuntime) -> Result<(), Fail> {
    run(
        &rt,
        STRIPE,
        &[(0, PIECES), (0, SECOND), (1, FIRST)],
        &STRIPE_LEFT,
    )
}

/// Pieces of three sectors, none of which crosses a multiple of eight.
const BOUND: &str = "disk a 64\nlimit l max=3 chunk=8 a\nwrite 0 l 6 10 0\n";

/// Both tasks have a turn each, one after the other.
const IN_TURN: &[Turn] = &[
    (W0, Event("event w0 take fs.bios ordinary")),
    (CA, Waiting),
    (W0, Event("event w0 link 0 write 0")),
    (CA, Waiting),
    (W0, Event("event w0 take l.bios ordinary")),
    (CA, Waiting),
    (W0, Event("event w0 link 0 chain 1")),
    (CA, Waiting),
    (W0, Event("event w0 push a 6 2 leg 0")),
    (CA, Event("event c:a complete a 0 ok")),
    (W0, Event("event w0 take l.bios ordinary")),
    (CA, Event("event c:a drop 0 1 ok up")),
    (W0, Event("event w0 link 0 chain 2")),
    (CA, Event("event c:a give l.bios")),
    (W0, Event("event w0 push a 8 3 leg 0")),
    (CA, Event("event c:a drop 0 0 ok left")),
    (W0, Event("event w0 take l.bios ordinary")),
    (CA, Event("event c:a complete a 0 ok")),
    (W0, Event("event w0 link 0 chain 3")),
    (CA, Event("event c:a drop 0 2 ok up")),
    (W0, Event("event w0 push a 11 3 leg 0")),
    (CA, Event("event c:a give l.bios")),
    (W0, Event("event w0 push a 14 2 leg 0")),
    (CA, Event("event c:a drop 0 0 ok left")),
    (W0, Ended),
    (CA, Event("event c:a complete a 0 ok")),
    (W0, Ended),
    (CA, Event("event c:a drop 0 3 ok up")),
    (CA, Event("event c:a give l.bios")),
    (CA, Event("event c:a drop 0 0 ok left")),
    (CA, Event("event c:a complete a 0 ok")),
    (CA, Event("event c:a drop 0 0 ok top")),
    (CA, Event("event c:a give fs.bios")),
    (CA, Event("event c:a done 0 ok")),
];

/// What it leaves.
const BOUND_LEFT: Left = Left {
    steps: 28,
    statuses: &[Status::Ok],
    disks: &[(0x31ec0, Some((6, 10)))],
};

#[test]
fn no_piece_crosses_a_boundary(rt: HostRuntime) -> Result<(), Fail> {
    run(&rt, BOUND, &[(0, IN_TURN)], &BOUND_LEFT)
}

/// Pieces of three sectors.
const SHORT: &str = "disk a 64\nlimit l max=3 a\nwrite 0 l 6 10 0\n";

/// The writer goes as far as it can, and the disk ends the last piece first each time.
const BACKWARDS: &[Turn] = &[
    (W0, Event("event w0 take fs.bios ordinary")),
    (W0, Event("event w0 link 0 write 0")),
    (W0, Event("event w0 take l.bios ordinary")),
    (W0, Event("event w0 link 0 chain 1")),
    (W0, Event("event w0 push a 6 3 leg 0")),
    (W0, Event("event w0 take l.bios ordinary")),
    (W0, Event("event w0 link 0 chain 2")),
    (W0, Event("event w0 push a 9 3 leg 0")),
    (W0, Event("event w0 take l.bios ordinary")),
    (W0, Event("event w0 link 0 chain 3")),
    (W0, Event("event w0 push a 12 3 leg 0")),
    (W0, Event("event w0 push a 15 1 leg 0")),
    (W0, Ended),
    (CA, Event("event c:a complete a 3 ok")),
    (CA, Event("event c:a drop 0 0 ok left")),
    (CA, Event("event c:a complete a 2 ok")),
    (CA, Event("event c:a drop 0 3 ok up")),
    (CA, Event("event c:a give l.bios")),
    (CA, Event("event c:a drop 0 0 ok left")),
    (CA, Event("event c:a complete a 1 ok")),
    (CA, Event("event c:a drop 0 2 ok up")),
    (CA, Event("event c:a give l.bios")),
    (CA, Event("event c:a drop 0 0 ok left")),
    (CA, Event("event c:a complete a 0 ok")),
    (CA, Event("event c:a drop 0 1 ok up")),
    (CA, Event("event c:a give l.bios")),
    (CA, Event("event c:a drop 0 0 ok top")),
    (CA, Event("event c:a give fs.bios")),
    (CA, Event("event c:a done 0 ok")),
    (CA, Ended),
];

/// What it leaves.
const SHORT_LEFT: Left = Left {
    steps: 28,
    statuses: &[Status::Ok],
    disks: &[(0x31ec0, Some((6, 10)))],
};

#[test]
fn a_limit_cuts_by_length(rt: HostRuntime) -> Result<(), Fail> {
    run(&rt, SHORT, &[(64, BACKWARDS)], &SHORT_LEFT)
}

/// Limits of two sectors under a stripe.
const LIMITS: &str =
    "disk a 16\ndisk b 16\nlimit x max=2 a\nlimit y max=2 b\nstripe s chunk=4 x y\nwrite 0 s 0 8 0\n";

/// Each chunk goes down to its disk before the rest is served.
const CHUNKS: &[Turn] = &[
    (W0, Event("event w0 take fs.bios ordinary")),
    (W0, Event("event w0 link 0 write 0")),
    (W0, Event("event w0 take s.bios ordinary")),
    (W0, Event("event w0 link 0 chain 1")),
    (W0, Event("event w0 take x.bios ordinary")),
    (W0, Event("event w0 link 0 chain 2")),
    (W0, Event("event w0 push a 0 2 leg 0")),
    (W0, Event("event w0 push a 2 2 leg 0")),
    (W0, Event("event w0 take y.bios ordinary")),
    (W0, Event("event w0 link 0 chain 3")),
    (W0, Event("event w0 push b 0 2 leg 0")),
    (W0, Event("event w0 push b 2 2 leg 0")),
    (W0, Ended),
];

/// The disks have a turn each, one after the other.
const JOINED: &[Turn] = &[
    (CA, Event("event c:a complete a 0 ok")),
    (CB, Event("event c:b complete b 0 ok")),
    (CA, Event("event c:a drop 0 2 ok up")),
    (CB, Event("event c:b drop 0 3 ok up")),
    (CA, Event("event c:a give x.bios")),
    (CB, Event("event c:b give y.bios")),
    (CA, Event("event c:a drop 0 1 ok left")),
    (CB, Event("event c:b drop 0 0 ok left")),
    (CA, Event("event c:a complete a 0 ok")),
    (CB, Event("event c:b complete b 0 ok")),
    (CA, Event("event c:a drop 0 1 ok up")),
    (CB, Event("event c:b drop 0 0 ok left")),
    (CA, Event("event c:a give s.bios")),
    (CB, Waiting),
    (CA, Event("event c:a drop 0 0 ok top")),
    (CA, Event("event c:a give fs.bios")),
    (CA, Event("event c:a done 0 ok")),
    (CB, Ended),
];

/// What it leaves.
const LIMITS_LEFT: Left = Left {
    steps: 28,
    statuses: &[Status::Ok],
    disks: &[(0x7f80, Some((0, 4))), (0x17f80, Some((0, 4)))],
};

#[test]
fn a_stripe_stands_over_limits(rt: HostRuntime) -> Result<(), Fail> {
    run(&rt, LIMITS, &[(0, CHUNKS), (0, JOINED)], &LIMITS_LEFT)
}

/// The bios of the limit.
const L: PoolId = PoolId::Bios(DevId(1));

/// Pieces of one sector, one bio for them, and a script that allows the first attempt at ordinary memory alone.
const SCRIPT: &str = "disk a 64\nlimit l max=1 reserve=1 a\nscript l.bios +- -\nwrite 0 l 0 4 0\n";

/// The first piece has ordinary memory, the second one the spare, and the third one waits for a bio that comes back.
const ENTRIES: &[Turn] = &[
    (W0, Event("event w0 take fs.bios ordinary")),
    (W0, Event("event w0 link 0 write 0")),
    (W0, Event("event w0 take l.bios ordinary")),
    (W0, Event("event w0 link 0 chain 1")),
    (W0, Event("event w0 push a 0 1 leg 0")),
    (W0, Event("event w0 take l.bios spare")),
    (W0, Event("event w0 link 0 chain 2")),
    (W0, Event("event w0 push a 1 1 leg 0")),
    (W0, Blocked(L)),
    (W0, Blocked(L)),
    (CA, Event("event c:a complete a 1 ok")),
    (W0, Blocked(L)),
    (CA, Event("event c:a drop 0 2 ok up")),
    (W0, Blocked(L)),
    (CA, Event("event c:a give l.bios")),
    (W0, Event("event w0 take l.bios spare")),
    (CA, Event("event c:a drop 0 0 ok left")),
    (W0, Event("event w0 link 0 chain 2")),
    (W0, Event("event w0 push a 2 1 leg 0")),
    (W0, Event("event w0 push a 3 1 leg 0")),
    (W0, Ended),
    (CA, Event("event c:a complete a 1 ok")),
    (CA, Event("event c:a drop 0 2 ok up")),
    (CA, Event("event c:a give l.bios")),
    (CA, Event("event c:a drop 0 0 ok left")),
    (CA, Event("event c:a complete a 1 ok")),
    (CA, Event("event c:a drop 0 0 ok left")),
    (CA, Event("event c:a complete a 0 ok")),
    (CA, Event("event c:a drop 0 1 ok up")),
    (CA, Event("event c:a give l.bios")),
    (CA, Event("event c:a drop 0 0 ok top")),
    (CA, Event("event c:a give fs.bios")),
    (CA, Event("event c:a done 0 ok")),
];

/// What it leaves.
const SCRIPT_LEFT: Left = Left {
    steps: 28,
    statuses: &[Status::Ok],
    disks: &[(0x7f80, Some((0, 4)))],
};

#[test]
fn a_piece_waits_for_the_bio_of_another(rt: HostRuntime) -> Result<(), Fail> {
    run(&rt, SCRIPT, &[(1, ENTRIES)], &SCRIPT_LEFT)
}
