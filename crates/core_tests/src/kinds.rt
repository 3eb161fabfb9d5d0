//! Runs of other stacks: each of them ends.
use crate::states::{State, run};
use crate::texts::{CA, W0};
use std::test::Fail;

/// Pieces of one sector, one bio for them, and a script that refuses two takes.
const MISS: &str = "disk a 64\nlimit l max=1 reserve=1 a\nscript l.bios -- -\nwrite 0 l 0 3 0\n";

/// A take that finds no spare misses with an event while the script has an entry, and waits without one behind that.
const MISSES: &[State] = &[
    (W0, &[], "event w0 take fs.bios ordinary"),
    (W0, &[], "event w0 link 0 write 0"),
    (
        W0,
        &[
            "event w0 take l.bios ordinary",
            "event w0 take l.bios missed",
        ],
        "event w0 take l.bios spare",
    ),
    (W0, &["event w0 link 0 leg 1"], "event w0 link 0 chain 1"),
    (
        W0,
        &["event w0 push a 1 1 leg 0"],
        "event w0 push a 0 1 leg 0",
    ),
    (
        CA,
        &["event w0 take l.bios spare", "event w0 try l.bios missed"],
        "event w0 take l.bios missed",
    ),
    (
        CA,
        &["event w0 take l.bios missed"],
        "event c:a complete a 0 ok",
    ),
    (CA, &[], "event c:a drop 0 1 ok up"),
    (CA, &["event w0 take l.bios spare"], "event c:a give l.bios"),
    (W0, &[], "event c:a drop 0 0 ok left"),
    (
        W0,
        &["event w0 take l.bios missed"],
        "event w0 take l.bios spare",
    ),
    (W0, &[], "event w0 link 0 chain 1"),
    (
        W0,
        &["event w0 push a 2 1 leg 0"],
        "event w0 push a 1 1 leg 0",
    ),
    (
        W0,
        &["event w0 take l.bios missed"],
        "event w0 push a 2 1 leg 0",
    ),
    (CA, &[], "event c:a complete a 1 ok"),
    (
        CA,
        &["event c:a drop 0 0 ok top"],
        "event c:a drop 0 0 ok left",
    ),
    (
        CA,
        &["event c:a complete a 1 ok"],
        "event c:a complete a 0 ok",
    ),
    (CA, &[], "event c:a drop 0 1 ok up"),
    (CA, &[], "event c:a give l.bios"),
    (CA, &[], "event c:a drop 0 0 ok top"),
    (CA, &[], "event c:a give fs.bios"),
    (CA, &[], "event c:a done 0 ok"),
];

#[test]
fn a_miss_uses_up_an_entry(rt: HostRuntime) -> Result<(), Fail> {
    run(&rt, MISS, &[MISSES])
}

/// Two writers at one disk.
const TWO: &str = "disk a 8\nwrite 0 a 0 1 0\nwrite 1 a 1 1 64\n";

/// Each has a book of its own, and the disk ends their bios in another order than they came.
const WRITERS: &[State] = &[
    (
        W0,
        &["event w2 take fs.bios spare"],
        "event w1 take fs.bios spare",
    ),
    (
        W0,
        &["event w0 link 0 write 0"],
        "event w0 take fs.bios ordinary",
    ),
    (
        W0,
        &["event w1 link 0 write 0", "event w0 link 1 write 0"],
        "event w1 link 1 write 0",
    ),
    (
        W0,
        &["event w0 link 0 write 1", "event w1 link 1 write 0"],
        "event w0 link 0 write 0",
    ),
    (
        W0,
        &["event w0 push a 1 1 leg 0"],
        "event w1 push a 1 1 leg 0",
    ),
    (
        W0,
        &["event w1 take fs.bios spare"],
        "event w0 push a 0 1 leg 0",
    ),
    (
        CA,
        &["event c:a complete a 2 ok"],
        "event c:a complete a 1 ok",
    ),
    (
        CA,
        &["event c:a drop 1 0 ok top"],
        "event c:a drop 0 0 ok top",
    ),
    (CA, &[], "event c:a give fs.bios"),
    (CA, &["event c:a done 1 ok"], "event c:a done 0 ok"),
    (
        CA,
        &["event c:a complete a 1 ok"],
        "event c:a complete a 0 ok",
    ),
    (
        CA,
        &["event c:a drop 0 0 ok top"],
        "event c:a drop 1 0 ok top",
    ),
    (CA, &[], "event c:a give fs.bios"),
    (CA, &["event c:a done 0 ok"], "event c:a done 1 ok"),
];

#[test]
fn two_writers_have_a_book_each(rt: HostRuntime) -> Result<(), Fail> {
    run(&rt, TWO, &[WRITERS])
}

/// Limits of one sector under a stripe.
const STRIPE: &str =
    "disk a 16\ndisk b 16\nlimit l max=1 a\nlimit n max=1 b\nstripe s chunk=4 l n\nwrite 0 s 3 3 0\n";

/// The first piece of the stripe passes its limit as it is, and the second one is split there.
const PIECES: &[State] = &[
    (W0, &[], "event w0 take fs.bios ordinary"),
    (W0, &[], "event w0 link 0 write 0"),
    (
        W0,
        &["event w0 take l.bios spare"],
        "event w0 take s.bios ordinary",
    ),
    (W0, &[], "event w0 link 0 chain 1"),
    (
        W0,
        &["event w0 take l.bios spare"],
        "event w0 push a 3 1 leg 0",
    ),
    (
        W0,
        &["event w0 push b 0 2 leg 0"],
        "event w0 take n.bios spare",
    ),
    (W0, &[], "event w0 link 0 chain 2"),
    (W0, &[], "event w0 push b 0 1 leg 0"),
    (W0, &[], "event w0 push b 1 1 leg 0"),
    (CA, &[], "event c:b complete b 0 ok"),
    (CA, &[], "event c:b drop 0 2 ok up"),
    (CA, &[], "event c:a complete a 0 ok"),
    (CA, &[], "event c:a drop 0 1 ok up"),
    (CA, &["event c:b give s.bios"], "event c:b give n.bios"),
    (
        CA,
        &["event c:b drop 0 0 ok top"],
        "event c:b drop 0 0 ok left",
    ),
    (CA, &[], "event c:b complete b 0 ok"),
    (CA, &[], "event c:b drop 0 0 ok left"),
    (CA, &["event c:a give n.bios"], "event c:a give s.bios"),
    (CA, &[], "event c:a drop 0 0 ok top"),
    (CA, &[], "event c:a give fs.bios"),
    (CA, &[], "event c:a done 0 ok"),
];

#[test]
fn a_limit_under_a_stripe_splits_its_piece(rt: HostRuntime) -> Result<(), Fail> {
    run(&rt, STRIPE, &[PIECES])
}

/// A write that needs a vector, and ends in a bad range.
const LONG: &str = "disk a 64\nbad a 32 1 medium\nwrite 0 a 0 33 0\n";

/// The vector goes back before the bio, and the write ends as the range says.
const VECTOR: &[State] = &[
    (W0, &[], "event w0 take fs.bios ordinary"),
    (
        W0,
        &["event w0 link 0 write 0"],
        "event w0 take fs.vecs spare",
    ),
    (
        W0,
        &["event w0 take fs.vecs spare"],
        "event w0 link 0 write 0",
    ),
    (
        W0,
        &["event w0 push a 0 32 leg 0"],
        "event w0 push a 0 33 leg 0",
    ),
    (
        CA,
        &["event c:a complete a 0 ok"],
        "event c:a complete a 0 medium",
    ),
    (
        CA,
        &["event c:a drop 0 0 ok top"],
        "event c:a drop 0 0 medium top",
    ),
    (CA, &["event c:a give fs.bios"], "event c:a give fs.vecs"),
    (CA, &["event c:a give fs.vecs"], "event c:a give fs.bios"),
    (CA, &["event c:a done 0 ok"], "event c:a done 0 medium"),
];

#[test]
fn a_long_write_to_a_bad_range_ends_with_its_status(rt: HostRuntime) -> Result<(), Fail> {
    run(&rt, LONG, &[VECTOR])
}
