//! Runs in which tasks wait for elements: each of them ends.
use crate::states::{State, run};
use crate::texts::{CA, W0, W1};
use std::test::Fail;

/// A limit over a limit that has one bio and a rescuer, and no ordinary memory.
const NARROW: &str =
    "disk a 8\nlimit k max=1 reserve=1 rescuer=yes a\nlimit l max=2 k\nmemory none\nwrite 0 l 0 6 0\n";

/// While a rest waits in its lists, the writer tries for a bio of the lower limit. None of that set is there to be handed over.
const TRIES: &[State] = &[
    (W0, &[], "event w0 take fs.bios spare"),
    (W0, &[], "event w0 link 0 write 0"),
    (
        W0,
        &["event w0 try l.bios spare"],
        "event w0 take l.bios spare",
    ),
    (W0, &[], "event w0 link 0 chain 1"),
    (
        W0,
        &["event w0 take k.bios spare"],
        "event w0 try k.bios spare",
    ),
    (W0, &[], "event w0 link 0 chain 2"),
    (
        W0,
        &["event w0 push a 0 2 leg 0"],
        "event w0 push a 0 1 leg 0",
    ),
    (
        W0,
        &["event w0 try k.bios missed"],
        "event w0 push a 1 1 leg 0",
    ),
    (W0, &[], "event w0 take l.bios spare"),
    (W0, &[], "event w0 link 0 chain 3"),
    (
        W0,
        &[
            "event w0 take k.bios missed",
            "event w0 try k.bios spare",
            "event w0 try k.bios ordinary",
        ],
        "event w0 try k.bios missed",
    ),
    (
        W0,
        &["event w0 punt k 1", "event w0 punt l 0"],
        "event w0 punt k 0",
    ),
    (
        CA,
        &[
            "event w0 take k.bios spare",
            "event w0 take k.bios missed",
            "event w0 try k.bios missed",
            "event r:k pop k",
        ],
        "event c:a complete a 0 ok",
    ),
];

/// The attempt behind it waits, and so does the first one of the last piece, where nothing is in the lists.
const WAITS: &[State] = &[
    (CA, &[], "event c:a drop 0 2 ok up"),
    (CA, &[], "event c:a give k.bios"),
    (
        W0,
        &["event w0 try k.bios spare"],
        "event w0 take k.bios spare",
    ),
    (W0, &[], "event w0 link 0 chain 2"),
    (W0, &[], "event w0 push a 2 1 leg 0"),
    (W0, &[], "event w0 push a 3 1 leg 0"),
    (
        CA,
        &["event w0 take k.bios spare", "event w0 try k.bios missed"],
        "event c:a drop 0 1 ok left",
    ),
    (CA, &[], "event c:a complete a 1 ok"),
    (CA, &[], "event c:a drop 0 2 ok up"),
    (CA, &[], "event c:a give k.bios"),
    (W0, &[], "event w0 take k.bios spare"),
    (W0, &[], "event w0 link 0 chain 2"),
    (W0, &[], "event w0 push a 4 1 leg 0"),
    (W0, &[], "event w0 push a 5 1 leg 0"),
    (
        CA,
        &["event c:a drop 0 3 ok up"],
        "event c:a drop 0 3 ok left",
    ),
];

/// Each piece ends with its second part.
const ENDS: &[State] = &[
    (CA, &[], "event c:a complete a 0 ok"),
    (CA, &[], "event c:a drop 0 1 ok up"),
    (CA, &[], "event c:a give l.bios"),
    (CA, &[], "event c:a drop 0 0 ok left"),
    (CA, &[], "event c:a complete a 0 ok"),
    (CA, &[], "event c:a drop 0 3 ok up"),
    (CA, &[], "event c:a give l.bios"),
    (CA, &[], "event c:a drop 0 0 ok left"),
    (CA, &[], "event c:a complete a 0 ok"),
    (CA, &[], "event c:a drop 0 2 ok up"),
    (CA, &[], "event c:a give k.bios"),
    (CA, &[], "event c:a drop 0 0 ok left"),
    (CA, &[], "event c:a complete a 0 ok"),
    (CA, &[], "event c:a drop 0 0 ok top"),
    (CA, &[], "event c:a give fs.bios"),
    (CA, &[], "event c:a done 0 ok"),
];

/// Two writes of one writer.
const TWICE: &str = "disk a 8\nwrite 0 a 0 1 0\nwrite 0 a 1 1 64\n";

/// The second one begins while the first one is open, and ends before it.
const BEHIND: &[State] = &[
    (W0, &[], "event w0 take fs.bios spare"),
    (W0, &[], "event w0 link 0 write 1"),
    (
        W0,
        &["event w0 take fs.bios spare"],
        "event w0 push a 0 1 leg 0",
    ),
    (
        W0,
        &["event w0 link 0 write 0"],
        "event w0 take fs.bios spare",
    ),
    (
        W0,
        &["event w0 link 0 write 1", "event w0 link 0 write 2"],
        "event w0 link 0 write 0",
    ),
    (
        W0,
        &["event w0 push a 0 1 leg 0"],
        "event w0 push a 1 1 leg 0",
    ),
    (
        CA,
        &["event w0 take fs.bios ordinary"],
        "event c:a complete a 1 ok",
    ),
    (
        CA,
        &["event c:a drop 0 1 ok top"],
        "event c:a drop 0 0 ok top",
    ),
    (CA, &[], "event c:a give fs.bios"),
    (CA, &["event c:a done 0 ok"], "event c:a done 1 ok"),
    (CA, &[], "event c:a complete a 0 ok"),
    (CA, &[], "event c:a drop 0 1 ok top"),
    (CA, &[], "event c:a give fs.bios"),
    (CA, &["event c:a done 1 ok"], "event c:a done 0 ok"),
];

/// Two writers that each need the one vector.
const LONG: &str = "fs vecs=1\ndisk a 128\nmemory none\nwrite 0 a 0 33 0\nwrite 1 a 64 33 0\n";

/// The second one waits with its bio in hand until the first one gives the vector back.
const VECTORS: &[State] = &[
    (W0, &[], "event w0 take fs.bios spare"),
    (W0, &[], "event w0 take fs.vecs spare"),
    (W0, &[], "event w1 take fs.bios spare"),
    (
        W0,
        &[
            "event w1 take fs.vecs spare",
            "event w1 take fs.vecs missed",
            "event w1 link 1 write 0",
        ],
        "event w0 link 0 write 0",
    ),
    (W0, &[], "event w0 push a 0 33 leg 0"),
    (
        CA,
        &["event w1 take fs.vecs spare"],
        "event c:a complete a 0 ok",
    ),
    (CA, &[], "event c:a drop 0 0 ok top"),
    (CA, &["event c:a give fs.bios"], "event c:a give fs.vecs"),
    (W1, &[], "event w1 take fs.vecs spare"),
    (W1, &[], "event w1 link 1 write 0"),
    (W1, &[], "event w1 push a 64 33 leg 0"),
    (CA, &[], "event c:a give fs.bios"),
    (CA, &[], "event c:a done 0 ok"),
    (CA, &[], "event c:a complete a 0 ok"),
    (CA, &[], "event c:a drop 1 0 ok top"),
    (CA, &[], "event c:a give fs.vecs"),
    (CA, &[], "event c:a give fs.bios"),
    (CA, &[], "event c:a done 1 ok"),
];

/// One bio, a script of two entries, and three writes.
const SCRIPT: &str =
    "fs bios=1\ndisk a 8\nscript fs.bios -+ -\nwrite 0 a 0 1 0\nwrite 0 a 1 1 64\nwrite 0 a 2 1 128\n";

/// The first take may have no ordinary memory, the second one may and is refused it, and behind the entries the writer waits.
const ENTRIES: &[State] = &[
    (
        W0,
        &[
            "event w0 take fs.bios ordinary",
            "event w0 take fs.bios missed",
        ],
        "event w0 take fs.bios spare",
    ),
    (W0, &[], "event w0 link 0 write 0"),
    (W0, &[], "event w0 push a 0 1 leg 0"),
    (
        CA,
        &["event w0 take fs.bios spare"],
        "event w0 take fs.bios missed",
    ),
    (
        CA,
        &[
            "event w0 take fs.bios ordinary",
            "event w0 take fs.bios missed",
            "event w0 take fs.bios spare",
        ],
        "event c:a complete a 0 ok",
    ),
    (CA, &[], "event c:a drop 0 0 ok top"),
    (CA, &[], "event c:a give fs.bios"),
    (
        W0,
        &["event w0 take fs.bios ordinary"],
        "event w0 take fs.bios spare",
    ),
    (W0, &[], "event w0 link 0 write 0"),
    (W0, &[], "event w0 push a 1 1 leg 0"),
    (CA, &["event w0 take fs.bios spare"], "event c:a done 0 ok"),
    (CA, &[], "event c:a complete a 0 ok"),
    (CA, &[], "event c:a drop 0 0 ok top"),
    (CA, &[], "event c:a give fs.bios"),
    (W0, &[], "event w0 take fs.bios spare"),
    (W0, &[], "event w0 link 0 write 2"),
    (W0, &[], "event w0 push a 2 1 leg 0"),
    (CA, &[], "event c:a done 1 ok"),
    (CA, &[], "event c:a complete a 0 ok"),
    (CA, &[], "event c:a drop 0 2 ok top"),
    (CA, &[], "event c:a give fs.bios"),
    (CA, &[], "event c:a done 2 ok"),
];

#[test]
fn an_attempt_beside_a_rest_does_not_wait(rt: HostRuntime) -> Result<(), Fail> {
    run(&rt, NARROW, &[TRIES, WAITS, ENDS])
}

#[test]
fn a_writer_begins_before_its_last_write_is_done(rt: HostRuntime) -> Result<(), Fail> {
    run(&rt, TWICE, &[BEHIND])
}

#[test]
fn a_writer_waits_for_a_vector(rt: HostRuntime) -> Result<(), Fail> {
    run(&rt, LONG, &[VECTORS])
}

#[test]
fn a_refused_attempt_uses_its_entry(rt: HostRuntime) -> Result<(), Fail> {
    run(&rt, SCRIPT, &[ENTRIES])
}
