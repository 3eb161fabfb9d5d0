//! Runs of the mirror with one thing wrong each.
use crate::rows::{MIRROR, MIRRORED};
use crate::texts::{Events, replayed};
use std::alloc::{AllocError, Global};
use std::test::Fail;

/// The number of the first line behind the scenario.
const FIRST: u8 = 6;

/// Which line of the run is another one, counted from 0, what stands in its place, and how many lines stand before the bad one.
type Wrong = (usize, &'static str, u8);

const WRONG: &[Wrong] = &[
    // One is left out.
    (3, "", 3),
    (23, "", 23),
    // Two are exchanged.
    (4, "event w0 link 0 leg 2\nevent w0 take m.bios spare\n", 4),
    // One comes twice.
    (12, "event c:a give m.bios\nevent c:a give m.bios\n", 13),
    (24, "event c:b done 0 ok\nevent c:b done 0 ok\n", 25),
    // Another task, and one that is none.
    (10, "event c:b complete a 0 ok\n", 10),
    (8, "event r:a pop m\n", 8),
    (0, "event w1 take fs.bios spare\n", 0),
    // Another status.
    (10, "event c:a complete a 0 io\n", 10),
    (11, "event c:a drop 0 2 io up\n", 11),
    (24, "event c:b done 0 medium\n", 24),
    // Another pool, and another way to an element.
    (2, "event w0 take m.bios spare\n", 2),
    (4, "event w0 take m.bios ordinary\n", 4),
    (6, "event w0 take m.bios missed\n", 6),
    (14, "event w0 take m.bios missed\n", 14),
    // Another count, index, place or leg.
    (7, "event w0 punt m 2\n", 7),
    (10, "event c:a complete a 1 ok\n", 10),
    (9, "event r:m push a 0 2 leg 0\n", 9),
    (9, "event r:m push a 0 1 leg 1\n", 9),
    // Another end of a node.
    (11, "event c:a drop 0 2 ok top\n", 11),
    (13, "event c:a drop 0 1 ok up\n", 13),
    (20, "event c:b drop 0 1 ok left\n", 20),
    (22, "event c:b drop 0 0 ok up\n", 22),
    // Another way to open one, and another open node.
    (3, "event w0 link 0 chain 1\n", 3),
    (5, "event w0 link 0 master 2\n", 5),
    (11, "event c:a drop 0 1 ok left\n", 11),
    // Another write, and events of a keeper where there is one round.
    (24, "event c:b done 1 ok\n", 24),
    (24, "event k round 1\n", 24),
    (0, "event k resize fs.bios 1\n", 0),
    // The name of an open node, and a node of no name.
    (5, "event w0 link 0 leg 1\n", 5),
    (15, "event w0 link 0 leg 1\n", 15),
    (13, "event c:a drop 0 2 ok left\n", 13),
    // The book of another writer.
    (5, "event w0 link 1 leg 2\n", 5),
    (11, "event c:a drop 1 2 ok up\n", 11),
    // Lines that are none of an event.
    (2, "event w0 take m.records spare \n", 2),
    (2, "event  w0 take m.records spare\n", 2),
    (2, "event w0 take m.records spare\r\n", 2),
    (2, "event w0 take x.records spare\n", 2),
    (2, "event\n", 2),
    (5, "event w0 link 0 leg 02\n", 5),
    (5, "event w0 link 0 leg 4294967296\n", 5),
];

// The run with another line at a place.
fn with_line(alloc: Global, place: usize, line: &str) -> Result<String, AllocError> {
    let mut text = String::new(alloc);
    for (at, own) in MIRRORED.lines().enumerate() {
        if at == place {
            text.push_str(line)?;
        } else {
            text.push_str(own)?;
            text.push_str("\n")?;
        }
    }
    Ok(text)
}

// Whether such a run goes so far, and the line behind is the bad one.
fn stops(alloc: Global, wrong: &Wrong) -> Result<bool, Fail> {
    let (place, line, events) = *wrong;
    let text = with_line(alloc, place, line)?;
    let came = replayed(
        alloc,
        Events {
            scenario: MIRROR,
            first: FIRST,
            lines: &text,
        },
    )?;
    let bad = u64::from(FIRST) + u64::from(events);
    Ok(came.replayed.events == u64::from(events) && came.replayed.bad == Some(bad))
}

#[test]
fn the_first_line_that_can_not_come_is_bad(rt: HostRuntime) -> Result<(), Fail> {
    for wrong in WRONG {
        assert!(rt; stops(rt.alloc(), wrong)?, "{}", wrong.1);
    }
    Ok(())
}
