//! Runs and what their replays write.
use crate::texts::{Events, writes};
use std::test::Fail;

/// A write of one sector.
const ONE: &str = "disk a 64\nwrite 0 a 0 1 0\n";

/// A write of one sector to a mirror without memory.
pub const MIRROR: &str =
    "disk a 8\ndisk b 8\nmirror m a b reserve=1 records=1\nmemory none\nwrite 0 m 0 1 0\n";

/// The same where the mirror has no rescuer, without memory and with it.
const UNHELPED: &str =
    "disk a 8\ndisk b 8\nmirror m a b reserve=1 records=1 rescuer=no\nmemory none\nwrite 0 m 0 1 0\n";

const UNHELPED_WITH_MEMORY: &str =
    "disk a 8\ndisk b 8\nmirror m a b reserve=1 records=1 rescuer=no\nwrite 0 m 0 1 0\n";

/// All that happens to the mirror's write where the completer of its first disk is done before the writer goes on.
pub const MIRRORED: &str =
    "event w0 take fs.bios spare\nevent w0 link 0 write 0\nevent w0 take m.records spare\n\
    event w0 link 0 master 1\nevent w0 take m.bios spare\nevent w0 link 0 leg 2\nevent w0 try m.bios missed\n\
    event w0 punt m 1\nevent r:m pop m\nevent r:m push a 0 1 leg 0\nevent c:a complete a 0 ok\n\
    event c:a drop 0 2 ok up\nevent c:a give m.bios\nevent c:a drop 0 1 ok left\nevent w0 take m.bios spare\n\
    event w0 link 0 leg 2\nevent w0 push b 0 1 leg 1\nevent c:b complete b 0 ok\nevent c:b drop 0 2 ok up\n\
    event c:b give m.bios\nevent c:b drop 0 1 ok up\nevent c:b give m.records\nevent c:b drop 0 0 ok top\n\
    event c:b give fs.bios\nevent c:b done 0 ok\n";

/// The same with other names of its nodes.
const RENAMED: &str =
    "event w0 take fs.bios spare\nevent w0 link 0 write 7\nevent w0 take m.records spare\n\
    event w0 link 0 master 4000000000\nevent w0 take m.bios spare\nevent w0 link 0 leg 0\nevent w0 try m.bios missed\n\
    event w0 punt m 1\nevent r:m pop m\nevent r:m push a 0 1 leg 0\nevent c:a complete a 0 ok\n\
    event c:a drop 0 0 ok up\nevent c:a give m.bios\nevent c:a drop 0 4000000000 ok left\nevent w0 take m.bios spare\n\
    event w0 link 0 leg 7777\nevent w0 push b 0 1 leg 1\nevent c:b complete b 0 ok\nevent c:b drop 0 7777 ok up\n\
    event c:b give m.bios\nevent c:b drop 0 4000000000 ok up\nevent c:b give m.records\nevent c:b drop 0 7 ok top\n\
    event c:b give fs.bios\nevent c:b done 0 ok\n";

const ALL_OF_IT: &str =
    "replay events 25\nend ended\npool fs.bios lowest 1 most 1\npool fs.vecs lowest 2 most 0\n\
    pool m.records lowest 0 most 1\npool m.bios lowest 0 most 1\n";

/// The first of these events, up to the wait for a bio that only the same task could give back.
const SIX: &str =
    "event w0 take fs.bios spare\nevent w0 link 0 write 0\nevent w0 take m.records spare\n\
    event w0 link 0 master 1\nevent w0 take m.bios spare\nevent w0 link 0 leg 2\n";

const SIX_STUCK: &str =
    "replay events 6\nend stuck\npool fs.bios lowest 1 most 1\npool fs.vecs lowest 2 most 0\n\
    pool m.records lowest 0 most 1\npool m.bios lowest 0 most 1\n";

const SIX_OPEN: &str =
    "replay events 6\nend open\npool fs.bios lowest 1 most 1\npool fs.vecs lowest 2 most 0\n\
    pool m.records lowest 0 most 1\npool m.bios lowest 0 most 1\n";

/// A mirror of three without a rescuer, and such a one with two bios. The one waits for the second leg's bio, the other for
/// the third's: each is one that only the same task could give back.
const THREE: &str =
    "disk a 8\ndisk b 8\ndisk c 8\nmirror m a b c reserve=1 records=1 rescuer=no\nmemory none\nwrite 0 m 0 1 0\n";

const THREE_WITH_TWO: &str =
    "disk a 8\ndisk b 8\ndisk c 8\nmirror m a b c reserve=2 records=1 rescuer=no\nmemory none\nwrite 0 m 0 1 0\n";

const EIGHT: &str =
    "event w0 take fs.bios spare\nevent w0 link 0 write 0\nevent w0 take m.records spare\n\
    event w0 link 0 master 1\nevent w0 take m.bios spare\nevent w0 link 0 leg 2\n\
    event w0 take m.bios spare\nevent w0 link 0 leg 3\n";

const EIGHT_STUCK: &str =
    "replay events 8\nend stuck\npool fs.bios lowest 1 most 1\npool fs.vecs lowest 2 most 0\n\
    pool m.records lowest 0 most 1\npool m.bios lowest 0 most 2\n";

/// A run of the single write.
const SEVEN: &str =
    "event w0 take fs.bios ordinary\nevent w0 link 0 write 0\nevent w0 push a 0 1 leg 0\n\
    event c:a complete a 0 ok\nevent c:a drop 0 0 ok top\nevent c:a give fs.bios\nevent c:a done 0 ok\n";

/// Its first event, among lines that tell none, and the second with a blank before it.
const AMONG_OTHERS: &str =
    "write 0 ok\nevent w0 take fs.bios ordinary\n\n# event w0 take fs.bios spare\nevents\n\
    \x01 \n event w0 link 0 write 0\nevent w0 link 0 write 0\n";

/// A scenario, the number of the first line behind it, the lines of events, and what their replay writes.
type Row = (&'static str, u8, &'static str, &'static str);

const ROWS: &[Row] = &[
    (MIRROR, 6, MIRRORED, ALL_OF_IT),
    (MIRROR, 6, RENAMED, ALL_OF_IT),
    (UNHELPED, 6, SIX, SIX_STUCK),
    (THREE, 7, SIX, SIX_STUCK),
    (THREE_WITH_TWO, 7, EIGHT, EIGHT_STUCK),
    // A bio from ordinary memory could come, but nothing that needs none.
    (UNHELPED_WITH_MEMORY, 5, SIX, SIX_STUCK),
    // With a rescuer the task tries for the next bio, and misses.
    (MIRROR, 6, SIX, SIX_OPEN),
    (
        ONE,
        3,
        SEVEN,
        "replay events 7\nend ended\npool fs.bios lowest 2 most 1\npool fs.vecs lowest 2 most 0\n",
    ),
    (
        ONE,
        3,
        "event c:a done 0 ok\n",
        "replay events 0\nbad line 3\nend open\npool fs.bios lowest 2 most 0\npool fs.vecs lowest 2 most 0\n",
    ),
    (
        ONE,
        3,
        "event w0 link 0 write 0",
        "replay events 0\nbad line 3\nend open\npool fs.bios lowest 2 most 0\npool fs.vecs lowest 2 most 0\n",
    ),
    (
        ONE,
        3,
        "",
        "replay events 0\nend open\npool fs.bios lowest 2 most 0\npool fs.vecs lowest 2 most 0\n",
    ),
    (
        ONE,
        3,
        AMONG_OTHERS,
        "replay events 1\nbad line 9\nend open\npool fs.bios lowest 2 most 1\npool fs.vecs lowest 2 most 0\n",
    ),
    // Without a write all is done.
    (
        "disk a 64\n",
        2,
        "",
        "replay events 0\nend ended\npool fs.bios lowest 2 most 0\npool fs.vecs lowest 2 most 0\n",
    ),
];

#[test]
fn replays_write_how_far_runs_go_and_what_they_leave(rt: HostRuntime) -> Result<(), Fail> {
    for (scenario, first, lines, answer) in ROWS {
        let events = Events {
            scenario,
            first: *first,
            lines,
        };
        assert!(rt; writes(rt.alloc(), events, answer)?, "{lines}");
    }
    Ok(())
}
