//! Replays of texts whose answers were worked out by hand from the rules, and of what runs wrote.
use crate::asks::{Case, all_hold};
use crate::calls::{ROOM, answers, make_call, owned};
use crate::made::{Part, STORAGE, STORAGE_WRITES, text_of};
use crate::texts::{MIRRORED, ONE_SECTOR, ONE_SECTOR_REPLAYED, STRIPED};
use outside_io::Sink;
use std::process::Abort;

// A scenario, the lines behind it, the status of the replay, and what that writes.
struct Replay(&'static str, &'static str, u8, &'static str);

/// The mirrored text where the mirror has no rescuer, which other commands refuse.
const UNHELPED: &str =
    "disk a 8\ndisk b 8\nmirror m a b reserve=1 records=1 rescuer=no\nmemory none\nwrite 0 m 0 1 0\n";

/// What the writer does up to its wait for a bio that only itself could give back.
const SIX: &str =
    "event w0 take fs.bios spare\nevent w0 link 0 write 0\nevent w0 take m.records spare\n\
    event w0 link 0 master 1\nevent w0 take m.bios spare\nevent w0 link 0 leg 2\n";

/// The same, and what a second writer does up to its wait for the record that the first one has.
const EIGHT: &str =
    "event w0 take fs.bios spare\nevent w0 link 0 write 0\nevent w0 take m.records spare\n\
    event w0 link 0 master 1\nevent w0 take m.bios spare\nevent w0 link 0 leg 2\n\
    event w1 take fs.bios spare\nevent w1 link 1 write 0\n";

/// What a writer to three members does up to its wait for the third bio.
const THREE_MEMBERS: &str =
    "event w0 take fs.bios spare\nevent w0 link 0 write 0\nevent w0 take m.records spare\n\
    event w0 link 0 master 1\nevent w0 take m.bios spare\nevent w0 link 0 leg 2\n\
    event w0 take m.bios spare\nevent w0 link 0 leg 3\n";

/// All that happens to the mirrored text's write where the completer of its first disk is done before the writer goes on.
const ALL: &str =
    "event w0 take fs.bios spare\nevent w0 link 0 write 0\nevent w0 take m.records spare\n\
    event w0 link 0 master 1\nevent w0 take m.bios spare\nevent w0 link 0 leg 2\nevent w0 try m.bios missed\n\
    event w0 punt m 1\nevent r:m pop m\nevent r:m push a 0 1 leg 0\nevent c:a complete a 0 ok\n\
    event c:a drop 0 2 ok up\nevent c:a give m.bios\nevent c:a drop 0 1 ok left\nevent w0 take m.bios spare\n\
    event w0 link 0 leg 2\nevent w0 push b 0 1 leg 1\nevent c:b complete b 0 ok\nevent c:b drop 0 2 ok up\n\
    event c:b give m.bios\nevent c:b drop 0 1 ok up\nevent c:b give m.records\nevent c:b drop 0 0 ok top\n\
    event c:b give fs.bios\nevent c:b done 0 ok\n";

/// All that happens to a write of one sector.
const SEVEN: &str =
    "event w0 take fs.bios ordinary\nevent w0 link 0 write 0\nevent w0 push a 0 1 leg 0\n\
    event c:a complete a 0 ok\nevent c:a drop 0 0 ok top\nevent c:a give fs.bios\nevent c:a done 0 ok\n";

/// Where nothing was done of a write.
const BAD_THIRD_LINE: &str =
    "replay events 0\nbad line 3\nend open\npool fs.bios lowest 2 most 0\npool fs.vecs lowest 2 most 0\n";

const NOTHING_DONE: &str =
    "replay events 0\nend open\npool fs.bios lowest 2 most 0\npool fs.vecs lowest 2 most 0\n";

const REPLAYS: &[Replay] = &[
    Replay(
        MIRRORED,
        ALL,
        0,
        "replay events 25\nend ended\npool fs.bios lowest 1 most 1\npool fs.vecs lowest 2 most 0\n\
         pool m.records lowest 0 most 1\npool m.bios lowest 0 most 1\n",
    ),
    Replay(ONE_SECTOR, SEVEN, 0, ONE_SECTOR_REPLAYED),
    // No event comes next but a take.
    Replay(ONE_SECTOR, "event w0 link 0 write 0\n", 1, BAD_THIRD_LINE),
    Replay(ONE_SECTOR, "event c:a done 0 ok\n", 1, BAD_THIRD_LINE),
    // A line that is not exactly one of an event: blanks, and an end with byte 13.
    Replay(
        ONE_SECTOR,
        "event w0 take fs.bios ordinary \n",
        1,
        BAD_THIRD_LINE,
    ),
    Replay(
        ONE_SECTOR,
        " event w0 take fs.bios ordinary\n",
        1,
        BAD_THIRD_LINE,
    ),
    Replay(
        ONE_SECTOR,
        "event w0 take fs.bios ordinary\r\n",
        1,
        BAD_THIRD_LINE,
    ),
    Replay(ONE_SECTOR, "event\n", 1, BAD_THIRD_LINE),
    // Nothing behind the bad line is looked at.
    Replay(
        ONE_SECTOR,
        "event w0 take fs.bios ordinary\nevent w0 push a 0 1 leg 0\nevent w0 link 0 write 0\nevent\n",
        1,
        "replay events 1\nbad line 4\nend open\npool fs.bios lowest 2 most 1\npool fs.vecs lowest 2 most 0\n",
    ),
    // Without a line of an event, and without a write.
    Replay(ONE_SECTOR, "", 0, NOTHING_DONE),
    Replay(ONE_SECTOR, "# event w0 link 0 write 0\n\n", 0, NOTHING_DONE),
    Replay(
        "",
        "",
        0,
        "replay events 0\nend ended\npool fs.bios lowest 2 most 0\npool fs.vecs lowest 2 most 0\n",
    ),
    // The trace may be less than the run.
    Replay(
        ONE_SECTOR,
        "event w0 take fs.bios ordinary",
        0,
        "replay events 1\nend open\npool fs.bios lowest 2 most 1\npool fs.vecs lowest 2 most 0\n",
    ),
    // Lines with another first word are passed over behind the first line of an event, whatever they are.
    Replay(
        ONE_SECTOR,
        "event w0 take fs.bios ordinary\nwrite 0 ok\nevents\nwrite 9 nothing\n\x01\n#event\nevent w0 link 0 write 1\n\
         event w0 push a 0 1 leg 0\ndisk a 64\nevent c:a complete a 0 ok\nevent c:a drop 0 1 ok top\nevent c:a give fs.bios\n\
         event c:a done 0 ok\nsteps 7 of 10\n",
        0,
        ONE_SECTOR_REPLAYED,
    ),
];

/// Stacks that hang, and where.
const STUCK: &[Replay] = &[
    Replay(
        UNHELPED,
        SIX,
        0,
        "replay events 6\nend stuck\npool fs.bios lowest 1 most 1\npool fs.vecs lowest 2 most 0\n\
         pool m.records lowest 0 most 1\npool m.bios lowest 0 most 1\n",
    ),
    // One event before, the writer can go on.
    Replay(
        UNHELPED,
        "event w0 take fs.bios spare\nevent w0 link 0 write 0\nevent w0 take m.records spare\n\
         event w0 link 0 master 1\nevent w0 take m.bios spare\n",
        0,
        "replay events 5\nend open\npool fs.bios lowest 1 most 1\npool fs.vecs lowest 2 most 0\n\
         pool m.records lowest 0 most 1\npool m.bios lowest 0 most 1\n",
    ),
    // A second writer can go on, up to its own wait.
    Replay(
        "disk a 8\ndisk b 8\nmirror m a b reserve=1 records=1 rescuer=no\nmemory none\nwrite 0 m 0 1 0\nwrite 1 m 4 1 0\n",
        SIX,
        0,
        "replay events 6\nend open\npool fs.bios lowest 1 most 1\npool fs.vecs lowest 2 most 0\n\
         pool m.records lowest 0 most 1\npool m.bios lowest 0 most 1\n",
    ),
    Replay(
        "disk a 8\ndisk b 8\nmirror m a b reserve=1 records=1 rescuer=no\nmemory none\nwrite 0 m 0 1 0\nwrite 1 m 4 1 0\n",
        EIGHT,
        0,
        "replay events 8\nend stuck\npool fs.bios lowest 0 most 2\npool fs.vecs lowest 2 most 0\n\
         pool m.records lowest 0 most 1\npool m.bios lowest 0 most 1\n",
    ),
    // Three members and two bios.
    Replay(
        "disk a 8\ndisk b 8\ndisk c 8\nmirror m a b c reserve=2 records=1 rescuer=no\nmemory none\nwrite 0 m 0 1 0\n",
        THREE_MEMBERS,
        0,
        "replay events 8\nend stuck\npool fs.bios lowest 1 most 1\npool fs.vecs lowest 2 most 0\n\
         pool m.records lowest 0 most 1\npool m.bios lowest 0 most 2\n",
    ),
    // A bad line where nothing can come.
    Replay(
        UNHELPED,
        "event w0 take fs.bios spare\nevent w0 link 0 write 0\nevent w0 take m.records spare\n\
         event w0 link 0 master 1\nevent w0 take m.bios spare\nevent w0 link 0 leg 2\nevent w0 take m.bios spare\n",
        1,
        "replay events 6\nbad line 12\nend stuck\npool fs.bios lowest 1 most 1\npool fs.vecs lowest 2 most 0\n\
         pool m.records lowest 0 most 1\npool m.bios lowest 0 most 1\n",
    ),
];

// A text that is refused, and the line on errors.
struct Refused(&'static [Part], &'static str);

const REFUSED: &[Refused] = &[
    Refused(
        &[Part::Once("disk a 64\nwrite 0 a\nevent w0 take fs.bios ordinary\n")],
        "biostack: line 2: 1 BadWord\n",
    ),
    // A report behind a scenario, without a line of an event.
    Refused(
        &[Part::Once("disk a 64\nwrite 0 a 0 1 0\nwrite 0 ok\n")],
        "biostack: line 3: 1 BadWord\n",
    ),
    Refused(
        &[Part::Once("disk a 64\nevents\nevent w0 take fs.bios ordinary\n")],
        "biostack: line 2: 1 BadWord\n",
    ),
    Refused(
        &[Part::Once("disk a 64\n\x01\nevent w0 take fs.bios ordinary\n")],
        "biostack: line 2: 17 NotText\n",
    ),
    // Other refusals of a device without a rescuer stay.
    Refused(
        &[Part::Once("disk a 8\nmirror m a a rescuer=no\nevent w0 take fs.bios spare\n")],
        "biostack: line 2: 5 MemberTaken\n",
    ),
    // The whole text counts.
    Refused(
        &[
            Part::Once("disk a 64\nevent w0 take fs.bios ordinary\n"),
            Part::Times(4_194_304, "\n"),
        ],
        "biostack: line 0: 16 TooLong\n",
    ),
];

// The words of a run, its text, and what the replay of that and of all that the run wrote begins with.
struct Replayed(&'static [&'static str], &'static [Part], &'static str);

const REPLAYED: &[Replayed] = &[
    Replayed(
        &["run", "--trace"],
        &[Part::Once(ONE_SECTOR)],
        ONE_SECTOR_REPLAYED,
    ),
    Replayed(
        &["run", "--trace"],
        &[Part::Once(MIRRORED)],
        "replay events 25\nend ended\npool fs.bios lowest 1 most 1\npool fs.vecs lowest 2 most 0\n\
         pool m.records lowest 0 most 1\npool m.bios lowest 0 most 1\n",
    ),
    Replayed(
        &["run", "--trace"],
        &[STORAGE, STORAGE_WRITES],
        "replay events 11318\nend ended\n",
    ),
    Replayed(
        &["run", "--trace", "--seed", "3"],
        &[Part::Once(STRIPED)],
        "replay events 28\nend ended\npool fs.bios lowest 2 most 1\npool fs.vecs lowest 2 most 0\npool s.bios lowest 2 most ",
    ),
];

// Room for the report and the trace of 12,000 events.
const TRACE_ROOM: usize = 500_000;

// The scenario, and what these words write of it.
fn traced(rt: &(impl Abort + AllocGlobal), words: &[&str], parts: &[Part]) -> Vec<u8> {
    let text = text_of(rt, parts);
    let done = make_call(rt, words, text.as_bytes(), TRACE_ROOM);
    let mut all = owned(rt, text.as_bytes());
    all.extend_from_slice(done.output.held())
        .expect(rt, "no text");
    all
}

/// Whether the first lines of a replay are these, and no line is bad.
pub fn begins(rt: &(impl Abort + AllocGlobal), text: &[u8], lines: &str) -> bool {
    let done = make_call(rt, &["replay"], text, ROOM);
    done.status == 0 && done.output.held().starts_with(lines.as_bytes())
}

impl Case for Replay {
    fn holds(&self, rt: &(impl Abort + AllocGlobal)) -> bool {
        let mut text = owned_text(rt, self.0);
        text.push_str(self.1).expect(rt, "no text");
        answers(rt, &["replay"], text.as_bytes(), self.2, &[self.3], "")
    }
}

// A text of its own.
fn owned_text(rt: &(impl Abort + AllocGlobal), text: &str) -> String {
    String::from_str(rt.alloc(), text).expect(rt, "no text")
}

impl Case for Refused {
    fn holds(&self, rt: &(impl Abort + AllocGlobal)) -> bool {
        let text = text_of(rt, self.0);
        answers(rt, &["replay"], text.as_bytes(), 3, &[], self.1)
    }
}

impl Case for Replayed {
    fn holds(&self, rt: &(impl Abort + AllocGlobal)) -> bool {
        begins(rt, &traced(rt, self.0, self.1), self.2)
    }
}

#[test]
fn a_replay_tells_how_far_lines_are_a_run(rt: HostRuntime) {
    all_hold(&rt, REPLAYS);
    all_hold(&rt, STUCK);
    all_hold(&rt, REFUSED);
}

#[test]
fn what_a_run_wrote_is_replayed_to_its_end(rt: HostRuntime) {
    all_hold(&rt, REPLAYED);
}
