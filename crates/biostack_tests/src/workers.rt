//! Runs by workers. What they report of these texts is the same for any number of them, whatever the threads do.
ghost use Rattle.std.specs.Prelude.{◌≡◌, None};

use crate::asks::holds;
use crate::calls::{Done, ROOM, USAGE, is_made_of, owned, sink, words_of};
use crate::generated::{MORE_ROOM, SPARE, is_between, report_of, steps_of};
use crate::made::{Part, STORAGE, STORAGE_WRITES, text_of};
use crate::texts::{MIRRORED, MIRRORED_REPORT, NO_COUNTS, ONE_SECTOR, ONE_SECTOR_REPORT};
use bio_workers::{Gate, NoGate};
use biostack_top::biostack;
use outside_io::{MemSource, Sink, Source};
use std::process::Abort;
use std::sync::Wait;
use std::thread::Threads;

/// A text, the most workers that run it, and its report.
#[derive(Clone, Copy)]
struct Workers(&'static str, u32, &'static str);

/// Three mirrors, each a member of the next one, without memory.
pub const NESTED: &str =
    "disk a 8\ndisk b 8\ndisk c 8\ndisk d 8\nmirror x a b reserve=1 records=1\n\
    mirror y x c reserve=1 records=1\nmirror z y d reserve=1 records=1\nmemory none\nwrite 0 z 0 8 0\n";

/// What they report: each mirror takes a record and two clones.
pub const NESTED_REPORT: &str =
    "write 0 ok\ndisk a sum 000000000001ff00\nrun a 0 8\ndisk b sum 000000000001ff00\nrun b 0 8\n\
    disk c sum 000000000001ff00\nrun c 0 8\ndisk d sum 000000000001ff00\nrun d 0 8\n\
    pool fs.bios reserve 2 ordinary 0 spare 1\npool fs.vecs reserve 2 ordinary 0 spare 0\n\
    pool x.records reserve 1 ordinary 0 spare 1\npool x.bios reserve 1 ordinary 0 spare 2\n\
    pool y.records reserve 1 ordinary 0 spare 1\npool y.bios reserve 1 ordinary 0 spare 2\n\
    pool z.records reserve 1 ordinary 0 spare 1\npool z.bios reserve 1 ordinary 0 spare 2\nsteps 61 of 88\n";

/// Two writers in two rounds, whose writes share a sector.
pub const ROUNDS: &str = "disk a 8\nwrite 0 a 0 2 0\nsync\nwrite 1 a 1 2 1000\n";

/// What they report.
pub const ROUNDS_REPORT: &str = "write 0 ok\nwrite 1 ok\ndisk a sum 0000000000021ba0\nrun a 0 3\n\
    pool fs.bios reserve 2 ordinary 2 spare 0\npool fs.vecs reserve 2 ordinary 0 spare 0\nsteps 15 of 21\n";

/// A write to a mirror whose reserve is one bio, and the same with a reserve of two.
pub const RESIZED: &str =
    "disk a 8\ndisk b 8\nmirror m a b reserve=1 records=1\nmemory none\nwrite 0 m 0 1 0\nsync\nresize m.bios 2\n\
    write 0 m 0 1 64\n";

/// What it reports.
pub const RESIZED_REPORT: &str =
    "write 0 ok\nwrite 1 ok\ndisk a sum 00000000000017e0\nrun a 0 1\ndisk b sum 00000000000017e0\nrun b 0 1\n\
    pool fs.bios reserve 2 ordinary 0 spare 2\npool fs.vecs reserve 2 ordinary 0 spare 0\n\
    pool m.records reserve 1 ordinary 0 spare 2\npool m.bios reserve 2 ordinary 0 spare 4\nsteps 49 of 74\n";

const RUNS: &[Workers] = &[
    Workers("", 16, NO_COUNTS),
    Workers(ONE_SECTOR, 16, ONE_SECTOR_REPORT),
    Workers(MIRRORED, 16, MIRRORED_REPORT),
    Workers(NESTED, 8, NESTED_REPORT),
    Workers(ROUNDS, 4, ROUNDS_REPORT),
    Workers(RESIZED, 4, RESIZED_REPORT),
];

/// Makes a call of the program with a gate, with room for so many bytes of output.
pub fn make_call_by<G: Gate + Sync>(
    rt: &(impl Abort + AllocGlobal + Threads + Wait + Sync),
    words: &[&str],
    text: &[u8],
    room: usize,
    gate: &mut G,
) -> Done
    requires { G.shown gate.old ≡ None }
{
    let words = words_of(rt, words);
    let mut source = MemSource::new(owned(rt, text));
    let mut output = sink(rt, room);
    let mut errors = sink(rt, ROOM);
    let exit = biostack(
        rt,
        rt.alloc(),
        &words,
        &mut source,
        &mut output,
        &mut errors,
        gate,
    );
    let left = source.take(&mut [0; 1000]);
    Done {
        status: exit.0,
        output,
        errors,
        left,
    }
}

/// What so many workers do with a text, with a trace or with none.
pub fn run_by(
    rt: &(impl Abort + AllocGlobal + Threads + Wait + Sync),
    workers: u32,
    trace: bool,
    text: &[u8],
    room: usize,
) -> Done {
    let number = format!(in rt.alloc(); "{workers}").expect(rt, "no number");
    let words = ["run", "--workers", number.as_str(), "--trace"];
    let count = if trace { 4 } else { 3 };
    make_call_by(rt, &words[..count], text, room, &mut NoGate::new())
}

// Whether so many workers report this of a text, and nothing else.
fn reports(
    rt: &(impl Abort + AllocGlobal + Threads + Wait + Sync),
    workers: u32,
    text: &str,
    report: &str,
) -> bool {
    let done = run_by(rt, workers, false, text.as_bytes(), ROOM);
    let is_written = is_made_of(done.output.held(), &[report]);
    done.status == 0 && is_written && done.errors.held().is_empty()
}

#[test]
fn any_number_of_workers_reports_the_same(rt: HostRuntime) {
    for row in RUNS {
        for workers in 1..=row.1 {
            holds(&rt, reports(&rt, workers, row.0, row.2), row.0);
        }
    }
}

// Whether so many workers run 200 writes to the realistic stack, without memory: what they write and take is the same for all of them, and how
// often they miss is not.
fn run_storage(rt: &(impl Abort + AllocGlobal + Threads + Wait + Sync), workers: u32) -> bool {
    let text = text_of(rt, &[STORAGE, Part::Once("memory none\n"), STORAGE_WRITES]);
    let front = report_of(rt, SPARE);
    let done = run_by(rt, workers, false, text.as_bytes(), MORE_ROOM);
    let steps = steps_of(done.output.held(), front.as_str());
    done.status == 0 && is_between(steps, 11_318, 17_700)
}

#[test]
fn workers_run_a_realistic_stack_without_memory(rt: HostRuntime) {
    for workers in 1..=16_u32 {
        holds(&rt, run_storage(&rt, workers), "a realistic stack");
    }
}

/// Words that ask for workers, and are refused.
const BAD_WORDS: &[&[&str]] = &[
    &["run", "--workers", "0"],
    &["run", "--workers", "17"],
    &["run", "--workers", "x"],
    &["run", "--workers", "-1"],
    &["run", "--workers", ""],
    &["run", "--workers"],
    &["run", "--workers=0", "--trace"],
    &["run", "--workers", "2", "--workers", "2"],
    &["run", "--workers", "2", "--trace", "--trace"],
    &["run", "--workers", "2", "--seed", "1"],
    &["run", "--seed", "1", "--workers", "2", "--trace"],
    &["check", "--workers", "2"],
    &["--workers", "2"],
];

// Whether words are refused: nothing is read or written.
fn is_refused(rt: &(impl Abort + AllocGlobal + Threads + Wait + Sync), words: &[&str]) -> bool {
    let done = make_call_by(rt, words, b"x", ROOM, &mut NoGate::new());
    let is_untouched = done.output.held().is_empty() && done.left == Ok(1);
    done.status == 2 && is_untouched && done.errors.held() == USAGE.as_bytes()
}

#[test]
fn words_that_ask_for_no_workers_are_refused(rt: HostRuntime) {
    for words in BAD_WORDS {
        holds(&rt, is_refused(&rt, words), "words");
    }
}
