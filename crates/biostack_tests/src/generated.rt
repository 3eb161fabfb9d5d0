//! Runs of many writes: by the schedules of many numbers, of a realistic stack, and of a generated text.
use crate::asks::{Case, all_hold, holds};
use crate::calls::{ROOM, answers, make_call};
use crate::made::{Part, STORAGE, STORAGE_WRITES, text_of};
use crate::texts::{MIRRORED, MIRRORED_REPORT};
use outside_io::Sink;
use std::alloc::AllocError;
use std::process::Abort;
use work_text::generate;

/// More than the report of 200 writes has.
pub const MORE_ROOM: usize = 16_384;

/// A number of a schedule of the mirrored text.
#[derive(Clone, Copy)]
struct Seed(u64);

impl Case for Seed {
    fn holds(&self, rt: &(impl Abort + AllocGlobal)) -> bool {
        let number = format!(in rt.alloc(); "{}", self.0).expect(rt, "no number");
        let words = ["run", "--seed", number.as_str()];
        answers(rt, &words, MIRRORED.as_bytes(), 0, &[MIRRORED_REPORT], "")
    }
}

#[test]
fn each_schedule_misses_once_at_a_mirror_of_one_spare(rt: HostRuntime) {
    for number in 0..=50_u64 {
        all_hold(&rt, &[Seed(number)]);
    }
}

/// What the 200 writes to the realistic stack leave on its disks.
const STORAGE_DISKS: &str =
    "disk d0 sum 000003a61110b400\nrun d0 0 31328\ndisk d1 sum 000003a427f0c000\nrun d1 0 31232\n\
    disk d2 sum 000003a61110b400\nrun d2 0 31328\ndisk d3 sum 000003a427f0c000\nrun d3 0 31232\n";

/// What they take: 200 bios and 120 vectors, 954 splits, all at the ends of chunks, 200 records and 400 clones.
const ORDINARY: &str =
    "pool fs.bios reserve 2 ordinary 200 spare 0\npool fs.vecs reserve 2 ordinary 120 spare 0\n\
    pool l0.bios reserve 2 ordinary 0 spare 0\npool l1.bios reserve 2 ordinary 0 spare 0\n\
    pool l2.bios reserve 2 ordinary 0 spare 0\npool l3.bios reserve 2 ordinary 0 spare 0\n\
    pool s0.bios reserve 2 ordinary 477 spare 0\npool s1.bios reserve 2 ordinary 477 spare 0\n\
    pool m.records reserve 2 ordinary 200 spare 0\npool m.bios reserve 2 ordinary 400 spare 0\n";

/// The same without memory.
pub const SPARE: &str =
    "pool fs.bios reserve 2 ordinary 0 spare 200\npool fs.vecs reserve 2 ordinary 0 spare 120\n\
    pool l0.bios reserve 2 ordinary 0 spare 0\npool l1.bios reserve 2 ordinary 0 spare 0\n\
    pool l2.bios reserve 2 ordinary 0 spare 0\npool l3.bios reserve 2 ordinary 0 spare 0\n\
    pool s0.bios reserve 2 ordinary 0 spare 477\npool s1.bios reserve 2 ordinary 0 spare 477\n\
    pool m.records reserve 2 ordinary 0 spare 200\npool m.bios reserve 2 ordinary 0 spare 400\n";

// Appends the report of the 200 writes, up to the number of steps.
fn report(text: &mut String, pools: &str) -> Result<(), AllocError> {
    for number in 0..200_u64 {
        writeln!(text, "write {number} ok")?;
    }
    write!(text, "{STORAGE_DISKS}{pools}steps ")
}

// The report of the 200 writes, up to the number of steps.
pub fn report_of(rt: &(impl Abort + AllocGlobal), pools: &str) -> String {
    let mut text = String::new(rt.alloc());
    report(&mut text, pools).expect(rt, "no report");
    text
}

// The number behind a front of a report, whose last words are those of the bound.
pub fn steps_of(report: &[u8], front: &str) -> Option<u64> {
    let digits = report
        .strip_prefix(front.as_bytes())?
        .strip_suffix(b" of 17700\n")?;
    let mut steps: u64 = 0;
    for digit in digits {
        if !digit.is_ascii_digit() {
            return None;
        }
        steps = steps
            .wrapping_mul(10)
            .wrapping_add(u64::from(digit.wrapping_sub(b'0')));
    }
    Some(steps)
}

/// The number of a schedule of the realistic stack, whether there is memory, and the least and the most steps.
#[derive(Clone, Copy)]
struct Storage(u64, bool, u64, u64);

impl Case for Storage {
    fn holds(&self, rt: &(impl Abort + AllocGlobal)) -> bool {
        let Storage(number, has_memory, least, most) = *self;
        let memory = if has_memory { "" } else { "memory none\n" };
        let text = text_of(rt, &[STORAGE, Part::Once(memory), STORAGE_WRITES]);
        let front = report_of(rt, if has_memory { ORDINARY } else { SPARE });
        let seed = format!(in rt.alloc(); "--seed={number}").expect(rt, "no word");
        let words = ["run", seed.as_str()];
        let done = make_call(rt, &words, text.as_bytes(), MORE_ROOM);
        let steps = steps_of(done.output.held(), front.as_str());
        done.status == 0 && is_between(steps, least, most)
    }
}

// Whether there is a number, and it lies between these.
pub fn is_between(number: Option<u64>, least: u64, most: u64) -> bool {
    match number {
        Some(number) => least <= number && number <= most,
        None => false,
    }
}

#[test]
fn a_realistic_stack_runs_with_memory(rt: HostRuntime) {
    // Where no take misses, the layout fixes the number of events.
    all_hold(&rt, &[Storage(0, true, 11_318, 11_318)]);
}

#[test]
fn a_realistic_stack_runs_without_memory(rt: HostRuntime) {
    for number in 1..=20_u64 {
        all_hold(&rt, &[Storage(number, false, 11_318, 17_700)]);
    }
}

// The text of 7.
fn text_of_7(rt: &(impl Abort + AllocGlobal)) -> Vec<u8> {
    generate(rt.alloc(), 7).expect(rt, "no text")
}

// Whether `gen` shows the text of its number, and reads nothing.
fn shows_text(rt: &(impl Abort + AllocGlobal), words: &[&str]) -> bool {
    let text = text_of_7(rt);
    let done = make_call(rt, words, b"disk", MORE_ROOM);
    let is_shown = done.output.held() == text.as_slice();
    is_shown && done.status == 0 && done.left == Ok(4)
}

// Whether the lines of a summary behind its first one are those of a report that tell sums and steps.
fn has_sums(summary: &[u8], report: &[u8]) -> bool {
    let mut told = summary.split(|byte| *byte == b'\n').skip(1);
    for line in report.split(|byte| *byte == b'\n') {
        let is_told = line.starts_with(b"disk ") || line.starts_with(b"steps ");
        if is_told && told.next() != Some(line) {
            return false;
        }
    }
    told.next() == Some(b"".as_slice()) && told.next().is_none()
}

// Whether `gen` runs the text of its number by the schedule of that number, and tells what it had and left. The text of 7 has 12 lines of
// declarations and 236 writes, of which the last one is of 302 sectors from sector 64,986 on.
fn runs_text(rt: &(impl Abort + AllocGlobal)) -> bool {
    let text = text_of_7(rt);
    let run = make_call(rt, &["run", "--seed", "7"], text.as_slice(), MORE_ROOM);
    let done = make_call(rt, &["gen", "7"], b"disk", ROOM);
    let summary = done.output.held();
    let has_front = summary.starts_with(b"gen 7 writes 236 sectors 65288\ndisk d0 sum ");
    let has_sums = has_sums(summary, run.output.held());
    has_front && has_sums && run.status == 0 && done.status == 0 && done.left == Ok(4)
}

// Whether `gen` writes the same bytes twice.
fn is_the_same(rt: &(impl Abort + AllocGlobal)) -> bool {
    let once = make_call(rt, &["gen", "7"], b"", ROOM);
    let again = make_call(rt, &["gen", "7"], b"", ROOM);
    once.output.held() == again.output.held()
}

#[test]
fn gen_shows_and_runs_the_text_of_its_number(rt: HostRuntime) {
    holds(
        &rt,
        shows_text(&rt, &["gen", "7", "--text"]),
        "gen 7 --text",
    );
    holds(
        &rt,
        shows_text(&rt, &["gen", "--text", "7"]),
        "gen --text 7",
    );
    holds(
        &rt,
        shows_text(&rt, &["gen", "007", "--text"]),
        "gen 007 --text",
    );
    holds(&rt, runs_text(&rt), "gen 7");
    holds(&rt, is_the_same(&rt), "gen 7 twice");
}
