//! Disks of the model.
ghost use Rattle.std.specs.Prelude.{IsTrue};
ghost use Rattle.bio_records.specs.Items.{IsAlone};
ghost use Rattle.model_disks.specs.Disks.{IsBadRange};

mod table;

use crate::asks::{Case, all_hold, holds};
use crate::bios::{bio_of, element_of, shows};
use crate::disks::table::{CASES, ENDS, Row, Runs, THREE};
use bio_records::{Bio, BioElement};
use model_disks::Disk;
use stack_base::{Bad, DevId, Range, Status};
use std::process::Abort;

// The first run of written sectors, and the one behind it.
#[tactic(auto, using(model_disks::proofs::WrittenLemmas::apart_at_start))]
fn two_runs(disk: &Disk) -> (Option<Range>, Option<Range>) {
    let Some(run) = disk.next_run(0) else {
        return (None, None);
    };
    (Some(run), disk.next_run(run.start + run.len))
}

// The first run past the disk.
#[tactic(auto, using(model_disks::proofs::WrittenLemmas::apart_past))]
fn run_past(disk: &Disk) -> Option<Range> {
    disk.next_run(disk.sectors())
}

// Whether a bad range is one of a disk of so many sectors.
fn is_within(sectors: u64, bad: Bad) -> bool
    ensures { IsTrue result → IsBadRange sectors bad }
{
    let Range { start, len } = bad.range;
    len > 0 && start <= sectors && len <= sectors - start && bad.kind != Status::Ok
}

// Device 2 as a disk of so many sectors, which may have a bad range within it.
fn open(rt: &(impl Abort + AllocGlobal), sectors: u64, bad: Option<Bad>) -> Disk {
    let opened = match bad {
        Some(bad) if is_within(sectors, bad) => Disk::open(rt.alloc(), DevId(2), sectors, &[bad]),
        _ => Disk::open(rt.alloc(), DevId(2), sectors, &[]),
    };
    opened.expect(rt, "no disk")
}

// Pushes a bio to a disk, where it has its sectors.
fn push(disk: &mut Disk, element: BioElement)
    requires { IsAlone element }
{
    let Range { start, len } = element.body.bio.range;
    if len <= disk.sectors() && start <= disk.sectors() - len {
        disk.push(element);
    }
}

// A disk with the bios of writes 0 and up.
fn open_with(
    rt: &(impl Abort + AllocGlobal),
    sectors: u64,
    bad: Option<Bad>,
    pushed: &[(Range, u64)],
) -> Disk {
    let mut disk = open(rt, sectors, bad);
    let mut write: u32 = 0;
    for (range, word) in pushed {
        push(&mut disk, element_of(rt, bio_of(write, *range, *word)));
        write = write.wrapping_add(1);
    }
    disk
}

// The bio at a place where one waits is done: the bio, and how it ended.
fn complete(disk: &mut Disk, index: u64) -> Option<(Bio, Status)> {
    if index >= disk.pending() {
        return None;
    }
    let done = disk.complete(index);
    Some((done.el.body.bio, done.status))
}

// Completes bios, which have to be those of the writes, as they were pushed, and to end so.
fn complete_all(disk: &mut Disk, row: &Row) -> bool {
    for (index, write, status) in row.done {
        let Some((range, word)) = row.pushed.get(*write as usize) else {
            return false;
        };
        if complete(disk, *index) != Some((bio_of(*write, *range, *word), *status)) {
            return false;
        }
    }
    true
}

// The word at a place of an image to which these bios were written.
fn word_at(row: &Row, place: u64) -> u64 {
    let sector = place / 64;
    for (_, write, status) in row.done {
        if let Some((range, word)) = row.pushed.get(*write as usize)
            && *status == Status::Ok
            && sector >= range.start
            && sector - range.start < range.len
        {
            return word.wrapping_add(place.wrapping_sub(range.start.wrapping_mul(64)));
        }
    }
    0
}

// Whether an image has the words of all sectors, of which those of bios that ended well are written.
fn is_written(image: &[u64], row: &Row) -> bool {
    let mut place: u64 = 0;
    for word in image {
        if *word != word_at(row, place) {
            return false;
        }
        place = place.wrapping_add(1);
    }
    place / 64 == row.sectors
}

// Whether so many bios wait in a disk, and its sum and its first two runs are these.
fn is_left(disk: &Disk, pending: usize, sum: u64, runs: Runs) -> bool {
    disk.pending() == pending as u64
        && disk.sum() == sum
        && two_runs(disk) == runs
        && run_past(disk).is_none()
}

// How many words a disk keeps side by side from a sector on, or 0 where it has no such sector.
fn kept_from(disk: &Disk, sector: u64) -> usize {
    if sector >= disk.sectors() {
        return 0;
    }
    disk.rest(sector).len()
}

// Whether a disk shows what it was declared with, and keeps no word of its first sector.
fn is_fresh(disk: &Disk, row: &Row) -> bool {
    disk.dev() == DevId(2)
        && disk.sectors() == row.sectors
        && disk.bad().first().copied() == row.bad
        && kept_from(disk, 0) == 0
        && is_left(disk, row.pushed.len(), 0, (None, None))
}

impl Case for Row {
    // Whether a disk holds what was pushed and completed.
    fn holds(&self, rt: &(impl Abort + AllocGlobal)) -> bool {
        let mut disk = open_with(rt, self.sectors, self.bad, self.pushed);
        let is_fresh = is_fresh(&disk, self);
        let are_its = complete_all(&mut disk, self);
        let is_left = is_left(&disk, 0, self.sum, self.runs);
        let is_written = is_written(disk.image(), self);
        is_fresh && are_its && is_left && is_written
    }
}

// Whether a disk shows the bios that wait.
fn shows_waiting(rt: &(impl Abort + AllocGlobal)) -> bool {
    let mut disk = open_with(rt, 4, None, THREE);
    let are_three = shows(disk.waiting(), &[0, 1, 2]);
    let _second = complete(&mut disk, 1);
    let are_two = shows(disk.waiting(), &[0, 2]);
    are_three && are_two
}

// How many words a disk of 1,000 sectors keeps from its first, its sector 64 and its last one on, when its last one was written.
fn kept_words(rt: &(impl Abort + AllocGlobal)) -> [usize; 3] {
    let mut disk = open_with(rt, 1000, None, ENDS);
    let _last = complete(&mut disk, 1);
    [
        kept_from(&disk, 0),
        kept_from(&disk, 64),
        kept_from(&disk, 999),
    ]
}

#[test]
fn disks_hold_what_was_pushed_and_completed(rt: HostRuntime) {
    all_hold(&rt, CASES);
    holds(
        &rt,
        shows(open(&rt, 4, None).waiting(), &[]),
        "no bio waits",
    );
    holds(&rt, shows_waiting(&rt), "the bios that wait");
    holds(&rt, kept_words(&rt) == [0, 0, 64], "the pages written");
}
