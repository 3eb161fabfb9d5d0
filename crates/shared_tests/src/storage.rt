//! Two hundred writes to a mirror of stripes over limited disks, and their report.
use std::alloc::{AllocError, Global};

/// The stack.
const STACK: &str = "disk d0 32768\ndisk d1 32768\ndisk d2 32768\ndisk d3 32768\n\
     limit l0 max=256 d0\nlimit l1 max=256 d1\nlimit l2 max=256 d2\nlimit l3 max=256 d3\n\
     stripe s0 chunk=128 l0 l1\nstripe s1 chunk=128 l2 l3\nmirror m s0 s1\n";

/// How many sectors each write has, in turn.
const COUNTS: &[u64] = &[8, 16, 32, 64, 128, 256, 24, 40, 512, 2048];

/// What the writes leave on the disks.
const DISKS: &str =
    "disk d0 sum 000003a61110b400\nrun d0 0 31328\ndisk d1 sum 000003a427f0c000\nrun d1 0 31232\n\
     disk d2 sum 000003a61110b400\nrun d2 0 31328\ndisk d3 sum 000003a427f0c000\nrun d3 0 31232\n";

/// What they take: 200 bios, 120 vectors, 200 records, 400 clones and 954 splits, all at the ends of chunks. No take misses.
const POOLS: &str =
    "pool fs.bios reserve 2 ordinary 200 spare 0\npool fs.vecs reserve 2 ordinary 120 spare 0\n\
     pool l0.bios reserve 2 ordinary 0 spare 0\npool l1.bios reserve 2 ordinary 0 spare 0\n\
     pool l2.bios reserve 2 ordinary 0 spare 0\npool l3.bios reserve 2 ordinary 0 spare 0\n\
     pool s0.bios reserve 2 ordinary 477 spare 0\npool s1.bios reserve 2 ordinary 477 spare 0\n\
     pool m.records reserve 2 ordinary 200 spare 0\npool m.bios reserve 2 ordinary 400 spare 0\n";

/// The text: the stack, and writes of four tasks in turn, one behind the other. The tag of each is the word of the mirror at which it starts.
pub fn storage_text(alloc: Global) -> Result<String, AllocError> {
    let mut text = String::from_str(alloc, STACK)?;
    let mut start: u64 = 0;
    for (number, count) in (0..200u64).zip(COUNTS.iter().cycle()) {
        let (task, tag) = (number % 4, start.wrapping_mul(64));
        writeln!(text, "write {task} m {start} {count} {tag}")?;
        start = start.saturating_add(*count);
    }
    Ok(text)
}

/// The report of its run.
pub fn storage_report(alloc: Global) -> Result<String, AllocError> {
    let mut report = String::new(alloc);
    for number in 0..200_u64 {
        writeln!(report, "write {number} ok")?;
    }
    write!(report, "{DISKS}{POOLS}steps 11318 of 17700\n")?;
    Ok(report)
}
