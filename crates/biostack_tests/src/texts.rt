//! Texts whose runs, needs and layouts were worked out by hand from the rules, and parts of reports.

/// The text of the smallest run: one sector, whose words are 0 to 63.
pub const ONE_SECTOR: &str = "disk a 64\nwrite 0 a 0 1 0\n";

/// Its report. The sum of 0 to 63 is 2016, which is 7e0 in hexadecimal.
pub const ONE_SECTOR_REPORT: &str = "write 0 ok\ndisk a sum 00000000000007e0\nrun a 0 1\n\
    pool fs.bios reserve 2 ordinary 1 spare 0\npool fs.vecs reserve 2 ordinary 0 spare 0\nsteps 7 of 10\n";

/// Its output with a trace. One task at a time can go on.
pub const ONE_SECTOR_TRACE: &str = "event w0 take fs.bios ordinary\nevent w0 link 0 write 0\n\
    event w0 push a 0 1 leg 0\nevent c:a complete a 0 ok\nevent c:a drop 0 0 ok top\n\
    event c:a give fs.bios\nevent c:a done 0 ok\nwrite 0 ok\ndisk a sum 00000000000007e0\nrun a 0 1\n\
    pool fs.bios reserve 2 ordinary 1 spare 0\npool fs.vecs reserve 2 ordinary 0 spare 0\nsteps 7 of 10\n";

/// The smallest run given behind its scenario, and what its replay writes: the one write had one bio of ordinary memory.
pub const ONE_SECTOR_GIVEN: &str = "disk a 64\nwrite 0 a 0 1 0\nevent w0 take fs.bios ordinary\n\
    event w0 link 0 write 0\nevent w0 push a 0 1 leg 0\nevent c:a complete a 0 ok\n\
    event c:a drop 0 0 ok top\nevent c:a give fs.bios\nevent c:a done 0 ok\n";

pub const ONE_SECTOR_REPLAYED: &str =
    "replay events 7\nend ended\npool fs.bios lowest 2 most 1\npool fs.vecs lowest 2 most 0\n";

/// The text of the smallest run whose write fails.
pub const BAD_SECTOR: &str = "disk a 64\nbad a 0 1 medium\nwrite 0 a 0 1 0\n";

/// Its report. Nothing was written.
pub const BAD_SECTOR_REPORT: &str = "write 0 medium\ndisk a sum 0000000000000000\n\
    pool fs.bios reserve 2 ordinary 1 spare 0\npool fs.vecs reserve 2 ordinary 0 spare 0\nsteps 7 of 10\n";

/// Its output with a trace.
pub const BAD_SECTOR_TRACE: &str = "event w0 take fs.bios ordinary\nevent w0 link 0 write 0\n\
    event w0 push a 0 1 leg 0\nevent c:a complete a 0 medium\nevent c:a drop 0 0 medium top\n\
    event c:a give fs.bios\nevent c:a done 0 medium\nwrite 0 medium\ndisk a sum 0000000000000000\n\
    pool fs.bios reserve 2 ordinary 1 spare 0\npool fs.vecs reserve 2 ordinary 0 spare 0\nsteps 7 of 10\n";

/// A write to a stripe.
pub const STRIPED: &str = "disk a 64\ndisk b 64\nstripe s chunk=8 a b\nwrite 0 s 5 20 0\n";

/// Its report.
pub const STRIPED_REPORT: &str =
    "write 0 ok\ndisk a sum 000000000007c6a0\nrun a 5 11\ndisk b sum 000000000004b6e0\nrun b 0 9\n\
    pool fs.bios reserve 2 ordinary 1 spare 0\npool fs.vecs reserve 2 ordinary 0 spare 0\n\
    pool s.bios reserve 2 ordinary 3 spare 0\nsteps 28 of 40\n";

/// Its devices and needs.
pub const STRIPED_CHECK: &str =
    "device a disk 64\ndevice b disk 64\ndevice s stripe 128\nneed e 4 g 4 z 0 bound 40\n";

/// Where it goes.
pub const STRIPED_LAYOUT: &str =
    "fragment 0 0 3 a 5\nfragment 0 3 8 b 0\nfragment 0 11 8 a 8\nfragment 0 19 1 b 8\n";

/// A write to a mirror whose reserve is one bio, without memory: the second clone waits for the first one, which the rescuer submits.
pub const MIRRORED: &str =
    "disk a 8\ndisk b 8\nmirror m a b reserve=1 records=1\nmemory none\nwrite 0 m 0 1 0\n";

/// Its report.
pub const MIRRORED_REPORT: &str =
    "write 0 ok\ndisk a sum 00000000000007e0\nrun a 0 1\ndisk b sum 00000000000007e0\nrun b 0 1\n\
    pool fs.bios reserve 2 ordinary 0 spare 1\npool fs.vecs reserve 2 ordinary 0 spare 0\n\
    pool m.records reserve 1 ordinary 0 spare 1\npool m.bios reserve 1 ordinary 0 spare 2\nsteps 25 of 36\n";

/// The last lines of the report of a write of up to 32 sectors.
pub const COUNTS: &str =
    "pool fs.bios reserve 2 ordinary 1 spare 0\npool fs.vecs reserve 2 ordinary 0 spare 0\nsteps 7 of 10\n";

/// The last lines of the report of a write of more sectors.
pub const VECTOR_COUNTS: &str =
    "pool fs.bios reserve 2 ordinary 1 spare 0\npool fs.vecs reserve 2 ordinary 1 spare 0\nsteps 9 of 18\n";

/// The last lines of a report without a write.
pub const NO_COUNTS: &str =
    "pool fs.bios reserve 2 ordinary 0 spare 0\npool fs.vecs reserve 2 ordinary 0 spare 0\nsteps 0 of 0\n";

/// What a sector of the tag 0 gives.
pub const FIRST_SECTOR: &str = "write 0 ok\ndisk a sum 00000000000007e0\nrun a 0 1\n";

/// What 33 sectors of the tag 0 give: the sum of 0 to 2111 is 2111 times 1056, which is 2229216.
pub const MORE_SECTORS: &str = "write 0 ok\ndisk a sum 00000000002203e0\nrun a 0 33\n";

/// What eight sectors of the tag 0 give: the sum of 0 to 511 is 511 times 256, which is 130816.
pub const EIGHT_SECTORS: &str = "write 0 ok\ndisk a sum 000000000001ff00\nrun a 0 8\n";

/// What a disk holds that was not written.
pub const ZEROS: &str = "disk a sum 0000000000000000\n";
