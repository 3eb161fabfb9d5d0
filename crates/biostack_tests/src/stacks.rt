//! Whole stacks: how they run, what their writes need, and where these go.
use crate::asks::all_hold;
use crate::calls::Call;
use crate::texts::{
    COUNTS, FIRST_SECTOR, MIRRORED, MIRRORED_REPORT, ONE_SECTOR, STRIPED, STRIPED_CHECK,
    STRIPED_LAYOUT, STRIPED_REPORT,
};
use crate::workers::{NESTED, NESTED_REPORT};

/// Runs over whole stacks, each with its report.
const STACKS: &[Call] = &[
    Call::Ended(STRIPED, 0, STRIPED_REPORT),
    Call::Ended(
        "disk a 64\nlimit l max=3 chunk=8 a\nwrite 0 l 6 10 0\n",
        0,
        "write 0 ok\ndisk a sum 0000000000031ec0\nrun a 6 10\n\
         pool fs.bios reserve 2 ordinary 1 spare 0\npool fs.vecs reserve 2 ordinary 0 spare 0\n\
         pool l.bios reserve 2 ordinary 3 spare 0\nsteps 28 of 40\n",
    ),
    Call::Ended(
        "disk a 8\ndisk b 8\nlinear n a b reserve=1\nmemory none\nwrite 0 n 6 4 0\n",
        0,
        "write 0 ok\ndisk a sum 0000000000001fc0\nrun a 6 2\ndisk b sum 0000000000005fc0\nrun b 0 2\n\
         pool fs.bios reserve 2 ordinary 0 spare 1\npool fs.vecs reserve 2 ordinary 0 spare 0\n\
         pool n.bios reserve 1 ordinary 0 spare 1\nsteps 14 of 20\n",
    ),
    // The second clone waits for the first one, which the rescuer submits.
    Call::Ended(MIRRORED, 0, MIRRORED_REPORT),
    Call::Ended(NESTED, 0, NESTED_REPORT),
    // One copy is enough, and none is not.
    Call::Ended(
        "disk a 8\ndisk b 8\nbad a 0 1 medium\nmirror m a b\nwrite 0 m 0 1 0\n",
        0,
        "write 0 ok\ndisk a sum 0000000000000000\ndisk b sum 00000000000007e0\nrun b 0 1\n\
         pool fs.bios reserve 2 ordinary 1 spare 0\npool fs.vecs reserve 2 ordinary 0 spare 0\n\
         pool m.records reserve 2 ordinary 1 spare 0\npool m.bios reserve 2 ordinary 2 spare 0\nsteps 22 of 36\n",
    ),
    Call::Ended(
        "disk a 8\ndisk b 8\nbad a 0 1 medium\nbad b 0 1 nospace\nmirror m a b\nwrite 0 m 0 1 0\n",
        1,
        "write 0 io\ndisk a sum 0000000000000000\ndisk b sum 0000000000000000\n\
         pool fs.bios reserve 2 ordinary 1 spare 0\npool fs.vecs reserve 2 ordinary 0 spare 0\n\
         pool m.records reserve 2 ordinary 1 spare 0\npool m.bios reserve 2 ordinary 2 spare 0\nsteps 22 of 36\n",
    ),
    // The script lets the first split have ordinary memory, and the others wait for the spare.
    Call::Ended(
        "disk a 64\nlimit l max=1 reserve=1 a\nscript l.bios +- -\nwrite 0 l 0 4 0\n",
        0,
        "write 0 ok\ndisk a sum 0000000000007f80\nrun a 0 4\n\
         pool fs.bios reserve 2 ordinary 1 spare 0\npool fs.vecs reserve 2 ordinary 0 spare 0\n\
         pool l.bios reserve 1 ordinary 1 spare 2\nsteps 28 of 42\n",
    ),
    // Two writers.
    Call::Ended(
        "disk a 64\nwrite 0 a 0 1 0\nwrite 1 a 1 1 0\n",
        0,
        "write 0 ok\nwrite 1 ok\ndisk a sum 0000000000000fc0\nrun a 0 2\n\
         pool fs.bios reserve 2 ordinary 2 spare 0\npool fs.vecs reserve 2 ordinary 0 spare 0\nsteps 14 of 20\n",
    ),
    // Two rounds. The second write starts at sector 1, which the first one wrote.
    Call::Ended(
        "disk a 8\nwrite 0 a 0 2 0\nsync\nwrite 1 a 1 2 1000\n",
        0,
        "write 0 ok\nwrite 1 ok\ndisk a sum 0000000000021ba0\nrun a 0 3\n\
         pool fs.bios reserve 2 ordinary 2 spare 0\npool fs.vecs reserve 2 ordinary 0 spare 0\nsteps 15 of 21\n",
    ),
    Call::Ended(
        "disk a 8\nbad a 2 1 io\nwrite 0 a 0 2 0\nsync\nwrite 1 a 1 2 1000\n",
        1,
        "write 0 ok\nwrite 1 io\ndisk a sum 0000000000001fc0\nrun a 0 2\n\
         pool fs.bios reserve 2 ordinary 2 spare 0\npool fs.vecs reserve 2 ordinary 0 spare 0\nsteps 15 of 21\n",
    ),
    // No write follows the `sync` line.
    Call::Run("disk a 64\nwrite 0 a 0 1 0\nsync\n", FIRST_SECTOR, COUNTS),
    // The pool of the clones has two spares in the second round, so no take of the second write misses.
    Call::Ended(
        "disk a 8\ndisk b 8\nmirror m a b reserve=1 records=1\nmemory none\nwrite 0 m 0 1 0\nsync\nresize m.bios 2\n\
         write 0 m 0 1 64\n",
        0,
        "write 0 ok\nwrite 1 ok\ndisk a sum 00000000000017e0\nrun a 0 1\ndisk b sum 00000000000017e0\nrun b 0 1\n\
         pool fs.bios reserve 2 ordinary 0 spare 2\npool fs.vecs reserve 2 ordinary 0 spare 0\n\
         pool m.records reserve 1 ordinary 0 spare 2\npool m.bios reserve 2 ordinary 0 spare 4\nsteps 49 of 74\n",
    ),
    // Chunks go on round the members that have more.
    Call::Ended(
        "disk a 16\ndisk b 32\ndisk c 20\nzoned z a b c chunk=8\nwrite 0 z 40 16 0\n",
        0,
        "write 0 ok\ndisk a sum 0000000000000000\ndisk b sum 000000000005ff00\nrun b 16 8\ndisk c sum 000000000001ff00\n\
         run c 8 8\npool fs.bios reserve 2 ordinary 1 spare 0\npool fs.vecs reserve 2 ordinary 0 spare 0\n\
         pool z.bios reserve 2 ordinary 1 spare 0\nsteps 14 of 20\n",
    ),
    // Over members of one size they go round as those of a stripe.
    Call::Ended(
        "disk a 64\ndisk b 64\nzoned s chunk=8 a b\nwrite 0 s 5 20 0\n",
        0,
        STRIPED_REPORT,
    ),
];

/// A text, its devices, and what its writes need.
const CHECKS: &[Call] = &[
    Call::Check("", "need e 0 g 0 z 0 bound 0\n"),
    Call::Check(ONE_SECTOR, "device a disk 64\nneed e 1 g 1 z 0 bound 10\n"),
    Call::Check(
        "disk a 64\nwrite 0 a 0 33 0\n",
        "device a disk 64\nneed e 2 g 1 z 0 bound 18\n",
    ),
    Call::Check(STRIPED, STRIPED_CHECK),
    Call::Check(
        "disk a 64\nlimit l max=3 chunk=8 a\nwrite 0 l 6 10 0\n",
        "device a disk 64\ndevice l limit 64\nneed e 4 g 4 z 0 bound 40\n",
    ),
    Call::Check(
        "disk a 8\ndisk b 8\nlinear n a b reserve=1\nmemory none\nwrite 0 n 6 4 0\n",
        "device a disk 8\ndevice b disk 8\ndevice n linear 16\nneed e 2 g 2 z 0 bound 20\n",
    ),
    Call::Check(
        "disk a 8\ndisk b 8\nmirror m a b reserve=1 records=1\nmemory none\nwrite 0 m 0 1 0\n",
        "device a disk 8\ndevice b disk 8\ndevice m mirror 8\nneed e 4 g 2 z 0 bound 36\n",
    ),
    Call::Check(
        "disk a 64\nlimit l max=1 reserve=1 a\nscript l.bios +- -\nwrite 0 l 0 4 0\n",
        "device a disk 64\ndevice l limit 64\nneed e 4 g 4 z 2 bound 42\n",
    ),
    // A second round, and a reserve that changes.
    Call::Check(
        "disk a 8\nwrite 0 a 0 2 0\nsync\nwrite 1 a 1 2 1000\n",
        "device a disk 8\nneed e 2 g 2 z 1 bound 21\n",
    ),
    Call::Check(
        "disk a 8\ndisk b 8\nmirror m a b reserve=1 records=1\nmemory none\nwrite 0 m 0 1 0\nsync\nresize m.bios 2\nwrite 0 m 0 1 64\n",
        "device a disk 8\ndevice b disk 8\ndevice m mirror 8\nneed e 8 g 4 z 2 bound 74\n",
    ),
    Call::Check(
        "disk a 16\ndisk b 32\ndisk c 20\nzoned z a b c chunk=8\nwrite 0 z 40 16 0\n",
        "device a disk 16\ndevice b disk 32\ndevice c disk 20\ndevice z zoned 64\nneed e 2 g 2 z 0 bound 20\n",
    ),
    // Two chunks of eight sectors fit each of 20 and 17.
    Call::Check(
        "disk a 20\ndisk b 17\nstripe s a b chunk=8\ndisk c 9\nmirror m s c\n",
        "device a disk 20\ndevice b disk 17\ndevice s stripe 32\ndevice c disk 9\ndevice m mirror 9\nneed e 0 g 0 z 0 bound 0\n",
    ),
];

/// A text, and where its writes go.
const LAYOUTS: &[Call] = &[
    Call::Layout("", ""),
    Call::Layout("disk a 64\nlinear n a\n", ""),
    Call::Layout(ONE_SECTOR, "fragment 0 0 1 a 0\n"),
    Call::Layout(STRIPED, STRIPED_LAYOUT),
    Call::Layout(
        "disk a 16\ndisk b 32\ndisk c 20\nzoned z a b c chunk=8\nwrite 0 z 40 16 0\n",
        "fragment 0 0 8 c 8\nfragment 0 8 8 b 16\n",
    ),
    Call::Layout(
        "disk a 64\nlimit l max=3 chunk=8 a\nwrite 0 l 6 10 0\n",
        "fragment 0 0 2 a 6\nfragment 0 2 3 a 8\nfragment 0 5 3 a 11\nfragment 0 8 2 a 14\n",
    ),
    Call::Layout(
        "disk a 8\ndisk b 8\nlinear n b a\nwrite 0 n 6 4 0\n",
        "fragment 0 0 2 b 6\nfragment 0 2 2 a 0\n",
    ),
    // By offset, and then by the number of the disk.
    Call::Layout(
        "disk a 64\ndisk b 64\nlimit l max=3 chunk=8 b\nmirror m l a\nwrite 0 m 6 4 0\n",
        "fragment 0 0 4 a 6\nfragment 0 0 2 b 6\nfragment 0 2 2 b 8\n",
    ),
    Call::Layout(
        "disk a 64\ndisk b 64\nmirror m b a\nwrite 3 m 63 1 0\nwrite 2 m 0 4 0\n",
        "fragment 0 0 1 a 63\nfragment 0 0 1 b 63\nfragment 1 0 4 a 0\nfragment 1 0 4 b 0\n",
    ),
    Call::Layout(
        "disk a 64\ndisk b 64\nzoned s chunk=8 a b\nwrite 0 s 5 20 0\n",
        STRIPED_LAYOUT,
    ),
    // A zone begins at its own first chunk.
    Call::Layout(
        "disk a 8\ndisk b 16\ndisk c 16\nzoned z a b c chunk=8\nwrite 0 z 24 16 0\n",
        "fragment 0 0 8 b 8\nfragment 0 8 8 c 8\n",
    ),
];

#[test]
fn whole_stacks_are_run_and_told(rt: HostRuntime) {
    all_hold(&rt, STACKS);
    all_hold(&rt, CHECKS);
    all_hold(&rt, LAYOUTS);
}
