//! Runs of one disk: of a write that ends well, of one that fails, and of none.
use crate::asks::all_hold;
use crate::calls::Call;
use crate::texts::{
    BAD_SECTOR, COUNTS, EIGHT_SECTORS, FIRST_SECTOR, MORE_SECTORS, NO_COUNTS, ONE_SECTOR,
    VECTOR_COUNTS, ZEROS,
};

/// Runs of a disk, of a write that ends well, and of neither.
const RUNS: &[Call] = &[
    Call::Run("", "", NO_COUNTS),
    Call::Run("\n# nothing\n", "", NO_COUNTS),
    Call::Run("disk a 64\n", ZEROS, NO_COUNTS),
    Call::Run("disk a 64", ZEROS, NO_COUNTS),
    Call::Run(ONE_SECTOR, FIRST_SECTOR, COUNTS),
    Call::Run("disk a 64\nwrite 0 a 0 1 0", FIRST_SECTOR, COUNTS),
    // Blanks, and lines that say nothing.
    Call::Run("disk a  64 \n\twrite 0 a 0 1 0\n", FIRST_SECTOR, COUNTS),
    Call::Run("disk\ta 64\r\nwrite 0 a 0 1 0\r\n", FIRST_SECTOR, COUNTS),
    Call::Run(
        "# one\n\ndisk a 64\n \n#two\nwrite 0 a 0 1 0\n\n# three",
        FIRST_SECTOR,
        COUNTS,
    ),
    // Any task.
    Call::Run("disk a 64\nwrite 7 a 0 1 0\n", FIRST_SECTOR, COUNTS),
    Call::Run(
        "disk a 00000000000000000064\nwrite 0 a 00 01 000\n",
        FIRST_SECTOR,
        COUNTS,
    ),
    Call::Run(
        "disk a 64\nwrite 0 a 63 1 5\n",
        "write 0 ok\ndisk a sum 0000000000000920\nrun a 63 1\n",
        COUNTS,
    ),
    // Four segments, which stand in the bio, and more, which stand in a vector.
    Call::Run(
        "disk a 64\nwrite 0 a 0 32 0\n",
        "write 0 ok\ndisk a sum 00000000001ffc00\nrun a 0 32\n",
        COUNTS,
    ),
    Call::Run("disk a 64\nwrite 0 a 0 33 0\n", MORE_SECTORS, VECTOR_COUNTS),
    // All sectors of the disk: the sum of 0 to 4095 is 4095 times 2048.
    Call::Run(
        "disk a 64\nwrite 0 a 0 64 0\n",
        "write 0 ok\ndisk a sum 00000000007ff800\nrun a 0 64\n",
        VECTOR_COUNTS,
    ),
    // The most sectors that there may be: the sum of 0 to 131071 is 131071 times 65536. With the tag 1 it is 131072 more.
    Call::Run(
        "disk a 4096\nwrite 0 a 0 2048 0\n",
        "write 0 ok\ndisk a sum 00000001ffff0000\nrun a 0 2048\n",
        VECTOR_COUNTS,
    ),
    Call::Run(
        "disk a 4096\nwrite 3 a 2048 2048 1\n",
        "write 0 ok\ndisk a sum 0000000200010000\nrun a 2048 2048\n",
        VECTOR_COUNTS,
    ),
    // Words that go round.
    Call::Run(
        "disk data-0_x 8\nwrite 0 data-0_x 7 1 18446744073709551615\n",
        "write 0 ok\ndisk data-0_x sum 00000000000007a0\nrun data-0_x 7 1\n",
        COUNTS,
    ),
    // The first words of three sectors are 2^64 - 64, 0 and 64. From -64 to 127 the sum is 6048.
    Call::Run(
        "disk a 64\nwrite 0 a 5 3 18446744073709551552\n",
        "write 0 ok\ndisk a sum 00000000000017a0\nrun a 5 3\n",
        COUNTS,
    ),
    Call::Run(
        "disk a123456789012345 64\nwrite 0 a123456789012345 0 1 0\n",
        "write 0 ok\ndisk a123456789012345 sum 00000000000007e0\nrun a123456789012345 0 1\n",
        COUNTS,
    ),
    Call::Run(
        "disk a 262144\nwrite 0 a 262143 1 0\n",
        "write 0 ok\ndisk a sum 00000000000007e0\nrun a 262143 1\n",
        COUNTS,
    ),
];

/// Runs of disks with bad ranges that no write touches.
const UNTOUCHED: &[Call] = &[
    Call::Run("disk a 64\nbad a 0 64 io\n", ZEROS, NO_COUNTS),
    Call::Run(
        "disk a 64\nbad a 1 1 nospace\nwrite 0 a 0 1 0\n",
        FIRST_SECTOR,
        COUNTS,
    ),
    // The write ends right before the range.
    Call::Run(
        "disk a 64\nbad a 8 4 io\nwrite 0 a 0 8 0\n",
        EIGHT_SECTORS,
        COUNTS,
    ),
    Call::Run(
        "disk a 64\nbad a 63 1 io\nbad a 8 55 medium\nwrite 0 a 0 8 0\n",
        EIGHT_SECTORS,
        COUNTS,
    ),
    Call::Run(
        "disk a 64\nbad a 33 31 io\nwrite 0 a 0 33 0\n",
        MORE_SECTORS,
        VECTOR_COUNTS,
    ),
    // It begins right behind it. The sum of 0 to 255 is 255 times 128.
    Call::Run(
        "disk a 64\nbad a 8 4 io\nwrite 0 a 12 4 0\n",
        "write 0 ok\ndisk a sum 0000000000007f80\nrun a 12 4\n",
        COUNTS,
    ),
    // It lies between two of them.
    Call::Run(
        "disk a 64\nbad a 16 48 io\nbad a 0 12 medium\nwrite 0 a 12 4 0\n",
        "write 0 ok\ndisk a sum 0000000000007f80\nrun a 12 4\n",
        COUNTS,
    ),
];

/// Runs by scripts and reserves. Each entry of a script adds one to the bound.
const SCRIPTED: &[Call] = &[
    // No write.
    Call::Run("fs\n", "", NO_COUNTS),
    Call::Run("memory none\n", "", NO_COUNTS),
    Call::Run("memory none\ndisk a 64\n", ZEROS, NO_COUNTS),
    Call::Run(
        "script fs.bios + +\n",
        "",
        "pool fs.bios reserve 2 ordinary 0 spare 0\npool fs.vecs reserve 2 ordinary 0 spare 0\nsteps 0 of 1\n",
    ),
    Call::Run(
        "script fs.vecs -- +\ndisk a 64\nscript fs.bios +-+ -\nbad a 0 1 io\n",
        ZEROS,
        "pool fs.bios reserve 2 ordinary 0 spare 0\npool fs.vecs reserve 2 ordinary 0 spare 0\nsteps 0 of 5\n",
    ),
    Call::Run(
        "fs bios=7\ndisk a 64\n",
        ZEROS,
        "pool fs.bios reserve 7 ordinary 0 spare 0\npool fs.vecs reserve 2 ordinary 0 spare 0\nsteps 0 of 0\n",
    ),
    // A write without a vector: the first attempt of fs.bios decides.
    Call::Run(
        "disk a 64\nscript fs.bios - +\nwrite 0 a 0 1 0\n",
        FIRST_SECTOR,
        "pool fs.bios reserve 2 ordinary 0 spare 1\npool fs.vecs reserve 2 ordinary 0 spare 0\nsteps 7 of 11\n",
    ),
    Call::Run(
        "disk a 64\nscript fs.bios + -\nwrite 0 a 0 1 0\n",
        FIRST_SECTOR,
        "pool fs.bios reserve 2 ordinary 1 spare 0\npool fs.vecs reserve 2 ordinary 0 spare 0\nsteps 7 of 11\n",
    ),
    Call::Run(
        "script fs.bios . -\ndisk a 64\nwrite 0 a 0 1 0\n",
        FIRST_SECTOR,
        "pool fs.bios reserve 2 ordinary 0 spare 1\npool fs.vecs reserve 2 ordinary 0 spare 0\nsteps 7 of 10\n",
    ),
    Call::Run(
        "memory none\nscript fs.bios . +\ndisk a 64\nwrite 0 a 0 1 0\n",
        FIRST_SECTOR,
        COUNTS,
    ),
    Call::Run(
        "script fs.vecs -+ -\ndisk a 64\nwrite 0 a 0 1 0\n",
        FIRST_SECTOR,
        "pool fs.bios reserve 2 ordinary 1 spare 0\npool fs.vecs reserve 2 ordinary 0 spare 0\nsteps 7 of 12\n",
    ),
    Call::Run(
        "fs bios=1 vecs=3\ndisk a 64\nwrite 0 a 0 1 0\n",
        FIRST_SECTOR,
        "pool fs.bios reserve 1 ordinary 1 spare 0\npool fs.vecs reserve 3 ordinary 0 spare 0\nsteps 7 of 10\n",
    ),
    Call::Run(
        "disk a 64\nfs vecs=1024 bios=1024\nmemory none\nwrite 0 a 0 1 0\n",
        FIRST_SECTOR,
        "pool fs.bios reserve 1024 ordinary 0 spare 1\npool fs.vecs reserve 1024 ordinary 0 spare 0\nsteps 7 of 10\n",
    ),
    // A write with a vector: so does that of fs.vecs.
    Call::Run(
        "disk a 64\nmemory none\nwrite 0 a 0 33 0\n",
        MORE_SECTORS,
        "pool fs.bios reserve 2 ordinary 0 spare 1\npool fs.vecs reserve 2 ordinary 0 spare 1\nsteps 9 of 18\n",
    ),
    Call::Run(
        "memory none\nscript fs.vecs . +\ndisk a 64\nwrite 0 a 0 33 0\n",
        MORE_SECTORS,
        "pool fs.bios reserve 2 ordinary 0 spare 1\npool fs.vecs reserve 2 ordinary 1 spare 0\nsteps 9 of 18\n",
    ),
    Call::Run(
        "script fs.vecs - +\ndisk a 64\nwrite 0 a 0 33 0\n",
        MORE_SECTORS,
        "pool fs.bios reserve 2 ordinary 1 spare 0\npool fs.vecs reserve 2 ordinary 0 spare 1\nsteps 9 of 19\n",
    ),
    Call::Run(
        "script fs.vecs +-- -\nscript fs.bios -+ +\ndisk a 64\nwrite 0 a 0 33 0\n",
        MORE_SECTORS,
        "pool fs.bios reserve 2 ordinary 0 spare 1\npool fs.vecs reserve 2 ordinary 1 spare 0\nsteps 9 of 23\n",
    ),
    Call::Run(
        "fs bios=1 vecs=1\nmemory none\ndisk a 64\nwrite 0 a 0 33 0\n",
        MORE_SECTORS,
        "pool fs.bios reserve 1 ordinary 0 spare 1\npool fs.vecs reserve 1 ordinary 0 spare 1\nsteps 9 of 18\n",
    ),
];

/// A text whose write fails, with what, and the last lines of its report.
const FAILED: &[Call] = &[
    Call::Failed(BAD_SECTOR, "medium", COUNTS),
    Call::Failed(
        "disk a 64\nbad a 0 64 nospace\nwrite 0 a 63 1 7\n",
        "nospace",
        COUNTS,
    ),
    // The range that starts first decides.
    Call::Failed(
        "disk a 64\nbad a 4 2 nospace\nbad a 2 1 medium\nwrite 0 a 0 8 0\n",
        "medium",
        COUNTS,
    ),
    Call::Failed(
        "disk a 64\nbad a 2 1 medium\nbad a 4 2 nospace\nwrite 0 a 0 8 0\n",
        "medium",
        COUNTS,
    ),
    Call::Failed(
        "disk a 64\nbad a 2 4 medium\nbad a 0 4 nospace\nwrite 0 a 3 1 0\n",
        "nospace",
        COUNTS,
    ),
    // Of the ranges that the write touches.
    Call::Failed(
        "disk a 64\nbad a 4 2 nospace\nbad a 2 1 medium\nwrite 0 a 3 5 0\n",
        "nospace",
        COUNTS,
    ),
    Call::Failed(
        "disk a 64\nbad a 2 4 medium\nbad a 0 4 nospace\nwrite 0 a 4 1 0\n",
        "medium",
        COUNTS,
    ),
    // Of ranges that start at one sector, the first line of the text.
    Call::Failed(
        "disk a 64\nbad a 2 1 io\nbad a 2 3 medium\nwrite 0 a 0 8 0\n",
        "io",
        COUNTS,
    ),
    Call::Failed(
        "disk a 64\nbad a 2 3 medium\nbad a 2 1 io\nwrite 0 a 0 8 0\n",
        "medium",
        COUNTS,
    ),
    Call::Failed(
        "disk a 64\nbad a 2 1 io\nbad a 2 3 medium\nwrite 0 a 2 1 0\n",
        "io",
        COUNTS,
    ),
    Call::Failed(
        "disk a 64\nbad a 2 1 io\nbad a 2 3 medium\nwrite 0 a 3 1 0\n",
        "medium",
        COUNTS,
    ),
    // Touched at the first sector alone, at the last one alone, and within.
    Call::Failed("disk a 64\nbad a 8 4 io\nwrite 0 a 0 9 0\n", "io", COUNTS),
    Call::Failed("disk a 64\nbad a 8 4 io\nwrite 0 a 11 4 0\n", "io", COUNTS),
    Call::Failed("disk a 64\nbad a 8 4 io\nwrite 0 a 9 2 0\n", "io", COUNTS),
    Call::Failed(
        "disk a 64\nbad a 63 1 io\nwrite 0 a 32 32 0\n",
        "io",
        COUNTS,
    ),
    // A vector, which is given back all the same.
    Call::Failed(
        "disk a 64\nbad a 32 1 nospace\nwrite 0 a 0 33 0\n",
        "nospace",
        VECTOR_COUNTS,
    ),
    Call::Failed(
        "disk a 4096\nbad a 4095 1 io\nwrite 0 a 2048 2048 0\n",
        "io",
        VECTOR_COUNTS,
    ),
    Call::Failed(
        "disk a 64\nmemory none\nscript fs.vecs - -\nfs vecs=1\nbad a 0 1 io\nwrite 0 a 0 64 0\n",
        "io",
        "pool fs.bios reserve 2 ordinary 0 spare 1\npool fs.vecs reserve 1 ordinary 0 spare 1\nsteps 9 of 19\n",
    ),
];

#[test]
fn one_disk_and_one_write_run_to_their_ends(rt: HostRuntime) {
    all_hold(&rt, RUNS);
    all_hold(&rt, UNTOUCHED);
    all_hold(&rt, SCRIPTED);
    all_hold(&rt, FAILED);
}
