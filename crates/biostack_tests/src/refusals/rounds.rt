//! Texts with wrong `sync` and `resize` lines.
use crate::made::Part;
use crate::refusals::{Fault, RefusedText};

/// Wrong words, and lines that may not stand where they do.
pub const BAD_WORDS: &[RefusedText] = &[
    ("sync 1\n", 1),
    ("sync sync\n", 1),
    ("sync x=1\n", 1),
    ("syncs\n", 1),
    ("Sync\n", 1),
    ("sync\nresize\n", 2),
    ("sync\nresize fs.bios\n", 2),
    ("sync\nresize fs.bios 2 3\n", 2),
    ("sync\nresize fs.bios=2\n", 2),
    ("sync\nresize fs.bios min=2\n", 2),
    ("sync\nresize fs.bios 2 reserve=3\n", 2),
    // No `sync` line before it, or a write between.
    ("resize fs.bios 2\n", 1),
    ("disk a 8\nresize fs.bios 2\n", 2),
    ("disk a 8\nresize b.bios 0\nwrite 0 a 0 1 0\n", 2),
    ("disk a 8\nwrite 0 a 0 1 0\nresize fs.bios 2\n", 3),
    ("disk a 8\nsync\nwrite 0 a 0 1 0\nresize fs.bios 2\n", 4),
    (
        "disk a 8\nsync\nresize fs.bios 2\nwrite 0 a 0 1 0\nresize fs.vecs 2\n",
        5,
    ),
    // A declaration behind a `sync` line.
    ("sync\ndisk a 8\n", 2),
    ("disk a 8\nsync\nlinear n a\n", 3),
    ("sync\n\n# more\nfs\n", 4),
    ("sync\nmemory none\n", 2),
    ("sync\nscript fs.bios + +\n", 2),
    ("disk a 8\nsync\nresize fs.bios 2\nbad a 0 1 io\n", 4),
];

pub const BAD_NUMBERS: &[RefusedText] = &[
    ("sync\nresize fs.bios x\n", 2),
    ("sync\nresize fs.bios -1\n", 2),
    ("sync\nresize fs.bios 18446744073709551616\n", 2),
    ("sync\nresize nowhere 2a\n", 2),
];

pub const NAMES_TAKEN: &[RefusedText] = &[
    ("sync\nresize fs.bios 2\nresize fs.bios 2\n", 3),
    (
        "sync\nresize fs.bios 2\n\n# more\nresize fs.vecs 3\nresize fs.bios 4\n",
        6,
    ),
    (
        "disk a 8\nmirror m a\nsync\nresize m.bios 1\nresize m.records 1\nresize m.bios 1\n",
        6,
    ),
];

pub const TOO_LARGE: &[RefusedText] = &[
    ("sync\nresize fs.bios 1025\n", 2),
    ("sync\nresize fs.vecs 18446744073709551615\n", 2),
    (
        "disk a 8\nlinear n a\nsync\nresize n.bios 1024\nsync\nresize n.bios 1025\n",
        6,
    ),
];

pub const RESERVES_ZERO: &[RefusedText] = &[
    ("sync\nresize fs.bios 0\n", 2),
    ("sync\nresize fs.vecs 00\n", 2),
    (
        "disk a 8\nlinear n a\nsync\nresize n.bios 0\nwrite 0 n 0 1 0\n",
        4,
    ),
];

pub const NO_POOLS: &[RefusedText] = &[
    ("sync\nresize a.bios 2\n", 2),
    ("disk a 8\nsync\nresize a.bios 1\n", 3),
    ("disk a 8\nlinear n a\nsync\nresize n.records 2\n", 4),
    ("disk a 8\nsync\nresize fs 2\n", 3),
];

pub const OVERLAPS: &[RefusedText] = &[
    ("disk a 8\nwrite 0 a 0 2 0\nwrite 1 a 1 2 1000\n", 3),
    (
        "disk a 8\nwrite 0 a 0 2 0\nsync\nwrite 1 a 1 2 0\nwrite 2 a 2 1 0\n",
        5,
    ),
    (
        "disk a 8\nsync\nwrite 0 a 0 8 0\nsync\nsync\nwrite 0 a 0 8 0\nwrite 0 a 7 1 0\n",
        7,
    ),
];

/// More than one is wrong with the line, and the order decides.
pub const TWO_FAULTS: &[Fault] = &[
    ("sync \x7f 1\n", 17, 1),
    ("resize fs.bios \x7f\n", 17, 1),
    ("resize fs.bios x\n", 1, 1),
    ("sync\nresize fs.bios x y\n", 1, 2),
    ("sync\nresize fs.bios 2\nresize fs.bios 0\n", 3, 3),
    ("sync\nresize fs.bios 2\nresize fs.bios 1025\n", 3, 3),
    ("sync\nresize a.bios 1025\n", 7, 2),
    ("sync\nresize a.bios 0\n", 9, 2),
    // A line that is left out is checked.
    ("disk a 8\nwrite 0 a 0 1 0\nsync\nresize a.bios 2\n", 15, 4),
    ("disk a 8\nwrite 0 a 0 1 0\nsync\nresize fs.bios 0\n", 9, 4),
];

pub const ROW: Part = Part::Once("disk a 8\nmirror m a\n");

pub const FOUR_RESIZES: &str =
    "sync\nresize fs.bios 2\nresize fs.vecs 2\nresize m.bios 2\nresize m.records 2\n";

pub const FIVE_RESIZES: &str =
    "sync\nresize fs.bios 2\nresize fs.vecs 2\nresize m.bios 2\nresize m.records 2\nresize n.bios 2\n";

pub const MADE: &[(&[Part], u32, u64)] = &[
    // The 1,025th `sync` line, whether a write follows or not.
    (&[Part::Times(1025, "sync\n")], 7, 1025),
    (
        &[
            Part::Once("disk a 8\nwrite 0 a 0 1 0\n"),
            Part::Times(1025, "sync\n"),
        ],
        7,
        1027,
    ),
    (
        &[
            Part::Once("disk a 8\n"),
            Part::Times(1025, "sync\n"),
            Part::Once("write 0 a 0 1 0\n"),
        ],
        7,
        1026,
    ),
    // As many `resize` lines as there may be, four behind each `sync` line.
    (&[ROW, Part::Times(1025, FOUR_RESIZES)], 7, 5123),
    // The 4,097th, five behind each `sync` line.
    (
        &[
            ROW,
            Part::Once("disk b 8\nlinear n b\n"),
            Part::Times(820, FIVE_RESIZES),
        ],
        7,
        4921,
    ),
];
