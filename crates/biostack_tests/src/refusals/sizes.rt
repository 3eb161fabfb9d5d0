//! Texts that are too large, and such as are not, in parts.
use crate::made::Part;

/// Eight disks, and eight more.
pub const EIGHT_DISKS: Part = Part::Once(
    "disk a 1\ndisk b 1\ndisk c 1\ndisk d 1\ndisk e 1\ndisk f 1\ndisk g 1\ndisk h 1\n",
);

pub const EIGHT_MORE: Part = Part::Once(
    "disk i 1\ndisk j 1\ndisk k 1\ndisk l 1\ndisk m 1\ndisk n 1\ndisk o 1\ndisk p 1\n",
);

/// A limit over each of these sixteen disks.
pub const SIXTEEN_LIMITS: Part = Part::Once(
    "limit A max=1 a\nlimit B max=1 b\nlimit C max=1 c\nlimit D max=1 d\n\
     limit E max=1 e\nlimit F max=1 f\nlimit G max=1 g\nlimit H max=1 h\n\
     limit I max=1 i\nlimit J max=1 j\nlimit K max=1 k\nlimit L max=1 l\n\
     limit M max=1 m\nlimit N max=1 n\nlimit O max=1 o\nlimit P max=1 p\n",
);

pub const ONE_DISK: Part = Part::Once("disk a 64\n");

pub const BAD_OF_ONE_SECTOR: &str = "bad a 0 1 io\n";

/// A device whose sectors need five elements each: a bio of the limit but for the first, and a record and a bio of each mirror.
pub const MIRRORS: Part = Part::Once("disk a 262144\nmirror m a\nmirror n m\nlimit l max=1 n\n");

/// 102 writes to it, which need 10,241 elements each: a vector, and five for each of 2,048 sectors.
pub const MOST_WRITES: Part = Part::Writes {
    dev: "l",
    lines: 102,
    from: 0,
    each: 2048,
};

/// Four writes behind those. They need 3,994 elements, with which there are 1,048,576.
pub const LAST_WRITES: Part = Part::Once(
    "write 0 l 208896 200 0\nwrite 0 l 209096 200 0\nwrite 0 l 209296 200 0\nwrite 0 l 209496 198 0\n",
);

/// Made texts that are refused: the number of the reason, and the line.
pub const MADE: &[(&[Part], u32, u64)] = &[
    // Nine members.
    (
        &[
            EIGHT_DISKS,
            Part::Once("disk i 1\nlinear n a b c d e f g h i\n"),
        ],
        6,
        10,
    ),
    (
        &[
            EIGHT_DISKS,
            Part::Once("disk i 1\nstripe s a b c d e f g h i chunk=1\n"),
        ],
        6,
        10,
    ),
    (
        &[
            EIGHT_DISKS,
            Part::Once("disk i 1\nmirror m a b c d e f g h i\n"),
        ],
        6,
        10,
    ),
    // The seventeenth disk.
    (&[EIGHT_DISKS, EIGHT_MORE, Part::Once("disk q 1\n")], 7, 17),
    (&[EIGHT_DISKS, EIGHT_MORE, Part::Once("disk q 0\n")], 7, 17),
    (&[EIGHT_DISKS, EIGHT_MORE, Part::Once("disk a 0\n")], 3, 17),
    // The 33rd device.
    (
        &[
            EIGHT_DISKS,
            EIGHT_MORE,
            SIXTEEN_LIMITS,
            Part::Once("linear x A B C\n"),
        ],
        7,
        33,
    ),
    (
        &[
            EIGHT_DISKS,
            Part::Once("fs\nmemory none\n"),
            EIGHT_MORE,
            SIXTEEN_LIMITS,
            Part::Once("disk q 0\n"),
        ],
        7,
        35,
    ),
    // The 1,025th bad range, which may be wrong besides.
    (&[ONE_DISK, Part::Times(1025, BAD_OF_ONE_SECTOR)], 7, 1026),
    (
        &[
            ONE_DISK,
            Part::Times(1024, BAD_OF_ONE_SECTOR),
            Part::Once("bad a 64 1 io\n"),
        ],
        7,
        1026,
    ),
    (
        &[
            ONE_DISK,
            Part::Times(1024, BAD_OF_ONE_SECTOR),
            Part::Once("bad b 64 1 io\n"),
        ],
        4,
        1026,
    ),
    // Entries above 65,536.
    (
        &[
            Part::Once("script fs.bios "),
            Part::Times(65_537, "+"),
            Part::Once(" -\n"),
        ],
        7,
        1,
    ),
    (
        &[
            Part::Once("script fs.bios "),
            Part::Times(65_536, "-"),
            Part::Once(" +\nscript fs.vecs + -\n"),
        ],
        7,
        2,
    ),
    (
        &[
            Part::Once("script no.bios "),
            Part::Times(32_769, "+-"),
            Part::Once(" -\n"),
        ],
        7,
        1,
    ),
    // 65,536 of a pool that is not there.
    (
        &[
            Part::Once("script no.bios "),
            Part::Times(32_768, "+-"),
            Part::Once(" -\n"),
        ],
        15,
        1,
    ),
    // More bytes than a text may have, whatever they are.
    (&[Part::Times(4_194_305, "\n")], 16, 0),
    (
        &[Part::Once("disk a 0\n"), Part::Times(4_194_296, "#")],
        16,
        0,
    ),
    (&[Part::Once("\x7f\n"), Part::Times(4_194_303, "#")], 16, 0),
    // As many as it may have.
    (
        &[Part::Once("disk a 0\n"), Part::Times(4_194_295, "#")],
        8,
        1,
    ),
    // Elements above 1,048,576: 102 writes need 1,044,582, and 103 need 1,054,823.
    (
        &[
            MIRRORS,
            Part::Writes {
                dev: "l",
                lines: 128,
                from: 0,
                each: 2048,
            },
        ],
        18,
        107,
    ),
    (
        &[
            MIRRORS,
            MOST_WRITES,
            LAST_WRITES,
            Part::Once("write 0 l 209694 1 0\n"),
        ],
        18,
        111,
    ),
    // A third mirror: each write needs 14,337, so 73 need 1,046,601 and 74 need 1,060,938.
    (
        &[
            Part::Once(
                "disk a 262144\nmirror m a\nmirror n m\nmirror o n\n# each sector\nlimit l max=1 o\n",
            ),
            Part::Writes {
                dev: "l",
                lines: 128,
                from: 0,
                each: 2048,
            },
        ],
        18,
        80,
    ),
    // What is checked before the elements.
    (
        &[
            MIRRORS,
            MOST_WRITES,
            Part::Once("write 0 n 208896 2048 0\n"),
        ],
        11,
        107,
    ),
    (
        &[
            MIRRORS,
            MOST_WRITES,
            Part::Once("write 0 l 262144 2048 0\n"),
        ],
        12,
        107,
    ),
    (
        &[
            MIRRORS,
            MOST_WRITES,
            Part::Once("write 0 l 208895 2048 0\n"),
        ],
        13,
        107,
    ),
    (
        &[
            MIRRORS,
            MOST_WRITES,
            Part::Once("write 0 l 208896 2049 0\n"),
        ],
        14,
        107,
    ),
];

/// Made texts that are accepted.
pub const MADE_ACCEPTED: &[&[Part]] = &[
    // Eight members.
    &[EIGHT_DISKS, Part::Once("linear n a b c d e f g h\n")],
    &[
        EIGHT_DISKS,
        Part::Once("stripe n a b c d chunk=1 e f g h\n"),
    ],
    &[EIGHT_DISKS, Part::Once("mirror n a b c d e f g h\n")],
    // As many disks, devices, bad ranges, entries and bytes as there may be.
    &[EIGHT_DISKS, EIGHT_MORE],
    &[EIGHT_DISKS, EIGHT_MORE, SIXTEEN_LIMITS],
    &[ONE_DISK, Part::Times(1024, BAD_OF_ONE_SECTOR)],
    &[
        Part::Once("script fs.bios "),
        Part::Times(65_535, "+"),
        Part::Once(" -\nscript fs.vecs + -\n"),
    ],
    // As many elements as there may be.
    &[MIRRORS, MOST_WRITES],
    &[MIRRORS, MOST_WRITES, LAST_WRITES],
];
