//! Texts with two faults, of which one is told, with the number of its reason and the line; and what is no text.
use crate::refusals::Fault;

/// Texts with a byte that no text has, and the line of it.
pub const NOT_TEXT: &[(&[u8], u64)] = &[
    (b"\xff", 1),
    (b"disk a 64\nwrite 0 a 0 1 0 \xff\n", 2),
    (b"disk \xc3\xa9 64\n", 1),
    (b"# \x00\n", 1),
    (b"disk a 64\n# caf\xc3\xa9\nwrite 0 a 0 1 0\n", 2),
    (b"disk a 64\n\x00\n", 2),
    (b"disk a\x0b64\n", 1),
    (b"disk a 64\x0c\n", 1),
    (b"disk a 64\n\n\x1f", 3),
    (b"disk a 64\nwrite 0 a 0 1 0\n# \x7f\n", 3),
    (b"disk a 64\nwrite 0 a 0 1 0\n\x80\ndisk a 64\n", 3),
];

/// Lines with two faults, of which the first in the order of the reasons is told: a text, that reason's number, and the line.
pub const TWO_FAULTS: &[Fault] = &[
    // A wrong word before all else but a byte that no text has.
    ("disk 1a x\n", 1, 1),
    ("disk a 64\nbad b 0 0 none\n", 1, 2),
    ("disk a 64\nwrite 9 b 0 1\n", 1, 2),
    ("fs bios=0 vecs=x bios=0\n", 1, 1),
    ("fs\nfs fs\n", 1, 2),
    ("disk a 64\nstripe a max=8 b\n", 1, 2),
    ("disk a 64\nwrite 0 a 0 1 0\ndisk a x\n", 1, 3),
    ("disk a 64\nwrite 0 a 0 1 0\nlinear n b\n", 1, 3),
    // A number before what earlier lines say.
    ("disk a 64\ndisk a x\n", 2, 2),
    ("linear n reserve=x b\n", 2, 1),
    ("write 8 b 0 1 0\n", 2, 1),
    ("disk a 64\nlimit l max=0 a a\n", 2, 2),
    ("disk a 64\nlinear n a\nwrite 0 a 0 0 0\n", 2, 3),
    // A name before members.
    ("disk a 64\nlinear a b\n", 3, 2),
    ("disk a 8\nlinear n a\nlinear n a\n", 3, 3),
    ("disk a 8\nlimit a max=1\n", 3, 2),
    ("fs\nfs bios=0\n", 3, 2),
    ("disk a 8\ndisk a 0\n", 3, 2),
    // A member that is not there, one that is taken, and then how many there are.
    ("disk a 64\nlinear n a a b\n", 4, 2),
    ("limit l max=1 b c\n", 4, 1),
    ("bad b 0 1 io\n", 4, 1),
    ("disk a 64\nlimit l max=1 a a\n", 5, 2),
    ("disk a 64\nmirror m a a rescuer=no\n", 5, 2),
    ("linear n reserve=1025\n", 6, 1),
    ("limit l max=1 reserve=0\n", 6, 1),
    ("disk a 8\nlinear n a\nbad n 9 1 io\n", 6, 3),
    // What is too large, empty, zero, and then a rescuer.
    ("disk a 7\nstripe s chunk=8 reserve=1025 a\n", 7, 2),
    ("fs bios=0 vecs=1025\n", 7, 1),
    ("disk a 8\nmirror m reserve=0 records=1025 a\n", 7, 2),
    (
        "disk a 8\ndisk b 8\nmirror m reserve=1025 rescuer=no a b\n",
        7,
        3,
    ),
    ("disk a 7\nstripe s chunk=8 reserve=0 a\n", 8, 2),
    (
        "disk a 8\ndisk b 8\nmirror m records=0 rescuer=no a b\n",
        9,
        3,
    ),
    // A write to a member, past the end, to a sector that is written, and then its length.
    ("disk a 64\nlinear n a\nwrite 0 a 64 1 0\n", 11, 3),
    ("disk a 64\nlinear n a\nwrite 0 a 0 2049 0\n", 11, 3),
    ("disk a 64\nwrite 0 a 60 4 0\nwrite 0 a 63 2 0\n", 12, 3),
    ("disk a 64\nwrite 0 a 0 2049 0\n", 12, 2),
    ("disk a 4096\nwrite 0 a 0 1 0\nwrite 0 a 0 2049 0\n", 13, 3),
];

/// Texts with a second fault on a later line, which is told by an earlier check.
pub const EARLIER_LINES: &[Fault] = &[
    ("disk a 0\nfoo\n", 8, 1),
    ("disk a 0\ndisk b x\n", 8, 1),
    ("disk a 64\ndisk a 64\nlinear n=2 a\n", 3, 2),
    ("linear n\ndisk 1a 64\n", 6, 1),
    ("disk a 7\nstripe s chunk=8 a\ndisk b x\n", 8, 2),
    ("fs bios=0\nfs\n", 9, 1),
    ("disk a 8\ndisk b 8\nmirror m a b rescuer=no\nfoo\n", 10, 3),
    ("script a.bios + +\ndisk b\n", 15, 1),
    ("disk a 0\nwrite 0 b 0 1 0\n", 8, 1),
    ("disk a 64\nlinear n a\nwrite 0 a 0 1 0\nbar\n", 11, 3),
    ("disk a 64\nwrite 0 a 64 1 0\nwrite 0\n", 12, 2),
    ("disk a 64\nwrite 0 b 0 1 0\ndisk b 64\n", 4, 2),
    (
        "disk a 64\nwrite 0 a 0 1 0\nwrite 0 a 0 1 0\ndisk b 64\n",
        13,
        3,
    ),
    ("disk a 4096\nwrite 0 a 0 2049 0\nwrite 9 a 0 1 0\n", 14, 2),
    ("disk a 64\nwrite 0\ndisk b 64\n", 1, 2),
    ("foo\ndisk a 0\n", 1, 1),
];

/// Texts whose refused line stands behind lines that say nothing, which are counted.
pub const COUNTED: &[Fault] = &[
    ("\n\n\ndisk a 0\n", 8, 4),
    ("# one\n#two\n\n \t\r\n# disk a 0\ndisk a 0", 8, 6),
    ("\r\n\tdisk\ra\t 0\r\n", 8, 2),
    ("disk a 64\n  # one\nfoo", 1, 3),
    (
        "disk a 64\n\nwrite 0 a 0 1 0\n#\n\nwrite 0 a 0 1 0\n",
        13,
        6,
    ),
    ("disk a 64\nwrite 0 a 0 1 0\n\t\n#\r\ndisk b 64\n", 1, 5),
];
