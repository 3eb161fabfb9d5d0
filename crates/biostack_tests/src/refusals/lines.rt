//! Texts with a wrong line, by its reason, each with the line.
use crate::refusals::RefusedText;

pub const BAD_NUMBERS: &[RefusedText] = &[
    ("disk a x\n", 1),
    ("disk a -1\n", 1),
    ("disk a +64\n", 1),
    ("disk a 0x40\n", 1),
    ("disk a 6_4\n", 1),
    ("disk a 64.0\n", 1),
    ("disk a 000000000000000000064\n", 1),
    ("disk a 18446744073709551616\n", 1),
    ("disk a 99999999999999999999\n", 1),
    ("disk a 64\nbad a x 1 io\n", 2),
    ("disk a 64\nbad a 0 x io\n", 2),
    ("disk a 64\nbad a 0 0 io\n", 2),
    ("disk a 64\nbad a 0 18446744073709551616 io\n", 2),
    ("disk a 64\nstripe s chunk=0 a\n", 2),
    ("disk a 64\nzoned z chunk=0 a\n", 2),
    ("disk a 64\nstripe s chunk=000 a\n", 2),
    ("disk a 64\nstripe s chunk= a\n", 2),
    ("disk a 64\nstripe s chunk=8k a\n", 2),
    ("disk a 64\nlimit l max=0 a\n", 2),
    ("disk a 64\nlimit l max= a\n", 2),
    ("disk a 64\nlimit l max=1 chunk=x a\n", 2),
    ("disk a 64\nlinear n reserve=-1 a\n", 2),
    ("disk a 64\nlinear n reserve=2=2 a\n", 2),
    ("disk a 64\nmirror m records=two a\n", 2),
    ("fs bios=x\n", 1),
    ("fs bios=2 vecs=\n", 1),
    ("fs vecs=18446744073709551616\n", 1),
    ("disk a 64\nwrite 8 a 0 1 0\n", 2),
    ("disk a 64\nwrite 08 a 0 1 0\n", 2),
    ("disk a 64\nwrite w0 a 0 1 0\n", 2),
    ("disk a 64\nwrite 18446744073709551615 a 0 1 0\n", 2),
    ("disk a 64\nwrite 0 a x 1 0\n", 2),
    ("disk a 64\nwrite 0 a 0 0 0\n", 2),
    ("disk a 64\nwrite 0 a 0 1.5 0\n", 2),
    ("disk a 64\nwrite 0 a 0 1 x\n", 2),
    ("disk a 64\nwrite 0 a 0 1 18446744073709551616\n", 2),
    ("disk a 64\nwrite 0 a 0 1 000000000000000000000\n", 2),
    ("disk a 64\nwrite 0 a 0 1 0\nwrite 0 a 1 0 0\n", 3),
];

pub const NAMES_TAKEN: &[RefusedText] = &[
    ("disk a 64\ndisk a 64\n", 2),
    ("disk a 64\ndisk b 64\ndisk a 8\n", 3),
    ("disk a 64\ndisk b 64\nmirror b a\n", 3),
    ("disk a 64\nlimit l max=1 a\nstripe l chunk=8 l\n", 3),
    ("fs\nfs\n", 2),
    ("fs bios=2\n\n# and again\nfs vecs=3\n", 4),
    ("memory none\ndisk a 64\nmemory none\n", 3),
    ("script fs.bios + +\nscript fs.bios - -\n", 2),
    (
        "script fs.vecs . +\nscript fs.bios . +\nscript fs.vecs . -\n",
        3,
    ),
    (
        "disk a 64\nmirror m a\nscript m.records + +\nscript m.bios + +\nscript m.records . -\n",
        5,
    ),
];

pub const NO_DEVICES: &[RefusedText] = &[
    ("linear n a\n", 1),
    ("linear n a\ndisk a 64\n", 1),
    ("disk a 64\nlinear n a b\n", 2),
    ("disk a 64\nlinear n n\n", 2),
    ("disk a 64\nstripe s chunk=8 a fs\n", 2),
    ("disk a 64\nlimit l max=1 A\n", 2),
    ("disk a 64\nlimit l max=1 chunk a\n", 2),
    ("disk a 64\nmirror m a 1\n", 2),
    ("disk a 64\nmirror m a a2345678901234567\n", 2),
    ("disk a 64\nmirror m a,b\n", 2),
    ("bad a 0 1 io\ndisk a 64\n", 1),
    ("disk a 64\nbad A 0 1 io\n", 2),
    ("disk a 64\nbad fs 0 1 io\n", 2),
    ("write 0 a 0 1 0\n", 1),
    ("disk a 64\nwrite 0 b 0 1 0\n", 2),
    ("disk a 64\nwrite 0 aa 0 1 0\n", 2),
    ("disk a 64\nwrite 0 fs 0 1 0\n", 2),
    ("disk a 64\nwrite 0 a 0 1 0\n\nwrite 0 b 1 1 0\n", 4),
];

pub const MEMBERS_TAKEN: &[RefusedText] = &[
    ("disk a 64\nstripe s chunk=8 a a\n", 2),
    ("disk a 64\nmirror m a a\n", 2),
    ("disk a 64\ndisk b 64\nlinear n a b a\n", 3),
    ("disk a 64\nlinear n a\nlinear o a\n", 3),
    ("disk a 64\nlimit l max=1 a\nmirror m l a\n", 3),
    ("disk a 64\ndisk b 64\nmirror m a b\nlinear n b\n", 4),
    ("disk a 64\nlinear n a\nlinear o n\nlinear p n\n", 4),
];

pub const BAD_SHAPES: &[RefusedText] = &[
    ("linear n\n", 1),
    ("linear n reserve=2 rescuer=no\n", 1),
    ("stripe s chunk=8\n", 1),
    ("zoned z chunk=8\n", 1),
    ("limit l max=1\n", 1),
    ("mirror m\n", 1),
    ("disk a 8\ndisk b 8\nlimit l max=1 a b\n", 3),
    ("disk a 8\nlinear n a\nbad n 0 1 io\n", 3),
    ("disk a 8\nmirror m a\nbad m 0 1 io\n", 3),
    ("disk a 8\nlimit l max=1 a\nbad l 0 1 medium\n", 3),
];

pub const TOO_LARGE: &[RefusedText] = &[
    ("disk a 262145\n", 1),
    ("disk a 262144\ndisk b 1\n", 2),
    ("disk a 131072\ndisk b 131072\ndisk c 1\n", 3),
    ("disk a 18446744073709551615\n", 1),
    ("disk a 262144\ndisk b 18446744073709551615\n", 2),
    ("disk a 8\nlinear n reserve=1025 a\n", 2),
    ("disk a 8\nlinear n reserve=4294967298 a\n", 2),
    ("disk a 8\nstripe s chunk=8 reserve=1025 a\n", 2),
    (
        "disk a 8\nlimit l max=1 reserve=18446744073709551615 a\n",
        2,
    ),
    ("disk a 8\nmirror m reserve=1025 a\n", 2),
    ("disk a 8\nmirror m records=1025 a\n", 2),
    ("disk a 8\nmirror m reserve=1 records=4294967297 a\n", 2),
    ("fs bios=1025\n", 1),
    ("fs bios=1 vecs=1025\n", 1),
    ("fs vecs=4294967297\n", 1),
];

pub const EMPTY_DEVICES: &[RefusedText] = &[
    ("disk a 0\n", 1),
    ("disk a 8\ndisk b 000\n", 2),
    ("disk a 7\nstripe s chunk=8 a\n", 2),
    ("disk a 7\ndisk b 3\nzoned z chunk=8 a b\n", 3),
    ("disk a 8\ndisk b 7\nstripe s chunk=8 a b\n", 3),
    ("disk a 8\nstripe s chunk=18446744073709551615 a\n", 2),
    ("disk a 9\ndisk b 9\nmirror m a b\nstripe s chunk=10 m\n", 4),
];

pub const RESERVES_ZERO: &[RefusedText] = &[
    ("disk a 8\nlinear n reserve=0 a\n", 2),
    ("disk a 8\nstripe s reserve=00 chunk=8 a\n", 2),
    ("disk a 8\nlimit l max=1 a reserve=0\n", 2),
    ("disk a 8\nmirror m reserve=0 a\n", 2),
    ("disk a 8\nmirror m records=0 a\n", 2),
    ("fs bios=0\n", 1),
    ("fs bios=1 vecs=0\n", 1),
];

pub const RESCUERS_MISSING: &[RefusedText] = &[
    ("disk a 8\ndisk b 8\nmirror m a b rescuer=no\n", 3),
    (
        "disk a 8\ndisk b 8\nmirror m a b reserve=1 records=1 rescuer=no\nmemory none\nwrite 0 m 0 1 0\n",
        3,
    ),
    (
        "disk a 8\ndisk b 8\ndisk c 8\nmirror m rescuer=no a b c\n",
        4,
    ),
    (
        "disk a 8\ndisk b 8\nlinear n a\nmirror m b rescuer=no n\n",
        4,
    ),
];

pub const NOT_TOPS: &[RefusedText] = &[
    ("disk a 64\nlinear n a\nwrite 0 a 0 1 0\n", 3),
    (
        "disk a 64\nlimit l max=1 a\nmirror m l\nwrite 0 l 0 1 0\n",
        4,
    ),
    (
        "disk a 64\nlimit l max=1 a\nmirror m l\nwrite 0 a 0 1 0\n",
        4,
    ),
    (
        "disk a 64\ndisk b 64\nstripe s chunk=8 a b\nwrite 0 s 0 1 0\nwrite 0 b 0 1 0\n",
        5,
    ),
];

pub const PAST_ENDS: &[RefusedText] = &[
    ("disk a 64\nwrite 0 a 64 1 5\n", 2),
    ("disk a 64\nwrite 0 a 60 5 0\n", 2),
    ("disk a 64\nwrite 0 a 18446744073709551615 1 0\n", 2),
    ("disk a 64\nwrite 0 a 0 18446744073709551615 0\n", 2),
    (
        "disk a 64\nwrite 0 a 18446744073709551615 18446744073709551615 0\n",
        2,
    ),
    ("disk a 64\nbad a 64 1 io\n", 2),
    ("disk a 64\nbad a 0 65 medium\n", 2),
    ("disk a 64\nbad a 18446744073709551615 1 io\n", 2),
    (
        "disk a 64\nbad a 18446744073709551615 18446744073709551615 nospace\n",
        2,
    ),
    ("disk a 8\ndisk b 8\nlinear n a b\nwrite 0 n 15 2 0\n", 4),
    (
        "disk a 9\ndisk b 9\nstripe s chunk=8 a b\nwrite 0 s 16 1 0\n",
        4,
    ),
    ("disk a 8\ndisk b 5\nmirror m a b\nwrite 0 m 5 1 0\n", 4),
    ("disk a 8\nlimit l max=1 a\nwrite 0 l 8 1 0\n", 3),
];

pub const OVERLAPS: &[RefusedText] = &[
    ("disk a 64\nwrite 0 a 0 8 0\nwrite 1 a 7 2 0\n", 3),
    ("disk a 64\nwrite 0 a 8 8 0\nwrite 0 a 7 2 0\n", 3),
    ("disk a 64\nwrite 0 a 5 1 0\nwrite 0 a 5 1 0\n", 3),
    ("disk a 64\nwrite 0 a 0 64 0\nwrite 0 a 10 1 0\n", 3),
    ("disk a 64\nwrite 0 a 10 1 0\nwrite 0 a 0 64 0\n", 3),
    (
        "disk a 64\nwrite 0 a 0 8 0\nwrite 0 a 8 8 0\nwrite 0 a 0 1 0\n",
        4,
    ),
    (
        "disk a 64\ndisk b 64\nmirror m a b\nwrite 0 m 0 8 0\n\n# again\nwrite 7 m 7 1 0\n",
        7,
    ),
];

pub const TOO_MANY_SEGMENTS: &[RefusedText] = &[
    ("disk a 4096\nwrite 0 a 0 2049 0\n", 2),
    (
        "disk a 4097\nwrite 0 a 0 2048 0\nwrite 0 a 2048 2049 0\n",
        3,
    ),
    ("disk a 4096\nwrite 0 a 2047 2049 0\n", 2),
    ("disk a 262144\nwrite 0 a 0 262144 0\n", 2),
];

pub const NO_POOLS: &[RefusedText] = &[
    ("script a.bios + +\n", 1),
    ("disk a 64\nscript a.bios + +\n", 2),
    ("disk a 64\nscript a.records + +\n", 2),
    ("disk a 64\nlinear n a\nscript n.records + +\n", 3),
    ("disk a 64\nstripe s chunk=8 a\nscript s.records + +\n", 3),
    ("disk a 64\nlimit l max=1 a\nscript l.records + +\n", 3),
    ("disk a 64\nlinear n a\nscript n.vecs + +\n", 3),
    ("disk a 64\nlinear n a\nscript n + +\n", 3),
    ("disk a 64\nlinear n a\nscript n.bios.bios + +\n", 3),
    ("disk a 64\nlinear n a\nscript N.bios + +\n", 3),
    ("disk a 64\nlinear n a\nscript m.bios + +\n", 3),
    ("disk a 64\nscript n.bios + +\nlinear n a\n", 2),
    ("script fs.records + +\n", 1),
    ("script fs + +\n", 1),
    ("script FS.bios + +\n", 1),
    ("script .bios + +\n", 1),
    ("script . . +\n", 1),
];
