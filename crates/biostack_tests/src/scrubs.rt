//! Scrubs of texts whose answers were worked out by hand from the rules.
use crate::asks::{Case, all_hold};
use crate::calls::answers;
use crate::made::{Part, STORAGE, STORAGE_WRITES, text_of};
use std::process::Abort;

// A text, the status of its scrub, and what that writes.
struct Scrub(&'static str, u8, &'static str);

const SCRUBS: &[Scrub] = &[
    // Both members have the data, one does not, and none does, where the write fails.
    Scrub(ALIKE, 0, ALIKE_LINES),
    Scrub(
        "disk a 8\ndisk b 8\nbad a 0 1 medium\nmirror m a b\nwrite 0 m 0 1 0\n",
        1,
        "scrub m leg 1 unlike 1\ndiffer m 1 0 1\nsteps 22 of 36\n",
    ),
    Scrub(
        "disk a 8\ndisk b 8\nbad a 0 1 medium\nbad b 0 1 nospace\nmirror m a b\nwrite 0 m 0 1 0\n",
        0,
        "scrub m leg 1 unlike 0\nsteps 22 of 36\n",
    ),
    // Each member is compared with the first.
    Scrub(
        "disk a 8\ndisk b 8\ndisk c 8\nbad a 0 1 io\nmirror m a b c\nwrite 0 m 0 8 0\n",
        1,
        "scrub m leg 1 unlike 8\ndiffer m 1 0 8\nscrub m leg 2 unlike 8\ndiffer m 2 0 8\nsteps 29 of 46\n",
    ),
    // No mirror, and one of a single member.
    Scrub(
        "disk a 8\nlinear n a\nwrite 0 n 0 1 0\n",
        0,
        "steps 7 of 10\n",
    ),
    Scrub(
        "disk a 8\nmirror m a\nwrite 0 m 0 1 0\n",
        0,
        "steps 15 of 26\n",
    ),
    // A mirror is as large as its smallest member.
    Scrub(
        "disk a 8\ndisk b 16\nbad b 2 1 io\nmirror m b a\nwrite 0 m 0 8 0\n",
        1,
        "scrub m leg 1 unlike 8\ndiffer m 1 0 8\nsteps 22 of 36\n",
    ),
    // Up to the last sector of the mirror, and behind it another mirror.
    Scrub(
        "disk a 8\ndisk b 8\nbad b 6 1 io\nmirror m a b\nwrite 0 m 0 2 0\nwrite 0 m 5 3 0\n",
        1,
        "scrub m leg 1 unlike 3\ndiffer m 1 5 3\nsteps 44 of 72\n",
    ),
    Scrub(
        "disk a 8\ndisk b 8\nbad b 0 1 io\nmirror m a b\ndisk c 8\ndisk d 8\nbad d 7 1 nospace\nmirror n c d\nwrite 0 m 0 2 0\nwrite 1 n 6 2 0\n",
        1,
        "scrub m leg 1 unlike 2\ndiffer m 1 0 2\nscrub n leg 1 unlike 2\ndiffer n 1 6 2\nsteps 44 of 72\n",
    ),
    // Over a stripe and a linear device: one stretch in three chunks.
    Scrub(
        "disk a 16\ndisk b 16\nstripe s a b chunk=8\ndisk c 20\ndisk d 12\nbad c 10 1 medium\nlinear n c d\nmirror m s n\nwrite 0 m 4 20 0\n",
        1,
        "scrub m leg 1 unlike 16\ndiffer m 1 4 16\nsteps 43 of 66\n",
    ),
    // Over a limit, which cuts the write, so that two of its sectors fail.
    Scrub(
        "disk a 8\nbad a 1 1 io\nbad a 3 1 io\nlimit l max=1 a\ndisk b 8\nmirror m b l\nwrite 0 m 0 5 0\n",
        1,
        "scrub m leg 1 unlike 2\ndiffer m 1 1 1\ndiffer m 1 3 1\nsteps 50 of 76\n",
    ),
    // A mirror shows its first member to the mirror above it.
    Scrub(
        "disk a 8\ndisk b 8\ndisk c 8\nbad b 0 1 io\nmirror l a b\nmirror m l c\nwrite 0 m 0 4 0\n",
        1,
        "scrub l leg 1 unlike 4\ndiffer l 1 0 4\nscrub m leg 1 unlike 0\nsteps 37 of 62\n",
    ),
    Scrub(
        "disk a 8\ndisk b 8\ndisk c 8\nbad a 0 1 io\nmirror l a b\nmirror m l c\nwrite 0 m 0 4 0\n",
        1,
        "scrub l leg 1 unlike 4\ndiffer l 1 0 4\nscrub m leg 1 unlike 4\ndiffer m 1 0 4\nsteps 37 of 62\n",
    ),
];

/// A write that comes to both members of a mirror, and what its scrub writes.
pub const ALIKE: &str =
    "disk a 8\ndisk b 8\nmirror m a b reserve=1 records=1\nmemory none\nwrite 0 m 0 1 0\n";

pub const ALIKE_LINES: &str = "scrub m leg 1 unlike 0\nsteps 25 of 36\n";

// Words that order a scrub behind another schedule.
const SEEDED: &[Asked] = &[
    Asked(&["scrub", "--seed", "3"], ALIKE, 0, ALIKE_LINES),
    Asked(&["scrub", "--seed=3"], ALIKE, 0, ALIKE_LINES),
    Asked(&["scrub", "--seed", "0"], ALIKE, 0, ALIKE_LINES),
];

// The words of a scrub, its text, the status, and what it writes.
struct Asked(&'static [&'static str], &'static str, u8, &'static str);

impl Case for Asked {
    fn holds(&self, rt: &(impl Abort + AllocGlobal)) -> bool {
        answers(rt, self.0, self.1.as_bytes(), self.2, &[self.3], "")
    }
}

impl Case for Scrub {
    fn holds(&self, rt: &(impl Abort + AllocGlobal)) -> bool {
        answers(rt, &["scrub"], self.0.as_bytes(), self.1, &[self.2], "")
    }
}

// A large text, which is alike on all members, and what its scrub writes.
struct Large(&'static [Part], &'static str);

impl Case for Large {
    fn holds(&self, rt: &(impl Abort + AllocGlobal)) -> bool {
        let text = text_of(rt, self.0);
        answers(rt, &["scrub"], text.as_bytes(), 0, &[self.1], "")
    }
}

// Two stripes over limits under a mirror, with 200 writes.
const STORED: &[Large] = &[Large(
    &[STORAGE, STORAGE_WRITES],
    "scrub m leg 1 unlike 0\nsteps 11318 of 17700\n",
)];

#[test]
fn a_scrub_tells_where_members_differ(rt: HostRuntime) {
    all_hold(&rt, SCRUBS);
    all_hold(&rt, SEEDED);
    all_hold(&rt, STORED);
}
