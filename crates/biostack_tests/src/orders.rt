//! Calls that end at once or at another place: texts that are refused or cut, other words, traces, and the longest text.
use crate::asks::{all_hold, holds};
use crate::calls::{Call, ROOM, make_call};
use crate::made::{Part, text_of};
use crate::texts::MIRRORED_REPORT;
use outside_io::Sink;
use std::process::Abort;

/// Texts that each word refuses, and the line on errors.
const REFUSED: &[Call] = &[
    Call::Refused("disk a 64\nwrite 0 a\n", "biostack: line 2: 1 BadWord\n"),
    Call::Refused(
        "disk a 64\nwrite 8 a 0 1 0\n",
        "biostack: line 2: 2 BadNumber\n",
    ),
    Call::Refused("disk a 64\ndisk a 64\n", "biostack: line 2: 3 NameTaken\n"),
    Call::Refused(
        "disk a 64\nlinear n c\n",
        "biostack: line 2: 4 NoSuchDevice\n",
    ),
    Call::Refused(
        "disk a 64\nstripe s chunk=8 a a\n",
        "biostack: line 2: 5 MemberTaken\n",
    ),
    Call::Refused("disk a 64\n\nlinear n\n", "biostack: line 3: 6 BadShape\n"),
    Call::Refused("disk a 262145\n", "biostack: line 1: 7 TooLarge\n"),
    Call::Refused("disk a 0\n", "biostack: line 1: 8 EmptyDevice\n"),
    Call::Refused("fs bios=0\n", "biostack: line 1: 9 ReserveZero\n"),
    Call::Refused(
        "disk a 8\ndisk b 8\nmirror m a b reserve=1 records=1 rescuer=no\nmemory none\nwrite 0 m 0 1 0\n",
        "biostack: line 3: 10 NeedsRescuer\n",
    ),
    Call::Refused(
        "disk a 64\nlinear n a\nwrite 0 a 0 1 0\n",
        "biostack: line 3: 11 NotATop\n",
    ),
    Call::Refused(
        "disk a 64\nwrite 0 a 64 1 5\n",
        "biostack: line 2: 12 PastEnd\n",
    ),
    Call::Refused(
        "disk a 64\nwrite 0 a 60 5 0\n",
        "biostack: line 2: 12 PastEnd\n",
    ),
    Call::Refused(
        "disk a 64\nwrite 0 a 18446744073709551615 32 0\n",
        "biostack: line 2: 12 PastEnd\n",
    ),
    Call::Refused(
        "disk a 64\nwrite 0 a 0 8 0\nwrite 1 a 7 2 0\n",
        "biostack: line 3: 13 Overlap\n",
    ),
    Call::Refused(
        "disk a 4096\nwrite 0 a 0 2049 0\n",
        "biostack: line 2: 14 TooManySegments\n",
    ),
    Call::Refused(
        "disk a 64\nscript a.bios + +\n",
        "biostack: line 2: 15 NoSuchPool\n",
    ),
    Call::Refused("disk a 64\n# \x7f\n", "biostack: line 2: 17 NotText\n"),
    Call::Refused(
        "disk a 64\ndisk b 64\nwrite 0 a 0 33 0\nwrite 0 a 64 1 0\n",
        "biostack: line 4: 12 PastEnd\n",
    ),
    // Lines of rounds.
    Call::Refused(
        "disk a 8\nwrite 0 a 0 2 0\nwrite 1 a 1 2 1000\n",
        "biostack: line 3: 13 Overlap\n",
    ),
    Call::Refused(
        "disk a 8\ndisk b 8\nmirror m a b reserve=1 records=1\nmemory none\nwrite 0 m 0 1 0\nsync\nresize m.bios 0\n\
         write 0 m 0 1 64\n",
        "biostack: line 7: 9 ReserveZero\n",
    ),
    Call::Refused(
        "disk a 8\ndisk b 8\nmirror m a b reserve=1 records=1\nmemory none\nwrite 0 m 0 1 0\nsync\nresize a.bios 1\n\
         write 0 m 0 1 64\n",
        "biostack: line 7: 15 NoSuchPool\n",
    ),
    Call::Refused(
        "disk a 8\ndisk b 8\nmirror m a b reserve=1 records=1\nmemory none\nwrite 0 m 0 1 0\nsync\nresize m.bios 2\n\
         resize m.bios 2\nwrite 0 m 0 1 64\n",
        "biostack: line 8: 3 NameTaken\n",
    ),
];

/// Words that ask for nothing that the program does.
const OTHER_WORDS: &[Call] = &[
    Call::Usage(&[]),
    Call::Usage(&[""]),
    Call::Usage(&["runs"]),
    Call::Usage(&["Run"]),
    Call::Usage(&["run", "x"]),
    Call::Usage(&["run", "run"]),
    Call::Usage(&["run", "--trace", "--trace"]),
    Call::Usage(&["run", "--workers", "0"]),
    Call::Usage(&["run", "--workers", "17"]),
    Call::Usage(&["run", "--seed", "1", "--workers", "2"]),
    Call::Usage(&["run", "--seed"]),
    Call::Usage(&["check", "--trace"]),
    Call::Usage(&["layout", "check"]),
    Call::Usage(&["gen"]),
    Call::Usage(&["gen", "-7", "--text"]),
    Call::Usage(&["replay", "x"]),
    Call::Usage(&["replay", "--trace"]),
    Call::Usage(&["replay", "--seed", "1"]),
    Call::Usage(&["scrub", "--trace"]),
    Call::Usage(&["scrub", "--seed", "1", "--seed", "2"]),
    Call::Usage(&["--help"]),
    Call::Usage(&["--", "run"]),
];

/// The smallest text has one task at a time that can go on, so each number gives the same events.
const TRACES: &[Call] = &[
    Call::Traced(&["run", "--trace"]),
    Call::Traced(&["run", "--trace", "--seed=12"]),
    Call::Traced(&["run", "--trace", "--seed", "5"]),
    Call::Traced(&["run", "--seed=05", "--trace"]),
    Call::Traced(&["run", "--seed", "5", "--trace"]),
    Call::Traced(&["run", "--trace", "--seed=0000000000000000005"]),
];

/// A text that was cut.
const CUTS: &[Call] = &[
    Call::Cut(
        0,
        0,
        "pool fs.bios reserve 2 ordinary 0 spare 0\npool fs.vecs reserve 2 ordinary 0 spare 0\nsteps 0 of 0\n",
        "",
    ),
    Call::Cut(4, 3, "", "biostack: line 1: 1 BadWord\n"),
    Call::Cut(26, 3, "", "biostack: line 3: 6 BadShape\n"),
    // A mirror with one member.
    Call::Cut(
        28,
        0,
        "disk a sum 0000000000000000\ndisk b sum 0000000000000000\n\
         pool fs.bios reserve 2 ordinary 0 spare 0\npool fs.vecs reserve 2 ordinary 0 spare 0\n\
         pool m.records reserve 2 ordinary 0 spare 0\npool m.bios reserve 2 ordinary 0 spare 0\nsteps 0 of 0\n",
        "",
    ),
    Call::Cut(39, 3, "", "biostack: line 3: 2 BadNumber\n"),
    Call::Cut(58, 3, "", "biostack: line 4: 1 BadWord\n"),
    Call::Cut(76, 3, "", "biostack: line 5: 1 BadWord\n"),
    Call::Cut(78, 0, MIRRORED_REPORT, ""),
];

#[test]
fn texts_and_words_are_refused_or_carried_out(rt: HostRuntime) {
    all_hold(&rt, REFUSED);
    all_hold(&rt, OTHER_WORDS);
    all_hold(&rt, TRACES);
    all_hold(&rt, CUTS);
}

// Whether a word refuses a text that is too long, of which no more is read than one byte past the longest text.
fn stops(rt: &(impl Abort + AllocGlobal), word: &str) -> bool {
    let text = text_of(rt, &[Part::Times(4_194_400, "\n")]);
    let done = make_call(rt, &[word], text.as_bytes(), ROOM);
    let is_told = done.errors.held() == b"biostack: line 0: 16 TooLong\n".as_slice();
    is_told && done.status == 3 && done.output.held().is_empty() && done.left == Ok(95)
}

#[test]
fn no_more_is_read_than_one_byte_past_the_longest_text(rt: HostRuntime) {
    holds(&rt, stops(&rt, "run"), "run");
    holds(&rt, stops(&rt, "check"), "check");
    holds(&rt, stops(&rt, "layout"), "layout");
    holds(&rt, stops(&rt, "replay"), "replay");
}
