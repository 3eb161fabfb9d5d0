//! Segments of eight sectors, and bios that are cut.
use crate::asks::holds;
use crate::bios::bio_of;
use bio_records::{Iter, Segment, advance, fill, front, segments};
use stack_base::Range;

/// Sectors, and how many segments they are.
const SEGMENTS: &[(u64, u64)] = &[(1, 1), (8, 1), (9, 2), (32, 4), (33, 5), (2048, 256)];

// Whether sectors are so many segments of eight.
fn are_segments((sectors, count): (u64, u64)) -> bool {
    1 <= sectors && sectors <= 2048 && u64::from(segments(sectors)) == count
}

// Whether the last segment has what is left.
fn fills() -> bool {
    let mut places = [Segment::default(); 2];
    fill(u64::MAX, 11, &mut places);
    let segments = [
        Segment {
            word: u64::MAX,
            sectors: 8,
        },
        Segment {
            word: 511,
            sectors: 3,
        },
    ];
    places == segments
}

// Whether a bio is cut into its front and the rest.
fn cuts() -> bool {
    let range = Range { start: 10, len: 20 };
    let mut bio = bio_of(7, range, 5);
    let first = front(&bio, 11);
    advance(&mut bio, 11);
    let at = Iter {
        segment: 1,
        done: 3,
    };
    (first.range, first.word) == (Range { start: 10, len: 11 }, 5)
        && (bio.range, bio.word) == (Range { start: 21, len: 9 }, 709)
        && bio.at == at
}

#[test]
fn segments_and_bios_are_cut(rt: HostRuntime) {
    for row in SEGMENTS {
        holds(&rt, are_segments(*row), "a segment has eight sectors");
    }
    holds(&rt, fills(), "the last segment has what is left");
    holds(&rt, cuts(), "the front of a bio, and the rest");
}
