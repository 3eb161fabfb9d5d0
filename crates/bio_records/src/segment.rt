//! Segments of a write: pages of eight sectors.
ghost use Rattle.std.specs.Prelude.{◌≡◌, ◌≤◌, length};
ghost use Rattle.stack_base.specs.Segments.{segment_count};
ghost use Rattle.bio_records.specs.Segments.{segments_of};

use arrayvec::ArrayVec;

/// A part of a write in one page (`struct bio_vec`).
#[derive(Clone, Copy, Debug, Default, PartialEq, Eq)]
pub struct Segment {
    /// The first word of its data.
    pub word: u64,
    /// How many sectors it has: eight, and in the last segment of a write perhaps fewer.
    pub sectors: u32,
}

/// The segments of a write that has more than a bio keeps itself (`bi_io_vec` of the pool of `BIO_MAX_VECS`).
pub struct Vector {
    pub segments: ArrayVec<Segment, 256>,
}

// By hand, as that of `BioList`.
impl Drop for Vector {
    fn drop(self) {
        let Vector { segments } = self;
        drop(segments);
    }
}

/// How many segments a write of `count` sectors has: one for each page of eight sectors, and one for what is left. A write has a sector,
/// and at most 2048 of them, whose segments are what one vector holds (a `bio_vec` per page, `block/bio.c`; `BIO_MAX_VECS` is 256).
pub fn segments(count: u64) -> u32
    requires some { 1 ≤ count }
    requires few { count ≤ 2048 }
    ensures { result ≡ segment_count count }
{
    count.div_ceil(8) as u32
}

/// Writes the segments of a write of `count` sectors, whose first word is `first`, into `into`, which has a place for each. A sector has
/// 64 words, and words are counted modulo 2 ^ 64. The last segment has the sectors that are left (`bio_add_page`, `block/bio.c`).
pub fn fill(first: u64, count: u64, into: &mut [Segment])
    requires some { 1 ≤ count }
    requires few { count ≤ 2048 }
    requires places { length into.old ≡ segment_count count }
    ensures { into.new ≡ segments_of first count }
{
    for (place, segment) in into.iter_mut().enumerate() {
        let behind = 8 * place as u64;
        *segment = Segment {
            word: first.wrapping_add(64 * behind),
            sectors: (count - behind).min(8) as u32,
        };
    }
}
