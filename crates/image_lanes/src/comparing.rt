//! Which words are the same.
ghost use Rattle.std.specs.Prelude.{◌≡◌, ◌+◌, ◌*◌, ◌/◌, ◌%◌, ◌≤◌, not, length, drop, take};
ghost use Rattle.std.specs.Bool.{Decides};
ghost use Rattle.image_lanes.specs.Lanes.{equal_words, unlike, IsFirstSector};

use crate::lanes::group;
use std::simd::prelude::*;

// Whether eight words are those eight.
fn same_group(one: u64x8, other: u64x8) -> bool
    requires { (length one ≡ 8) × (length other ≡ 8) }
    ensures { Decides result (one ≡ other) }
{
    one.simd_ne(other).to_bitmask() == 0
}

/// Whether two lists of words are one: as long, and with the same word at each place.
pub fn same(a: &[u64], b: &[u64]) -> bool
    ensures { Decides result (a.now ≡ b.now) }
{
    if a.len() != b.len() {
        return false;
    }
    let mut at: usize = 0;
    'comparing: while a.len() - at >= 8 {
        if !same_group(group(a, at), group(b, at)) {
            return false;
        }
        at += 8;
    }
    a[at..] == b[at..]
}

// Whether the sector at this place of one list differs from that of the other.
fn is_unlike(a: &[u64], b: &[u64], place: usize) -> bool
    requires a { 64 * place + 64 ≤ length a.now }
    requires b { 64 * place + 64 ≤ length b.now }
    ensures { result ≡ not (equal_words (take 64 (drop (64 * place) a.now)) (take 64 (drop (64 * place) b.now))) }
{
    let start = 64 * place;
    !same(&a[start..start + 64], &b[start..start + 64])
}

/// How many sectors of 64 words differ, of two lists that are as long as each other and have whole sectors.
pub fn count_unlike(a: &[u64], b: &[u64]) -> u64
    requires lengths { length a.now ≡ length b.now }
    requires whole { length a.now % 64 ≡ 0 }
    ensures { result ≡ unlike a.now b.now }
{
    let mut count: u64 = 0;
    'counting: for place in 0..a.len() / 64 {
        count += u64::from(is_unlike(a, b, place));
    }
    count
}

/// The place of the first sector of 64 words, at or behind `from`, that differs, or of the first that does not, of two lists as above, or how many
/// sectors they have where there is none.
pub fn first_sector(a: &[u64], b: &[u64], from: usize, differing: bool) -> usize
    requires lengths { length a.now ≡ length b.now }
    requires whole { length a.now % 64 ≡ 0 }
    requires from { from ≤ length a.now / 64 }
    ensures { IsFirstSector a.now b.now from differing result }
{
    let count = a.len() / 64;
    'looking: for place in from..count {
        if is_unlike(a, b, place) == differing {
            return place;
        }
    }
    count
}
