//! Sums of words.
ghost use Rattle.std.specs.Prelude.{◌≡◌, ◌+◌, ◌%◌, ◌^◌, length};
ghost use Rattle.image_lanes.specs.Lanes.{sum_mod};

use crate::lanes::group;
use std::simd::prelude::*;

// Adds eight words lane by lane, modulo 2 ^ 64.
fn with_group(lanes: u64x8, more: u64x8) -> u64x8
    requires { (length lanes ≡ 8) × (length more ≡ 8) }
    ensures sum { sum_mod result ≡ (sum_mod lanes + sum_mod more) % 2 ^ 64 }
    ensures length { length result ≡ 8 }
{
    lanes + more
}

// The sum of the lanes.
fn sum_of_lanes(lanes: u64x8) -> u64
    ensures { result ≡ sum_mod lanes }
{
    lanes.reduce_sum()
}

// One word at a time, for the few at the end.
fn sum_each(words: &[u64]) -> u64
    ensures { result ≡ sum_mod words.now }
{
    let mut all = 0u64;
    'adding: for word in words {
        all = all.wrapping_add(*word);
    }
    all
}

/// The sum of the words, modulo 2 ^ 64.
pub fn sum_words(words: &[u64]) -> u64
    ensures { result ≡ sum_mod words.now }
{
    let mut lanes = u64x8::splat(0);
    let mut at: usize = 0;
    'adding: while words.len() - at >= 8 {
        lanes = with_group(lanes, group(words, at));
        at += 8;
    }
    sum_of_lanes(lanes).wrapping_add(sum_each(&words[at..]))
}
