//! Words that count up.
ghost use Rattle.std.specs.Prelude.{◌≡◌, ◌+◌, ℕ, length};
ghost use Rattle.image_lanes.specs.Lanes.{counting};

use crate::lanes::put_group;
use std::simd::prelude::*;

// Eight words that count up from `first`.
fn first_group(first: u64) -> u64x8
    ensures { result ≡ counting first 8 }
{
    u64x8::splat(first) + u64x8::from_array([0, 1, 2, 3, 4, 5, 6, 7])
}

// The eight words that follow those from any first word on.
fn next_group(lanes: u64x8) -> u64x8
    ensures { (first : ℕ) → lanes ≡ counting first 8 → result ≡ counting (first + 8) 8 }
{
    lanes + u64x8::splat(8)
}

// One word at a time, for the few at the end.
fn fill_each(words: &mut [u64], first: u64)
    ensures { words.new ≡ counting first (length words.old) }
{
    let mut next = first;
    'filling: for word in words.iter_mut() {
        *word = next;
        next = next.wrapping_add(1);
    }
}

/// The words count up from the first one: word `i` becomes `first + i`, modulo 2 ^ 64.
pub fn fill(words: &mut [u64], first: u64)
    ensures { words.new ≡ counting first (length words.old) }
{
    let mut lanes = first_group(first);
    let mut at: usize = 0;
    'filling: while words.len() - at >= 8 {
        put_group(words, at, lanes);
        lanes = next_group(lanes);
        at += 8;
    }
    fill_each(&mut words[at..], first.wrapping_add(at as u64));
}
