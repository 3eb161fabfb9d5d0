//! Eight words at a time.
ghost use Rattle.std.specs.Prelude.{◌≡◌, ◌+◌, ◌≤◌, length};
ghost use Rattle.std.specs.Simd.Lanes.{chunk, put_chunk};

use std::simd::prelude::*;

/// The eight words from place `at` on.
pub fn group(words: &[u64], at: usize) -> u64x8
    requires { at + 8 ≤ length words.now }
    ensures { result ≡ chunk at 8 words.now }
{
    u64x8::from_slice(&words[at..])
}

/// Puts eight words in the place of those from `at` on.
pub fn put_group(words: &mut [u64], at: usize, lanes: u64x8)
    requires { at + 8 ≤ length words.old }
    ensures { words.new ≡ put_chunk at words.old lanes }
{
    lanes.copy_to_slice(&mut words[at..]);
}
