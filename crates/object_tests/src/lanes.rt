//! Kernels over lists of words.
use crate::asks::{Case, all_hold, holds};
use image_lanes::{count_unlike, fill, same, sum_words};
use std::process::Abort;

// Whether words that count up go past the largest one, and what they sum up to.
fn go_round() -> bool {
    let (mut words, mut wanted) = ([7; 65], [0; 65]);
    fill(&mut words, u64::MAX - 1);
    slow_fill(&mut wanted[2..], 0);
    words[..4] == [u64::MAX - 1, u64::MAX, 0, 1]
        && words[2..] == wanted[2..]
        && words[2..]
            .iter()
            .zip(0..63_u64)
            .all(|(word, next)| *word == next)
        && sum_words(&words) == 1950
}

/// The places of the ones among the zeros of two sectors, in two lists, and how many sectors of the lists differ.
struct Pair(&'static [usize], &'static [usize], u64);

const PAIRS: &[Pair] = &[
    Pair(&[], &[3, 5], 1),
    Pair(&[], &[3, 64], 2),
    Pair(&[3, 5], &[3, 64], 2),
    Pair(&[3, 64], &[3, 64], 0),
];

// Two sectors of zeros, but for ones at these places.
fn ones_at(places: &[usize]) -> [u64; 128] {
    let mut words = [0; 128];
    for place in places {
        if let Some(word) = words.get_mut(*place) {
            *word = 1;
        }
    }
    words
}

impl Case for Pair {
    fn holds(&self, _rt: &(impl Abort + AllocGlobal)) -> bool {
        count_unlike(&ones_at(self.0), &ones_at(self.1)) == self.2
    }
}

// Whether lists are the same to the last word.
fn are_same() -> bool {
    !same(&[1, 2, 3, 4, 5, 6, 7], &[1, 2, 3, 4, 5, 6, 8])
        && !same(&[0; 8], &[0; 9])
        && same(&[], &[])
}

// Sets words to numbers that count up from `first`, one by one, and answers their sum.
fn slow_fill(words: &mut [u64], first: u64) -> u64 {
    let mut next = first;
    let mut sum: u64 = 0;
    for word in words {
        *word = next;
        sum = sum.wrapping_add(next);
        next = next.wrapping_add(1);
    }
    sum
}

/// How many words count up past the largest one.
#[derive(Clone, Copy)]
struct Words(usize);

impl Case for Words {
    // Whether the kernels do with these words as a slow loop does, and tell them from others with another last one.
    fn holds(&self, _rt: &(impl Abort + AllocGlobal)) -> bool {
        let (mut found, mut wanted) = ([9; 70], [9; 70]);
        let count = self.0.min(70);
        let first = u64::MAX - 34;
        let sum = slow_fill(&mut wanted[..count], first);
        fill(&mut found[..count], first);
        let are_theirs = found == wanted
            && same(&found[..count], &wanted[..count])
            && sum_words(&found[..count]) == sum;
        if count == 0 {
            return are_theirs;
        }
        found[count - 1] = found[count - 1].wrapping_add(1);
        are_theirs && !same(&found[..count], &wanted[..count])
    }
}

#[test]
fn kernels_do_as_slow_loops_do(rt: HostRuntime) {
    holds(&rt, go_round(), "words past the largest");
    all_hold(&rt, PAIRS);
    holds(&rt, count_unlike(&[], &[]) == 0, "no words differ");
    holds(&rt, are_same(), "the same to the last word");
    holds(&rt, sum_words(&[]) == 0, "the sum of no words");
    for count in 0..=70_usize {
        all_hold(&rt, &[Words(count)]);
    }
}
