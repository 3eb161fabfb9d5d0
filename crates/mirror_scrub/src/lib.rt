//! Compares what the members of mirrors hold, as a check of an array does (`process_checks`, `drivers/md/raid1.c`, which
//! counts the sectors of each block that differs).
//!
//! A sector of a mirror is unlike on a member where the member shows other words there than the first member
//! (`specs/Seen.antt`). Members are compared in stretches of sectors that follow one another on both disks. No call takes
//! memory.
#![tactic(auto)]

mod lines;
mod mirror;
mod pair;
mod stretch;

pub use lines::scrub;
pub use mirror::{all_alike, legs, next_unlike, unlike};
