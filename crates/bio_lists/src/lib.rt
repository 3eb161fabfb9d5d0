//! The order in which a task serves the bios that it submits: that of `submit_bio_noacct`, `block/blk-core.c`. No call takes memory.
//!
//! A driver that splits or remaps a bio submits others meanwhile. They are not served within its own call, which would nest as deep as
//! devices stand on each other, but wait in the task's lists until it has returned.
#![tactic(auto)]

pub mod laws;
mod submission;

pub use bio_records::{BioList, Bios, RescueList, TaskLists, Waits};
pub use submission::SubmissionLists;
