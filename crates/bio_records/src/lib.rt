//! Bios, their segments and vectors, and the lists that bios stand in, linked through their own boxes. No call takes memory.
//!
//! A bio here is what `struct bio` of Linux 6.1 (`include/linux/blk_types.h`) is to a write: a run of sectors at a device, its place in the
//! write's segments, and what it is a part of. Its lists are those of `include/linux/bio.h` (`bio_list_add`, `bio_list_pop`,
//! `bio_list_merge`).
#![tactic(auto)]

mod bio;
mod body;
mod chain;
pub mod laws;
mod list;
mod segment;
mod tasks;
mod walk;

pub use bio::{Bio, Iter, Pad, Slip, advance, front};
pub use body::{BioBody, BioElement, SlipElement, VecElement};
pub use list::BioList;
pub use segment::{Segment, Vector, fill, segments};
pub use tasks::{RescueList, TaskLists, Waits};
pub use walk::Bios;
