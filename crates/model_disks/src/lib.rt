//! A disk of the model, kept in memory: bios wait in it in the order of their pushes, are completed in any order, and write its image.
//! Only opening a disk takes memory.
//!
//! A sector is 512 bytes, as in Linux, and its data are 64 words of 8 bytes (`specs/Words.antt` of `stack_base`). A disk keeps the
//! words of the pages of 16 sectors that were written, and a flag for each sector up to the last one that ever was, in memory that is reserved
//! for all sectors when it is opened. Contracts speak of whole sectors (`specs/Disks.antt`).
#![tactic(auto)]

mod append;
mod backlog;
mod disk;
pub mod fault;
mod flags;
mod image;
pub mod laws;
mod pages;
mod pending;
mod walk;

pub use disk::{Disk, Done};
pub use walk::Waiting;
