//! Events of a run as lines of text, and lines as events.
//!
//! A line is `event`, the task, and what the task did, as words with one blank between any two (`specs/Lines.antt`). Devices and pools are
//! told by the names that they have in the text of the stack, so both directions look at the stack. Neither takes memory.
#![tactic(auto)]

pub mod laws;
mod read;
mod verb;
mod word;
mod words;
mod write;

pub use read::read_event;
pub use write::write_event;
