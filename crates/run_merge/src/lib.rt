//! Runs as products of what each object and each task does, and the merge of the histories of objects that were shared.
#![tactic(auto)]

pub(crate) mod heads;
pub mod joining;
pub mod laws;
pub(crate) mod left;
pub mod outcome;
pub(crate) mod rows;
pub(crate) mod trace;

pub use outcome::{Outcome, merge};
