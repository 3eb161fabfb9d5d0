//! Laws of all runs.
#![tactic(auto)]

pub mod laws;
