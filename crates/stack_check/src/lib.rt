//! Checks the declarations of a text against each other, and makes the stack and the scripts that they mean.
//!
//! A line is checked against the lines before it, by one check for each reason, in their order. The first reason is the answer.
#![tactic(auto)]

mod accepting;
mod built;
mod devices;
mod draft;
mod fault;
mod finish;
mod placed;
mod pools;
mod scripts;
mod shared;
mod what;

pub use accepting::{accept, accept_loose};
