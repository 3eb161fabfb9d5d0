//! Tests of workers: threads that hand work to each other, and what no clause says.
#![tactic(auto)]

pub mod relay;
#[cfg(test)]
mod runs;
