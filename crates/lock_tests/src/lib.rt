//! Tests of locks and clocks that threads share: worked cases, what no clause says, and each allocating call once.
#![tactic(auto)]

pub mod drawing;
pub mod number;
#[cfg(test)]
mod seats;
#[cfg(test)]
mod tickets;
