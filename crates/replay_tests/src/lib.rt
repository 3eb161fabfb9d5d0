//! Tests of replays: worked runs, line by line, with what each comes to, and runs in which one line is wrong.
#![tactic(auto)]

#[cfg(test)]
mod rows;
pub mod texts;
#[cfg(test)]
mod wrong;
