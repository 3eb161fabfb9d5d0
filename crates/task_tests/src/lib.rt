//! Tests of tasks that are stepped by hand: worked runs turn by turn, with what the step of each task comes to, and what the run leaves.
#![tactic(auto)]

#[cfg(test)]
mod cuts;
#[cfg(test)]
mod mirrors;
#[cfg(test)]
mod nodes;
#[cfg(test)]
mod rounds;
#[cfg(test)]
mod runs;
#[cfg(test)]
mod seams;
pub mod texts;
#[cfg(test)]
mod waits;
