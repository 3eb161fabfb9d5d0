//! Tests of the texts that the program writes: worked cases whose lines are written down, and sinks that fail at any call.
#![tactic(auto)]

#[cfg(test)]
mod made;
#[cfg(test)]
mod pens;
#[cfg(test)]
mod texts;
