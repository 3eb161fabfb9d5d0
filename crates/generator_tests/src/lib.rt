//! Tests of generated texts: worked ones, by the words that another program made, and that some of them are accepted.
#![tactic(auto)]

#[cfg(test)]
mod texts;
