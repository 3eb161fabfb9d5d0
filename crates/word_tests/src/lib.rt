//! Tests of words: which orders they give, and which of them give none, each by the grammar.
#![tactic(auto)]

#[cfg(test)]
mod orders;
