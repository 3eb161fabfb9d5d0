//! Tests of event lines: those of a mirror's run, one of each kind of event, lines that are none, and edits of lines.
#![tactic(auto)]

#[cfg(test)]
mod edits;
#[cfg(test)]
mod events;
#[cfg(test)]
mod lines;
#[cfg(test)]
mod names;
pub mod stacks;
