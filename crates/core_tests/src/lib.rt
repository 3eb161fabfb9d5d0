//! Tests of runs over the plain state, event by event: the worked run of a mirror, and runs of other stacks, each by the rules of the machine.
#![tactic(auto)]

#[cfg(test)]
mod cases;
#[cfg(test)]
mod cut_legs;
#[cfg(test)]
mod cuts;
#[cfg(test)]
mod kinds;
#[cfg(test)]
mod legs;
#[cfg(test)]
mod mirrors;
#[cfg(test)]
mod nests;
#[cfg(test)]
mod one_member;
#[cfg(test)]
mod rounds;
#[cfg(test)]
mod states;
pub mod texts;
#[cfg(test)]
mod waits;
