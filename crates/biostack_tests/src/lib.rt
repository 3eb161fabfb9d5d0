//! Tests of what no clause says, of texts and of what is made of them: why texts are refused, what others mean, worked runs,
//! scrubs, replays and layouts, a slow scan of layouts, faults at every call, and texts of as many bytes as there may be. The
//! slow way of a sector is proved to be the way of the definitions.
#![tactic(auto)]

#[cfg(test)]
mod asks;
#[cfg(test)]
mod bounds;
#[cfg(test)]
mod calls;
#[cfg(test)]
mod disks;
#[cfg(test)]
mod faults;
#[cfg(test)]
mod gates;
#[cfg(test)]
mod generated;
#[cfg(test)]
mod layouts;
#[cfg(test)]
mod made;
#[cfg(test)]
mod meanings;
#[cfg(test)]
mod orders;
#[cfg(test)]
mod refusals;
#[cfg(test)]
mod replays;
#[cfg(test)]
mod rounds;
#[cfg(test)]
mod scan;
#[cfg(test)]
mod scenes;
#[cfg(test)]
mod scrubs;
pub mod slow;
#[cfg(test)]
mod stacks;
#[cfg(test)]
mod texts;
#[cfg(test)]
mod traces;
#[cfg(test)]
mod workers;
