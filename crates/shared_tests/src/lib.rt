//! Tests of tasks at their desks: runs on one thread, two threads beside each other, the order in which tasks are handed
//! out, and runs by workers, thousands of times over.
#![tactic(auto)]

#[cfg(test)]
mod beside;
#[cfg(test)]
mod chosen;
#[cfg(test)]
mod handed;
#[cfg(test)]
mod opened;
#[cfg(test)]
mod reports;
#[cfg(test)]
mod storage;
pub mod turns;
#[cfg(test)]
mod workers;
