//! Tests of the objects that a run moves: what no clause says, worked cases, that they may cross threads, and each allocating call once.
#![tactic(auto)]

#[cfg(test)]
mod asks;
#[cfg(test)]
mod bios;
#[cfg(test)]
mod books;
#[cfg(test)]
mod crossing;
#[cfg(test)]
mod disks;
#[cfg(test)]
mod elements;
#[cfg(test)]
mod lanes;
#[cfg(test)]
mod legs;
#[cfg(test)]
mod lists;
#[cfg(test)]
mod pieces;
#[cfg(test)]
mod pool_calls;
#[cfg(test)]
mod pools;
#[cfg(test)]
mod punts;
#[cfg(test)]
mod segments;
#[cfg(test)]
mod sets;
#[cfg(test)]
mod streams;
#[cfg(test)]
mod submission;
#[cfg(test)]
mod task_lists;
