//! A state of the machine of a run as plain numbers, lists and places, to which events are applied.
//!
//! No element stands behind it: a bio, a vector or a record that is out of a pool is told by the pool's number.
#![tactic(auto)]

mod fault;
pub mod laws;
mod objects;
mod opening;
mod state;
mod steps;

pub use fault::CoreFault;
pub use objects::Objects;
pub use objects::book::{Book, NodeOutcome};
pub use objects::disk::Disk;
pub use objects::lists::{Lists, Rescue};
pub use objects::node::{Closed, Holding, Node};
pub use objects::part::{Data, Hand, PlainBioElement, Slip, Vector};
pub use objects::pool::Pool;
pub use state::Core;
pub use steps::task::{
    Completer, Copying, DriverAsk, Keeper, PlainCarried, PlainDoing, PlainGathered,
    PlainSubmission, PlainWant, Rescuer, Task, Writer,
};
