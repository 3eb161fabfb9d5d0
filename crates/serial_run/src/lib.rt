//! Runs of a scenario by one thread, in the order of a stream of words.
//!
//! Each turn takes a word, which names the task that is tried first; after it come the following ones in a circle, up to the first that has an
//! event. Where that completes a bio, one more word chooses which (`specs/Schedule.antt`). The run ends when no write is unfinished.
#![tactic(auto)]

mod events;
pub mod laws;
mod left;
mod run;
mod schedule;
mod turn;

pub use events::Events;
pub use run::run_serial;
pub use schedule::Schedule;
