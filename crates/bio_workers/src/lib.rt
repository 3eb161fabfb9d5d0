//! Workers: threads that step tasks in turn until none goes on.
//!
//! What a task is and what a step of it does is told by who starts the workers (`Work`). Each worker has a hand of tasks. It sweeps over them
//! again and again: it visits each, and steps it on while it meets events. It sleeps where a whole sweep met nothing, until some other worker
//! rings.
#![tactic(auto)]

mod bell;
mod few;
mod gate;
mod hand;
mod job;
mod shift;
mod visit;
mod work;
mod workers;

pub use bell::Bell;
pub use few::{Few, MOST_TASKS};
pub use gate::{Gate, NoGate};
pub use job::{Job, run};
pub use shift::run_tasks;
pub use work::{Work, WorkOutcome};
pub use workers::{Identity, run_workers};
