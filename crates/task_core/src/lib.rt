//! The objects of one thread, and what is opened of an accepted text.
#![tactic(auto)]

mod ended;
pub mod laws;
mod opening;
mod plain;

pub use ended::Ended;
pub use opening::objects::{bads_of, keeps_data, open_objects};
pub use opening::pools::{copy_of, is_mirror, records_of, script_of};
pub use opening::rounds::open_tally;
pub use opening::{Opened, drop_tasks, open, open_tasks};
pub use plain::Plain;
pub use plain::calls::{dev_of, link_in, resize_home};
pub use plain::index::{ObjectIndex, place};
pub use plain::tally::Tally;
pub use run_machine::{Breach, End, Event, Got, How, TaskId, What};
pub use task_steps::{
    Ask, Carried, Chooser, Cut, Doing, Driver, DriverAsk, Duty, Gathered, HandedBack, Keeper, Kept,
    Kind, Load, Manner, Objects, Oldest, Rescuer, Routes, Step, Submission, Task, Todo, Todos,
    Unmade, Want, Writer, duty_at, first_bio, homes, needs_vector, pool_of, within,
};
