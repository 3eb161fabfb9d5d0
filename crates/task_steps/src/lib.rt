//! Tasks of a run, step by step, over any objects.
#![tactic(auto)]

mod calls;
mod completer;
pub mod homes;
mod keeper;
mod objects;
mod rescuer;
mod routes;
mod step;
mod submission;
mod task;
mod todo;
pub mod turns;
pub mod within;
mod writer;

pub use completer::gives::pool_of;
pub use completer::{Carried, Load};
pub use keeper::{Duty, Keeper, duty_at};
pub use objects::{Ask, Chooser, Objects, Oldest, Unmade};
pub use rescuer::Rescuer;
pub use routes::driver::{Driver, Manner};
pub use routes::{Cut, Routes};
pub use run_machine::{Breach, End, Event, Got, How, TaskId, What};
pub use step::Step;
pub use submission::{Doing, DriverAsk, HandedBack, Kept, Submission, Want};
pub use task::{Kind, Task};
pub use todo::{Todo, Todos};
pub use writer::Writer;
pub use writer::begin::Gathered;
pub use writer::first_bio::{first_bio, needs_vector};
