//! The machine of a run: tasks that ask objects, one at a time, and events, each of which changes one task and one object.
//!
//! A task is a writer, the rescuer of a set, the completer of a disk or the keeper of the rounds. What it asks for next, and how it goes on
//! with a reply, are functions of its own state (`specs/Tasks.antt`, `Submissions.antt`). What a request and its reply make of an object is a
//! relation that cites the object's own moves (`specs/Objects.antt`). An event is both halves at once (`specs/Runs.antt`).
#![tactic(auto)]

mod event;
pub mod laws;
mod words;

pub use event::{Breach, End, Event, Got, How, TaskId, What};
pub use words::status_word;
