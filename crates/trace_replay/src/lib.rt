//! Replays a given run: the lines of its events are taken in order, and each event is applied to the plain state, as
//! far as it can come next.
//!
//! Nothing is searched: one run is checked (`specs/Replay.antt`).
#![tactic(auto)]

mod answer;
mod cut;
mod extents;
pub mod laws;
mod names;
mod told;
mod walk;

pub use answer::write_replayed;
pub use cut::{CutText, cut_text};
pub use extents::Extent;
pub use walk::{Finish, Replayed, replay};
