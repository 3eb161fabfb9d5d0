//! The objects of a run, shared by its tasks: each behind a seat lock of its own, and for each task a desk, at which it asks them.
#![tactic(auto)]

pub(crate) mod by_fields;
pub(crate) mod caller;
pub(crate) mod calls;
pub mod closed;
pub(crate) mod closing;
pub mod desk;
pub mod laws;
pub mod locks;
pub mod noted;
mod opening;
pub mod progress;
pub mod ran;
pub(crate) mod recording;
pub mod rows;
pub mod seats;
pub mod shared;

pub use closed::{Closed, ClosedParts, ClosedTask, drop_rest};
pub use desk::Desk;
pub use locks::Locks;
pub use noted::Noted;
pub use opening::share;
pub use progress::Progress;
pub use ran::Ran;
pub use seats::TaskSeats;
pub use shared::Shared;
