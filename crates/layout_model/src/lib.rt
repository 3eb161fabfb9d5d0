//! Where every sector of a write goes, and what the write needs, without any bio.
#![tactic(auto)]

mod counts;
mod fragment;
pub mod laws;
mod piece;
mod shown;
mod totals;
mod way;
mod write;

pub use counts::{Needs, need};
pub use fragment::{Fragment, fragments};
pub use piece::FirstRun;
pub use shown::first_stretch;
pub use totals::{Bounds, TooMuchWork, bound};
pub use way::place;
pub use write::Write;
