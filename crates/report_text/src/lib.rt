//! What the program writes: the report of a run, the devices and needs of a stack, the layout of its writes, and the summary of a run of a
//! generated scenario.
//!
//! Each text goes through a pen: it leaves in few calls, no memory is taken, and after a fault of the sink nothing more is written. The texts
//! are definitions over plain data (`specs/Report.antt`, `CheckText.antt`, `LayoutText.antt`).
#![tactic(auto)]

mod check;
mod images;
mod layout;
mod names;
mod pools;
mod report;
mod summary;

pub use check::write_check;
pub use layout::write_layout;
pub use names::pool_parts;
pub use report::{write_report, write_steps};
pub use summary::write_gen;
