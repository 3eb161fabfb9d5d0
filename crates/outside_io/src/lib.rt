//! Where bytes come from and where they go.
//!
//! A [`Source`] gives bytes and a [`Sink`] takes them. Both count their faults, and a call answers
//! [`Failed`] only where the count rose. So a caller can show that a fault which it passes on is
//! one of the outside, and not one that it made up.
//!
//! There are sources and sinks in memory, some that fail at given calls, and the readers and
//! writers of std. [`read_up_to`] reads a source, and a [`Pen`] writes texts to a sink.
#![tactic(auto)]

mod fail;
mod memory;
mod pen;
mod read;
mod sink;
mod source;
mod std_ends;

pub use fail::{FailSink, FailSource};
pub use memory::{MemSink, MemSource};
pub use pen::Pen;
pub use read::{ReadError, read_up_to};
pub use sink::Sink;
pub use source::{Failed, Source};
pub use std_ends::{StdSink, StdSource};
