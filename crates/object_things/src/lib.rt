//! Objects that threads share, each with its note: things, which seat locks serve.
#![tactic(auto)]

pub mod book;
pub mod disk;
pub mod laws;
pub mod list;
pub mod pool;
pub mod stamp;
pub mod tally;

pub use book::{BookAsk, BookSaid, BookThing};
pub use disk::{DiskAsk, DiskSaid, DiskThing};
pub use list::{ListAsk, ListSaid, ListThing};
pub use pool::{PoolAsk, PoolSaid, PoolThing};
pub use stamp::{Asking, Common, NoTicket, Replied, Stamp};
pub use tally::{TallyAsk, TallySaid, TallyThing};
