//! A lock that serves one caller at a time, in the order of the turns that they draw, and whose calls stand in one history.
//!
//! A thing with a machine lies behind the lock: a request leads it on and gets a reply. Who calls has a seat of the lock, and a call says of
//! its seat what the history of the lock was when it ended: a run of the machine, from the thing as it was handed in, with this call last. So
//! what a lock cannot say of a value, since others change it meanwhile, is said of the calls: each reply is what the thing replies after the
//! calls before it. History and seats are there for contracts alone, and a running program keeps none of it.
//!
//! The lock is a ticket lock, as `arch_spin_lock` of x86 was up to Linux 4.1: a caller draws the next
//! number, is served when it is that number's turn, and passes the turn on. Who waits for long sleeps.
#![tactic(auto)]

pub mod laws;
mod lock;
mod thing;
mod turn;
mod view;

pub use lock::{Seat, SeatLock, Shut};
pub use thing::Thing;
pub use view::{Entry, Known, Rank};
