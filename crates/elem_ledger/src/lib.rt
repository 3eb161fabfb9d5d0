//! Elements that cannot be lost or forged: each carries one share of the ledger of its pool, and the ledger's total is the number
//! of shares that are out, whoever holds them, in whatever thread.
//!
//! `mm/mempool.c` of Linux 6.1 counts what lies in a pool (`curr_nr`) and nothing that is out. That what is out comes back is
//! the comment of `mempool_free` there, and the care of each driver. Here it is kept by types: a share is had of `Ledger::issue`
//! alone, and no call but `Ledger::redeem` takes one back.
#![tactic(auto)]

mod balance;
mod element;
mod fresh;
pub mod laws;
mod ledger;

pub use element::{Element, Share};
pub use fresh::Fresh;
pub use ledger::Ledger;
