//! The book of a writer: which parts of its writes have not ended, and what each of them waits for. Only opening a book takes memory.
//!
//! In Linux 6.1 a bio that was split stays the parent of its parts: `bio_chain` (`block/bio.c`) counts each of them in `__bi_remaining`, and
//! `bio_endio` goes on to the parent only with the last. Here the parent is a node of a book, and its parts name it by the place where it
//! stands. A part that names no open node is refused, and no node closes before each of its ends was told.
#![tactic(auto)]

mod attachment;
mod book;
pub mod laws;
mod node;
mod places;
mod statuses;

pub use book::{Book, Dropped, Link};
pub use node::{Back, ClosedNode, Node, Role, parent_of};
pub use statuses::{closing, kept_with};
