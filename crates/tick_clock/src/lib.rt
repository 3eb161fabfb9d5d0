//! Tickets: numbers that no two draws of one clock share, in whatever threads they are drawn.
//!
//! A clock is one word, the last ticket drawn. A pass draws from it, and a note carries what was seen from one holder of a pass to
//! another; both keep the greatest ticket that they have seen. A ticket is greater than all that its pass and its note had seen, so
//! tickets tell of any two draws of which one could know of the other which was the later.
//!
//! The word changes by a draw alone, one compare-exchange. A pass is split off and joined by one step on the word each, which leaves
//! it as it is, and a join looks at the word after that.
#![tactic(auto)]

mod clock;
pub mod laws;
mod note;
mod pass;
mod ticking;

pub use clock::Clock;
pub use note::Note;
pub use pass::Pass;
pub use ticking::{PassRank, Ticket};
