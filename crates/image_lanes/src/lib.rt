//! Kernels over lists of words: fill, sum, compare, count the sectors that differ. They work on eight words at a time, in the lanes of the
//! processor, and none of them takes memory.
//!
//! What they answer is said of whole lists (`specs/Lanes.antt`), whatever their length.
#![tactic(auto)]

mod adding;
mod comparing;
mod filling;
mod lanes;

pub use adding::sum_words;
pub use comparing::{count_unlike, first_sector, same};
pub use filling::fill;
