//! Reads the words after the program's name.
//!
//! `run [--seed N | --workers N] [--trace] | check | layout | gen N [--text] | replay | scrub [--seed N]`, with the options of a
//! command in any order. The kit's `clap` reads the options.
#![tactic(auto)]

ghost use Rattle.std.specs.Prelude.{map};
ghost use Rattle.std.specs.String.{string_bytes};
ghost use Rattle.biostack_words.specs.Grammar.{ReadsWords};

mod command;
mod given;
mod grammar;
pub mod laws;
mod number;
mod order;

use crate::command::Command;
use crate::given::Given;
pub use crate::order::Order;
use std::alloc::{AllocError, Global};
use thiserror::Error;

/// Why the words are no order.
#[derive(Clone, Copy, Debug, PartialEq, Eq, Error)]
pub enum WordFault {
    #[error("the words are no order")]
    Refused,
    #[error("out of memory")]
    Memory,
}

impl From<AllocError> for WordFault {
    ghost use Rattle.std.specs.Prelude.{◌≡◌};
    ghost use Rattle.biostack_words.specs.declared.WordFault.TheVariants.{Memory};

    ghost from_gives = { λ _ fault. fault ≡ Memory };

    fn from(_: AllocError) -> Self {
        WordFault::Memory
    }
}

/// The order that the words give.
///
/// # Errors
///
/// `Refused` exactly where they give none, or `Memory` where there is no memory to read them.
pub fn read_words(alloc: Global, words: &[String]) -> Result<Order, WordFault>
    ensures { ReadsWords (map string_bytes words.now) result }
{
    let Some((first, rest)) = words.split_first() else {
        return Err(WordFault::Refused);
    };
    let Some(command) = Command::named(first.as_str()) else {
        return Err(WordFault::Refused);
    };
    let given = Given::read(alloc, rest)?;
    match given.order(command) {
        Some(order) => Ok(order),
        None => Err(WordFault::Refused),
    }
}
