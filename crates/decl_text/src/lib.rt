//! Reads the declarations of a scenario's text, and says what every line of a text means and which are refused.
#![tactic(auto)]

mod accepted;
mod command;
mod decl;
mod form;
mod item;
pub mod laws;
mod line;
mod meaning;
mod options;
mod reason;
mod stand;
mod text;
mod word;
mod wrong;

pub use accepted::Accepted;
pub use command::Command;
pub use decl::{Decl, DeclParts, Numbered, read_decl};
pub use item::{Item, What};
pub use line::{LineFault, TextLine, first_word, is_blank_line};
pub use reason::{ReadFault, Reason, Refusal};
pub use stand::Stand;
pub use text::Lines;
pub use word::{Word, Words};
