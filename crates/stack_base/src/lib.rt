//! The words that every part of a storage stack shares: its devices, its pools, runs of sectors and how a bio ended.
//!
//! A sector is 512 bytes, as in Linux (`SECTOR_SIZE`), which `specs/Words.antt` reads as 64 words.
#![tactic(auto)]

mod ids;
pub mod laws;
mod mapping;
mod sizes;
mod stack;

pub use ids::{Bad, DevId, PoolId, Range, SetId, Status};
pub use mapping::{MapLaw, Piece};
pub use sizes::kind_size;
pub use stack::{Device, Kind, Stack};
