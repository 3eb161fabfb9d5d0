//! How much work a text may have.

/// A write may have so many sectors: 256 segments of eight.
pub(crate) const MOST_SECTORS: u64 = 2048;

/// No scenario may need more elements.
pub(crate) const MOST_ELEMENTS: u64 = 1_048_576;

/// A text may have so many `sync` lines, and so many `resize` lines.
pub(crate) const MOST_SYNCS: u32 = 1024;

pub(crate) const MOST_RESIZES: usize = 4096;

/// A pool may keep so many elements.
pub(crate) const MOST_RESERVE: u64 = 1024;
