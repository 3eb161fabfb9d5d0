//! A write of a scenario.
use stack_base::DevId;

/// A write of a scenario. Places and lengths count sectors.
#[derive(Clone, Copy, PartialEq, Eq)]
pub struct Write {
    /// The number of the task that writes.
    pub task: u32,
    /// The device that is written to.
    pub dev: DevId,
    /// The first sector.
    pub start: u64,
    /// How many sectors.
    pub count: u64,
    /// The first word.
    pub tag: u64,
}
