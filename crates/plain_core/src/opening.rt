//! What a core begins with: of a text, or of what was opened of one.

pub(crate) mod objects;
pub(crate) mod seen_objects;
pub(crate) mod seen_tasks;
pub(crate) mod slots;

// How many writers a scenario may have: their numbers are 0 to 7.
pub(crate) const MOST_WRITERS: u32 = 8;

// How many devices a stack may have: their numbers are 0 to 31.
pub(crate) const MOST_DEVICES: u32 = 32;

// How many pools it may have: of each device one of bios and one of records, and of the writers above it one of bios and one of vectors.
pub(crate) const MOST_POOLS: u32 = 2 * MOST_DEVICES + 2;

// How many tasks there may be: the writers, a rescuer and a completer for each device, and the keeper.
pub(crate) const MOST_SLOTS: u32 = MOST_WRITERS + 2 * MOST_DEVICES + 1;
