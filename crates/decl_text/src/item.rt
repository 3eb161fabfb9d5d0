//! What lines say.
use crate::{Word, Words};
use fail_script::Script;
use stack_base::{Range, Status};

/// What a declared device does, with the numbers of its line.
#[derive(Clone, Copy, PartialEq, Eq)]
pub enum What {
    /// Keeps the data of so many sectors.
    Disk { sectors: u64 },
    /// Its members stand one behind the other.
    Linear,
    /// Chunks of `chunk` sectors go round its members.
    Stripe { chunk: u64 },
    /// Zones of `chunk` sectors, each written from its start in rising order.
    Zoned { chunk: u64 },
    /// Pieces have at most `max` sectors and do not cross a multiple of `chunk`, where that is not 0.
    Limit { max: u64, chunk: u64 },
    /// Each member has a copy. `records` is the reserve of its pool of records.
    Mirror { records: u64 },
}

/// What a line says, by its words alone.
#[derive(Drop)]
pub enum Item<'a> {
    /// A device of that name, over the members of these names.
    Device {
        name: Word<'a>,
        what: What,
        members: Words<'a>,
        /// The reserve of its pool of bios. A disk has no pool, and 0 here.
        reserve: u64,
        /// Whether its set has a rescuer.
        rescuer: bool,
    },
    /// A range of a disk at which writes fail so.
    Bad {
        disk: Word<'a>,
        range: Range,
        kind: Status,
    },
    /// The reserves of the writers' set.
    Fs {
        bios: u64,
        vecs: u64,
    },
    /// The script of the pool of that name.
    Script {
        pool: Word<'a>,
        script: Script,
    },
    /// Every pool without a script of its own has no ordinary memory.
    NoMemory,
    /// A write of a task to a device, its first sector, how many sectors it has, and its tag.
    Write {
        task: u64,
        dev: Word<'a>,
        range: Range,
        tag: u64,
    },
    /// The end of a round.
    Sync,
    /// The pool of that name keeps `min` elements from the next round on.
    Resize {
        pool: Word<'a>,
        min: u64,
    },
}
