//! Events, as they are told.
use stack_base::{DevId, PoolId, Status};

/// A task of a run.
#[derive(Clone, Copy)]
pub enum TaskId {
    /// Submits the writes of this number.
    Writer(u32),
    /// Submits the bios of this device's set that were punted (`bio_alloc_rescue`, `block/bio.c`).
    Rescuer(DevId),
    /// Ends the bios of this disk (`bio_endio`, `block/bio.c`).
    Completer(DevId),
    /// Changes reserves between rounds, and starts rounds.
    Keeper,
}

/// Where a take had its element from.
#[derive(Clone, Copy)]
pub enum Got {
    /// From ordinary memory.
    Ordinary,
    /// From the spares.
    Spare,
    /// From nowhere: it missed.
    Missed,
}

/// What a node was opened for.
#[derive(Clone, Copy)]
pub enum How {
    /// The whole of a write.
    Write,
    /// The front of a bio that was split (`bio_chain`, `block/bio.c`).
    Chain,
    /// A bio that a mirror copies (`alloc_r1bio`, `drivers/md/raid1.c`).
    Master,
    /// One copy of it.
    Leg,
}

/// What an end left of its node.
#[derive(Clone, Copy)]
pub enum End {
    /// The node waits for other ends.
    Left,
    /// It closed, and is to be told to its parent.
    Up,
    /// It closed, and its write with it.
    Top,
}

/// What a task did, and at which object.
#[derive(Clone, Copy)]
pub enum What {
    /// An attempt that waits at a pool. One that missed used up an entry of the pool's script.
    Take {
        pool: PoolId,
        got: Got,
    },
    /// An attempt that does not wait.
    Try {
        pool: PoolId,
        got: Got,
    },
    /// An element went back to its pool.
    Give {
        pool: PoolId,
    },
    /// So many bios of the device's set went from the task's lists to the set's rescuer, or `u64::MAX` where there were more.
    Punt {
        dev: DevId,
        moved: u64,
    },
    /// The rescuer of the device's set took the first bio that waits for it.
    Pop {
        dev: DevId,
    },
    /// A bio came to a disk: `len` sectors from sector `at` on, as this leg of a mirror, or 0.
    Push {
        disk: DevId,
        at: u64,
        len: u64,
        leg: u32,
    },
    /// The disk ended the bio at this index of those that waited in it.
    Complete {
        disk: DevId,
        index: u64,
        status: Status,
    },
    /// A node was opened at this place of the writer's book.
    Link {
        writer: u32,
        how: How,
        node: u32,
    },
    /// The node at this place was told of an end.
    Drop {
        writer: u32,
        node: u32,
        status: Status,
        end: End,
    },
    /// A write is done.
    Done {
        write: u32,
        status: Status,
    },
    /// A pool has this reserve from now on.
    Resize {
        pool: PoolId,
        min: u32,
    },
    /// The round of this number starts.
    Round {
        round: u32,
    },
}

/// An event: a task and one object have gone on.
#[derive(Clone, Copy)]
pub struct Event {
    pub task: TaskId,
    pub what: What,
}

/// Why a task cannot go on. No run of an accepted scenario comes to one.
#[derive(Clone, Copy)]
pub enum Breach {
    /// A node that is not open was named.
    Stray { writer: u32, node: u32 },
    /// All places of the writer's book are taken, of which it has so many.
    NoRoom { writer: u32, places: u32 },
    /// There was no ticket for a call.
    Spent,
    /// A reserve was to change while so many elements of the pool were out.
    Out { pool: PoolId, out: u64 },
}
