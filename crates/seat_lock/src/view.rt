//! What a seat knows, for contracts and proofs alone. No value of these types is ever made.
use std::collections::LinkedList;
use std::snapshot::Snapshot;

/// A call in the history of a lock: the number of the seat that made it, what was asked and what was told.
pub struct Entry<A, R> {
    pub by: u64,
    pub asked: A,
    pub told: R,
}

/// What a seat is among the seats of its lock.
pub enum Rank {
    /// The first seat, and how many seats were split from it.
    First(u64),
    /// A seat that was split from the first one.
    Other,
    /// A seat that was joined into another, and is gone.
    Spent,
}

/// What a seat knows of its lock between two calls.
pub struct Known<T, A, R> {
    /// The thing as the lock was made with it.
    pub start: Option<Snapshot<T>>,
    pub rank: Rank,
    /// How many seats were joined into this one, directly or through others.
    pub joined: u64,
    /// The number with which this seat's calls stand in the history: 0 for the first seat, and for each other one how many had been split then.
    pub number: u64,
    /// Its own number, and those of the seats that were joined into it.
    pub numbers: LinkedList<u64>,
    /// The history as it was at the last call of this seat, or of one that was joined into it.
    pub seen: LinkedList<Entry<A, R>>,
}

/// Where a seat stands in its turn. Turns are counted without end here, where the words of the lock go round.
pub enum Phase {
    /// It has no turn.
    Idle,
    /// It has drawn this turn.
    Waiting(u64),
    /// It is served in this turn, and has the thing.
    Serving(u64),
}

/// What two seats had seen when one was joined into the other, until the next step tells that the longer history has both.
pub struct Parts<A, R> {
    pub numbers: LinkedList<u64>,
    pub seen: LinkedList<Entry<A, R>>,
    pub other_numbers: LinkedList<u64>,
    pub other_seen: LinkedList<Entry<A, R>>,
}

/// What a seat knows at any moment.
pub struct View<T, A, R> {
    pub known: Known<T, A, R>,
    pub phase: Phase,
    pub parts: Option<Parts<A, R>>,
}
