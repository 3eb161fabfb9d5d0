//! Rows of locks and of their seats, each entry with its key. Rows stand in one order: what is at a place of one belongs to what is there in
//! the others. They are of any thing.
ghost use Rattle.std.specs.Prelude.{◌≡◌, ◌+◌, ◌<◌, ◌≤◌, ◌++◌, false, All, IfOk, OnErr, length, vec_capacity};
ghost use Rattle.shared_objects.specs.Rows.{Abreast, AbreastThree, AreChanged, AreAdded, AreSplit, IsFirstOf, IsLockOf, IsAt, CanSplit, IsSplit, IsOther, IsJoined, CanClose, IsShutAt};
ghost use Rattle.shared_objects.specs.Joins.{CallsStayApart};

use seat_lock::{Seat, SeatLock, Shut, Thing};
use std::alloc::{AllocError, Global};

// A lock round a thing, with its first seat.
pub(crate) fn lock_one<T: Thing + Drop>(
    alloc: Global,
    thing: T,
) -> Result<(SeatLock<T>, Seat<T>), AllocError>
    ensures value { IfOk result (λ made. made.0.key.value ≡ thing) }
    ensures first { IfOk result (λ made. IsFirstOf 0 made.0 made.1) }
{
    match SeatLock::new(alloc, thing) {
        Ok((lock, first)) => Ok((lock, first)),
        Err(_) => Err(AllocError),
    }
}

// The same with its key.
fn open_one<K: Copy + Drop, T: Thing + Drop>(
    alloc: Global,
    entry: (K, T),
) -> Result<((K, SeatLock<T>), (K, Seat<T>)), AllocError>
    ensures { IfOk result (λ made. IsLockOf entry made.0 made.1) }
{
    let (key, thing) = entry;
    let (lock, first) = lock_one(alloc, thing)?;
    Ok(((key, lock), (key, first)))
}

/// Locks round things, with their first seats.
///
/// # Errors
///
/// Where there is no memory for them. The things are dropped then.
#[tactic(auto, using(crate::proofs::row_lemmas::GrowingRows::three_more))]
pub fn open_row<K: Copy + Drop, T: Thing + Drop>(
    alloc: Global,
    things: Vec<(K, T)>,
) -> Result<(Vec<(K, SeatLock<T>)>, Vec<(K, Seat<T>)>), AllocError>
    ensures { IfOk result (λ made. AbreastThree IsLockOf things.items made.0.items made.1.items) }
{
    let mut locks = Vec::with_capacity(alloc, things.len())?;
    let mut firsts = Vec::with_capacity(alloc, things.len())?;
    'opening: for entry in things {
        let (lock, first) = open_one(alloc, entry)?;
        locks.push(lock)?;
        firsts.push(first)?;
    }
    Ok((locks, firsts))
}

// One more seat of a lock.
fn split_one<K: Copy + Drop, T: Thing>(
    lock: &(K, SeatLock<T>),
    first: &mut (K, Seat<T>),
) -> (K, Seat<T>)
    requires of { IsAt lock.now first.old }
    requires few { CanSplit first.old }
    ensures { IsSplit lock.now first.old result first.new }
{
    (lock.0, lock.1.split(&mut first.1))
}

/// One more seat of each lock. Its number is one more than how many seats had been split off before, and it has made no call.
///
/// # Errors
///
/// Where there is no memory for the row. No seat is split off then.
pub fn split_row<K: Copy + Drop, T: Thing + Drop>(
    alloc: Global,
    locks: &[(K, SeatLock<T>)],
    firsts: &mut Vec<(K, Seat<T>)>,
) -> Result<Vec<(K, Seat<T>)>, AllocError>
    requires of { Abreast IsAt locks.now firsts.old.items }
    requires few { All CanSplit firsts.old.items }
    ensures split { IfOk result (λ seats. AreSplit locks.now firsts.old.items seats.items firsts.new.items) }
    ensures of { Abreast IsAt locks.now firsts.new.items }
    ensures seats { IfOk result (λ seats. Abreast IsAt locks.now seats.items) }
    ensures none { OnErr result (firsts.new ≡ firsts.old) }
{
    let mut seats = Vec::with_capacity(alloc, locks.len())?;
    'splitting: for at in 0..locks.len() {
        let seat = split_one(&locks[at], &mut firsts[at]);
        seats.push(seat).unwrap();
    }
    Ok(seats)
}

// Joins a seat into the first one.
fn join_one<K: Copy + Drop, T: Thing>(
    lock: &(K, SeatLock<T>),
    first: &mut (K, Seat<T>),
    entry: (K, Seat<T>),
)
    requires of { IsAt lock.now first.old × IsAt lock.now entry }
    requires other { IsOther entry }
    ensures { IsJoined lock.now first.old entry first.new }
{
    let (_, seat) = entry;
    lock.1.join(&mut first.1, seat);
}

/// Joins a seat of each lock, which is not the first one, into the first one. The first ones show the calls of both.
pub fn join_row<K: Copy + Drop, T: Thing + Drop>(
    locks: &[(K, SeatLock<T>)],
    firsts: &mut Vec<(K, Seat<T>)>,
    seats: Vec<(K, Seat<T>)>,
)
    requires of { Abreast IsAt locks.now firsts.old.items × Abreast IsAt locks.now seats.items }
    requires others { All IsOther seats.items }
    ensures joined { AreChanged IsJoined locks.now firsts.old.items seats.items firsts.new.items }
    ensures of { Abreast IsAt locks.now firsts.new.items }
{
    let mut at = 0;
    'joining: for entry in seats {
        join_one(&locks[at], &mut firsts[at], entry);
        at += 1;
    }
}

// Ends the use of a lock.
pub(crate) fn close_one<K: Copy + Drop, T: Thing + Drop>(
    lock: (K, SeatLock<T>),
    first: (K, Seat<T>),
) -> (K, Shut<T>)
    requires of { IsAt lock first }
    requires whole { CanClose first }
    ensures { IsShutAt T.plain T.mark T.answers lock first result }
{
    let (key, lock) = lock;
    let (_, first) = first;
    (key, lock.close(first))
}

/// Ends the use of locks, with their first seats, into which all that were split off were joined. What is left of each stands behind what was
/// there, for which there is room.
pub fn close_row<K: Copy + Drop, T: Thing + Drop>(
    locks: Vec<(K, SeatLock<T>)>,
    firsts: Vec<(K, Seat<T>)>,
    shut: &mut Vec<(K, Shut<T>)>,
)
    requires of { Abreast IsAt locks.items firsts.items }
    requires whole { All CanClose firsts.items }
    requires room { length shut.old.items + length locks.items ≤ vec_capacity shut.old }
    ensures { AreAdded (IsShutAt T.plain T.mark T.answers) locks.items firsts.items shut.old.items shut.new.items }
{
    let mut rest = firsts.into_iter();
    'closing: for lock in locks {
        let Some(first) = rest.next() else {
            unreachable!()
        };
        shut.push(close_one(lock, first)).unwrap();
    }
}

/// The calls of seats stay apart that are split off, called and joined back: where each of them was joined, the whole history has the calls
/// of each of them, as it showed them, and no other.
pub fn calls_stay_apart<T: Thing>()
    ensures { CallsStayApart T T.answers }
{}
