//! A number behind a lock, as an example of a thing with a machine.
ghost use Rattle.std.specs.Prelude.{◌≡◌, ◌+◌, ◌^◌, ◌%◌, IfOk};
ghost use Rattle.seat_lock.specs.Seats.{IsOfLock, first_seat};
ghost use Rattle.lock_tests.specs.Adding.{SeatHasAsked};

use seat_lock::{Seat, SeatLock, Thing};
use std::alloc::Global;
use std::sync::Wait;
use std::thread;
use std::thread::Threads;

/// A number that is added to. It goes round, and replies what it has become.
#[derive(Drop)]
pub struct Number {
    pub total: u64,
}

impl Thing for Number {
    ghost use Rattle.std.specs.Prelude.{◌≡◌, ◌+◌, ◌^◌, ◌%◌};

    type Request = u64;

    type Reply = u64;

    type Data = u64;

    type Asked = u64;

    type Told = u64;

    type Mark = ();

    ghost plain = { λ number. number.total };

    ghost mark = { λ _. tt };

    ghost asked = { λ more. more };

    ghost told = { λ total. total };

    ghost fits = { λ _ _. Unit {0} };

    ghost owes = { λ _ _ _. Unit {0} };

    ghost answers = { λ before more total after. (after ≡ (before + more) % 2 ^ 64) × (total ≡ after) };

    fn serve(&mut self, request: u64) -> u64 {
        self.total = self.total.wrapping_add(request);
        self.total
    }
}

/// A lock over a number that is 0, and its first seat.
///
/// # Errors
///
/// The number, where there is no memory for the lock.
pub fn open(alloc: Global) -> Result<(SeatLock<Number>, Seat<Number>), Number>
    ensures { IfOk result (λ made. IsOfLock made.0 made.1 × (made.1.known ≡ first_seat made.0.key) × (made.0.key.value.total ≡ 0)) }
{
    SeatLock::new(alloc, Number { total: 0 })
}

/// The two replies to what two seats add, one after the other, and what both have added. No clause tells which seat's call stands first.
///
/// # Errors
///
/// A number, where there is no memory for a lock over it.
pub fn added_in_turn<R: Wait>(
    rt: &R,
    alloc: Global,
    one: u64,
    other: u64,
) -> Result<(u64, u64, u64), Number>
    ensures { IfOk result (λ added. added.2 ≡ (one + other) % 2 ^ 64) }
{
    let (lock, mut first) = open(alloc)?;
    let mut second = lock.split(&mut first);
    let early = lock.call(rt, &mut first, one);
    let late = lock.call(rt, &mut second, other);
    lock.join(&mut first, second);
    let shut = lock.close(first);
    Ok((early, late, shut.thing.total))
}

/// Adds one so often, and answers the seat and whether each reply was above the one before.
fn add_often<R: Wait>(
    rt: &R,
    lock: &SeatLock<Number>,
    mut seat: Seat<Number>,
    often: u64,
) -> (Seat<Number>, bool)
    requires { IsOfLock lock.now seat }
    ensures of { IsOfLock lock.now result.0 }
    ensures asked { SeatHasAsked seat.known result.0.known often }
{
    let mut last = 0;
    let mut rising = true;
    'adding: for made in 0..often {
        let total = lock.call(rt, &mut seat, 1);
        rising = rising && last < total;
        last = total;
    }
    (seat, rising)
}

/// What two threads have added, one so often each through a seat of its own, and whether the replies to each were rising.
///
/// # Errors
///
/// A number, where there is no memory for a lock over it.
pub fn added_by_two<R: Threads + Wait + Sync>(
    rt: &R,
    alloc: Global,
    often: u64,
) -> Result<(u64, bool), Number>
    ensures { IfOk result (λ added. added.0 ≡ (often + often) % 2 ^ 64) }
{
    let (lock, mut first) = open(alloc)?;
    let second = lock.split(&mut first);
    let ((mut first, rises), (second, rises_too)) = thread::join(
        rt,
        || -> (Seat<Number>, bool)
            requires { IsOfLock lock first }
            ensures { IsOfLock lock result.0 × SeatHasAsked first.known result.0.known often }
        { add_often(rt, &lock, first, often) },
        || -> (Seat<Number>, bool)
            requires { IsOfLock lock second }
            ensures { IsOfLock lock result.0 × SeatHasAsked second.known result.0.known often }
        { add_often(rt, &lock, second, often) },
    );
    lock.join(&mut first, second);
    Ok((lock.close(first).thing.total, rises && rises_too))
}
