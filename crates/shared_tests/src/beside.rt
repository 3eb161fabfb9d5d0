//! Two completers, each on a thread of its own, at its desk or by its seats, whose choosers wait for each other.
ghost use Rattle.std.specs.Prelude.{◌≡◌, IfSome};
ghost use Rattle.shared_objects.specs.Rans.{ran_key};
ghost use Rattle.shared_objects.specs.Shared.{SharedHolds};

use crate::opened::{TWO_DISKS, shared_of};
use crate::turns;
use shared_objects::{Locks, Ran, Shared};
use std::alloc::AllocGlobal;
use std::hint::spin_loop;
use std::sync::Wait;
use std::sync::atomic::{AtomicU64, Ordering};
use std::test::Fail;
use std::thread;
use std::thread::Threads;
use task_core::{Chooser, Event, Oldest, Step, What};

/// How often a chooser looks for the other one, before it gives up.
const LOOKS: u64 = 100_000_000;

/// More steps than a writer of one write makes.
pub(crate) const STEPS: u32 = 100;

/// What two choosers tell each other.
#[derive(Drop)]
struct Flags {
    one: AtomicU64,
    other: AtomicU64,
    /// How many gave up.
    missed: AtomicU64,
    /// Whether tasks are stepped at desks, and not by their seats.
    desk: bool,
}

/// Chooses the bio that has waited longest, once the other chooser is asked too.
#[derive(Clone, Copy)]
struct Meets<'a> {
    mine: &'a AtomicU64,
    others: &'a AtomicU64,
    missed: &'a AtomicU64,
    /// Whether its task is stepped at a desk, and not by its seats.
    desk: bool,
}

impl<'a> Chooser for Meets<'a> {
    ghost chooses = { λ old pending index new. index ≡ 0 };

    fn choose(&mut self, _pending: u64) -> u64 {
        self.mine.store(1, Ordering::SeqCst);
        for _ in 0..LOOKS {
            if self.others.load(Ordering::SeqCst) == 1 {
                return 0;
            }
            spin_loop();
        }
        self.missed.fetch_add(1, Ordering::SeqCst);
        0
    }
}

/// Takes the next task.
pub(crate) fn take_next(shared: &mut Shared) -> Option<Ran>
    requires { SharedHolds shared.old }
    ensures holds { SharedHolds shared.new }
    ensures same { shared.new.locks ≡ shared.old.locks }
    ensures home { IfSome result (λ ran. ran.home ≡ shared.new.locks) }
{
    shared.take_task()
}

// A task behind one step, at its desk or by its seats.
fn stepped(rt: &impl Wait, locks: &Locks, ran: Ran, desk: bool) -> Ran
    requires { ran.home ≡ locks.now }
    ensures { ran_key result ≡ ran_key ran }
{
    if desk {
        return turns::stepped_at_desk(rt, locks, ran);
    }
    let mut ran = ran;
    ran.step(rt, locks, &mut Oldest);
    ran
}

// Whether a task comes to its end by steps of its own, at its desk or by its seats.
fn ends(rt: &impl Wait, locks: &Locks, ran: Ran, desk: bool) -> bool
    requires { ran.home ≡ locks.now }
{
    let mut ran = ran;
    'stepping: for _ in 0..STEPS {
        ran = stepped(rt, locks, ran, desk);
        if ran.stopped() {
            // One that has ended says so at each further step, and one that broke off does not.
            return matches!(ran.step(rt, locks, &mut Oldest), Step::Ended);
        }
    }
    false
}

// One step of a task at its desk.
fn step_at_desk(rt: &impl Wait, locks: &Locks, ran: Ran, chooser: Meets<'_>) -> Step
    requires { ran.home ≡ locks.now }
{
    let mut chooser = chooser;
    let (mut task, seats, _) = ran.parts();
    let mut desk = locks.desk(rt, seats);
    let step = task.step(&mut desk, &mut chooser);
    drop(desk.back());
    step
}

// One step of a task by its seats, as workers make it.
fn step_by_seats(rt: &impl Wait, locks: &Locks, ran: Ran, chooser: Meets<'_>) -> Step
    requires { ran.home ≡ locks.now }
{
    let mut chooser = chooser;
    let mut ran = ran;
    ran.step(rt, locks, &mut chooser)
}

// Whether one step of a task completes a bio.
fn completes(rt: &impl Wait, locks: &Locks, ran: Ran, chooser: Meets<'_>) -> bool
    requires { ran.home ≡ locks.now }
{
    let step = if chooser.desk {
        step_at_desk(rt, locks, ran, chooser)
    } else {
        step_by_seats(rt, locks, ran, chooser)
    };
    matches!(
        step,
        Step::Stepped(Event {
            task: _,
            what: What::Complete { .. }
        })
    )
}

// Whether two tasks complete a bio each in one step, beside each other.
fn complete_beside<R: Threads + Wait + Sync>(
    rt: &R,
    locks: &Locks,
    one: Ran,
    other: Ran,
    flags: &Flags,
) -> bool
    requires one { one.home ≡ locks.now }
    requires other { other.home ≡ locks.now }
{
    let first = Meets {
        mine: &flags.one,
        others: &flags.other,
        missed: &flags.missed,
        desk: flags.desk,
    };
    let second = Meets {
        mine: &flags.other,
        others: &flags.one,
        missed: &flags.missed,
        desk: flags.desk,
    };
    let (is_one, is_other) = thread::join(
        rt,
        move || -> bool
            requires { one.home ≡ locks.now }
        { completes(rt, locks, one, first) },
        move || -> bool
            requires { other.home ≡ locks.now }
        { completes(rt, locks, other, second) },
    );
    is_one && is_other && flags.missed.load(Ordering::SeqCst) == 0
}

/// Whether the next task comes to its end, at its desk or by its seats. It is nothing where there is none.
pub(crate) fn end_next(rt: &impl Wait, shared: &mut Shared, desk: bool) -> Option<bool>
    requires { SharedHolds shared.old }
    ensures { SharedHolds shared.new }
{
    let ran = take_next(shared)?;
    Some(ends(rt, shared.locks(), ran, desk))
}

// Whether the next two tasks complete a bio each beside each other.
fn complete_next<R: Threads + Wait + Sync>(
    rt: &R,
    shared: &mut Shared,
    flags: &Flags,
) -> Option<bool>
    requires { SharedHolds shared.old }
{
    let one = take_next(shared)?;
    let other = take_next(shared)?;
    Some(complete_beside(rt, shared.locks(), one, other, flags))
}

// Whether two writers come to their ends, one after the other, and then two completers complete a bio each beside each
// other, all at their desks or all by their seats. It is nothing where there are fewer tasks.
fn write_and_complete<R: Threads + Wait + Sync>(
    rt: &R,
    shared: Shared,
    flags: &Flags,
) -> Option<bool>
    requires { SharedHolds shared }
{
    let mut shared = shared;
    let is_one = end_next(rt, &mut shared, flags.desk)?;
    let is_other = end_next(rt, &mut shared, flags.desk)?;
    let are_both = complete_next(rt, &mut shared, flags)?;
    Some(is_one && is_other && are_both)
}

// Whether two completers complete a bio each beside each other, at their desks or by their seats.
fn choose_beside<R: AllocGlobal + Threads + Wait + Sync>(
    rt: &R,
    desk: bool,
) -> Result<Option<bool>, Fail> {
    let flags = Flags {
        one: AtomicU64::new(0),
        other: AtomicU64::new(0),
        missed: AtomicU64::new(0),
        desk,
    };
    let shared = shared_of(rt.alloc(), TWO_DISKS)?;
    Ok(write_and_complete(rt, shared, &flags))
}

// No clause says that two tasks are stepped beside each other. It fails where a lock is held over the calls of all tasks,
// and where one thread steps both completers.
#[test]
fn two_completers_choose_beside_each_other(rt: HostRuntime) -> Result<(), Fail> {
    for desk in [true, false] {
        assert_eq!(rt; choose_beside(&rt, desk)?, Some(true));
    }
    Ok(())
}
