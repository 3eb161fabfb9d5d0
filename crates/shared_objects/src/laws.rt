//! What holds of the calls of tasks and of what is left of their locks, as functions that do nothing.
ghost use Rattle.shared_objects.specs.AddingUp.{ObjectsAddUp};
ghost use Rattle.shared_objects.specs.Closing.{LocksCloseAs};
ghost use Rattle.shared_objects.specs.Led.{LogsLead};
ghost use Rattle.shared_objects.specs.Logs.{CallsAreLogged, StepsAreLogged};
ghost use Rattle.shared_objects.specs.Rans.{NewDesksAreRan, StepsKeepRan, StepsKeepTasks};
ghost use Rattle.shared_objects.specs.Tickets.{ClosesShowTickets};

use crate::locks::Locks;
use crate::ran::Ran;
use crate::seats::TaskSeats;

/// One more call of a task stands behind those that it made.
pub fn calls_are_logged()
    ensures { CallsAreLogged }
{}

/// Each step of a task at its desk is kept: what it calls stands behind the calls so far.
pub fn steps_are_logged()
    ensures { StepsAreLogged }
{}

/// The events among a task's calls lead it on; it looked before each, where it has to; and it is where they lead, or broke off from there.
pub fn logs_lead()
    ensures { LogsLead }
{}

/// What is kept of a task with its seats is kept by each step of it at its desk.
pub fn steps_keep_ran()
    ensures { StepsKeepRan }
{}

/// So is what holds of the two, and it is the same task: one that stood at a desk of its locks may be put together again.
pub fn steps_keep_tasks()
    ensures { StepsKeepTasks }
{}

/// A task at a desk where nothing was called yet has no events, and has not stopped.
pub fn new_desks_are_ran()
    ensures { NewDesksAreRan }
{}

/// What is left of locks that were round opened objects, and into whose first seats those of all tasks were joined: the history of each object,
/// with the calls of each task, and the tickets of the clock.
pub fn locks_close_as()
    ensures { LocksCloseAs }
{}

/// The tickets of the clock, of what a close shows: they all differ; each is 1 or one more than another one; each is the ticket of an entry in the
/// histories, that of an event, but for those that refused calls drew, whose entries carry none and of which each task has one at most; and where a
/// draw found none, 2^64 - 1 is among them.
pub fn closes_show_tickets()
    ensures { ClosesShowTickets }
{}

/// What lies in the lock of an object adds up at every moment from the sharing on at which the lock is free, and throughout the history that a close
/// shows of it, from the opened object to what is left, whatever calls were made and whether or not a draw failed. Of a pool: each element is a spare
/// or out, and was made at the opening or had of ordinary memory since.
pub fn shared_objects_add_up()
    ensures { ObjectsAddUp }
{}

/// What is handed to it may go to another thread.
fn sent<X: Send>(x: &X) {
    let _ = x;
}

/// What is lent to it may be lent to several threads.
fn shared<X: Sync>(x: &X) {
    let _ = x;
}

/// The locks may be shared among threads, and a task with its seats handed from one to another.
fn threads_may_have_them(locks: &Locks, seats: &TaskSeats, ran: &Ran) {
    shared(locks);
    sent(seats);
    sent(ran);
}
