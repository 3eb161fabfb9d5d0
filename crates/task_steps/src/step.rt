//! What a step of a task comes to.
use run_machine::{Breach, Event};
use stack_base::PoolId;

/// What a step of a task comes to.
#[derive(Clone, Copy)]
pub enum Step {
    /// The event happened.
    Stepped(Event),
    /// The task waits for an element of this pool: its attempt missed, and used up no entry of the pool's script.
    Blocked(PoolId),
    /// The task looked at its list, its disk, the round or the number of unfinished writes, and found nothing to do yet.
    Waiting,
    /// The task has nothing to do any more.
    Ended,
    /// The task cannot go on, and answers the same from now on.
    Broken(Breach),
}
