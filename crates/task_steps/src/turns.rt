//! What holds of turns of tasks, as a function that does nothing.
ghost use Rattle.task_steps.specs.ByAnswer.{AnswersTellTurns};

use crate::objects::Objects;

/// What a step of a task answers tells what its turn was. `Step::Stepped`: the task asked for what it needs next, the event tells of the reply,
/// and the task goes on with it. `Step::Blocked`: it asked for an element of that pool, which missed. `Step::Waiting`: the round of its write
/// has not come, or other writes are to be done first; or its list or disk was empty while a write is unfinished. `Step::Ended`: it has no more
/// to ask, or its list or disk was empty and no write is unfinished. With these three the task is as it was. `Step::Broken`: it has broken off
/// for that reason.
pub fn answers_tell_turns<O: Objects>()
    ensures { AnswersTellTurns O.Objects }
{}
