//! Which task can go on without ordinary memory.
ghost use Rattle.std.specs.Prelude.{◌≡◌};
ghost use Rattle.run_machine.specs.Submissions.{Rests as AtRest};
ghost use Rattle.task_steps.specs.Routed.{Routing};
ghost use Rattle.plain_core.specs.objects.Questions.{IsDecisionOf};
ghost use Rattle.plain_core.specs.steps.Free.{NeedIsMet, TaskIsFree, TaskIsLet};
ghost use Rattle.plain_core.specs.steps.Views.{doing_of_plain, keeper_of, task_of_plain, writer_of};
ghost use Rattle.plain_core.specs.declared.steps.need.Need.TheVariants as need;

use crate::objects::{Objects, pool_place};
use crate::steps::need::{Need, task_need};
use crate::steps::task::{Keeper, PlainGathered, Task, Writer};

// Whether the writer's book has a vacant place, and the node at the place of a parent can wait for one more end.
fn can_chain(objects: &Objects, writer: u32, parent: u32) -> bool
    ensures { IsDecisionOf result (NeedIsMet objects.now (need.Chain writer parent)) }
{
    match objects.count_at(writer, parent) {
        None => false,
        Some(count) => count < u64::MAX && objects.has_place(writer),
    }
}

// Whether the writer's book has a vacant place, and the node at the place of a parent is open.
fn can_hang(objects: &Objects, writer: u32, parent: u32) -> bool
    ensures { IsDecisionOf result (NeedIsMet objects.now (need.Child writer parent)) }
{
    match objects.count_at(writer, parent) {
        None => false,
        Some(_) => objects.has_place(writer),
    }
}

// Whether the node at a place of the writer's book is open, and waits for an end.
fn can_end(objects: &Objects, writer: u32, place: u32) -> bool
    ensures { IsDecisionOf result (NeedIsMet objects.now (need.End writer place)) }
{
    match objects.count_at(writer, place) {
        None => false,
        Some(count) => count > 0,
    }
}

// Whether the objects meet a need.
fn is_met(objects: &Objects, need: Need) -> bool
    ensures { IsDecisionOf result (NeedIsMet objects.now need) }
{
    match need {
        Need::Nothing => true,
        Need::Never => false,
        Need::Spare { pool, waits } => objects.has_spare(pool) || !waits,
        Need::Out(number) => objects.out(u64::from(number)) > 0,
        Need::Home(pool) => objects.out(pool_place(pool)) == 0,
        Need::Rescued(dev) => objects.has_rescued(dev),
        Need::Pending(disk) => objects.has_pending(disk),
        Need::Place(writer) => objects.has_place(writer),
        Need::Chain { writer, parent } => can_chain(objects, writer, parent),
        Need::Child { writer, parent } => can_hang(objects, writer, parent),
        Need::End { writer, place } => can_end(objects, writer, place),
        Need::Round => objects.has_next(),
    }
}

// Whether the round of a writer at rest has come, if it has a write to begin.
fn write_is_let(objects: &Objects, writer: &Writer) -> bool
    requires { doing_of_plain writer.now.submission.doing ≡ AtRest }
    ensures { IsDecisionOf result (TaskIsLet objects.now (writer_of writer.now)) }
{
    let Some(next) = writer.todo.first() else {
        return true;
    };
    match &writer.taken {
        PlainGathered::NoBio => objects.round() >= next.round,
        PlainGathered::HasBio(_) => true,
        PlainGathered::HasBoth(_, _) => true,
    }
}

// Whether what a writer looks at lets it ask.
fn writer_is_let(objects: &Objects, writer: &Writer) -> bool
    ensures { IsDecisionOf result (TaskIsLet objects.now (writer_of writer.now)) }
{
    !writer.submission.rests() || write_is_let(objects, writer)
}

// Whether what the keeper looks at lets it ask: so it is where it has no duty to look for, or has broken off.
fn keeper_is_let(objects: &Objects, keeper: &Keeper) -> bool
    ensures { IsDecisionOf result (TaskIsLet objects.now (keeper_of keeper.now)) }
{
    match keeper.next() {
        None => true,
        Some(duty) => objects.has_left(duty.later()),
    }
}

// Whether what a task looks at lets it ask.
fn task_is_let(objects: &Objects, task: &Task) -> bool
    ensures { IsDecisionOf result (TaskIsLet objects.now (task_of_plain task.now)) }
{
    match task {
        Task::Writer(writer) => writer_is_let(objects, writer),
        Task::Rescuer(_) => true,
        Task::Completer(_) => true,
        Task::Keeper(keeper) => keeper_is_let(objects, keeper),
    }
}

/// Whether a task can go on without ordinary memory.
pub fn task_is_free(objects: &Objects, task: &Task) -> bool
    ensures { (r : Routing) → IsDecisionOf result (TaskIsFree r objects.now (task_of_plain task.now)) }
{
    task_is_let(objects, task) && is_met(objects, task_need(task))
}
