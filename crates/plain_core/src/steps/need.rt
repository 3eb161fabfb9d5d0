//! What tasks need so that they can go on without ordinary memory.
ghost use Rattle.std.specs.Prelude.{◌≡◌, None, Some};
ghost use Rattle.run_machine.specs.Submissions.{Rests as AtRest};
ghost use Rattle.run_machine.specs.Tasks.{closed_request};
ghost use Rattle.plain_core.specs.steps.Free.{need_of, IsNeedOfDoing, IsNeedOfSubmission, IsNeedOfTask};
ghost use Rattle.plain_core.specs.steps.Submissions.{copies_for, cuts_for, drives_for};
ghost use Rattle.plain_core.specs.steps.Views.{ask_of_plain, completer_of, doing_of_plain, keeper_of, rescuer_of, task_of_plain, want_of_plain, writer_of};
ghost use Rattle.plain_core.specs.steps.Closing.{closed_asks};

use crate::objects::node::Closed;
use crate::objects::part::PlainBioElement;
use crate::steps::task::{
    Completer, Copying, DriverAsk, Keeper, PlainCarried, PlainDoing, PlainGathered,
    PlainSubmission, PlainWant, Rescuer, Task, Writer,
};
use stack_base::{DevId, PoolId};
use task_core::{Duty, needs_vector};

/// What a request needs so that it can be answered, and told as an event that needs no ordinary memory: a plain value, with one question to one
/// object for each, so that nothing is copied to ask which task is free.
#[derive(Clone, Copy)]
pub enum Need {
    Nothing,
    /// There is no such answer.
    Never,
    /// A spare of the pool. A take that does not wait may also miss.
    Spare { pool: PoolId, waits: bool },
    /// An element of the pool of this number is out.
    Out(u32),
    /// None of the pool is.
    Home(PoolId),
    /// A bio waits for the rescuer of this device's set.
    Rescued(DevId),
    /// A bio waits in the disk.
    Pending(DevId),
    /// The writer's book has a vacant place.
    Place(u32),
    /// Besides, the node at the place of the parent is open, and can wait for one more end.
    Chain { writer: u32, parent: u32 },
    /// Besides, the node at the place of the parent is open.
    Child { writer: u32, parent: u32 },
    /// The node at this place is open, and waits for an end.
    End { writer: u32, place: u32 },
    /// A round is behind the present one.
    Round,
}

// What a driver needs that cuts a bio.
fn cut_need(part: &PlainBioElement, want: &PlainWant) -> Need
    ensures { IsNeedOfDoing result (cuts_for part.now (want_of_plain want.now)) }
{
    let bio = part.bio();
    match want {
        PlainWant::Takes(waits) => Need::Spare {
            pool: PoolId::Bios(bio.dev),
            waits: *waits,
        },
        PlainWant::Punts => Need::Nothing,
        PlainWant::Links(_) => Need::Chain {
            writer: bio.writer,
            parent: bio.node,
        },
    }
}

// What the driver of a bio's device needs.
fn drive_need(part: &PlainBioElement, ask: &DriverAsk) -> Need
    ensures { IsNeedOfDoing result (drives_for part.now (ask_of_plain ask.now)) }
{
    let bio = part.bio();
    match ask {
        DriverAsk::ToPush => Need::Nothing,
        DriverAsk::ToCut(want) => cut_need(part, want),
        DriverAsk::ToRecord => Need::Spare {
            pool: PoolId::Records(bio.dev),
            waits: true,
        },
        DriverAsk::ToMaster(_) => Need::Child {
            writer: bio.writer,
            parent: bio.node,
        },
    }
}

// What a mirror needs that copies a bio.
fn copy_need(copying: &Copying, want: &PlainWant) -> Need
    ensures { IsNeedOfDoing result (copies_for copying.now (want_of_plain want.now)) }
{
    let bio = copying.bio;
    match want {
        PlainWant::Takes(waits) => Need::Spare {
            pool: PoolId::Bios(bio.dev),
            waits: *waits,
        },
        PlainWant::Punts => Need::Nothing,
        PlainWant::Links(_) => Need::Child {
            writer: bio.writer,
            parent: copying.master,
        },
    }
}

// What a submission needs.
fn submission_need(submission: &PlainSubmission) -> Need
    ensures { IsNeedOfSubmission result submission.now }
{
    match &submission.doing {
        PlainDoing::Rests => Need::Never,
        PlainDoing::Drives(part, ask) => drive_need(part, ask),
        PlainDoing::Copies(copying, want) => copy_need(copying, want),
    }
}

// What a writer at rest needs.
fn write_need(writer: &Writer) -> Need
    requires { doing_of_plain writer.now.submission.doing ≡ AtRest }
    ensures { IsNeedOfTask result (writer_of writer.now) }
{
    let Some(next) = writer.todo.first() else {
        return Need::Never;
    };
    match &writer.taken {
        PlainGathered::NoBio => Need::Spare {
            pool: PoolId::FsBios,
            waits: true,
        },
        PlainGathered::HasBio(_) => {
            if needs_vector(&next.write) {
                Need::Spare {
                    pool: PoolId::FsVecs,
                    waits: true,
                }
            } else {
                Need::Place(writer.number)
            }
        }
        PlainGathered::HasBoth(_, _) => Need::Place(writer.number),
    }
}

// What a writer needs.
fn writer_need(writer: &Writer) -> Need
    ensures { IsNeedOfTask result (writer_of writer.now) }
{
    if writer.submission.rests() {
        write_need(writer)
    } else {
        submission_need(&writer.submission)
    }
}

// What the rescuer of a device's set needs.
fn rescuer_need(rescuer: &Rescuer) -> Need
    ensures { IsNeedOfTask result (rescuer_of rescuer.now) }
{
    if rescuer.submission.rests() {
        Need::Rescued(rescuer.dev)
    } else {
        submission_need(&rescuer.submission)
    }
}

// What a closed node needs that holds nothing.
fn passed_need(writer: u32, closed: &Closed) -> Need
    ensures { result ≡ need_of (closed_request writer closed.now None None None closed.now.parent) }
{
    match closed.parent {
        None => Need::Nothing,
        Some(parent) => Need::End {
            writer,
            place: parent,
        },
    }
}

// What a closed node needs: the pool of what it still holds, or its parent.
fn closed_need(writer: u32, closed: &Closed) -> Need
    ensures { result ≡ need_of (closed_asks writer closed.now) }
{
    let held = &closed.held;
    match &held.vector {
        Some(vector) => Need::Out(vector.pool()),
        None => match &held.bio {
            Some(part) => Need::Out(part.pool()),
            None => match &held.slip {
                Some(slip) => Need::Out(slip.pool()),
                None => passed_need(writer, closed),
            },
        },
    }
}

// What the completer of a disk needs.
fn completer_need(completer: &Completer) -> Need
    ensures { IsNeedOfTask result (completer_of completer.now) }
{
    match &completer.carried {
        PlainCarried::Empty => Need::Pending(completer.disk),
        PlainCarried::Brings(part, _) => {
            let bio = part.bio();
            Need::End {
                writer: bio.writer,
                place: bio.node,
            }
        }
        PlainCarried::Carries(writer, closed) => closed_need(*writer, closed),
    }
}

// What the keeper needs.
fn keeper_need(keeper: &Keeper) -> Need
    ensures { IsNeedOfTask result (keeper_of keeper.now) }
{
    match keeper.next() {
        None => Need::Never,
        Some(Duty::Resizes { pool, .. }) => Need::Home(pool),
        Some(Duty::Starts { .. }) => Need::Round,
    }
}

/// What the next request of a task needs of the objects, to be served without ordinary memory. Whether its look lets it ask is not in it.
pub fn task_need(task: &Task) -> Need
    ensures { IsNeedOfTask result (task_of_plain task.now) }
{
    match task {
        Task::Writer(writer) => writer_need(writer),
        Task::Rescuer(rescuer) => rescuer_need(rescuer),
        Task::Completer(completer) => completer_need(completer),
        Task::Keeper(keeper) => keeper_need(keeper),
    }
}
