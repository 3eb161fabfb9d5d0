//! Tasks as plain data.
ghost use Rattle.std.specs.Prelude.{◌≡◌, ◌≢◌, [], All, drop, map, MatchBool, MatchOption};
ghost use Rattle.run_machine.specs.Events.{id_of};
ghost use Rattle.run_machine.specs.Submissions.{Rests};
ghost use Rattle.plain_core.specs.steps.Views.{doing_of_plain, gathered_of_plain, task_of_plain};
ghost use Rattle.plain_core.specs.steps.Submissions.{IsSubmitting};
ghost use Rattle.task_steps.specs.KeeperViews.{duty_of};
ghost use Rattle.plain_core.specs.steps.Duties.{IsNextDuty, NamesStackPool};

use crate::objects::lists::Lists;
use crate::objects::node::Closed;
use crate::objects::part::{Hand, PlainBioElement, Slip, Vector};
use bio_records::Bio;
use stack_base::{DevId, Status};
use std::marker::Model;
use task_core::{Duty, TaskId, Todos, duty_at};

/// What a driver does for a bio of its device's set.
#[derive(Drop)]
pub enum PlainWant {
    /// It takes one, waiting or not.
    Takes(bool),
    /// An attempt that did not wait missed: the bios of the set that wait go to the rescuer.
    Punts,
    /// It has one, and links a node.
    Links(Hand),
}

/// What a driver does with the bio that it has.
#[derive(Drop)]
pub enum DriverAsk {
    ToPush,
    ToCut(PlainWant),
    ToRecord,
    ToMaster(Slip),
}

/// What a submission does.
#[derive(Drop)]
pub enum PlainDoing {
    Rests,
    /// The driver of the bio's device has it.
    Drives(PlainBioElement, DriverAsk),
    /// A mirror copies a bio, which waits with its parent.
    Copies(Copying, PlainWant),
}

/// The bio that a mirror copies, the place of its master, and the leg that is made next.
#[derive(Clone, Copy)]
pub struct Copying {
    pub bio: Bio,
    pub master: u32,
    pub leg: u32,
}

/// A submission.
#[derive(Drop)]
pub struct PlainSubmission {
    pub doing: PlainDoing,
    pub lists: Lists,
}

impl PlainSubmission {
    /// Whether no submission is under way.
    pub fn rests(&self) -> bool
        ensures { MatchBool result (doing_of_plain self.now.doing ≡ Rests) (IsSubmitting (doing_of_plain self.now.doing)) }
    {
        match self.doing {
            PlainDoing::Rests => true,
            PlainDoing::Drives(_, _) => false,
            PlainDoing::Copies(_, _) => false,
        }
    }
}

/// What a writer has taken for its next write.
#[derive(Drop)]
pub enum PlainGathered {
    NoBio,
    HasBio(Hand),
    HasBoth(Hand, Vector),
}

impl PlainGathered {
    /// The same once more.
    pub fn again(&self) -> PlainGathered
        ensures { gathered_of_plain result ≡ gathered_of_plain self.now }
    {
        match self {
            PlainGathered::NoBio => PlainGathered::NoBio,
            PlainGathered::HasBio(hand) => PlainGathered::HasBio(hand.again()),
            PlainGathered::HasBoth(hand, vector) => PlainGathered::HasBoth(
                hand.again(),
                vector.again(),
            ),
        }
    }
}

/// What a completer carries.
#[derive(Drop)]
pub enum PlainCarried {
    Empty,
    Brings(PlainBioElement, Status),
    Carries(u32, Closed),
}

/// A writer: the writes that it has still to begin, what it has taken for the next one, and its submission.
#[derive(Drop)]
pub struct Writer {
    pub number: u32,
    pub todo: Todos,
    pub taken: PlainGathered,
    pub submission: PlainSubmission,
}

/// The rescuer of a device's set.
#[derive(Drop)]
pub struct Rescuer {
    pub dev: DevId,
    pub submission: PlainSubmission,
}

/// The completer of a disk.
#[derive(Drop)]
pub struct Completer {
    pub disk: DevId,
    pub carried: PlainCarried,
}

/// The keeper of the rounds, seen as the duties that it has still to do: each change of a reserve is of a pool that a stack can have.
#[derive(Drop)]
pub struct Keeper {
    duties: Vec<Duty>,
    // How many of them are done.
    done: usize,
}

impl Model for Keeper {
    ghost use Rattle.std.specs.Prelude.{All, List};
    ghost use Rattle.run_machine.specs.Tasks.{Duty as Ahead};
    ghost use Rattle.task_steps.specs.KeeperViews.{duties_from};
    ghost use Rattle.plain_core.specs.steps.Duties.{NamesStackPool};

    ghost Value = { List Ahead };

    ghost view = { λ k. duties_from k.done k.duties.items };

    ghost invariant = { λ k. All NamesStackPool (duties_from k.done k.duties.items) };
}

impl Keeper {
    /// A keeper that does this, in its order.
    pub fn new(duties: Vec<Duty>) -> Keeper
        requires { All NamesStackPool (map duty_of duties.items) }
        ensures { result ≡ map duty_of duties.items }
    {
        Keeper { duties, done: 0 }
    }

    /// The next duty, if one is left.
    pub fn next(&self) -> Option<Duty>
        ensures { MatchOption result (self.now ≡ []) (IsNextDuty self.now) }
    {
        duty_at(&self.duties, self.done)
    }

    /// The next duty is done.
    pub fn advance(&mut self)
        requires { self.old ≢ [] }
        ensures { self.new ≡ drop 1 self.old }
    {
        self.done += 1;
    }
}

/// A task.
#[derive(Drop)]
pub enum Task {
    Writer(Writer),
    Rescuer(Rescuer),
    Completer(Completer),
    Keeper(Keeper),
}

impl Task {
    /// Its name, as events tell it.
    pub fn id(&self) -> TaskId
        ensures { result ≡ id_of (task_of_plain self.now) }
    {
        match self {
            Task::Writer(writer) => TaskId::Writer(writer.number),
            Task::Rescuer(rescuer) => TaskId::Rescuer(rescuer.dev),
            Task::Completer(completer) => TaskId::Completer(completer.disk),
            Task::Keeper(_) => TaskId::Keeper,
        }
    }
}
