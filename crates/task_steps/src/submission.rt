//! Submissions: the bio that its driver has, what the driver asks for, and the bios that wait (`submit_bio_noacct`, `block/blk-core.c`).
ghost use Rattle.std.specs.Prelude.{◌≡◌, ◌<◌, ◌++◌, [], ◌∷◌, true, None};
ghost use Rattle.bio_records.specs.Items.{item_of, IsAlone};
ghost use Rattle.run_machine.specs.Submissions.{Rests, Drives, Breaks as Breaks', ToCut, settled, rests, doing_breach};
ghost use Rattle.task_steps.specs.Within.{IsWithinDevice};
ghost use Rattle.task_steps.specs.Routed.{routing_setup};
ghost use Rattle.task_steps.specs.SubmissionViews.{unmade_kept, kept_of, doing_of, submission_of, IsDoingAlone, is_asking};
ghost use Rattle.task_steps.specs.declared.submission.Doing.TheVariants as doing';
ghost use Rattle.run_machine.specs.Kept.{bio_kept};
ghost use Rattle.bio_books.specs.Views.{bio_of};
ghost use Rattle.task_steps.specs.Answers.{SubmissionDoes};
ghost use Rattle.task_steps.specs.TaskSteps.{HoldsSubmission};

pub(crate) mod cut;
pub(crate) mod dispatch;
pub(crate) mod mirror;
pub(crate) mod push;
mod take;

use crate::homes::submissions_stay_home;
use crate::objects::{Objects, Unmade};
use crate::routes::Routes;
use crate::step::Step;
use crate::submission::dispatch::{serve, turn};
use crate::submission::mirror::{leg, master};
use bio_books::Back;
use bio_records::{Bio, BioElement, SlipElement, TaskLists};
use run_machine::{Breach, TaskId};
use std::marker::Model;
use std::mem;

/// What a driver does for a bio of its device's set.
#[derive(Drop)]
pub enum Want {
    /// It takes one, and waits for it or not (`bio_alloc_bioset`, `block/bio.c`).
    Takes { waits: bool },
    /// An attempt that did not wait missed: it hands the bios of the set to its rescuer (`punt_bios_to_rescuer`, `block/bio.c`).
    Punts,
    /// It links a node for the bio that it has taken.
    Links { hand: BioElement },
}

/// What a driver does with the bio that it has.
#[derive(Drop)]
pub enum DriverAsk {
    /// A disk's takes it.
    ToPush,
    /// One that cuts wants a bio for the first piece.
    ToCut(Want),
    /// A mirror's takes a record.
    ToRecord,
    /// And with the record it links a master, which keeps the bio.
    ToMaster(SlipElement),
}

/// What an object handed back where a task cannot go on.
#[derive(Drop)]
pub enum HandedBack {
    /// What a call without a ticket was handed.
    Unmade(Unmade),
    /// What was to stand in a node that was not opened.
    Unlinked(Back),
}

/// What a task that cannot go on keeps of what it was at.
#[derive(Drop)]
pub struct Kept {
    /// The bio that its driver had, if it had one.
    pub bio: Option<BioElement>,
    /// The bio that it had taken, if it had one besides.
    pub hand: Option<BioElement>,
    /// What the object handed back.
    pub back: HandedBack,
}

impl Kept {
    /// Nothing was at hand, and nothing came back.
    pub(crate) fn nothing() -> Kept
        ensures { kept_of result ≡ [] }
    {
        Kept::unmade(None, Unmade::Nothing)
    }

    /// What it had of a bio, and what came back of a call without a ticket.
    pub(crate) fn unmade(bio: Option<BioElement>, back: Unmade) -> Kept
        ensures { result ≡ record { bio = bio; hand = None; back = HandedBack.Unmade back } }
    {
        let back = HandedBack::Unmade(back);
        Kept {
            bio,
            hand: None,
            back,
        }
    }
}

/// What a submission is at. It is put in its place and handed on by no result: a step takes it out once, and what follows is put where nothing is
/// (`put`). It is large, since it can keep what came back of a refused call: as part of each callee's result, runs took 1.15 to 1.4 times the
/// instructions.
#[derive(Drop)]
pub enum Doing {
    /// It is over.
    Rests,
    /// The driver of the bio's device has it.
    Drives {
        bio: BioElement,
        ask: DriverAsk,
    },
    /// A mirror copies a bio, which waits with its parent: the place of the master, and the leg that is made next.
    Copies {
        bio: Bio,
        master: u32,
        leg: u32,
        want: Want,
    },
    /// It cannot go on, and keeps what it had at hand and what came back, so that every element is still somebody's, though no task of a run comes to
    /// that. A punt that was refused has its bios there, and no more in the lists, which would want their order.
    Breaks {
        breach: Breach,
        kept: Kept,
    },
}

/// A submission, with the task's two lists.
#[derive(Drop)]
pub struct Submission {
    pub(crate) doing: Doing,
    pub(crate) lists: TaskLists,
}

impl Model for Submission {
    ghost use Rattle.run_machine.specs.Submissions.{Submission as SubmissionState};
    ghost use Rattle.task_steps.specs.SubmissionViews.{submission_of, IsDoingAlone};

    ghost Value = { SubmissionState };

    ghost view = { λ l. submission_of l.doing l.lists };

    ghost invariant = { λ l. IsDoingAlone l.doing };
}

// What it is at from now on, where it was at nothing: an assignment would have code that drops what was there.
pub(crate) fn put(at: &mut Doing, doing: Doing)
    requires { at.old ≡ doing'.Rests }
    ensures { at.new ≡ doing }
{
    mem::forget(mem::replace(at, doing));
}

// It cannot go on, and keeps this.
pub(crate) fn broken(breach: Breach, kept: Kept) -> Doing
    ensures doing { doing_of result ≡ Breaks' breach (kept_of kept) }
    ensures alone { IsDoingAlone result }
{
    Doing::Breaks { breach, kept }
}

// It breaks off, and keeps this.
pub(crate) fn break_off(at: &mut Doing, breach: Breach, kept: Kept) -> Step
    requires { at.old ≡ doing'.Rests }
    ensures doing { doing_of at.new ≡ Breaks' breach (kept_of kept) }
    ensures alone { IsDoingAlone at.new }
    ensures step { result ≡ Step.Broken breach }
{
    put(at, broken(breach, kept));
    Step::Broken(breach)
}

// There was no ticket for its call: it keeps the bio that its driver had, if it had one, and what came back.
pub(crate) fn spent(at: &mut Doing, bio: Option<BioElement>, back: Unmade) -> Step
    requires { at.old ≡ doing'.Rests }
    ensures doing { doing_of at.new ≡ Breaks' Breach.Spent (bio_kept (bio_of bio) ++ unmade_kept back) }
    ensures alone { IsDoingAlone at.new }
    ensures step { result ≡ Step.Broken Breach.Spent }
{
    break_off(at, Breach::Spent, Kept::unmade(bio, back))
}

impl Submission {
    /// A submission that is over.
    pub fn rests() -> Submission
        ensures { result ≡ rests }
    {
        Submission {
            doing: Doing::Rests,
            lists: TaskLists::new(),
        }
    }

    /// The submission of this bio, which has come to its driver while none waits.
    #[inline(always)] // as `becomes`
    pub fn begin(routes: &Routes, bio: BioElement) -> Submission
        requires within { IsWithinDevice routes.now.stack (item_of bio).bio }
        requires alone { IsAlone bio }
        ensures { result ≡ settled (routing_setup routes.now) (item_of bio ∷ []) }
    {
        let mut doing = Doing::Rests;
        let lists = TaskLists::new();
        serve(routes, bio, &mut doing, &lists);
        Submission { doing, lists }
    }

    /// One that is over is another one from now on.
    #[inline(always)] // what is moved into it is made in its place
    #[tactic(auto, using(crate::proofs::Resting::rests_alone))]
    pub(crate) fn becomes(&mut self, submission: Submission)
        requires { self.old.doing ≡ Rests }
        ensures { self.new ≡ submission }
    {
        put(&mut self.doing, submission.doing);
        self.lists = submission.lists;
    }

    /// The task of a submission that is over cannot go on, and keeps this.
    #[tactic(auto, using(crate::proofs::Resting::rests_alone))]
    pub(crate) fn breaks(&mut self, breach: Breach, kept: Kept)
        requires { self.old.doing ≡ Rests }
        ensures { self.new ≡ record self.old { doing = Breaks' breach (kept_of kept) } }
    {
        put(&mut self.doing, broken(breach, kept));
    }

    /// Whether it has something to ask for: it is not over, and has not broken off.
    pub fn asks(&self) -> bool
        ensures { result ≡ is_asking self.now.doing }
    {
        match self.doing {
            Doing::Rests | Doing::Breaks { .. } => false,
            Doing::Drives { .. } | Doing::Copies { .. } => true,
        }
    }

    /// Why it cannot go on, if it can't.
    pub fn breach(&self) -> Option<Breach>
        ensures { result ≡ doing_breach self.now.doing }
    {
        match self.doing {
            Doing::Breaks { breach, .. } => Some(breach),
            Doing::Rests | Doing::Drives { .. } | Doing::Copies { .. } => None,
        }
    }

    /// The next step of a submission that has something to ask for, as this task: it asks one object once, and goes on with the reply
    /// (`submit_bio_noacct`, `block/blk-core.c`, as far as the next place where it takes, links or submits).
    #[inline(never)] // within its callers, each attempt of a task that waits would pay for its registers and its stack
    pub fn step<O: Objects>(&mut self, objects: &mut O, routes: &Routes, task: TaskId) -> Step
        requires ready { HoldsSubmission O.Objects objects.old self.old }
        requires routing { (O.stage objects.old).routing ≡ routes.now }
        requires asks { is_asking self.old.doing ≡ true }
        ensures does { SubmissionDoes O.Objects routes.now task self.old objects.old self.new objects.new result }
    {
        routes.known();
        submissions_stay_home();
        if let Some((dev, waits)) = self.attempts() {
            return self.attempt(objects, task, dev, waits);
        }
        let doing = mem::replace(&mut self.doing, Doing::Rests);
        turn(
            objects,
            routes,
            task,
            doing,
            &mut self.doing,
            &mut self.lists,
        )
    }
}
