//! Attempts at a bio for a piece or for a leg. What the driver has stays where it is, so that an attempt that misses moves nothing.
ghost use Rattle.std.specs.Prelude.{◌≡◌, ◌≢◌, true, Some, None};
ghost use Rattle.stack_base.specs.declared.ids.SetId.TheVariants.{Of};
ghost use Rattle.run_machine.specs.declared.event.Breach.TheVariants as breach;
ghost use Rattle.run_machine.specs.Requests.{TakeBio};
ghost use Rattle.run_machine.specs.Kept.{bio_kept};
ghost use Rattle.run_machine.specs.Submissions.{Breaks as Breaks', at_hand};
ghost use Rattle.task_steps.specs.declared.objects.Unmade.TheVariants as unmade;
ghost use Rattle.bio_books.specs.Views.{bio_of};
ghost use Rattle.task_steps.specs.SubmissionViews.{want_of, attempt_of, wanting, doing_of, is_asking, IsWantAlone};
ghost use Rattle.task_steps.specs.Answers.{SubmissionAlwaysDoes, Ready};

use crate::calls::attempt;
use crate::objects::{Objects, Unmade};
use crate::step::Step;
use crate::submission::{Doing, DriverAsk, Kept, Submission, Want, broken, put};
use bio_records::BioElement;
use run_machine::{Breach, TaskId};
use stack_base::DevId;
use std::mem;

// The bio that a driver has where it takes one for a piece: then it has nothing else at hand, and none where it takes one for a leg.
#[tactic(auto, using(crate::proofs::Attempting::cuts_for_none, crate::proofs::Attempting::copies_for_none))]
fn bio_of(doing: Doing) -> Option<BioElement>
    requires takes { attempt_of (doing_of doing) ≢ None }
    ensures { bio_kept (bio_of result) ≡ at_hand (doing_of doing) }
{
    match doing {
        Doing::Drives { bio, ask } => {
            drop(ask);
            Some(bio)
        }
        Doing::Copies { want, .. } => {
            drop(want);
            None
        }
        Doing::Rests | Doing::Breaks { .. } => unreachable!(),
    }
}

impl Submission {
    /// The device of whose set it takes a bio next, and whether it waits for one, if that is what it does next.
    pub(crate) fn attempts(&self) -> Option<(DevId, bool)>
        ensures { result ≡ attempt_of self.now.doing }
    {
        match &self.doing {
            Doing::Drives {
                bio,
                ask: DriverAsk::ToCut(Want::Takes { waits }),
            } => Some((bio.body.bio.dev, *waits)),
            Doing::Copies {
                bio,
                want: Want::Takes { waits },
                ..
            } => Some((bio.dev, *waits)),
            Doing::Rests | Doing::Drives { .. } | Doing::Copies { .. } | Doing::Breaks { .. } => {
                None
            }
        }
    }

    // What is wanted behind an attempt.
    #[inline(always)] // as `Submission::becomes`
    fn wants(&mut self, next: Want)
        requires { IsWantAlone next }
        ensures { self.new ≡ record self.old { doing = wanting self.old.doing (want_of next) } }
    {
        match &mut self.doing {
            Doing::Drives { ask, .. } => *ask = DriverAsk::ToCut(next),
            Doing::Copies { want, .. } => *want = next,
            Doing::Rests | Doing::Breaks { .. } => {}
        }
    }

    // There was no ticket for its attempt, which was handed nothing.
    fn spend(&mut self, nothing: Unmade)
        requires takes { attempt_of self.old.doing ≢ None }
        requires nothing { nothing ≡ unmade.Nothing }
        ensures { self.new ≡ record self.old { doing = Breaks' breach.Spent (at_hand self.old.doing) } }
    {
        let doing = mem::replace(&mut self.doing, Doing::Rests);
        let kept = Kept::unmade(bio_of(doing), nothing);
        put(&mut self.doing, broken(Breach::Spent, kept));
    }

    /// Takes a bio of this device's set for the first piece of the bio that its driver has, or for the next leg (`bio_alloc_bioset`,
    /// `block/bio.c`).
    pub(crate) fn attempt<O: Objects>(
        &mut self,
        objects: &mut O,
        task: TaskId,
        dev: DevId,
        waits: bool,
    ) -> Step
        requires ready { Ready O.Objects objects.old (TakeBio (Of dev) waits) }
        requires attempts { attempt_of self.old.doing ≡ Some (dev, waits) }
        requires asks { is_asking self.old.doing ≡ true }
        ensures does { SubmissionAlwaysDoes O.Objects task self.old objects.old self.new objects.new result }
    {
        match attempt(objects, task, dev, waits) {
            Ok((want, step)) => {
                self.wants(want);
                step
            }
            Err(back) => {
                self.spend(back);
                Step::Broken(Breach::Spent)
            }
        }
    }
}
