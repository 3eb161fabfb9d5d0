//! Rescuers: each submits the bios of a device's set that were punted (`bio_alloc_rescue`, `block/bio.c`).
ghost use Rattle.std.specs.Prelude.{◌≡◌};
ghost use Rattle.run_machine.specs.Requests.{Pop};
ghost use Rattle.run_machine.specs.Submissions.{Rests, rests};
ghost use Rattle.task_steps.specs.RescuerViews.{rescuer_task};
ghost use Rattle.task_steps.specs.TaskSteps.{HoldsTask, RescuerDoes};
ghost use Rattle.task_steps.specs.Answers.{Ready};

use crate::calls::idle;
use crate::objects::Objects;
use crate::routes::Routes;
use crate::step::Step;
use crate::submission::{Kept, Submission};
use run_machine::{Breach, Event, TaskId, What};
use stack_base::DevId;
use std::marker::Model;

/// The rescuer of a device's set.
#[derive(Drop)]
pub struct Rescuer {
    dev: DevId,
    submission: Submission,
}

impl Model for Rescuer {
    ghost use Rattle.task_steps.specs.RescuerViews.{RescuerState};

    ghost Value = { RescuerState };

    ghost view = { λ r. record { dev = r.dev; submission = r.submission } };
}

impl Rescuer {
    /// The rescuer of this device's set.
    pub fn new(dev: DevId) -> Rescuer
        ensures { result ≡ record { dev = dev; submission = rests } }
    {
        Rescuer {
            dev,
            submission: Submission::rests(),
        }
    }

    /// The device whose set it is the rescuer of.
    pub fn dev(&self) -> DevId
        ensures { result ≡ self.now.dev }
    {
        self.dev
    }

    // Submits the first bio that waits for it. Where none does, it has ended if no write is unfinished, and nothing moves.
    fn pop<O: Objects>(&mut self, objects: &mut O, routes: &Routes) -> Step
        requires ready { Ready O.Objects objects.old (Pop self.old.dev) }
        requires routing { (O.stage objects.old).routing ≡ routes.now }
        requires rests { self.old.submission.doing ≡ Rests }
        ensures does { RescuerDoes O.Objects routes.now self.old objects.old self.new objects.new result }
    {
        let dev = self.dev;
        match objects.pop(dev) {
            Ok(Some(bio)) => {
                self.submission.becomes(Submission::begin(routes, bio));
                let task = TaskId::Rescuer(dev);
                let what = What::Pop { dev };
                Step::Stepped(Event { task, what })
            }
            Ok(None) => idle(objects.left()),
            Err(nothing) => {
                drop(nothing);
                self.submission.breaks(Breach::Spent, Kept::nothing());
                Step::Broken(Breach::Spent)
            }
        }
    }

    /// Its next step: it asks one object once, for what its submission needs or for the next bio that waits for it, and goes on with the
    /// reply. Where none waits, it also looks at how many writes are unfinished.
    #[inline(always)] // as `Task::step`
    pub fn step<O: Objects>(&mut self, objects: &mut O, routes: &Routes) -> Step
        requires routing { (O.stage objects.old).routing ≡ routes.now }
        requires ready { HoldsTask O.Objects objects.old (rescuer_task self.old) }
        ensures does { RescuerDoes O.Objects routes.now self.old objects.old self.new objects.new result }
    {
        if self.submission.asks() {
            let task = TaskId::Rescuer(self.dev);
            return self.submission.step(objects, routes, task);
        }
        if let Some(breach) = self.submission.breach() {
            return Step::Broken(breach);
        }
        self.pop(objects, routes)
    }
}
