//! A disk's driver: the bio goes to the disk.
ghost use Rattle.std.specs.Prelude.{◌≡◌, ◌<◌, ◌-◌};
ghost use Rattle.bio_records.specs.Items.{item_of, IsAlone};
ghost use Rattle.run_machine.specs.Requests.{Push};
ghost use Rattle.task_steps.specs.declared.submission.Doing.TheVariants as doing';
ghost use Rattle.task_steps.specs.Within.{ListsAreWithin};
ghost use Rattle.task_steps.specs.SubmissionViews.{IsDoingAlone};
ghost use Rattle.task_steps.specs.Answers.{Ready};
ghost use Rattle.task_steps.specs.DriverSteps.{PushDoes};

use crate::objects::Objects;
use crate::routes::Routes;
use crate::step::Step;
use crate::submission::dispatch::go_on;
use crate::submission::{Doing, spent};
use bio_records::{BioElement, TaskLists};
use run_machine::{Event, TaskId, What};

/// The bio goes to the disk that it is at, and the next one to its driver.
pub(crate) fn push<O: Objects>(
    objects: &mut O,
    routes: &Routes,
    task: TaskId,
    bio: BioElement,
    at: &mut Doing,
    lists: &mut TaskLists,
) -> Step
    requires ready { Ready O.Objects objects.old (Push (item_of bio)) }
    requires alone { IsAlone bio }
    requires rests { at.old ≡ doing'.Rests }
    requires within { ListsAreWithin routes.now.stack lists.old }
    ensures does { PushDoes O.Objects routes.now task bio lists.old objects.old (at.new, result) lists.new objects.new }
    ensures alone { IsDoingAlone at.new }
{
    let disk = bio.body.bio.dev;
    let what = What::Push {
        disk,
        at: bio.body.bio.range.start,
        len: bio.body.bio.range.len,
        leg: bio.body.pad.leg,
    };
    match objects.push(bio) {
        Ok(()) => {
            go_on(routes, at, lists, disk);
            Step::Stepped(Event { task, what })
        }
        Err(back) => spent(at, None, back),
    }
}
