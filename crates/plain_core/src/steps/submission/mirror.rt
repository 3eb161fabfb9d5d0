//! What a mirror does for each leg of a bio that it copies.
ghost use Rattle.std.specs.Prelude.{◌≡◌, ◌+◌, ◌<◌, length, true, IfOk};
ghost use Rattle.stack_base.specs.Tree.{tree};
ghost use Rattle.bio_lists.specs.Submission.{submitted};
ghost use Rattle.run_machine.specs.Submissions.{legs_of};
ghost use Rattle.task_steps.specs.DriverSteps.{routed_copies};
ghost use Rattle.task_steps.specs.Within.{IsWithinDevice, ListsAreWithin, DoingFits};
ghost use Rattle.plain_core.specs.objects.Lists.{lists_of, ListsHaveCapacity};
ghost use Rattle.plain_core.specs.steps.Views.{submission_of_plain, want_of_plain};
ghost use Rattle.plain_core.specs.steps.Submissions.{CanTurn, copies_for, next_leg, CopiesOn, CopySteps};

use crate::fault::CoreFault;
use crate::objects::Objects;
use crate::objects::lists::Lists;
use crate::objects::part::Hand;
use crate::steps::submission::take::take_for;
use crate::steps::submission::{Continuation, go_on, stay};
use crate::steps::task::{Copying, PlainDoing, PlainSubmission, PlainWant};
use bio_records::Bio;
use task_core::{Routes, What};

// A leg of a mirror's bio is submitted.
fn copy(routes: &Routes, copying: &Copying, hand: &Hand, node: u32, lists: &mut Lists)
    requires room { ListsHaveCapacity 2 lists.old }
    requires within { IsWithinDevice routes.now.stack copying.now.bio }
    requires leg { copying.now.leg < legs_of (tree routes.now.stack copying.now.bio.dev.0) }
    requires lists { ListsAreWithin routes.now.stack (lists_of lists.old) }
    ensures copied { lists_of lists.new ≡ submitted (next_leg routes.now copying.now hand.now node) (lists_of lists.old) }
    ensures room { ListsHaveCapacity 0 lists.new }
    ensures within { ListsAreWithin routes.now.stack (lists_of lists.new) }
{
    let (made, pad) = routes.leg(&copying.bio, copying.leg, node);
    lists.submit(hand.with(made, pad));
}

// The next leg of a mirror's bio is to be made, or what waits behind the last one.
fn copy_on(
    routes: &Routes,
    copying: &mut Copying,
    want: &mut PlainWant,
    lists: &Lists,
) -> Continuation
    requires room { ListsHaveCapacity 0 lists.now }
    requires leg { copying.old.leg < legs_of (tree routes.now.stack copying.old.bio.dev.0) }
    requires device { copying.old.bio.dev.0 < length routes.now.stack.devices.items }
    requires lists { ListsAreWithin routes.now.stack (lists_of lists.now) }
    ensures copies { CopiesOn routes.now (lists_of lists.now) copying.old copying.new (want_of_plain want.new) result }
    ensures turns { CanTurn routes.now.stack lists.now result }
{
    let dev = copying.bio.dev;
    let legs = routes.legs(dev);
    prove!(copying.leg < legs);
    copying.leg += 1;
    if copying.leg == legs {
        return Continuation::Returns(dev);
    }
    *want = PlainWant::Takes(routes.waits_first(dev, lists));
    Continuation::Stays
}

// A mirror goes on to copy a bio.
pub(crate) fn copy_step(
    routes: &Routes,
    objects: &mut Objects,
    copying: &mut Copying,
    want: &mut PlainWant,
    lists: &mut Lists,
    what: &What,
) -> Result<Continuation, CoreFault>
    requires stack { objects.old.stack ≡ routes.now.stack }
    requires fits { DoingFits routes.now.stack (copies_for copying.old (want_of_plain want.old)) }
    requires lists { ListsAreWithin routes.now.stack (lists_of lists.old) }
    ensures steps { CopySteps routes.now objects.old copying.old want.old lists.old what.now result objects.new copying.new want.new lists.new }
    ensures turns { IfOk result (CanTurn routes.now.stack lists.new) }
{
    routes.known();
    let dev = copying.bio.dev;
    match want {
        PlainWant::Takes(waits) => match take_for(objects, dev, *waits, what) {
            Err(fault) => Err(fault),
            Ok(next) => Ok(stay(want, next)),
        },
        PlainWant::Punts => match objects.punt(dev, lists, what) {
            Err(fault) => Err(fault),
            Ok(()) => Ok(stay(want, PlainWant::Takes(true))),
        },
        PlainWant::Links(hand) => match objects.open_leg(
            copying.bio.writer,
            copying.master,
            lists,
            what,
        ) {
            Err(fault) => Err(fault),
            Ok(node) => {
                copy(routes, copying, hand, node, lists);
                Ok(copy_on(routes, copying, want, lists))
            }
        },
    }
}

// A mirror begins to copy a bio, or what waits behind it is next where it has no legs.
pub(crate) fn begin_copy(routes: &Routes, bio: Bio, master: u32, submission: &mut PlainSubmission)
    requires room { ListsHaveCapacity 0 submission.old.lists }
    requires device { bio.dev.0 < length routes.now.stack.devices.items }
    requires lists { ListsAreWithin routes.now.stack (lists_of submission.old.lists) }
    ensures { submission_of_plain submission.new ≡ routed_copies routes.now (lists_of submission.old.lists) bio master 0 }
{
    if routes.legs(bio.dev) == 0 {
        return go_on(routes, bio.dev, submission);
    }
    let waits = routes.waits_first(bio.dev, &submission.lists);
    let copying = Copying {
        bio,
        master,
        leg: 0,
    };
    submission.doing = PlainDoing::Copies(copying, PlainWant::Takes(waits));
}
