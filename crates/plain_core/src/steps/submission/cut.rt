//! What a driver does that cuts bios.
ghost use Rattle.std.specs.Prelude.{◌≡◌, ◌<◌, true, IfOk};
ghost use Rattle.stack_base.specs.Tree.{tree};
ghost use Rattle.run_machine.specs.Submissions.{is_cut};
ghost use Rattle.task_steps.specs.Within.{IsWithinDevice, ListsAreWithin, DoingFits};
ghost use Rattle.plain_core.specs.objects.Lists.{lists_of, ListsHaveCapacity};
ghost use Rattle.plain_core.specs.steps.Views.{want_of_plain};
ghost use Rattle.plain_core.specs.steps.Submissions.{CanTurn, cuts_for, CutsInto, CutSteps};

use crate::fault::CoreFault;
use crate::objects::Objects;
use crate::objects::lists::Lists;
use crate::objects::part::{Hand, PlainBioElement};
use crate::steps::submission::take::take_for;
use crate::steps::submission::{Continuation, stay};
use crate::steps::task::PlainWant;
use bio_records::{Bio, Pad, advance};
use stack_base::{Range, SetId};
use task_core::{Routes, What};

// A bio is split: its first piece goes to its member, and the rest comes again (`bio_split`, `block/bio.c`).
fn cut(routes: &Routes, part: &PlainBioElement, hand: &Hand, node: u32, lists: &mut Lists)
    requires room { ListsHaveCapacity 2 lists.old }
    requires within { IsWithinDevice routes.now.stack part.now.bio }
    requires cut { is_cut (tree routes.now.stack part.now.bio.dev.0) part.now.bio.range ≡ true }
    requires lists { ListsAreWithin routes.now.stack (lists_of lists.old) }
    ensures cut { CutsInto routes.now (lists_of lists.old) part.now hand.now node (lists_of lists.new) }
    ensures room { ListsHaveCapacity 0 lists.new }
    ensures within { ListsAreWithin routes.now.stack (lists_of lists.new) }
{
    let bio = part.bio();
    let first = routes.cut(&bio);
    let front = Bio {
        node,
        dev: first.dev,
        range: Range {
            start: first.start,
            len: first.sectors,
        },
        set: SetId::Of(bio.dev),
        ..bio
    };
    let mut rest = bio;
    advance(&mut rest, first.sectors);
    lists.submit(hand.with(front, Pad { leg: 0 }));
    lists.submit(part.with(rest, part.pad()));
}

// A driver that cuts goes on: it takes a bio, punts, or links a node for the first piece.
pub(crate) fn cut_step(
    routes: &Routes,
    objects: &mut Objects,
    part: &PlainBioElement,
    want: &mut PlainWant,
    lists: &mut Lists,
    what: &What,
) -> Result<Continuation, CoreFault>
    requires stack { objects.old.stack ≡ routes.now.stack }
    requires fits { DoingFits routes.now.stack (cuts_for part.now (want_of_plain want.old)) }
    requires lists { ListsAreWithin routes.now.stack (lists_of lists.old) }
    ensures steps { CutSteps routes.now objects.old part.now want.old lists.old what.now result objects.new want.new lists.new }
    ensures turns { IfOk result (CanTurn routes.now.stack lists.new) }
{
    routes.known();
    let bio = part.bio();
    match want {
        PlainWant::Takes(waits) => match take_for(objects, bio.dev, *waits, what) {
            Err(fault) => Err(fault),
            Ok(next) => Ok(stay(want, next)),
        },
        PlainWant::Punts => match objects.punt(bio.dev, lists, what) {
            Err(fault) => Err(fault),
            Ok(()) => Ok(stay(want, PlainWant::Takes(true))),
        },
        PlainWant::Links(hand) => match objects.open_chain(bio.writer, bio.node, lists, what) {
            Err(fault) => Err(fault),
            Ok(node) => {
                cut(routes, part, hand, node, lists);
                Ok(Continuation::Returns(bio.dev))
            }
        },
    }
}
