//! What a completer tells a node: that a part of it has ended (`bio_endio` and `bio_chain_endio`, `block/bio.c`).
ghost use Rattle.std.specs.Prelude.{◌≡◌, Option, None, Some};
ghost use Rattle.bio_records.specs.Items.{item_of, IsAlone};
ghost use Rattle.bio_books.specs.Books.{nothing_held};
ghost use Rattle.bio_books.specs.Views.{bio_of, drop_outcome_of, IsDroppedAlone};
ghost use Rattle.run_machine.specs.declared.event.Breach.TheVariants as Breach';
ghost use Rattle.run_machine.specs.declared.event.TaskId.TheVariants as TaskId';
ghost use Rattle.run_machine.specs.declared.event.What.TheVariants as What';
ghost use Rattle.task_steps.specs.declared.step.Step.TheVariants as Step';
ghost use Rattle.run_machine.specs.Kept.{bio_kept};
ghost use Rattle.run_machine.specs.Tasks.{Brings, Completer as Completes, Empty, Fails, after_drop};
ghost use Rattle.task_steps.specs.TaskSteps.{CompleterDoes, HoldsTask, TellsDrop, TellsParent};
ghost use Rattle.task_steps.specs.CarriedViews.{given_back};

use crate::completer::{Carried, nothing_held};
use crate::objects::Objects;
use crate::step::Step;
use bio_books::{Back, Dropped};
use bio_records::{Bio, BioElement};
use run_machine::{Breach, End, Event, TaskId, What};
use stack_base::{DevId, Status};

// The event that a node was told of an end.
fn drops(disk: DevId, writer: u32, node: u32, status: Status, end: End) -> Step
    ensures { result ≡ Step'.Stepped (record { task = TaskId'.Completer disk; what = What'.Drop writer node status end }) }
{
    Step::Stepped(Event {
        task: TaskId::Completer(disk),
        what: What::Drop {
            writer,
            node,
            status,
            end,
        },
    })
}

impl Carried {
    // The node that was to be told of an end is not open. The completer breaks off, and keeps the part that the book handed back.
    #[tactic(auto, using(crate::proofs::KeptLemmas::part_alone))]
    fn stray(&mut self, writer: u32, node: u32, part: Option<BioElement>) -> Step
        requires empty { self.old ≡ Empty }
        ensures carried { self.new ≡ Fails (Breach'.Stray writer node) (bio_kept (bio_of part)) }
        ensures step { result ≡ Step'.Broken (Breach'.Stray writer node) }
    {
        let breach = Breach::Stray { writer, node };
        let held = Back {
            bio: part,
            ..nothing_held()
        };
        self.fail(breach, held)
    }

    // What is left of a node that was told of an end, and the step of that: its event, or, where no such node is open, that the completer breaks off.
    #[inline(always)] // as `Submission::becomes`
    fn told(
        &mut self,
        disk: DevId,
        writer: u32,
        node: u32,
        status: Status,
        dropped: Dropped,
    ) -> Step
        requires empty { self.old ≡ Empty }
        requires alone { IsDroppedAlone dropped }
        ensures carried { self.new ≡ after_drop writer node (drop_outcome_of dropped) }
        ensures step { TellsDrop disk writer node status (drop_outcome_of dropped) result }
    {
        match dropped {
            Dropped::Left => drops(disk, writer, node, status, End::Left),
            Dropped::Up(closed) => {
                self.carry(writer, closed);
                drops(disk, writer, node, status, End::Up)
            }
            Dropped::Top(closed) => {
                self.carry(writer, closed);
                drops(disk, writer, node, status, End::Top)
            }
            Dropped::Stray(part) => self.stray(writer, node, part),
        }
    }

    // Tells the node of a bio that came from the disk of its end (`bio_endio`, `block/bio.c`).
    pub(crate) fn drop_part<O: Objects>(
        &mut self,
        objects: &mut O,
        disk: DevId,
        bio: BioElement,
        status: Status,
    ) -> Step
        requires empty { self.old ≡ Empty }
        requires alone { IsAlone bio }
        requires ready { HoldsTask O.Objects objects.old (Completes disk (Brings (item_of bio) status)) }
        ensures does { CompleterDoes O.Objects disk (Brings (item_of bio) status) objects.old (self.new, result) objects.new }
    {
        let Bio { writer, node, .. } = bio.body.bio;
        match objects.drop_one(writer, node, status, Some(bio)) {
            Ok(dropped) => self.told(disk, writer, node, status, dropped),
            Err(back) => self.spend(nothing_held(), back),
        }
    }

    // Tells the parent of a closed node, which holds nothing any more, of its end (`bio_chain_endio`, `block/bio.c`).
    pub(crate) fn drop_parent<O: Objects>(
        &mut self,
        objects: &mut O,
        disk: DevId,
        writer: u32,
        parent: u32,
        write: u32,
        status: Status,
    ) -> Step
        requires empty { self.old ≡ Empty }
        requires ready { HoldsTask O.Objects objects.old (Completes disk (given_back writer (Some parent) write status)) }
        ensures does { TellsParent O.Objects disk writer parent write status objects.old (self.new, result) objects.new }
    {
        match objects.drop_one(writer, parent, status, None) {
            Ok(dropped) => self.told(disk, writer, parent, status, dropped),
            Err(back) => self.spend(nothing_held(), back),
        }
    }
}
