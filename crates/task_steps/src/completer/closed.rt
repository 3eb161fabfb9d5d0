//! What a completer does with a node that has closed.
ghost use Rattle.std.specs.Prelude.{◌≡◌, true, None, Some};
ghost use Rattle.run_machine.specs.Tasks.{Completer as Completes, Empty};
ghost use Rattle.task_steps.specs.TaskSteps.{CompleterDoes, HoldsTask, TellsDone};
ghost use Rattle.task_steps.specs.CarriedViews.{given_back, is_carrying, GaveBack, IsEmptyNode};

use crate::completer::gives::{gives, pool_of};
use crate::completer::{Carried, Load, nothing_held};
use crate::objects::{Objects, Unmade};
use crate::step::Step;
use bio_books::ClosedNode;
use run_machine::{Event, TaskId, What};
use stack_base::{DevId, PoolId, Status};

impl Carried {
    // Tells a write done, whose node has closed and holds nothing any more.
    fn end_write<O: Objects>(
        &mut self,
        objects: &mut O,
        disk: DevId,
        writer: u32,
        write: u32,
        status: Status,
    ) -> Step
        requires empty { self.old ≡ Empty }
        requires ready { HoldsTask O.Objects objects.old (Completes disk (given_back writer None write status)) }
        ensures does { TellsDone O.Objects disk writer write status objects.old (self.new, result) objects.new }
    {
        match objects.done(write, status) {
            Ok(()) => {
                let task = TaskId::Completer(disk);
                let what = What::Done { write, status };
                Step::Stepped(Event { task, what })
            }
            Err(back) => self.spend(nothing_held(), back),
        }
    }

    // Goes on behind a closed node that holds nothing any more: its parent is told, or its write is done.
    fn pass_on<O: Objects>(&mut self, objects: &mut O, disk: DevId) -> Step
        requires empty { IsEmptyNode self.old }
        requires ready { HoldsTask O.Objects objects.old (Completes disk self.old) }
        ensures does { CompleterDoes O.Objects disk self.old objects.old (self.new, result) objects.new }
    {
        match self.take() {
            Load::Carries { writer, node } => {
                let ClosedNode {
                    held,
                    parent,
                    write,
                    status,
                } = node;
                drop(held);
                match parent {
                    Some(parent) => self.drop_parent(objects, disk, writer, parent, write, status),
                    None => self.end_write(objects, disk, writer, write, status),
                }
            }
            Load::Empty | Load::Brings { .. } | Load::Fails { .. } => unreachable!(),
        }
    }

    // What came of giving back a part of the closed node that it carries, which is in it no more.
    #[inline(always)] // where no call can be refused, the other arm falls away
    fn gave(&mut self, disk: DevId, pool: PoolId, given: Result<(), Unmade>) -> Step
        requires carries { is_carrying self.old ≡ true }
        ensures { GaveBack disk pool given self.old self.new result }
    {
        match given {
            Ok(()) => gives(disk, pool),
            Err(back) => {
                let rest = self.take().held();
                self.spend(rest, back)
            }
        }
    }

    // Goes on with a closed node, which stays where it is: what it holds goes back first, its vector, its bio (`bio_free`, `block/bio.c`) and its
    // record (`free_r1bio`, `drivers/md/raid1.c`), then its parent is told, or its write is done.
    pub(crate) fn finish<O: Objects>(&mut self, objects: &mut O, disk: DevId) -> Step
        requires carries { is_carrying self.old ≡ true }
        requires ready { HoldsTask O.Objects objects.old (Completes disk self.old) }
        ensures does { CompleterDoes O.Objects disk self.old objects.old (self.new, result) objects.new }
    {
        match &mut self.load {
            Load::Carries { node, .. } => {
                // A part that is not there is not set to nothing once more.
                if node.held.vector.is_some() {
                    if let Some(vector) = node.held.vector.take() {
                        let pool = pool_of(vector.no());
                        let given = objects.give_vec(vector);
                        return self.gave(disk, pool, given);
                    }
                }
                if node.held.bio.is_some() {
                    if let Some(bio) = node.held.bio.take() {
                        let pool = pool_of(bio.no());
                        let given = objects.give_bio(bio);
                        return self.gave(disk, pool, given);
                    }
                }
                if node.held.slip.is_some() {
                    if let Some(slip) = node.held.slip.take() {
                        let pool = pool_of(slip.no());
                        let given = objects.give_slip(slip);
                        return self.gave(disk, pool, given);
                    }
                }
                self.pass_on(objects, disk)
            }
            Load::Empty | Load::Brings { .. } | Load::Fails { .. } => unreachable!(),
        }
    }
}
