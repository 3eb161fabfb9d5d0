//! Completers: what the completer of a disk carries, from its disk up to the write.
ghost use Rattle.std.specs.Prelude.{◌≡◌, true, false, None, Some};
ghost use Rattle.bio_books.specs.Books.{nothing_held};
ghost use Rattle.bio_books.specs.Views.{closed_node_of, holding_of, IsAlonePart};
ghost use Rattle.run_machine.specs.declared.event.Breach.TheVariants as Breach';
ghost use Rattle.task_steps.specs.declared.step.Step.TheVariants as Step';
ghost use Rattle.run_machine.specs.Kept.{holding_kept};
ghost use Rattle.run_machine.specs.Tasks.{Brings, Carries, Completer as Completes, Empty, Fails};
ghost use Rattle.task_steps.specs.Turns.{completes, Chosen};
ghost use Rattle.task_steps.specs.CarriedViews.{carried_of, held_of, put_back, is_bringing, is_busy, is_carrying, IsLoadAlone};
ghost use Rattle.task_steps.specs.TaskSteps.{CompleterDoes, HoldsTask};

mod closed;
mod ends;
pub(crate) mod gives;

use crate::objects::{Chooser, Objects, Unmade};
use crate::step::Step;
use bio_books::{Back, ClosedNode};
use bio_records::{Bio, BioElement};
use model_disks::Done;
use run_machine::{Breach, Event, TaskId, What};
use stack_base::{DevId, Status};
use std::marker::Model;
use std::mem;

/// What a completer carries.
#[derive(Drop)]
pub enum Load {
    /// Nothing: it completes a bio next.
    Empty,
    /// A bio that its disk is done with.
    Brings { bio: BioElement, status: Status },
    /// What is left of a node that has closed.
    Carries { writer: u32, node: ClosedNode },
    /// It cannot go on, and keeps what came back of its call, and what else it carried.
    Fails { breach: Breach, held: Back },
}

/// What a completer carries, seen without its boxes. Round the enum, which anyone may match, it keeps that a bio in it is in no list.
///
/// A closed node stays in it while what the node holds goes back: a completer takes one element out of it a step, and moves the rest only where
/// a call had no ticket.
#[derive(Drop)]
pub struct Carried {
    load: Load,
}

impl Model for Carried {
    ghost use Rattle.run_machine.specs.Tasks.{Carried as CarriedState};
    ghost use Rattle.task_steps.specs.CarriedViews.{carried_of, IsLoadAlone};

    ghost Value = { CarriedState };

    ghost view = { λ c. carried_of c.load };

    ghost invariant = { λ c. IsLoadAlone c.load };
}

// No element.
fn nothing_held() -> Back
    ensures { holding_of result ≡ nothing_held }
{
    Back {
        bio: None,
        vector: None,
        slip: None,
    }
}

// What came back of a call, with what else was carried.
fn put_back(rest: Back, back: Unmade) -> Back
    ensures { holding_of result ≡ put_back (holding_of rest) back }
{
    match back {
        Unmade::Bio(bio) => Back {
            bio: Some(bio),
            ..rest
        },
        Unmade::Vec(vector) => Back {
            vector: Some(vector),
            ..rest
        },
        Unmade::Slip(slip) => Back {
            slip: Some(slip),
            ..rest
        },
        Unmade::Nothing | Unmade::List(_) | Unmade::Ask(_) => rest,
    }
}

impl Load {
    // What is held of a closed node, if one is carried.
    pub(crate) fn held(self) -> Back
        requires carries { is_carrying (carried_of self) ≡ true }
        ensures { holding_of result ≡ held_of (carried_of self) }
    {
        match self {
            Load::Carries { node, .. } => node.held,
            Load::Empty | Load::Brings { .. } | Load::Fails { .. } => unreachable!(),
        }
    }
}

impl Carried {
    /// What a completer carries that has nothing in hand.
    pub fn empty() -> Carried
        ensures { result ≡ Empty }
    {
        Carried { load: Load::Empty }
    }

    // Whether it carries anything, or its completer has broken off.
    fn is_busy(&self) -> bool
        ensures { result ≡ is_busy self.now }
    {
        match self.load {
            Load::Empty => false,
            Load::Brings { .. } | Load::Carries { .. } | Load::Fails { .. } => true,
        }
    }

    // One that carries nothing carries this from now on: an assignment would have code that drops what was there.
    fn put(&mut self, load: Load)
        requires empty { self.old ≡ Empty }
        requires alone { IsLoadAlone load }
        ensures { self.new ≡ carried_of load }
    {
        mem::forget(mem::replace(&mut self.load, load));
    }

    // It cannot go on, and keeps this.
    fn fail(&mut self, breach: Breach, held: Back) -> Step
        requires { self.old ≡ Empty }
        ensures carried { self.new ≡ Fails breach (holding_kept (holding_of held)) }
        ensures step { result ≡ Step'.Broken breach }
    {
        self.put(Load::Fails { breach, held });
        Step::Broken(breach)
    }

    // An object had no ticket for a call. It keeps what came back, and what else it carried.
    fn spend(&mut self, rest: Back, back: Unmade) -> Step
        requires { self.old ≡ Empty }
        ensures carried { self.new ≡ Fails Breach'.Spent (holding_kept (put_back (holding_of rest) back)) }
        ensures step { result ≡ Step'.Broken Breach'.Spent }
    {
        self.fail(Breach::Spent, put_back(rest, back))
    }

    // It carries from now on what is left of this closed node.
    fn carry(&mut self, writer: u32, node: ClosedNode)
        requires empty { self.old ≡ Empty }
        requires alone { IsAlonePart node.held.bio }
        ensures { self.new ≡ Carries writer (closed_node_of node) }
    {
        self.put(Load::Carries { writer, node });
    }

    // Completes one of the bios that wait in the disk (`bio_endio`, `block/bio.c`). Where none waits, it looks whether any write is unfinished.
    fn complete<O: Objects, C: Chooser>(
        &mut self,
        objects: &mut O,
        chooser: &mut C,
        disk: DevId,
    ) -> Step
        requires empty { self.old ≡ Empty }
        requires ready { HoldsTask O.Objects objects.old (Completes disk Empty) }
        ensures does { CompleterDoes O.Objects disk Empty objects.old (self.new, result) objects.new }
        ensures chosen { Chosen C.chooses (O.picks objects.old) objects.new disk chooser.old result chooser.new }
    {
        match objects.complete(disk, chooser) {
            Ok(Some((index, Done { el, status }))) => {
                self.put(Load::Brings { bio: el, status });
                let what = What::Complete {
                    disk,
                    index,
                    status,
                };
                let task = TaskId::Completer(disk);
                Step::Stepped(Event { task, what })
            }
            Ok(None) => {
                if objects.left() == 0 {
                    Step::Ended
                } else {
                    Step::Waiting
                }
            }
            Err(back) => self.spend(nothing_held(), back),
        }
    }

    // What it carries, which it does no more.
    pub(crate) fn take(&mut self) -> Load
        ensures empty { self.new ≡ Empty }
        ensures load { (carried_of result ≡ self.old) × IsLoadAlone result }
    {
        mem::replace(&mut self.load, Load::Empty)
    }

    // Tells the node of the bio that it carries of its end.
    fn bring<O: Objects>(&mut self, objects: &mut O, disk: DevId) -> Step
        requires brings { is_bringing self.old ≡ true }
        requires ready { HoldsTask O.Objects objects.old (Completes disk self.old) }
        ensures does { CompleterDoes O.Objects disk self.old objects.old (self.new, result) objects.new }
        ensures completes_none { completes result ≡ false }
    {
        match self.take() {
            Load::Brings { bio, status } => self.drop_part(objects, disk, bio, status),
            Load::Empty | Load::Carries { .. } | Load::Fails { .. } => unreachable!(),
        }
    }

    // A step of a completer that carries something, or has broken off.
    fn go_on<O: Objects>(&mut self, objects: &mut O, disk: DevId) -> Step
        requires busy { is_busy self.old ≡ true }
        requires ready { HoldsTask O.Objects objects.old (Completes disk self.old) }
        ensures does { CompleterDoes O.Objects disk self.old objects.old (self.new, result) objects.new }
        ensures completes_none { completes result ≡ false }
    {
        match self.load {
            Load::Empty => unreachable!(),
            Load::Brings { .. } => self.bring(objects, disk),
            Load::Carries { .. } => self.finish(objects, disk),
            Load::Fails { breach, .. } => Step::Broken(breach),
        }
    }

    /// A step of the completer of a disk, which carries this. With nothing it asks its disk for a bio that this is done with, of which the
    /// chooser says which, and looks whether any write is unfinished where none waits. With a bio it tells the bio's node of the end. Of a
    /// closed node it gives back what that held, an element a step, and then tells the parent, or that the write is done. The chooser is asked
    /// in the first case alone.
    #[inline(always)] // as `Task::step`
    pub fn step<O: Objects, C: Chooser>(
        &mut self,
        objects: &mut O,
        chooser: &mut C,
        disk: DevId,
    ) -> Step
        requires ready { HoldsTask O.Objects objects.old (Completes disk self.old) }
        ensures does { CompleterDoes O.Objects disk self.old objects.old (self.new, result) objects.new }
        ensures chosen { Chosen C.chooses (O.picks objects.old) objects.new disk chooser.old result chooser.new }
    {
        if !self.is_busy() {
            return self.complete(objects, chooser, disk);
        }
        self.go_on(objects, disk)
    }
}
