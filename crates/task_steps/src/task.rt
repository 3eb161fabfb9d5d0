//! Tasks.
ghost use Rattle.std.specs.Prelude.{◌≡◌};
ghost use Rattle.task_steps.specs.ByAnswer.{TaskTells};
ghost use Rattle.task_steps.specs.TaskSteps.{TaskDoes, HoldsTask};
ghost use Rattle.task_steps.specs.TaskViews.{task_of, ChosenBy};

use crate::completer::Carried;
use crate::keeper::Keeper;
use crate::objects::{Chooser, Objects};
use crate::rescuer::Rescuer;
use crate::routes::Routes;
use crate::step::Step;
use crate::writer::Writer;
use stack_base::DevId;
use std::marker::Model;
use std::sync::Arc;

/// What a task does.
pub enum Kind {
    /// Begins writes, and submits their bios.
    Writer(Writer),
    /// Submits the bios of a device's set that were punted.
    Rescuer(Rescuer),
    /// Ends the bios of a disk.
    Completer { disk: DevId, carried: Carried },
    /// Changes reserves between rounds, and starts rounds.
    Keeper(Keeper),
}

// A drop by hand is proved here, once. A derived one every crate above would prove anew that lets a task go, with that of all that a task may have
// at hand.
impl Drop for Kind {
    fn drop(self) {
        match self {
            Kind::Writer(writer) => drop(writer),
            Kind::Rescuer(rescuer) => drop(rescuer),
            Kind::Completer { disk: _, carried } => drop(carried),
            Kind::Keeper(keeper) => drop(keeper),
        }
    }
}

/// A task of a run, with what it knows of devices, which all tasks share. It takes no memory of its own: what it has at hand are elements, and
/// what waits is linked through the bios' own boxes.
///
/// A step that waits moves nothing: an attempt at an element, a completion and a pop leave in place what the task has at hand, and put into it what
/// they were given. Tasks that wait are tried at each turn, and eight writers at one bio took half as long again when their submissions were
/// moved out and back.
pub struct Task {
    routes: Arc<Routes>,
    kind: Kind,
}

// By hand, as that of `Kind`.
impl Drop for Task {
    fn drop(self) {
        let Task { routes, kind } = self;
        drop(routes);
        drop(kind);
    }
}

impl Model for Task {
    ghost use Rattle.task_steps.specs.TaskViews.{task_of, TaskOf};

    ghost Value = { TaskOf };

    ghost view = { λ t. record { routing = t.routes.value; state = task_of t.kind } };
}

impl Task {
    /// A task of this kind, which knows of devices what these routes tell.
    pub fn new(routes: Arc<Routes>, kind: Kind) -> Task
        ensures { result ≡ record { routing = routes.value; state = task_of kind } }
    {
        Task { routes, kind }
    }

    /// What the task knows of devices.
    pub fn routes(&self) -> &Routes
        ensures { result.now ≡ self.now.routing }
    {
        &self.routes
    }

    /// Which of the four it is, with all of its state.
    pub fn kind(&self) -> &Kind
        ensures { task_of result.now ≡ self.now.state }
    {
        &self.kind
    }

    /// The next step of the task. It looks where it has to, asks one object once for what it needs next, and goes on with the reply; no memory is
    /// taken but for an ordinary element. The objects are those of the task's scenario, and all of its elements are at home in them.
    ///
    /// `Step::Stepped` tells the event that happened. With any other answer the task is as it was, but where it broke off: then it keeps what it
    /// was handed back, and answers the same from then on.
    #[inline(always)] // a task that waits then writes no answer
    pub fn step<O: Objects, C: Chooser>(&mut self, objects: &mut O, chooser: &mut C) -> Step
        requires routing { self.old.routing ≡ (O.stage objects.old).routing }
        requires ready { HoldsTask O.Objects objects.old self.old.state }
        ensures does { TaskDoes O.Objects self.old.routing self.old.state objects.old self.new.state objects.new result }
        ensures tells { TaskTells O.Objects self.old.routing self.old.state objects.old self.new.state objects.new result }
        ensures chosen { ChosenBy self.old.state C.chooses (O.picks objects.old) objects.new chooser.old result chooser.new }
        ensures same { self.new.routing ≡ self.old.routing }
    {
        match &mut self.kind {
            Kind::Writer(writer) => writer.step(objects, &self.routes),
            Kind::Rescuer(rescuer) => rescuer.step(objects, &self.routes),
            Kind::Completer { disk, carried } => carried.step(objects, chooser, *disk),
            Kind::Keeper(keeper) => keeper.step(objects),
        }
    }
}
