//! Who looks on while tasks are stepped.
ghost use Rattle.std.specs.Prelude.{◌≡◌, None};
ghost use Rattle.bio_workers.specs.Gates.{shown_by};

use shared_objects::Closed;
use std::snapshot::Snapshot;
use task_steps::TaskId;

/// Who looks on while tasks are stepped, and is shown what they leave. All workers share it.
///
/// So a run over shared objects can be told from one over plain objects that was put in its place: the report is that of the merge of the
/// histories that the gate was shown.
pub trait Gate {
    ghost use Rattle.std.specs.Prelude.{◌≡◌, Option, Some};
    ghost use Rattle.shared_objects.specs.Left.{HasClosed};
    ghost use Rattle.bio_workers.specs.Gates.{Showing, showing};

    /// What it was shown last; nothing so far is `None`.
    ghost shown: { Self → Option Showing };

    /// Called before each step of a task, by the worker that steps it. The step begins once it returns.
    fn before(&self, task: TaskId);

    /// Called behind each step of a task.
    fn after(&self, task: TaskId);

    /// Is shown what is left of shared objects, as they were closed: so each event in their histories has a ticket of its own. Who ran the workers
    /// calls it, and not `run_workers`: workers share the gate by reference, and a close is told to it alone.
    fn closed(&mut self, closed: &Closed)
        requires { HasClosed closed.now }
        ensures { shown self.new ≡ Some (showing closed.now) };
}

/// A gate that lets every step pass. It keeps what it is shown, which has no bytes.
#[derive(Drop)]
pub struct NoGate {
    seen: Option<Snapshot<Closed>>,
}

impl NoGate {
    /// A gate that was shown nothing.
    pub fn new() -> NoGate
        ensures { ⟦<NoGate as Gate>⟧.shown result ≡ None }
    {
        NoGate { seen: None }
    }
}

impl Gate for NoGate {
    ghost use Rattle.bio_workers.specs.Gates.{shown_by};

    ghost shown = { λ gate. shown_by gate.seen };

    fn before(&self, _task: TaskId) {}

    fn after(&self, _task: TaskId) {}

    fn closed(&mut self, closed: &Closed) {
        self.seen = Some(Snapshot::of(closed));
    }
}
