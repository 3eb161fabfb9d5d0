//! What workers do with tasks.
ghost use Rattle.std.specs.Prelude.{◌≡◌};
ghost use Rattle.bio_workers.specs.WorkOutcomes.{both};

use std::sync::Wait;

/// What a step came to, or a sweep of steps.
#[derive(Clone, Copy, PartialEq, Eq)]
pub enum WorkOutcome {
    /// Something happened, so that other tasks may go on now.
    Happened,
    /// Nothing happened, and some task may go on once others did.
    Nothing,
    /// No task goes on any more, whatever others do.
    Over,
}

impl WorkOutcome {
    /// What two came to together.
    pub fn and(self, other: WorkOutcome) -> WorkOutcome
        ensures { result ≡ both self other }
    {
        match (self, other) {
            (WorkOutcome::Happened, _) | (_, WorkOutcome::Happened) => WorkOutcome::Happened,
            (WorkOutcome::Nothing, _) | (_, WorkOutcome::Nothing) => WorkOutcome::Nothing,
            (WorkOutcome::Over, WorkOutcome::Over) => WorkOutcome::Over,
        }
    }
}

/// What workers step tasks at. All of them share it.
pub trait Work<T> {
    ghost use Rattle.std.specs.Prelude.{◌≡◌, ℕ};
    ghost use Rattle.bio_workers.specs.declared.work.WorkOutcome.{WorkOutcome};
    ghost use Rattle.bio_workers.specs.declared.work.WorkOutcome.TheVariants.{Over};

    /// What stays of a task, whatever steps it makes. No value of it is made.
    type Key;

    ghost key: { T → Self.Key };

    /// The number of a task of this key.
    ghost number: { Self.Key → ℕ };

    /// Whether a task of this key can be stepped here.
    ghost can: { Self → Self.Key → Type 0 };

    /// Whether a task goes on no more.
    ghost is_over: { T → Type 0 };

    /// Whether a step that made the second of the first came to this.
    ghost goes: { WorkOutcome → T → T → Type 0 };

    /// The number of a task, by which it falls to a worker.
    fn number(&self, task: &T) -> u32
        ensures { result ≡ number (key task.now) };

    /// Steps a task once, where it stands.
    fn step<R: Wait>(&self, rt: &R, task: &mut T) -> WorkOutcome
        requires { can self.now (key task.old) }
        ensures key { key task.new ≡ key task.old }
        ensures over { result ≡ Over → is_over task.new }
        ensures goes { goes result task.old task.new };
}
